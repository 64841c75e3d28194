ghost use Rattle.std.specs.Prelude.{IfErr, IfOk, OnOk};
ghost use Rattle.std.specs.Fmt.{WritesInCalls};
ghost use Rattle.std.specs.Io.KnownBytes.{Appends};
ghost use Rattle.litmus_script.specs.Play.{IsOfRun};
ghost use Rattle.litmus_threads.specs.Run.{HasStatus, IsEndOf, IsTold};

use super::rounds::{Run, run_test};
use litmus_script::TextWriter;
use litmus_test::{LitmusTest, OutcomeForm, Progress, write_outcomes, write_stuck};
use litmus_text::TextFault;
use std::alloc::Global;
use std::fmt;
use std::io::Write;
use std::sync::Wait;
use std::thread::Threads;

/// Runs a test, and writes its outcomes in this form, or which round was stuck. Returns the exit status: 1 if a
/// forbidden outcome occurred, or a round was stuck.
pub fn play_test<R: Threads + Wait + Sync, W: Write, P: Progress>(
    alloc: Global,
    rt: &R,
    test: &LitmusTest<'_>,
    seed: u64,
    limit: u64,
    form: OutcomeForm,
    progress: &mut P,
    out: &mut W,
) -> Result<u8, TextFault>
    ensures told { IfOk result (IsEndOf test.now form (λ text. Appends (W.contents out.old) (W.contents out.new) text)) }
    ensures fault { IfErr result IsOfRun }
{
    let run = run_test(rt, alloc, test, seed, limit, progress)?;
    tell(test, &run, form, out)
}

// Writes the result of the run. Returns the exit status.
fn tell<W: Write>(
    test: &LitmusTest<'_>,
    run: &Run,
    form: OutcomeForm,
    out: &mut W,
) -> Result<u8, TextFault>
    ensures told { OnOk result (IsTold test.now form (λ text. Appends (W.contents out.old) (W.contents out.new) text)
        run.now) }
    ensures status { IfOk result (HasStatus test.now run.now) }
    ensures fault { IfErr result IsOfRun }
{
    let mut answers = TextWriter { out };
    match write_run(test, run, form, &mut answers) {
        Ok(()) => Ok(status_of(test, run)),
        Err(_) => Err(TextFault::CannotWrite),
    }
}

fn write_run<W: fmt::Write>(
    test: &LitmusTest<'_>,
    run: &Run,
    form: OutcomeForm,
    out: &mut W,
) -> fmt::Result
    ensures { OnOk result (IsTold test.now form (λ text. WritesInCalls W.write_str_gives out.old text out.new) run.now) }
{
    match run {
        Run::Whole(outcomes) => write_outcomes(test, outcomes, None, form, out),
        Run::Stuck(round) => write_stuck(*round, form, out),
    }
}

fn status_of(test: &LitmusTest<'_>, run: &Run) -> u8
    ensures { HasStatus test.now run.now result }
{
    match run {
        Run::Whole(outcomes) if outcomes.forbidden(test) == 0 => 0,
        Run::Whole(_) | Run::Stuck(_) => 1,
    }
}
