ghost use Rattle.std.specs.Prelude.{◌-◌, ◌^◌, IfErr, IfOk, Option, unwrap_or};
ghost use Rattle.litmus.specs.Tests.{IsTestNotRun, IsOfTest};
ghost use Rattle.litmus_rounds.specs.Run.{PrintsWalks};
ghost use Rattle.litmus_threads.specs.Run.{IsEndOf};
ghost use Rattle.litmus_threads.specs.Trace.{IsTraceEnd};
ghost use Rattle.litmus_walk.specs.Script.{PrintsWalk};
ghost use Rattle.mshr_file.specs.Miss.{bound_of};
ghost use Rattle.std.specs.Io.KnownBytes.{Appends};
ghost use Rattle.litmus_test.specs.declared.outcomes.form.OutcomeForm.TheVariants as outcome_forms;

use litmus_test::{LitmusTest, OutcomeForm, Progress, Silent};
use litmus_text::TextFault;
use litmus_threads::{play_test, trace_test};
use std::alloc::Global;
use std::io::Write;
use std::sync::Wait;
use std::thread::Threads;

/// Runs a litmus test over threads, and prints a table of its outcomes, or which round was stuck. Returns the exit
/// status.
pub fn run_litmus<R: Threads + Wait + Sync, W: Write>(
    alloc: Global,
    rt: &R,
    input: &[u8],
    seed: u64,
    limit: u64,
    out: &mut W,
) -> Result<u8, TextFault>
    ensures done { IfOk result (λ status. IsOfTest input.now (λ test. IsEndOf test outcome_forms.Table
        (λ text. Appends (W.contents out.old) (W.contents out.new) text) status)) }
    ensures fault { IfErr result (IsTestNotRun input.now) }
{
    let form = OutcomeForm::Table;
    run_litmus_as(alloc, rt, input, seed, limit, form, &mut Silent, out)
}

/// Runs a litmus test over threads, and prints its outcomes in this form, or which round was stuck. Returns the exit
/// status.
pub fn run_litmus_as<R: Threads + Wait + Sync, W: Write, P: Progress>(
    alloc: Global,
    rt: &R,
    input: &[u8],
    seed: u64,
    limit: u64,
    form: OutcomeForm,
    progress: &mut P,
    out: &mut W,
) -> Result<u8, TextFault>
    ensures done { IfOk result (λ status. IsOfTest input.now
        (λ test. IsEndOf test form (λ text. Appends (W.contents out.old) (W.contents out.new) text) status)) }
    ensures fault { IfErr result (IsTestNotRun input.now) }
{
    let test = LitmusTest::read(alloc, input)?;
    let ended = play_test(alloc, rt, &test, seed, limit, form, progress, out);
    // In one call: else it would be dropped part by part, each with a proof of its own.
    drop(test);
    ended
}

/// Plays the round of this number of a litmus test over threads, and writes the log of each slice as a trace, with what
/// the audit found; or that the round was stuck. Returns the exit status, which is 1 if it was.
pub fn trace_litmus<R: Threads + Wait + Sync, W: Write>(
    alloc: Global,
    rt: &R,
    input: &[u8],
    seed: u64,
    limit: u64,
    round: u64,
    out: &mut W,
) -> Result<u8, TextFault>
    ensures done { IfOk result (λ status. IsOfTest input.now (λ test. IsTraceEnd test round
        (λ text. Appends (W.contents out.old) (W.contents out.new) text) status)) }
    ensures fault { IfErr result (IsTestNotRun input.now) }
{
    let test = LitmusTest::read(alloc, input)?;
    let ended = trace_test(alloc, rt, &test, seed, limit, round, out);
    drop(test);
    ended
}

/// Runs a litmus test on random schedules, the given number of rounds or the test's own, and prints their outcomes with
/// the seed of the first round that had each outcome, or which round was stuck, or was given up after `limit` moves.
/// The default limit is 2^64 - 1. Rounds are walked in parallel jobs, whose number doesn't change what is printed.
/// Returns the exit status.
pub fn run_walk<R: Threads + Sync, W: Write, P: Progress>(
    alloc: Global,
    rt: &R,
    jobs: usize,
    input: &[u8],
    rounds: Option<u64>,
    seed: u64,
    limit: Option<u64>,
    form: OutcomeForm,
    progress: &mut P,
    out: &mut W,
) -> Result<u8, TextFault>
    ensures done { IfOk result (λ status. IsOfTest input.now (λ test.
        PrintsWalks test (bound_of test.misses test.config) form (unwrap_or rounds test.rounds) seed
        (unwrap_or limit (2 ^ 64 - 1)) status (W.contents out.old) (W.contents out.new))) }
    ensures fault { IfErr result (IsTestNotRun input.now) }
{
    let test = LitmusTest::read(alloc, input)?;
    let rounds = rounds.unwrap_or(test.rounds);
    let most = limit.unwrap_or(u64::MAX);
    let ended = litmus_rounds::run_walk(
        alloc, rt, jobs, &test, rounds, seed, most, form, progress, out,
    );
    drop(test);
    ended
}

/// Prints the round of this seed as a script, up to `limit` moves, if a limit is given. Returns the exit status, which
/// is 1 if the round is stuck or was given up.
pub fn write_walk<W: Write>(
    alloc: Global,
    input: &[u8],
    seed: u64,
    limit: Option<u64>,
    out: &mut W,
) -> Result<u8, TextFault>
    ensures done { IfOk result (λ status. IsOfTest input.now (λ test.
        PrintsWalk test (bound_of test.misses test.config) seed (unwrap_or limit (2 ^ 64 - 1)) status
        (W.contents out.old) (W.contents out.new))) }
    ensures fault { IfErr result (IsTestNotRun input.now) }
{
    let test = LitmusTest::read(alloc, input)?;
    let most = limit.unwrap_or(u64::MAX);
    let ended = litmus_walk::write_walk(alloc, &test, seed, most, out);
    drop(test);
    ended
}
