ghost use Rattle.std.specs.Prelude.{ℕ, ◌<◌, List, IfErr, IfOk, OnOk, Some};
ghost use Rattle.std.specs.Io.KnownBytes.{Appends};
ghost use Rattle.litmus_test.specs.Table.{IsTableOf};
ghost use Rattle.litmus_rounds.specs.Run.{HaveEnded, PrintsWalks};
ghost use Rattle.mshr_file.specs.Miss.{Bound};
ghost use Rattle.mshr_file.specs.Miss.{bound_of};
ghost use Rattle.litmus_script.specs.Play.{IsOfRun};
ghost use Rattle.litmus_test.specs.Form.{text_of_gave_up, text_of_outcomes, text_of_stuck};

use super::batch::walk_batches;
use litmus_script::TextWriter;
use litmus_test::{
    Ended, LitmusTest, OutcomeForm, Outcomes, Progress, write_gave_up, write_outcomes, write_stuck,
};
use litmus_text::TextFault;
use std::alloc::Global;
use std::io::Write;
use std::thread;
use std::thread::Threads;

/// Returns the number of processors, or 1 if it isn't known.
pub fn processors<R: Threads>(rt: &R) -> usize
    ensures { 0 < result }
{
    match thread::available_parallelism(rt) {
        Ok(processors) => processors.get().max(1),
        Err(_) => 1,
    }
}

/// Walks through a litmus test `rounds` times, in `jobs` parallel jobs, and prints how often each outcome came, with
/// the seed of the first round that had it: round 0 has the given seed, and each the next. Returns the exit status,
/// which is 1 if a forbidden outcome came, or if a round is stuck or is given up after `most` moves; then only this
/// round is reported. What is printed is the same for any number of jobs.
pub fn run_walk<R: Threads + Sync, W: Write, P: Progress>(
    alloc: Global,
    rt: &R,
    jobs: usize,
    test: &LitmusTest<'_>,
    rounds: u64,
    seed: u64,
    most: u64,
    form: OutcomeForm,
    progress: &mut P,
    out: &mut W,
) -> Result<u8, TextFault>
    ensures printed { IfOk result (λ status.
        PrintsWalks test.now (bound_of test.now.misses test.now.config) form rounds seed most status
        (W.contents out.old) (W.contents out.new)) }
    ensures fault { IfErr result IsOfRun }
{
    let mut outcomes = Outcomes::new(alloc);
    let ended = walk_batches(
        alloc,
        rt,
        jobs,
        test,
        rounds,
        seed,
        most,
        progress,
        &mut outcomes,
    )?;
    print_ended(test, &outcomes, ended, seed, most, form, out)
}

/// Prints the outcomes of rounds, or which round has none. Returns the exit status.
pub(crate) fn print_ended<W: Write>(
    test: &LitmusTest<'_>,
    outcomes: &Outcomes,
    ended: Ended,
    seed: u64,
    most: u64,
    form: OutcomeForm,
    out: &mut W,
) -> Result<u8, TextFault>
    ensures printed { (bound : Bound) (count : ℕ)
        → HaveEnded test.now bound seed most count outcomes.now ended
        → IfOk result (λ status. PrintsWalks test.now bound form count seed most status
        (W.contents out.old) (W.contents out.new)) }
    ensures fault { IfErr result IsOfRun }
{
    match ended {
        Ended::Stuck(round) => {
            print_stuck(round, form, out)?;
            Ok(1)
        }
        Ended::GaveUp(round) => {
            print_gave_up(round, most, form, out)?;
            Ok(1)
        }
        Ended::Done => {
            print_outcomes(test, outcomes, seed, form, out)?;
            if outcomes.forbidden(test) == 0 {
                Ok(0)
            } else {
                Ok(1)
            }
        }
    }
}

fn print_stuck<W: Write>(round: u64, form: OutcomeForm, out: &mut W) -> Result<(), TextFault>
    ensures printed { OnOk result
        (Appends (W.contents out.old) (W.contents out.new) (text_of_stuck form round)) }
    ensures fault { IfErr result IsOfRun }
{
    let mut answers = TextWriter { out };
    match write_stuck(round, form, &mut answers) {
        Ok(()) => Ok(()),
        Err(_) => Err(TextFault::CannotWrite),
    }
}

fn print_gave_up<W: Write>(
    round: u64,
    moves: u64,
    form: OutcomeForm,
    out: &mut W,
) -> Result<(), TextFault>
    ensures printed { OnOk result
        (Appends (W.contents out.old) (W.contents out.new) (text_of_gave_up form round moves)) }
    ensures fault { IfErr result IsOfRun }
{
    let mut answers = TextWriter { out };
    match write_gave_up(round, moves, form, &mut answers) {
        Ok(()) => Ok(()),
        Err(_) => Err(TextFault::CannotWrite),
    }
}

fn print_outcomes<W: Write>(
    test: &LitmusTest<'_>,
    outcomes: &Outcomes,
    seed: u64,
    form: OutcomeForm,
    out: &mut W,
) -> Result<(), TextFault>
    ensures printed { (rounds : List (List ℕ)) → IsTableOf rounds outcomes.now → OnOk result
        (Appends (W.contents out.old) (W.contents out.new)
        (text_of_outcomes form test.now (Some seed) outcomes.now.rows rounds)) }
    ensures fault { IfErr result IsOfRun }
{
    let mut answers = TextWriter { out };
    match write_outcomes(test, outcomes, Some(seed), form, &mut answers) {
        Ok(()) => Ok(()),
        Err(_) => Err(TextFault::CannotWrite),
    }
}
