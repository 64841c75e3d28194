//! A walk in parts: it is printed in parts, and parts that were joined are printed as one walk.
ghost use Rattle.std.specs.Prelude.{◌≡◌, ◌-◌, ◌^◌, [], All, IfErr, IfOk, OnOk, unwrap_or};
ghost use Rattle.litmus.specs.Tests.{IsOfTest, IsTestNotRun};
ghost use Rattle.litmus_rounds.specs.Parts.{IsPartOf, PrintsParts};
ghost use Rattle.litmus_rounds.specs.Run.{HaveEnded, PrintsWalks};
ghost use Rattle.litmus_rounds.specs.Sum.{sum_of};
ghost use Rattle.mshr_file.specs.Miss.{Bound, bound_of};

use litmus_rounds::{Merged, Part, first_other, sum_of};
use litmus_test::{LitmusTest, OutcomeForm, Progress};
use litmus_text::TextFault;
use std::alloc::Global;
use std::io::Write;
use std::thread::Threads;

/// Runs a litmus test on random schedules, as [`run_walk`] does, and prints the rounds in parts, each as
/// soon as its rounds are over. Parts that are already known are printed and not walked. Returns the exit
/// status, which is 0 whatever the outcomes of the rounds; or 2, if the known parts aren't the first of
/// these rounds, and nothing is printed.
///
/// [`run_walk`]: super::run_walk
pub fn print_parts<R: Threads + Sync, W: Write, P: Progress>(
    alloc: Global,
    rt: &R,
    jobs: usize,
    input: &[u8],
    known: &[Part],
    rounds: Option<u64>,
    seed: u64,
    limit: Option<u64>,
    progress: &mut P,
    out: &mut W,
) -> Result<u8, TextFault>
    ensures status { IfOk result (λ status. known.now ≡ [] → status ≡ 0) }
    ensures done { IfOk result (λ status. status ≡ 0 → IsOfTest input.now (λ test.
        All (IsPartOf test (bound_of test.misses test.config)) known.now
        → PrintsParts test (bound_of test.misses test.config) (sum_of input.now)
        (unwrap_or rounds test.rounds) seed (unwrap_or limit (2 ^ 64 - 1))
        (W.contents out.old) (W.contents out.new))) }
    ensures fault { IfErr result (IsTestNotRun input.now) }
{
    let test = LitmusTest::read(alloc, input)?;
    let rounds = rounds.unwrap_or(test.rounds);
    let most = limit.unwrap_or(u64::MAX);
    let sum = sum_of(input);
    if first_other(known, sum, rounds, seed, most).is_some() {
        drop(test);
        return Ok(2);
    }
    let ended = litmus_rounds::print_parts(
        alloc, rt, jobs, &test, known, sum, rounds, seed, most, progress, out,
    );
    drop(test);
    match ended {
        Ok(()) => Ok(0),
        Err(fault) => Err(fault),
    }
}

/// Prints parts that were joined, as one walk of all their rounds prints them. Returns its exit status.
pub fn print_merged<W: Write>(
    alloc: Global,
    input: &[u8],
    merged: &Merged,
    form: OutcomeForm,
    out: &mut W,
) -> Result<u8, TextFault>
    ensures done { IfOk result (λ status. IsOfTest input.now (λ test. (bound : Bound)
        → HaveEnded test bound merged.now.seed merged.now.most merged.now.count merged.now.outcomes merged.now.ended
        → PrintsWalks test bound form merged.now.count merged.now.seed merged.now.most status
        (W.contents out.old) (W.contents out.new))) }
    ensures fault { IfErr result (IsTestNotRun input.now) }
{
    let test = LitmusTest::read(alloc, input)?;
    let ended = litmus_rounds::print_merged(&test, merged, form, out);
    drop(test);
    ended
}
