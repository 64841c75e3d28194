//! Coverage of walks: each round is printed as a script, and the cells that its steps met are counted.
ghost use Rattle.std.specs.Prelude.{◌≡◌, ◌⊎◌, ◌-◌, ◌^◌, ℕ, List, Option, IfErr, IfOk, unwrap_or};
ghost use Rattle.litmus.specs.Coverage.{AreCountsOf, AreCountsOfRounds, HasCounts, HasNoCounts, IsNotCounted, IsRoundNotCounted, status_with};
ghost use Rattle.litmus.specs.Tests.{IsOfTest, IsTestNotRun};
ghost use Rattle.mshr_file.specs.Miss.{bound_of};
ghost use Rattle.litmus_script.specs.Play.{IsOfRun};
ghost use Rattle.litmus_walk.specs.Script.{PrintsWalk};

use litmus_test::{LitmusTest, Progress};
use litmus_text::TextFault;
use script_coverage::{Coverage, coverage_of, print_coverage};
use std::alloc::Global;
use std::io::Write;

/// Walks through a litmus test, the given number of rounds or the test's own, and prints how often their steps met each
/// cell of the tables. Each round goes as far as it can, or up to `limit` moves, if a limit is given. Returns the exit
/// status, which is 1 if one of them is stuck or was given up.
pub fn coverage_walk<W: Write, P: Progress>(
    alloc: Global,
    input: &[u8],
    rounds: Option<u64>,
    seed: u64,
    limit: Option<u64>,
    progress: &mut P,
    out: &mut W,
) -> Result<u8, TextFault>
    ensures done { IfOk result (λ status. IsOfTest input.now (λ test. (counts : List (Option ℕ))
        × AreCountsOfRounds test (bound_of test.misses test.config) seed (unwrap_or limit (2 ^ 64 - 1))
        (unwrap_or rounds test.rounds) status counts)) }
    ensures fault { IfErr result (λ fault. IsTestNotRun input.now fault
        ⊎ IsOfTest input.now (λ test. IsRoundNotCounted test (bound_of test.misses test.config) seed
        (unwrap_or limit (2 ^ 64 - 1)) (unwrap_or rounds test.rounds) fault)) }
{
    let test = LitmusTest::read(alloc, input)?;
    let rounds = rounds.unwrap_or(test.rounds);
    let most = limit.unwrap_or(u64::MAX);
    let ended = cover_walks(alloc, &test, rounds, seed, most, progress, out);
    drop(test);
    ended
}

/// .. of a test that is read.
fn cover_walks<W: Write, P: Progress>(
    alloc: Global,
    test: &LitmusTest<'_>,
    rounds: u64,
    seed: u64,
    most: u64,
    progress: &mut P,
    out: &mut W,
) -> Result<u8, TextFault>
    ensures done { IfOk result (λ status. (counts : List (Option ℕ)) × AreCountsOfRounds test.now
        (bound_of test.now.misses test.now.config) seed most rounds status counts) }
    ensures fault { IfErr result (λ fault. IsOfRun fault ⊎ IsRoundNotCounted test.now
        (bound_of test.now.misses test.now.config) seed most rounds fault) }
{
    let (coverage, status) = count_rounds(alloc, test, rounds, seed, most, progress)?;
    match print_coverage(&coverage, out) {
        Ok(()) => Ok(status),
        Err(fault) => Err(fault),
    }
}

/// Returns the counts of all rounds, and their status.
fn count_rounds<P: Progress>(
    alloc: Global,
    test: &LitmusTest<'_>,
    rounds: u64,
    seed: u64,
    most: u64,
    progress: &mut P,
) -> Result<(Coverage, u8), TextFault>
    ensures counted { IfOk result (λ all. AreCountsOfRounds test.now
        (bound_of test.now.misses test.now.config) seed most rounds all.1 all.0) }
    ensures fault { IfErr result (λ fault. IsOfRun fault ⊎ IsRoundNotCounted test.now
        (bound_of test.now.misses test.now.config) seed most rounds fault) }
{
    let mut coverage = Coverage::new(alloc, None)?;
    let mut status = 0;
    for round in 0..rounds {
        let (more, ended) = count_round(alloc, test, seed.wrapping_add(round), most)?;
        match coverage.add_all(&more) {
            Ok(()) => {}
            // no run makes that many steps
            Err(_) => return Err(TextFault::NoMemory),
        }
        status = status_with(status, ended);
        progress.done(round + 1, rounds);
    }
    Ok((coverage, status))
}

/// Returns the status of rounds after one more ended with this one.
const fn status_with(before: u8, ended: u8) -> u8
    ensures { result ≡ status_with before ended }
{
    if ended == 0 { before } else { ended }
}

/// Returns the counts of the round of this seed, and its status.
fn count_round(
    alloc: Global,
    test: &LitmusTest<'_>,
    seed: u64,
    most: u64,
) -> Result<(Coverage, u8), TextFault>
    ensures counted { IfOk result (λ one. AreCountsOf (PrintsWalk test.now
        (bound_of test.now.misses test.now.config) seed most one.1) one.0) }
    ensures fault { IfErr result (λ fault. IsOfRun fault ⊎ ((status : ℕ) × IsNotCounted (PrintsWalk test.now
        (bound_of test.now.misses test.now.config) seed most status) fault)) }
{
    let mut script = Vec::new(alloc);
    match litmus_walk::write_walk(alloc, test, seed, most, &mut script) {
        Ok(status) => Ok((counts_of(alloc, script.as_slice())?, status)),
        // writing to memory fails only if it runs out
        Err(TextFault::CannotWrite) => Err(TextFault::NoMemory),
        Err(fault) => Err(fault),
    }
}

/// Prints the counts of a script that was printed with this status, and returns that.
pub(super) fn cover_script<W: Write>(
    alloc: Global,
    script: &[u8],
    status: u8,
    out: &mut W,
) -> Result<u8, TextFault>
    ensures counted { IfOk result (λ s. (s ≡ status) × (counts : List (Option ℕ)) × HasCounts script.now counts) }
    ensures fault { IfErr result (HasNoCounts script.now) }
{
    let coverage = counts_of(alloc, script)?;
    match print_coverage(&coverage, out) {
        Ok(()) => Ok(status),
        Err(fault) => Err(fault),
    }
}

fn counts_of(alloc: Global, script: &[u8]) -> Result<Coverage, TextFault>
    ensures counted { IfOk result (HasCounts script.now) }
    ensures fault { IfErr result (HasNoCounts script.now) }
{
    coverage_of(alloc, script)
}
