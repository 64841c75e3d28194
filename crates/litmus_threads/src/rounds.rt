ghost use Rattle.std.specs.Prelude.{IfOk, IfSome};
ghost use Rattle.litmus_threads.specs.Round.{IsFoundOn, IsRunOf};

use super::found::outcome_of;
use super::machine::play;
use super::plan::Plan;
use litmus_test::{LitmusTest, Outcomes, Progress};
use std::alloc::{AllocError, Global};
use std::sync::Wait;
use std::thread::Threads;

/// The result of a run of a test.
#[derive(Drop)]
pub enum Run {
    /// All rounds were played, and had these outcomes.
    Whole(Outcomes),
    /// This round was stuck, and those before it weren't. Rounds count from 0.
    Stuck(u64),
}

/// Plays all rounds of a test, each on a new machine, and reports each to `progress`. A round is stuck if a thread
/// needed more turns than `limit` or was refused a request, or if its machine isn't quiet at the end. Returns `Err` if
/// memory ran out or a thread couldn't be started.
pub fn run_test<R: Threads + Wait + Sync, P: Progress>(
    rt: &R,
    alloc: Global,
    test: &LitmusTest<'_>,
    seed: u64,
    limit: u64,
    progress: &mut P,
) -> Result<Run, AllocError>
    ensures { IfOk result (IsRunOf test.now) }
{
    let plan = Plan::new(alloc, test, seed, limit)?;
    let mut outcomes = Outcomes::new(alloc);
    for round in 0..test.rounds {
        match outcome_in(rt, test, &plan, round)? {
            Some(values) => outcomes.add(&values)?,
            None => return Ok(Run::Stuck(round)),
        }
        progress.done(round + 1, test.rounds);
    }
    Ok(Run::Whole(outcomes))
}

// Plays a round. Returns its outcome, or none if the round is stuck.
fn outcome_in<R: Threads + Wait + Sync>(
    rt: &R,
    test: &LitmusTest<'_>,
    plan: &Plan,
    round: u64,
) -> Result<Option<Vec<u64>>, AllocError>
    ensures { IfOk result (λ found. IfSome found (λ values.
        IsFoundOn test.now.config test.now.threads.items plan.now.named_requests.items values.items)) }
{
    match play(rt, test, plan, round)? {
        Some(audit) => outcome_of(plan.alloc, &plan.named_requests, &audit),
        None => Ok(None),
    }
}
