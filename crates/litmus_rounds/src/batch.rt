//! Rounds in parallel: each job walks a stretch of consecutive rounds, and the stretches are joined in their order.
ghost use Rattle.std.specs.Prelude.{◌≡◌, ℕ, ◌+◌, ◌*◌, ◌<◌, ◌≤◌, ◌^◌, [], IfOk, length};
ghost use Rattle.litmus_test.specs.Ended.{round_of};
ghost use Rattle.litmus_test.specs.Table.{IsTableOf};
ghost use Rattle.litmus_rounds.specs.Outcome.{all_named_requests};
ghost use Rattle.litmus_rounds.specs.Run.{AreRounds, AreStretches, HaveEnded, IsStretch, rounds_of, seed_of};
ghost use Rattle.mshr_file.specs.Miss.{bound_of};
ghost use Rattle.litmus_test.specs.declared.test.LitmusTest.{LitmusTest};
ghost use Rattle.litmus_walk.specs.Drawn.{lines_of};
ghost use Rattle.mshr_file.specs.Miss.{Bound};

use super::stretch::{Stretch, walk_stretch};
use address_map::LineAddr;
use litmus_test::{Ended, LitmusTest, NamedRequest, Outcomes, Progress};
use litmus_walk::named_lines;
use std::alloc::{AllocError, Global};
use std::thread;
use std::thread::Threads;

/// The number of rounds that each job walks at first: few, so that a short walk soon reports progress.
const FIRST_SHARE: u64 = 16;

/// The most that it walks before it is joined: starting a thread takes as long as some rounds.
const MOST_SHARE: u64 = 4096;

/// The rounds that are walked in parallel.
#[derive(Clone, Copy)]
struct Batch {
    jobs: usize,
    /// How many rounds each job walks.
    share: u64,
}

impl Batch {
    fn rounds(self) -> u64
        requires { rounds_of self < 2 ^ 64 }
        ensures { result ≡ rounds_of self }
    {
        self.jobs as u64 * self.share
    }
}

/// Adds the outcomes of `rounds` rounds, up to one that has none, in `jobs` jobs.
pub(crate) fn walk_batches<R: Threads + Sync, P: Progress>(
    alloc: Global,
    rt: &R,
    jobs: usize,
    test: &LitmusTest<'_>,
    rounds: u64,
    seed: u64,
    most: u64,
    progress: &mut P,
    outcomes: &mut Outcomes,
) -> Result<Ended, AllocError>
    requires { IsTableOf [] outcomes.old }
    ensures { IfOk result (HaveEnded test.now (bound_of test.now.misses test.now.config) seed most rounds outcomes.new) }
{
    let lines = named_lines(alloc, test)?;
    let named_requests = NamedRequest::all(alloc, test)?;
    walk_on(
        alloc,
        rt,
        jobs.max(1),
        test,
        lines.as_slice(),
        named_requests.as_slice(),
        rounds,
        seed,
        most,
        progress,
        outcomes,
    )
}

fn walk_on<R: Threads + Sync, P: Progress>(
    alloc: Global,
    rt: &R,
    jobs: usize,
    test: &LitmusTest<'_>,
    lines: &[LineAddr],
    named_requests: &[Option<NamedRequest>],
    rounds: u64,
    seed: u64,
    most: u64,
    progress: &mut P,
    outcomes: &mut Outcomes,
) -> Result<Ended, AllocError>
    requires jobs { 0 < jobs }
    requires lines { lines.now ≡ lines_of test.now }
    requires named_requests { named_requests.now ≡ all_named_requests test.now }
    requires none { IsTableOf [] outcomes.old }
    ensures { IfOk result (HaveEnded test.now (bound_of test.now.misses test.now.config) seed most rounds outcomes.new) }
{
    let mut done = 0;
    let mut share = FIRST_SHARE;
    while done < rounds {
        let batch = batch_of(rounds - done, jobs, share);
        let ended = walk_batch(
            alloc,
            rt,
            batch,
            test,
            lines,
            named_requests,
            done,
            seed,
            most,
            outcomes,
        )?;
        if !ended.is_done() {
            return Ok(ended);
        }
        tell(progress, done, batch, rounds);
        done += batch.rounds();
        share = share.saturating_mul(2).min(MOST_SHARE);
    }
    Ok(Ended::Done)
}

// Returns the next batch of the remaining rounds: the same number for each job, and no more than its share.
fn batch_of(left: u64, jobs: usize, share: u64) -> Batch
    requires left { 0 < left }
    requires jobs { 0 < jobs }
    requires share { 0 < share }
    ensures some { 0 < rounds_of result }
    ensures within { rounds_of result ≤ left }
{
    let each = left / jobs as u64;
    if each == 0 {
        Batch {
            jobs: left as usize,
            share: 1,
        }
    } else {
        Batch {
            jobs,
            share: each.min(share),
        }
    }
}

// Reports the rounds of a batch.
fn tell<P: Progress>(progress: &mut P, done: u64, batch: Batch, rounds: u64)
    requires { done + rounds_of batch ≤ rounds }
{
    for round in done..done + batch.rounds() {
        progress.done(round + 1, rounds);
    }
}

// Adds the outcomes of a batch after those of the rounds that are done, up to a round that has none.
fn walk_batch<R: Threads + Sync>(
    alloc: Global,
    rt: &R,
    batch: Batch,
    test: &LitmusTest<'_>,
    lines: &[LineAddr],
    named_requests: &[Option<NamedRequest>],
    done: u64,
    seed: u64,
    most: u64,
    outcomes: &mut Outcomes,
) -> Result<Ended, AllocError>
    requires lines { lines.now ≡ lines_of test.now }
    requires named_requests { named_requests.now ≡ all_named_requests test.now }
    requires done { AreRounds test.now (bound_of test.now.misses test.now.config) seed most done outcomes.old }
    requires fits { done + rounds_of batch < 2 ^ 64 }
    ensures { IfOk result (HaveEnded test.now (bound_of test.now.misses test.now.config) seed most (done + rounds_of batch)
        outcomes.new) }
{
    let from = seed.wrapping_add(done);
    let stretches = walk_stretches(alloc, rt, batch, test, lines, named_requests, from, most)?;
    for place in 0..batch.jobs {
        let behind = done + place as u64 * batch.share;
        let ended = add_stretch(behind, &stretches[place], outcomes)?;
        if !ended.is_done() {
            return Ok(ended);
        }
    }
    Ok(Ended::Done)
}

// Walks the stretches of a batch, each in a job. The first begins with this seed.
fn walk_stretches<R: Threads + Sync>(
    alloc: Global,
    rt: &R,
    batch: Batch,
    test: &LitmusTest<'_>,
    lines: &[LineAddr],
    named_requests: &[Option<NamedRequest>],
    seed: u64,
    most: u64,
) -> Result<Vec<Result<Stretch, AllocError>>, AllocError>
    requires lines { lines.now ≡ lines_of test.now }
    requires named_requests { named_requests.now ≡ all_named_requests test.now }
    requires fits { rounds_of batch < 2 ^ 64 }
    ensures len { IfOk result (λ made. length made.items ≡ batch.jobs) }
    ensures each { IfOk result (λ made.
        AreStretches test.now (bound_of test.now.misses test.now.config) seed most batch made.items) }
{
    thread::map_indices(
        rt,
        alloc,
        batch.jobs,
        &|place: usize| -> Result<Stretch, AllocError>
            requires lines { lines.now ≡ lines_of test.now }
            requires named_requests { named_requests.now ≡ all_named_requests test.now }
            requires fits { place * batch.share < 2 ^ 64 }
            ensures { IfOk result (IsStretch test.entry.now (bound_of test.entry.now.misses test.entry.now.config)
                (seed_of seed (place * batch.share)) most batch.share) }
        { walk_place(alloc, batch, test, lines, named_requests, seed, most, place) },
    )
}

// Walks the stretch of this place.
fn walk_place(
    alloc: Global,
    batch: Batch,
    test: &LitmusTest<'_>,
    lines: &[LineAddr],
    named_requests: &[Option<NamedRequest>],
    seed: u64,
    most: u64,
    place: usize,
) -> Result<Stretch, AllocError>
    requires lines { lines.now ≡ lines_of test.now }
    requires named_requests { named_requests.now ≡ all_named_requests test.now }
    requires fits { place * batch.share < 2 ^ 64 }
    ensures { IfOk result (IsStretch test.now (bound_of test.now.misses test.now.config)
        (seed_of seed (place * batch.share)) most batch.share) }
{
    let from = seed.wrapping_add(place as u64 * batch.share);
    walk_stretch(alloc, test, lines, named_requests, from, batch.share, most)
}

// Adds the outcomes of a stretch after those of the rounds that are done.
fn add_stretch(
    done: u64,
    stretch: &Result<Stretch, AllocError>,
    outcomes: &mut Outcomes,
) -> Result<Ended, AllocError>
    requires counted { outcomes.old.rounds ≡ done }
    requires rounds { IfOk stretch.now (λ stretch. done + stretch.outcomes.rounds < 2 ^ 64) }
    requires round { IfOk stretch.now (λ stretch. done + round_of stretch.ended < 2 ^ 64) }
    ensures { (test : LitmusTest) (bound : Bound) (seed most count : ℕ)
        → AreRounds test bound seed most done outcomes.old
        → IfOk stretch.now (IsStretch test bound (seed_of seed done) most count)
        → IfOk result (HaveEnded test bound seed most (done + count) outcomes.new) }
{
    match stretch {
        Ok(stretch) => {
            outcomes.append(done, &stretch.outcomes)?;
            Ok(stretch.ended.behind(done))
        }
        Err(error) => Err(*error),
    }
}
