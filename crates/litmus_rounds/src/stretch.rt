//! Consecutive rounds, one after another, and their table.
ghost use Rattle.std.specs.Prelude.{◌≡◌, ℕ, ◌+◌, ◌<◌, ◌^◌, List, [], ◌∷◌, ◌++◌, IfOk, IsTrue, false};
ghost use Rattle.litmus_test.specs.Table.{IsTableOf};
ghost use Rattle.litmus_rounds.specs.Outcome.{IsOutcome, all_named_requests};
ghost use Rattle.litmus_rounds.specs.Run.{HaveEnded, IsStretch};
ghost use Rattle.mshr_file.specs.Miss.{bound_of};
ghost use Rattle.litmus_walk.specs.Drawn.{lines_of};

use super::outcome::read_outcome;
use address_map::LineAddr;
use litmus_test::{Ended, LitmusTest, NamedRequest, Outcomes};
use litmus_walk::{End, Walked, walk};
use std::alloc::{AllocError, Global};

/// The outcomes of consecutive rounds, up to one that has none.
#[derive(Drop)]
pub(crate) struct Stretch {
    pub outcomes: Outcomes,
    pub ended: Ended,
}

/// Walks `count` rounds. The first has this seed.
pub(crate) fn walk_stretch(
    alloc: Global,
    test: &LitmusTest<'_>,
    lines: &[LineAddr],
    named_requests: &[Option<NamedRequest>],
    seed: u64,
    count: u64,
    most: u64,
) -> Result<Stretch, AllocError>
    requires lines { lines.now ≡ lines_of test.now }
    requires named_requests { named_requests.now ≡ all_named_requests test.now }
    ensures { IfOk result (IsStretch test.now (bound_of test.now.misses test.now.config) seed most count) }
{
    let mut outcomes = Outcomes::new(alloc);
    let ended = walk_rounds(
        alloc,
        test,
        lines,
        named_requests,
        seed,
        count,
        most,
        &mut outcomes,
    )?;
    Ok(Stretch { outcomes, ended })
}

// Adds the outcomes of `count` rounds, up to one that has none.
fn walk_rounds(
    alloc: Global,
    test: &LitmusTest<'_>,
    lines: &[LineAddr],
    named_requests: &[Option<NamedRequest>],
    seed: u64,
    count: u64,
    most: u64,
    outcomes: &mut Outcomes,
) -> Result<Ended, AllocError>
    requires lines { lines.now ≡ lines_of test.now }
    requires named_requests { named_requests.now ≡ all_named_requests test.now }
    requires none { IsTableOf [] outcomes.old }
    ensures { IfOk result (HaveEnded test.now (bound_of test.now.misses test.now.config) seed most count outcomes.new) }
{
    let mut values = Vec::new(alloc);
    for round in 0..count {
        let walked: Walked = walk(alloc, test, lines, seed.wrapping_add(round), most)?;
        match walked.end {
            End::Over => {}
            End::Stuck => return Ok(Ended::Stuck(round)),
            End::GaveUp => return Ok(Ended::GaveUp(round)),
        }
        let added = add_outcome(test, named_requests, &walked, &mut values, outcomes)?;
        if !added {
            return Ok(Ended::Stuck(round));
        }
    }
    Ok(Ended::Done)
}

// Adds a walk's outcome, if it has one.
fn add_outcome(
    test: &LitmusTest<'_>,
    named_requests: &[Option<NamedRequest>],
    walked: &Walked,
    values: &mut Vec<u64>,
    outcomes: &mut Outcomes,
) -> Result<bool, AllocError>
    requires fits { outcomes.old.rounds + 1 < 2 ^ 64 }
    requires named_requests { named_requests.now ≡ all_named_requests test.now }
    requires config { walked.now.recorded.config ≡ test.now.config }
    ensures added { IfOk result (λ added. IsTrue added → (outcome : List ℕ)
        × IsOutcome test.now walked.now.recorded.slices outcome
        × ((rounds : List (List ℕ)) → IsTableOf rounds outcomes.old
        → IsTableOf (rounds ++ outcome ∷ []) outcomes.new)) }
    ensures none { IfOk result (λ added. added ≡ false → (values : List ℕ)
        → ¬ IsOutcome test.now walked.now.recorded.slices values) }
    ensures kept { IfOk result (λ added. added ≡ false → outcomes.new ≡ outcomes.old) }
{
    if !read_outcome(test, named_requests, &walked.recorded, values)? {
        return Ok(false);
    }
    outcomes.add(values)?;
    Ok(true)
}
