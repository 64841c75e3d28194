ghost use Rattle.std.specs.Prelude.{◌≡◌, [], All, IfNone, IfOk, IfSome, OnOk, Some};
ghost use Rattle.mshr_file.specs.Miss.{bound_of};
ghost use Rattle.rand_xoshiro.specs.Xoshiro256.{plus_plus};
ghost use Rattle.slice_core_spec.specs.View.{IsQuiet};
ghost use Rattle.litmus_walk.specs.Done.{AreDone, GoesOn, steps_of};
ghost use Rattle.litmus_walk.specs.Drawn.{Draws, IsDrawn, IsEnd, drawn_move};
ghost use Rattle.litmus_walk.specs.Moves.{state_of};
ghost use Rattle.litmus_walk.specs.Script.{status_of};
ghost use Rattle.litmus_walk.specs.Walk.{IsWalkOf, Walks};
ghost use Rattle.litmus_walk.specs.declared.round.End.TheVariants as ends;

use super::moves::Move;
use super::recorded::Recorded;
use super::walker::Walker;
use address_map::LineAddr;
use litmus_test::LitmusTest;
use rand_core::SeedableRng;
use rand_core::utils::NextWord;
use rand_xoshiro::Xoshiro256PlusPlus;
use std::alloc::{AllocError, Global};

/// How a walk ends.
#[derive(Clone, Copy, Debug, PartialEq, Eq)]
pub enum End {
    /// All threads are done, nothing is in flight and each reply was delivered to its core.
    Over,
    /// It isn't over, and no move may come next.
    Stuck,
    /// It isn't over and some move may come next, but it has made the maximum number of moves.
    GaveUp,
}

impl End {
    /// Returns the exit status of a program whose walk ends so.
    pub(crate) const fn status(self) -> u8
        ensures { result ≡ status_of self }
    {
        match self {
            End::Over => 0,
            End::Stuck | End::GaveUp => 1,
        }
    }
}

/// A walk that has ended.
#[derive(Drop)]
pub struct Walked {
    pub recorded: Recorded,
    pub end: End,
}

/// Walks through the test, by at most `most` moves that the seed draws. All messages are for these lines.
pub fn walk(
    alloc: Global,
    test: &LitmusTest<'_>,
    lines: &[LineAddr],
    seed: u64,
    most: u64,
) -> Result<Walked, AllocError>
    ensures walk { IfOk result (λ walked. IsWalkOf test.now (bound_of test.now.misses test.now.config) walked.recorded) }
    ensures over { IfOk result (λ walked. walked.end ≡ ends.Over
        → All (λ state. IsQuiet state.view) walked.recorded.slices) }
    ensures done { IfOk result (λ walked. walked.end ≡ ends.Over
        → AreDone test.now.threads.items walked.recorded.calls) }
    ensures drawn { IfOk result (λ walked. IsDrawn test.now (bound_of test.now.misses test.now.config) lines.now seed most
        walked.end walked.recorded) }
{
    let config = test.config.try_clone(alloc)?;
    let recorded = Recorded::new(alloc, config, test.misses)?;
    let mut walker = Walker::new(alloc, test, recorded)?;
    walk_on(alloc, test, lines, seed, most, &mut walker)?;
    let end = end_of(alloc, test, lines, &walker)?;
    let Walker { recorded, .. } = walker;
    Ok(Walked { recorded, end })
}

// Returns how a walk that goes no further ends.
fn end_of(
    alloc: Global,
    test: &LitmusTest<'_>,
    lines: &[LineAddr],
    walker: &Walker,
) -> Result<End, AllocError>
    ensures { IfOk result (λ end. IsEnd test.now.threads.items lines.now end
        (state_of walker.now.recorded walker.now.places.items walker.now.replies.items)) }
{
    if walker.is_over(test) {
        return Ok(End::Over);
    }
    let mut moves = Vec::new(alloc);
    walker.list_moves(test, lines, &mut moves)?;
    if moves.is_empty() {
        Ok(End::Stuck)
    } else {
        Ok(End::GaveUp)
    }
}

// Makes moves until none may come next, or `most` of them.
fn walk_on(
    alloc: Global,
    test: &LitmusTest<'_>,
    lines: &[LineAddr],
    seed: u64,
    most: u64,
    walker: &mut Walker,
) -> Result<(), AllocError>
    requires { walker.old.recorded.config ≡ test.now.config }
    ensures walks { OnOk result (Walks test.now.threads.items walker.old.recorded walker.new.recorded) }
    ensures done { OnOk result (GoesOn test.now.threads.items (steps_of walker.old.places.items)
        walker.old.recorded.calls
        (steps_of walker.new.places.items) walker.new.recorded.calls) }
    ensures draws { OnOk result (Draws test.now.threads.items lines.now seed most
        (state_of walker.old.recorded walker.old.places.items walker.old.replies.items)
        (state_of walker.new.recorded walker.new.places.items walker.new.replies.items)) }
{
    let mut generator = Xoshiro256PlusPlus::seed_from_u64(seed);
    let mut moves = Vec::new(alloc);
    for made in 0..most {
        walker.list_moves(test, lines, &mut moves)?;
        let Some(to) = draw(&mut generator, moves.as_slice()) else {
            return Ok(());
        };
        walker.go(test, to)?;
    }
    Ok(())
}

// Draws one of the moves by the generator's next word, each with equal probability.
fn draw(generator: &mut Xoshiro256PlusPlus, moves: &[Move]) -> Option<Move>
    ensures some { IfSome result (λ to. drawn_move (plus_plus generator.old).0 moves.now ≡ Some to) }
    ensures next { IfSome result (λ to. generator.new ≡ (plus_plus generator.old).1) }
    ensures none { IfNone result (moves.now ≡ []) }
{
    if moves.is_empty() {
        return None;
    }
    let place = (generator.next_word() % moves.len() as u64) as usize;
    Some(moves[place])
}
