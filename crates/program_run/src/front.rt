//! The next delivery of a slice. Its ring may begin with lines in which nothing waits: they are looked at once, and
//! then passed over.
ghost use Rattle.std.specs.Prelude.{◌≡◌, ◌≢◌, ◌≤◌, ◌++◌, OnOk, Some, false, map};
ghost use Rattle.address_map.specs.Locator.{local_at};
ghost use Rattle.slice_core_spec.specs.Calls.{next_pick};
ghost use Rattle.slice_queues.specs.declared.channel.Class.TheVariants as classes;
ghost use Rattle.program_run.specs.Front.{HasIdleFront, IsApart, IsFront, IsLineFront, IsNextFrom, delivery_if};
ghost use Rattle.program_run.specs.Run.{delivery_of, waiting_in, waiting_of};
ghost use Rattle.slice_queues.specs.Pick.{pick_at};

use super::moves::Move;
use address_map::LineAddr;
use mshr_file::EitherFile;
use slice_core::{Class, DeliveredNext, Delivery, LineWaiting, Pick, SliceState};
use std::alloc::AllocError;

/// What a look at a line finds.
#[derive(Clone, Copy)]
pub(crate) enum Front {
    /// Nothing waits.
    Idle,
    /// The first of the line's messages.
    Waits(Pick),
    /// The slice hasn't the line.
    Unknown,
}

/// Returns the next delivery of the slice, if one can be made. Nothing waits in the first `idle` lines of its ring.
pub(crate) fn next_delivery(state: &SliceState<EitherFile>, idle: &mut usize) -> Option<Pick>
    requires { HasIdleFront idle.old state.now }
    ensures next { delivery_of (next_pick state.now classes.Any) ≡ delivery_if result }
    ensures idle { HasIdleFront idle.new state.now }
{
    match first_front(state, idle) {
        Front::Idle => None,
        Front::Waits(pick) => next_from(state, pick),
        Front::Unknown => moved(state.next(Class::Any)),
    }
}

// Returns the next delivery where the pick is of the first message: that one, if it can be made.
fn next_from(state: &SliceState<EitherFile>, pick: Pick) -> Option<Pick>
    ensures { IsNextFrom state.now pick result }
{
    match state.plan(pick) {
        Delivery::Moved(_) => Some(pick),
        _ => moved(state.next(Class::Any)),
    }
}

// Returns the pick of a delivery that can be made.
fn moved(next: DeliveredNext) -> Option<Pick>
    ensures { delivery_of next ≡ delivery_if result }
{
    match next {
        DeliveredNext::Moved(pick) => Some(pick),
        _ => None,
    }
}

/// Lists the delivery, if there is one.
pub(crate) fn push_delivery(next: Option<Pick>, moves: &mut Vec<Move>) -> Result<(), AllocError>
    ensures { OnOk result (moves.new.items ≡ moves.old.items ++ delivery_if next) }
{
    match next {
        Some(pick) => {
            moves.push(Move::Deliver(pick))?;
            Ok(())
        }
        None => Ok(()),
    }
}

/// Lists the deliveries that the slice can be asked for. Nothing waits in the first `idle` lines of its ring.
pub(crate) fn list_waiting(
    state: &SliceState<EitherFile>,
    idle: &mut usize,
    moves: &mut Vec<Move>,
) -> Result<(), AllocError>
    requires { HasIdleFront idle.old state.now }
    ensures moves { OnOk result (moves.new.items ≡ moves.old.items ++ waiting_in state.now) }
    ensures idle { HasIdleFront idle.new state.now }
{
    let _ = first_front(state, idle);
    list_behind(state, *idle, moves)
}

// .. line by line after those.
fn list_behind(
    state: &SliceState<EitherFile>,
    idle: usize,
    moves: &mut Vec<Move>,
) -> Result<(), AllocError>
    requires { HasIdleFront idle state.now }
    ensures { OnOk result (moves.new.items ≡ moves.old.items ++ waiting_in state.now) }
{
    let _ = state.log();
    let mut place = idle;
    while let Some(line) = state.ring_line(place) {
        list_line(state, line, moves)?;
        // a ring of 2^64 - 1 lines fits no memory
        if place == usize::MAX {
            return Err(AllocError);
        }
        place += 1;
    }
    Ok(())
}

// Lists the deliveries of the messages of a line, channel by channel.
fn list_line(
    state: &SliceState<EitherFile>,
    line: LineAddr,
    moves: &mut Vec<Move>,
) -> Result<(), AllocError>
    ensures { OnOk result (moves.new.items ≡ moves.old.items ++ waiting_of state.now.view line) }
{
    match state.waiting_at(line) {
        Some(waiting) => push_all(line, waiting, moves),
        None => Ok(()),
    }
}

fn push_all(
    line: LineAddr,
    waiting: LineWaiting<'_>,
    moves: &mut Vec<Move>,
) -> Result<(), AllocError>
    ensures { OnOk result (moves.new.items
        ≡ moves.old.items ++ map (λ channel. Move.Deliver (pick_at line channel)) waiting.entry) }
{
    let mut left = waiting;
    while let Some(channel) = left.next() {
        moves.push(Move::Deliver(channel.at(line)))?;
    }
    Ok(())
}

// Returns what is at the first line of the ring that isn't idle.
fn first_front(state: &SliceState<EitherFile>, idle: &mut usize) -> Front
    requires { HasIdleFront idle.old state.now }
    ensures front { IsFront state.now idle.new result }
    ensures idle { HasIdleFront idle.new state.now }
{
    let _ = state.log();
    while let Some(line) = state.ring_line(*idle) {
        match front_of(state, line) {
            Front::Waits(pick) => return Front::Waits(pick),
            Front::Unknown => return Front::Unknown,
            Front::Idle if *idle == usize::MAX => return Front::Unknown,
            Front::Idle => *idle += 1,
        }
    }
    Front::Idle
}

fn front_of(state: &SliceState<EitherFile>, line: LineAddr) -> Front
    ensures { IsLineFront state.now.view line (local_at state.now.view.lines line.0) result }
{
    let Some(mut waiting) = state.waiting_at(line) else {
        return Front::Unknown;
    };
    match waiting.next() {
        Some(channel) => Front::Waits(channel.at(line)),
        None => Front::Idle,
    }
}

/// Returns how many of the first `count` lines of the ring come before both `line` and `left`.
pub(crate) fn lines_before(
    state: &SliceState<EitherFile>,
    count: usize,
    line: LineAddr,
    left: Option<LineAddr>,
) -> usize
    ensures few { result ≤ count }
    ensures apart { IsApart state.now result line left }
{
    for place in 0..count {
        if is_one_of(state.ring_line(place), line, left) {
            return place;
        }
    }
    count
}

// Whether the line is one of these two.
fn is_one_of(here: Option<LineAddr>, line: LineAddr, left: Option<LineAddr>) -> bool
    ensures { result ≡ false → (here ≢ Some line) × (here ≢ left) }
{
    here == Some(line) || here == left
}
