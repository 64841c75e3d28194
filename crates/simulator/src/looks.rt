//! What a slice has of a core's misses and of its channels, one by one.
ghost use Rattle.std.specs.Prelude.{◌≡◌, ◌<◌, [], IfNone, IfOk, IfSome, length, slice_get};
ghost use Rattle.simulator.specs.Looks.{IsCountOf, flight_at, message_at, register_at, register_for, waiting_at};

use address_map::{CoreId, LineAddr};
use mshr_file::EitherFile;
use slice_core::{CacheCopy, CoreLines, LineWaiting, Message, Pick, SliceState};
use slice_queues::Channel;
use std::alloc::{AllocError, Global};

/// A miss register of a core: one line that is waited for.
#[derive(Clone, Copy, Debug, PartialEq, Eq)]
pub struct MissRegister {
    pub line: LineAddr,
    /// The copy that waits: what it was asked for, and its acknowledgements.
    pub copy: CacheCopy,
    /// How many accesses wait.
    pub targets: usize,
}

/// Returns the core's miss register at a place of their order.
pub(crate) fn register_at(
    alloc: Global,
    state: &SliceState<EitherFile>,
    core: CoreId,
    nth: usize,
) -> Result<Option<MissRegister>, AllocError>
    requires { core.0 < length state.now.view.caches }
    ensures { IfOk result (λ register. register ≡ register_at state.now.view core nth) }
{
    let lines = state.core_lines(alloc, core, CoreLines::Waiting)?;
    match lines.get(nth) {
        Some(line) => Ok(register_for(state, core, *line)),
        None => Ok(None),
    }
}

/// Returns the core's miss register for a line that it waits for.
fn register_for(
    state: &SliceState<EitherFile>,
    core: CoreId,
    line: LineAddr,
) -> Option<MissRegister>
    requires { core.0 < length state.now.view.caches }
    ensures { result ≡ register_for state.now.view core line }
{
    let copy = state.copy(core, line)?;
    let targets = state.targets(core, line).len();
    Some(MissRegister {
        line,
        copy,
        targets,
    })
}

/// Returns how many channels of a line have a message.
pub(crate) fn count_waiting(state: &SliceState<EitherFile>, line: LineAddr) -> u64
    ensures { IsCountOf result (waiting_at state.now.view line) }
{
    match waiting_at(state, line) {
        Some(mut left) => count_left(&mut left),
        None => 0,
    }
}

/// Returns the message in front of one of a line's channels, at a place of their order, and its channel.
pub(crate) fn message_at(
    state: &SliceState<EitherFile>,
    line: LineAddr,
    nth: u64,
) -> Option<(Pick, Message)>
    ensures { result ≡ message_at state.now.view line nth }
{
    let mut left = waiting_at(state, line)?;
    let channel = nth_left(&mut left, nth)?;
    flight_at(state, channel.at(line))
}

fn flight_at(state: &SliceState<EitherFile>, pick: Pick) -> Option<(Pick, Message)>
    ensures { result ≡ flight_at state.now.view pick }
{
    let message = state.front(pick)?;
    Some((pick, message))
}

/// Returns the channels of a line that have a message; none for a line that isn't the slice's.
fn waiting_at(state: &SliceState<EitherFile>, line: LineAddr) -> Option<LineWaiting<'_>>
    ensures none { IfNone result (waiting_at state.now.view line ≡ []) }
    ensures some { IfSome result (λ left. left ≡ waiting_at state.now.view line) }
{
    state.waiting_at(line)
}

/// Returns how many channels are left.
fn count_left(left: &mut LineWaiting<'_>) -> u64
    ensures { IsCountOf result left.old }
{
    for count in 0..u64::MAX {
        if left.next().is_none() {
            return count;
        }
    }
    u64::MAX
}

/// Returns the channel after `nth` others that are left.
fn nth_left(left: &mut LineWaiting<'_>, nth: u64) -> Option<Channel>
    ensures { result ≡ slice_get left.old nth }
{
    for _ in 0..nth {
        left.next()?;
    }
    left.next()
}
