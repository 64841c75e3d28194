use super::look::Look;
use address_map::{CoreId, LineAddr, Request, SliceId};
use slice_queues::Pick;

/// What one line of a script asks of the machine.
#[derive(Clone, Copy, Debug, PartialEq, Eq)]
pub enum Command {
    /// The core asks for a word.
    Issue { core: CoreId, request: Request },
    /// The core evicts a line.
    Evict { core: CoreId, line: LineAddr },
    /// The message at the front of a channel is delivered.
    Deliver(Pick),
    /// The core takes its next performed reply.
    Hand { core: CoreId, slice: SliceId },
    /// Something is shown.
    Look(Look),
    /// Delivers messages, with at most this many calls.
    Pump(u64),
}
