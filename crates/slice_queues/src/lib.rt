//! The messages of the protocol, and the channels of one slice that carry them, kept by line: those of a line are found
//! without a look at other lines.
//!
//! [`Message`] is what a channel carries, [`Channel`] one channel of a line, and [`Pick`] one of a line of the memory.
//! A pick's line and channel are those that it names, and a channel at a line is the pick of both (specs/Pick.antt). A
//! [`Class`] is the channels of one kind, or all of them (specs/Class.antt).
//!
//! For each core a line has a request channel with room for one message, a forwarded channel with room for two, first
//! in first out, a data channel with room for one, and from each core a channel for one acknowledgement. One more
//! channel takes a block home to the directory. An acknowledgement is one bit.
//!
//! - A line is seen as `LineChannels` of specs/Line.antt: for each core what waits, and the block on its way home.
//!   `messages_at` lists what waits in a channel, the oldest first.
//! - [`Queues::line`] gives the channels of one line to be looked at: [`LineQueues::front`] the oldest message of a
//!   channel, and the calls for one kind of channel, as [`LineQueues::front_request`], references, so that no block is
//!   copied.
//! - [`Queues::send_at`] puts a message after those of its channel, [`Queues::drop_at`] takes the oldest without a
//!   copy, and no other channel changes (`SendsOnly`, `TakesOnly`). [`Queues::invalidate`] sends an invalidation to
//!   each core of a set.
//! - [`LineQueues::waiting`] goes through the channels in which a message waits, each once and no other
//!   (`HasEachOnce`), [`LineQueues::waiting_in`] through those of one class. Data come before what is forwarded, which
//!   is often blocked until they moved. [`LineQueues::left_in`] gives the same channels as [`ChannelsLeft`], which
//!   doesn't borrow the line: a caller that takes a message stops there, any other asks for the next.
//! - [`Queues`] holds the lines of a slice, by their places in it, and a ring of lines (specs/Ring.antt). Every line
//!   with a message is in the ring, and none twice ([`Queues::ring_len`] says so, `IsRing`).
//!   Every call that changes a line adds it to the ring (`with_lent`), so this always holds.
//!   [`Queues::rotate`] sends the front lines with messages to the back, and the others out of the ring.
//! - The calls of [`Queues`] that take a pick say of the slice what those of a line say of a line (specs/Slice.antt). A
//!   pick names a line of the whole memory. [`Queues::picks_of`] goes through the lines from the first to the last,
//!   [`Queues::picks_from`] round and round from a start line (specs/Waiting.antt), and both give each pick with a
//!   message once and no other (`HasEachPickOnce`).
//!
//! Only [`Queues::build`] and [`Queues::try_clone`] allocate, and only they can fail: 184 bytes for each core of a line, and 129
//! for the line, 9 of them for the ring. What is for a line's cores is touched once something is sent to the line
//! (specs/Runs.antt), so the largest slice, 65536 lines of 64 cores, begins with 8 MB of the 780 that it may come to. A
//! send or a take costs the same whatever the number of lines and cores, but for the first change of a line, and so
//! does [`LineQueues::is_empty`]: each line has a flag for that (specs/Count.antt). Four sets say for which cores
//! messages wait, so [`LineQueues::waiting`] looks at no core but those for which acknowledgements wait.
//! [`Queues::is_empty`] looks at no line, since those with a message are counted. [`Queues::picks_of`] and
//! [`Queues::picks_from`] look at each line.
#![tactic(auto)]

pub use channel::{Channel, Class, Pick};
pub use line_queues::LineQueues;
pub use message::{DataMessage, ForwardedMessage, Message, RequestMessage};
pub use picks::Picks;
pub use queues::Queues;
pub use waiting::{ChannelsLeft, LineWaiting};

mod channel;
mod core_queues;
mod forwarded_queue;
mod line_by_channel;
mod line_queues;
mod lines;
mod mail;
mod message;
mod picks;
mod queues;
mod ring;
mod waiting;
