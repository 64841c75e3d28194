//! What a delivery does with the message that it takes.
ghost use Rattle.std.specs.Prelude.{◌≡◌};
ghost use Rattle.slice_core_spec.specs.Plan.{event_of_forwarded, event_of_request, is_put_ack, requester_of};

use address_map::{CoreId, CoreSet};
use cache_table::{CacheEvent, CacheSends, CopyState};
use directory_table::{DirEvent, DirState, DirStep};
use slice_answer::Delivery;
use slice_queues::{ForwardedMessage, RequestMessage};

/// What is done with a message that is moved: the row of its table, for each kind of channel.
#[derive(Clone, Copy, Debug, PartialEq, Eq)]
pub enum Transition {
    /// The directory takes a request, and does its row.
    Directory(DirStep),
    /// The directory takes the block that comes home.
    Home(HomeStep),
    /// A core takes a forwarded message, and does its row for the requester.
    Forwarded(ForwardedStep),
    /// A core takes its data.
    Fill(CopyStep),
    /// A core counts an acknowledgement.
    Acknowledge(CopyStep),
}

/// What is planned for the message in front of a channel: a delivery there does it.
pub type Plan = Delivery<Transition>;

/// The directory's entry once a block has come home.
#[derive(Clone, Copy, Debug, PartialEq, Eq)]
pub struct HomeStep {
    pub state: DirState,
    pub owner: Option<CoreId>,
    pub sharers: CoreSet,
}

/// What a core does for the requester that a forwarded message names: its copy's next state, and what it sends.
#[derive(Clone, Copy, Debug, PartialEq, Eq)]
pub struct ForwardedStep {
    pub next: CopyState,
    pub sends: CacheSends,
    pub requester: CoreId,
}

/// The next state of a core's copy, which is in this way of its set.
#[derive(Clone, Copy, Debug, PartialEq, Eq)]
pub struct CopyStep {
    pub way: usize,
    pub next: CopyState,
}

/// The event of the directory's table that a core's request is.
pub const fn event_of_request(core: CoreId, request: &RequestMessage) -> DirEvent
    ensures { result ≡ event_of_request core request.now }
{
    match request {
        RequestMessage::GetS => DirEvent::GetS(core),
        RequestMessage::GetM => DirEvent::GetM(core),
        RequestMessage::PutS => DirEvent::PutS(core),
        RequestMessage::PutM(_) => DirEvent::PutM(core),
    }
}

/// The event of the cache's table that a forwarded message is.
pub const fn event_of_forwarded(message: ForwardedMessage) -> CacheEvent
    ensures { result ≡ event_of_forwarded message }
{
    match message {
        ForwardedMessage::FwdGetS(_) => CacheEvent::FwdGetS,
        ForwardedMessage::FwdGetM(_) => CacheEvent::FwdGetM,
        ForwardedMessage::Inv(_) => CacheEvent::Inv,
        ForwardedMessage::PutAck => CacheEvent::PutAck,
    }
}

/// The core that a forwarded message names; the one that takes it, where it names none.
pub const fn requester_of(core: CoreId, message: ForwardedMessage) -> CoreId
    ensures { result ≡ requester_of core message }
{
    match message {
        ForwardedMessage::FwdGetS(requester)
        | ForwardedMessage::FwdGetM(requester)
        | ForwardedMessage::Inv(requester) => requester,
        ForwardedMessage::PutAck => core,
    }
}

pub const fn is_put_ack(message: ForwardedMessage) -> bool
    ensures { result ≡ is_put_ack message }
{
    matches!(message, ForwardedMessage::PutAck)
}
