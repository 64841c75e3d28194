use address_map::{CoreId, LineAddr, Request};
use slice_answer::{Delivered, DeliveredNext, Evicted, Issue, Refused};
use slice_log::Numbered;
use slice_queues::{Class, Pick};

/// A call of a slice, with its arguments.
#[derive(Clone, Copy, Debug, PartialEq, Eq)]
pub enum Call {
    Issue { core: CoreId, request: Request },
    Evict { core: CoreId, line: LineAddr },
    Deliver(Pick),
    DeliverNext(Class),
    Hand(CoreId),
}

/// What a call returned. It is of the call's variant.
#[derive(Clone, Copy, Debug, PartialEq, Eq)]
pub enum CallAnswer {
    Issue(Result<Issue, Refused>),
    Evict(Evicted),
    Deliver(Delivered),
    DeliverNext(DeliveredNext),
    Hand(Option<Numbered>),
}
