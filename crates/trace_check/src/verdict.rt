use thiserror::Error;

/// Why an entry can't be in a log. The reasons are tried in this order.
#[derive(Clone, Copy, Debug, PartialEq, Eq, Error)]
pub enum Reason {
    /// The reply isn't the one that the value of its word gives.
    #[error("reply")]
    Reply,
    /// An earlier entry of its core on its line wasn't requested earlier.
    #[error("order")]
    Order,
    /// It was performed before it was requested.
    #[error("since")]
    Since,
}

/// The verdict on a trace.
#[derive(Clone, Copy, Debug, PartialEq, Eq)]
pub enum Verdict {
    /// A log of this many entries that is legal and ordered.
    Legal(usize),
    /// The first invalid entry, counted from 0, and the first reason.
    Illegal(usize, Reason),
}
