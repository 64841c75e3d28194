use address_map::{CoreId, Op, WordAddr};

/// One performed access.
#[derive(Clone, Copy, Debug, PartialEq, Eq)]
pub struct Entry {
    pub op: Op,
    pub word: WordAddr,
    /// How many requests the core had made of this slice before this one.
    pub seq: u64,
    pub reply: u64,
    /// How long the log was when the request was accepted.
    pub since: u64,
    pub core: CoreId,
    pub tag: u8,
}

/// An entry with its place in the log, from 0.
#[derive(Clone, Copy, Debug, PartialEq, Eq)]
pub struct Numbered {
    pub number: u64,
    pub entry: Entry,
}
