use super::address::WordAddr;

/// What a core asks of one word.
#[derive(Clone, Copy, Debug, PartialEq, Eq)]
pub enum Op {
    /// Reads the word.
    Load,
    /// Writes this value. The reply is 0.
    Store(u64),
    /// Adds this number modulo 2^64 (fetch-and-add). The reply is the value before.
    Add(u64),
    /// Writes `new` where the word's value is `expect` (compare-exchange). The reply is the value before.
    Cas { expect: u64, new: u64 },
}

/// One access of a core to one word. The core names the access by its tag until the reply is handed out.
#[derive(Clone, Copy, Debug, PartialEq, Eq)]
pub struct Request {
    pub op: Op,
    pub word: WordAddr,
    pub tag: u8,
}
