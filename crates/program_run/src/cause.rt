use address_map::{CoreId, LineAddr, WordAddr};

/// Why an access missed.
#[derive(Clone, Copy)]
pub enum Cause {
    /// The core never had the line before.
    Cold,
    /// The core evicted the line.
    Replaced,
    /// The core has the line, and may not write it.
    Upgrade,
    /// The core lost the line to another's write, and since then another core wrote the word.
    TrueSharing,
    /// The core lost the line to another's write, and no other core wrote the word since.
    FalseSharing,
}

/// What happens to a core's copies and to words.
#[derive(Clone, Copy)]
pub enum Event {
    /// The core has the line from now on.
    Took(CoreId, LineAddr),
    /// The core evicts the line to make room.
    GaveUp(CoreId, LineAddr),
    /// The core loses the line to another core that writes it.
    Lost(CoreId, LineAddr),
    /// The core writes the word.
    Wrote(CoreId, WordAddr),
}

/// What last became of a core's copy of a line.
#[derive(Clone, Copy)]
pub enum Fate {
    Never,
    Held,
    Replaced,
    Lost,
}
