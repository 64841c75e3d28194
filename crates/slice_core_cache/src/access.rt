use cache_table::CopyState;
use slice_answer::Stall;

/// What a miss asks the directory for.
#[derive(Clone, Copy, Debug, PartialEq, Eq)]
pub enum Ask {
    /// A copy to read.
    GetS,
    /// The only copy, to write.
    GetM,
}

/// Where the copy of a missed line is placed.
#[derive(Clone, Copy, Debug, PartialEq, Eq)]
pub enum Placement {
    /// Where it is already: it may be read, and is to be written.
    Held,
    /// In a free way of its set.
    Free,
    /// In the way of a victim, which is evicted in the same step.
    Victim,
}

/// What is to be done with an access to a line of the slice, before memory is allocated.
#[derive(Clone, Copy, Debug, PartialEq, Eq)]
pub enum AccessKind {
    /// A secondary miss: the line is waited for already, and the access joins its miss register.
    SecondaryMiss,
    /// A hit: the copy in this way of its set allows it, and goes to the next state; silently where it was exclusive
    /// and is written.
    Hit {
        way: usize,
        next: CopyState,
        silent: bool,
    },
    /// A primary miss: a miss register is opened, the directory is asked, and the copy goes to the next state.
    PrimaryMiss {
        next: CopyState,
        ask: Ask,
        placement: Placement,
    },
    /// It has to be asked again later, for this reason.
    Stall(Stall),
}
