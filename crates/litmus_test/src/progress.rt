/// Receives the progress of a run of many rounds.
pub trait Progress {
    /// `rounds` of `all` rounds are done.
    fn done(&mut self, rounds: u64, all: u64);
}

/// Reports nothing.
#[derive(Clone, Copy, Debug, PartialEq, Eq)]
pub struct Silent;

impl Progress for Silent {
    fn done(&mut self, _rounds: u64, _all: u64) {}
}
