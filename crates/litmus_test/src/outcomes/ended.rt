ghost use Rattle.std.specs.Prelude.{◌≡◌, ◌↔◌, ◌+◌, ◌^◌, ◌<◌, IsTrue};
ghost use Rattle.litmus_test.specs.Ended.{ended_behind, round_of};

/// How rounds end.
#[derive(Clone, Copy, Debug, PartialEq, Eq)]
pub enum Ended {
    /// Each has an outcome.
    Done,
    /// The round of this number is stuck.
    Stuck(u64),
    /// .. or has made the maximum number of moves, and could go on.
    GaveUp(u64),
}

impl Ended {
    /// Whether each has an outcome.
    pub const fn is_done(self) -> bool
        ensures { IsTrue result ↔ (self ≡ Ended.Done) }
    {
        matches!(self, Ended::Done)
    }

    /// Returns the number of the round that has no outcome, or 0.
    pub const fn round(self) -> u64
        ensures { result ≡ round_of self }
    {
        match self {
            Ended::Done => 0,
            Ended::Stuck(round) | Ended::GaveUp(round) => round,
        }
    }

    /// Returns the same for rounds that follow `rounds` others.
    pub const fn behind(self, rounds: u64) -> Ended
        requires { rounds + round_of self < 2 ^ 64 }
        ensures { result ≡ ended_behind rounds self }
    {
        match self {
            Ended::Done => Ended::Done,
            Ended::Stuck(round) => Ended::Stuck(rounds + round),
            Ended::GaveUp(round) => Ended::GaveUp(rounds + round),
        }
    }
}
