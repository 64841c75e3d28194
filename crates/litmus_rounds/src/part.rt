ghost use Rattle.std.specs.Prelude.{◌↔◌, IsTrue};
ghost use Rattle.litmus_rounds.specs.PartForm.{IsWhole};

use litmus_test::{Ended, Outcomes};
use thiserror::Error;

/// The version of the format of parts.
pub const FORMAT: &[u8] = b"1";

/// The version of the program whose walks these are: another version may draw other rounds.
pub const VERSION: &[u8] = b"0.3.0";

/// The outcomes of consecutive rounds.
#[derive(Debug, Drop)]
pub struct Part {
    /// The sum of the test's text.
    pub sum: u64,
    /// The most moves of a round.
    pub most: u64,
    /// The seed of the first round.
    pub seed: u64,
    /// The number of rounds, including those after one that has no outcome.
    pub count: u64,
    /// .. of the rounds before it.
    pub outcomes: Outcomes,
    pub ended: Ended,
}

impl Part {
    /// Whether it has the outcomes of all its rounds, or of those before one that has none.
    pub fn is_whole(&self) -> bool
        ensures { IsTrue result ↔ IsWhole self.now }
    {
        let counted = self.outcomes.rounds();
        match self.ended {
            Ended::Done => counted == self.count,
            Ended::Stuck(round) | Ended::GaveUp(round) => counted == round && round < self.count,
        }
    }
}

/// Consecutive rounds that no part counts.
#[derive(Clone, Copy, Debug, PartialEq, Eq, Error)]
#[error("--seed {seed} --rounds {rounds}")]
pub struct Gap {
    pub seed: u64,
    pub rounds: u64,
}
