ghost use Rattle.std.specs.Prelude.{◌≡◌};

use super::counters::CounterBlanks;
use std::marker::Model;
use std::sync::ledger::Blank;

/// The ten ledgers of a slice before any type represents them, all with the same number of parts.
#[derive(Drop)]
pub struct Blanks {
    pub(crate) accepted: Blank,
    pub(crate) handed: Blank,
    pub(crate) counters: CounterBlanks,
}

impl Model for Blanks {
    ghost use Rattle.std.specs.Prelude.{◌≡◌, ◌∷◌};
    ghost use Rattle.receipt_ledger.specs.Names.{Unopened};

    ghost Value = { Unopened };

    ghost view = { λ b. record {
      names = b.accepted.name ∷ b.handed.name ∷ b.counters.names;
      parts = b.accepted.parts;
    } };

    ghost invariant = { λ b. (b.handed.parts ≡ b.accepted.parts) × (b.counters.parts ≡ b.accepted.parts) };
}

impl Blanks {
    /// Creates ledgers of `parts` parts. A slice needs one for each core.
    pub fn new(parts: u64) -> Blanks
        ensures { result.parts ≡ parts }
    {
        Blanks {
            accepted: Blank::new(parts),
            handed: Blank::new(parts),
            counters: CounterBlanks::new(parts),
        }
    }
}
