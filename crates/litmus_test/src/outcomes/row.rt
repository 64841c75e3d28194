ghost use Rattle.std.specs.Prelude.{◌≡◌, ◌+◌, ◌<◌, ◌^◌};
ghost use Rattle.litmus_test.specs.Table.{RowView};

use std::marker::Model;

/// An outcome that occurred.
#[derive(Debug, Drop)]
pub struct Row {
    values: Vec<u64>,
    rounds: u64,
    first: u64,
}

impl Model for Row {
    ghost Value = { RowView };

    ghost view = { λ row. record { values = row.values.items; rounds = row.rounds; first = row.first } };
}

impl Row {
    /// Creates the row of an outcome of `rounds` rounds, with `first` the first of them.
    pub(crate) fn new(values: Vec<u64>, rounds: u64, first: u64) -> Self
        ensures { result ≡ record { values = values.items; rounds = rounds; first = first } }
    {
        Row {
            values,
            rounds,
            first,
        }
    }

    /// Returns the values of the names, and then those of the counters.
    pub fn values(&self) -> &[u64]
        ensures { result.now ≡ self.now.values }
    {
        &self.values
    }

    /// Returns the number of rounds that had it.
    pub fn rounds(&self) -> u64
        ensures { result ≡ self.now.rounds }
    {
        self.rounds
    }

    /// Returns the first round that had it, from 0.
    pub fn first(&self) -> u64
        ensures { result ≡ self.now.first }
    {
        self.first
    }

    /// Counts `rounds` more rounds.
    pub(crate) fn come_again(&mut self, rounds: u64)
        requires { self.old.rounds + rounds < 2 ^ 64 }
        ensures { self.new ≡ record self.old { rounds = self.old.rounds + rounds } }
    {
        self.rounds += rounds;
    }
}
