ghost use Rattle.std.specs.Prelude.{ℕ};
ghost use Rattle.address_map.specs.declared.config.Config.{Config};

use std::marker::{Brand, PhantomData};
use std::sync::ledger::Ledger;

/// Which slice a share, a book or a lock is of. It exists in proofs alone: the caller that builds a slice picks it.
pub trait SliceNames {
    /// The configuration, its counters and initial values included.
    ghost setup: { Config };

    /// The slice's number.
    ghost number: { ℕ };

    /// The names of the slice's ten ledgers.
    ghost names: { ℕ → ℕ };
}

impl SliceNames for Brand {
    ghost use Rattle.address_map.specs.Config.{default_config};

    ghost setup = { default_config };

    ghost number = { 0 };

    ghost names = { λ place. 0 };
}

/// A ledger of a slice, by its place among the ten: 0 for the requests accepted, 1 for those handed out, and from 2 on
/// the counters. It has one part for each core.
pub struct Led<N, const K: usize>(PhantomData<N>);

impl<N: SliceNames, const K: usize> Ledger for Led<N, K> {
    ghost name = { N.names K };

    ghost parts = { N.setup.cores };
}
