ghost use Rattle.std.specs.Prelude.{◌≡◌, ℕ};
ghost use Rattle.address_map.specs.declared.config.Config.{Config};

use receipt_ledger::SliceNames;
use std::marker::{Brand, PhantomData};

/// Which machine a system, a set of ports or a core is of, and of which slice each of its parts. It exists in proofs
/// alone: the caller that builds a system picks it.
pub trait SystemNames {
    /// The configuration, its counters and initial values included.
    ghost setup: { Config };

    /// The names of each slice. A machine of one or two slices has names for the others, which no slice bears.
    type S0: SliceNames;

    type S1: SliceNames;

    type S2: SliceNames;

    type S3: SliceNames;

    /// The slices have the numbers 0 to 3.
    ghost numbers: { (Self.S0.number ≡ 0) × (Self.S1.number ≡ 1) × (Self.S2.number ≡ 2) × (Self.S3.number ≡ 3) };

    /// They are slices of this machine.
    ghost setups: { (Self.S0.setup ≡ setup) × (Self.S1.setup ≡ setup) × (Self.S2.setup ≡ setup)
        × (Self.S3.setup ≡ setup) };
}

/// What the caller that builds a system picks: the configuration, and the name of each ledger of each slice.
pub trait SystemKeys {
    ghost setup: { Config };

    ghost names: { ℕ → ℕ → ℕ };
}

impl SystemKeys for Brand {
    ghost use Rattle.address_map.specs.Config.{default_config};

    ghost setup = { default_config };

    ghost names = { λ slice place. 0 };
}

/// The names of the slice with this number.
pub struct Nth<M, const S: usize>(PhantomData<M>);

impl<M: SystemKeys, const S: usize> SliceNames for Nth<M, S> {
    ghost setup = { M.setup };

    ghost number = { S };

    ghost names = { M.names S };
}

/// The names of all four slices.
pub struct All<M>(PhantomData<M>);

impl<M: SystemKeys> SystemNames for All<M> {
    ghost use Rattle.std.specs.Prelude.{refl};

    type S0 = Nth<M, 0>;

    type S1 = Nth<M, 1>;

    type S2 = Nth<M, 2>;

    type S3 = Nth<M, 3>;

    ghost setup = { M.setup };

    ghost numbers = { (refl, refl, refl, refl) };

    ghost setups = { (refl, refl, refl, refl) };
}
