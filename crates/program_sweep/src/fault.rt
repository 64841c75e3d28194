ghost use Rattle.std.specs.Prelude.{◌≡◌};

use litmus_text::TextFault;
use std::alloc::{AllocError, AllocFailed};
use thiserror::Error;

/// Why there is no sweep as it was asked for.
#[derive(Clone, Copy, Debug, PartialEq, Eq, Error)]
pub enum SweepFault<'a> {
    #[error("--set {0}: not NAME=VALUE,VALUE..")]
    NoValue(&'a str),
    #[error("--set {0}: there is no such setting")]
    Unknown(&'a str),
    /// Lines of this name add up: none replaces another.
    #[error("--set {0}: its lines add up, so none replaces another")]
    AddsUp(&'a str),
    #[error("--set {name}: '{value}' is none of its values")]
    BadValue { name: &'a str, value: &'a str },
    #[error("--set {name}: '{value}' is given twice")]
    SameValue { name: &'a str, value: &'a str },
    #[error("--set {0}: given twice")]
    Twice(&'a str),
    #[error("--seeds {0}: not FIRST..LAST")]
    BadSeeds(&'a str),
    #[error("--seeds {0}: runs backwards")]
    Backwards(&'a str),
    #[error("more than 1000000 rows")]
    TooManyRows,
    #[error("no memory")]
    NoMemory,
}

/// Why a run has no row.
#[derive(Clone, Copy, Debug, PartialEq, Eq, Error)]
pub enum Refusal {
    #[error("{0}")]
    Text(TextFault),
    #[error("stuck")]
    Stuck,
}

/// Why rows end early.
#[derive(Clone, Copy, Debug, PartialEq, Eq)]
pub enum RowFault {
    /// The run of the row with this number has none.
    Row { row: u64, refusal: Refusal },
    CannotWrite,
    NoMemory,
}

impl SweepFault<'_> {
    /// Returns the exit status of a program that stops at this fault.
    pub const fn status(&self) -> u8 {
        match self {
            SweepFault::NoMemory => 3,
            _ => 2,
        }
    }
}

impl Refusal {
    /// Returns the exit status of a program that stops at this refusal.
    pub const fn status(&self) -> u8 {
        match self {
            Refusal::Text(fault) => fault.status(),
            Refusal::Stuck => 1,
        }
    }
}

impl<'a> From<AllocError> for SweepFault<'a> {
    ghost use Rattle.program_sweep.specs.declared.fault.SweepFault.TheVariants.{NoMemory};

    ghost from_gives = { λ _ fault. fault ≡ NoMemory };

    fn from(_error: AllocError) -> SweepFault<'a> {
        SweepFault::NoMemory
    }
}

impl<'a, T: Drop> From<AllocFailed<T>> for SweepFault<'a> {
    ghost use Rattle.program_sweep.specs.declared.fault.SweepFault.TheVariants.{NoMemory};

    ghost from_gives = { λ _ fault. fault ≡ NoMemory };

    fn from(_error: AllocFailed<T>) -> SweepFault<'a> {
        SweepFault::NoMemory
    }
}

impl From<AllocError> for Refusal {
    ghost use Rattle.program_sweep.specs.declared.fault.Refusal.TheVariants.{Text};
    ghost use Rattle.litmus_text.specs.declared.fault.TextFault.TheVariants.{NoMemory};

    ghost from_gives = { λ _ refusal. refusal ≡ Text NoMemory };

    fn from(_error: AllocError) -> Refusal {
        Refusal::Text(TextFault::NoMemory)
    }
}

impl From<AllocError> for RowFault {
    ghost use Rattle.program_sweep.specs.declared.fault.RowFault.TheVariants.{NoMemory};

    ghost from_gives = { λ _ fault. fault ≡ NoMemory };

    fn from(_error: AllocError) -> RowFault {
        RowFault::NoMemory
    }
}
