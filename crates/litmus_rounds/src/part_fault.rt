ghost use Rattle.std.specs.Prelude.{◌≡◌};

use std::alloc::{AllocError, AllocFailed};
use thiserror::Error;

/// Why parts can't be read or joined. A file is named by the number under which its text was read.
#[derive(Clone, Copy, Debug, PartialEq, Eq, Error)]
pub enum PartFault {
    #[error("line {line}: not a line of a part")]
    NotAPart {
        file: usize,
        line: u64,
    },
    #[error("line {line}: a part in another format")]
    OtherFormat {
        file: usize,
        line: u64,
    },
    #[error("line {line}: a part of another version of lockup")]
    OtherVersion {
        file: usize,
        line: u64,
    },
    #[error("line {line}: a part of another litmus text")]
    OtherTest {
        file: usize,
        line: u64,
    },
    /// A part isn't written as this program writes it.
    #[error("a part was changed")]
    Changed {
        file: usize,
    },
    #[error("seed {seed}: walked with another limit than seed {first} in")]
    OtherLimit {
        file: usize,
        other: usize,
        seed: u64,
        first: u64,
    },
    /// A round is counted twice.
    #[error("seed {seed} is also counted in")]
    Twice {
        file: usize,
        other: usize,
        seed: u64,
    },
    #[error("there is no part")]
    NoPart,
    #[error("no memory")]
    NoMemory,
}

impl PartFault {
    /// Returns the file that it is in.
    pub const fn file(&self) -> Option<usize> {
        match self {
            PartFault::NotAPart { file, .. }
            | PartFault::OtherFormat { file, .. }
            | PartFault::OtherVersion { file, .. }
            | PartFault::OtherTest { file, .. }
            | PartFault::Changed { file }
            | PartFault::OtherLimit { file, .. }
            | PartFault::Twice { file, .. } => Some(*file),
            PartFault::NoPart | PartFault::NoMemory => None,
        }
    }

    /// Returns the other file that it names: its name follows the reason.
    pub const fn other(&self) -> Option<usize> {
        match self {
            PartFault::OtherLimit { other, .. } | PartFault::Twice { other, .. } => Some(*other),
            _ => None,
        }
    }

    /// Returns the exit status of a program that stops at this fault.
    pub const fn status(&self) -> u8 {
        match self {
            PartFault::NoMemory => 3,
            _ => 2,
        }
    }
}

impl From<AllocError> for PartFault {
    ghost use Rattle.litmus_rounds.specs.declared.part_fault.PartFault.TheVariants.{NoMemory};

    ghost from_gives = { λ _ fault. fault ≡ NoMemory };

    fn from(_error: AllocError) -> PartFault {
        PartFault::NoMemory
    }
}

impl<T: Drop> From<AllocFailed<T>> for PartFault {
    ghost use Rattle.litmus_rounds.specs.declared.part_fault.PartFault.TheVariants.{NoMemory};

    ghost from_gives = { λ _ fault. fault ≡ NoMemory };

    fn from(_error: AllocFailed<T>) -> PartFault {
        PartFault::NoMemory
    }
}
