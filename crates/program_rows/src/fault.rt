ghost use Rattle.std.specs.Prelude.{◌≡◌};

use std::alloc::{AllocError, AllocFailed};
use thiserror::Error;

/// Why rows can't be put together. A file is named by the number under which its text was read; lines and columns count
/// from 1.
#[derive(Clone, Copy, Debug, PartialEq, Eq, Error)]
pub enum RowsFault {
    /// The text is empty.
    #[error("no rows")]
    NoRows {
        file: usize,
    },
    #[error("no column 'seed'")]
    NoSeed {
        file: usize,
    },
    #[error("other columns than")]
    OtherColumns {
        file: usize,
        other: usize,
    },
    /// It has too few fields or too many, or quotes that don't enclose one.
    #[error("line {line}: not a row")]
    NotARow {
        file: usize,
        line: u64,
    },
    /// A seed or a count is no number below 2^64.
    #[error("line {line}: column {column} is no number")]
    NoNumber {
        file: usize,
        line: u64,
        column: u64,
    },
    /// The text ends within a line.
    #[error("line {line}: cut off")]
    CutOff {
        file: usize,
        line: u64,
    },
    #[error("seed {seed} of the same settings has other figures in")]
    OtherFigures {
        file: usize,
        other: usize,
        seed: u64,
    },
    /// The squares of a column's numbers don't fit 128 bits.
    #[error("the numbers of column {column} are too far apart for an interval")]
    TooFarApart {
        column: u64,
    },
    #[error("cannot write")]
    CannotWrite,
    #[error("no memory")]
    NoMemory,
}

impl RowsFault {
    /// Returns the file that it is in.
    pub const fn file(&self) -> Option<usize> {
        match self {
            RowsFault::NoRows { file }
            | RowsFault::NoSeed { file }
            | RowsFault::OtherColumns { file, .. }
            | RowsFault::NotARow { file, .. }
            | RowsFault::NoNumber { file, .. }
            | RowsFault::CutOff { file, .. }
            | RowsFault::OtherFigures { file, .. } => Some(*file),
            RowsFault::TooFarApart { .. } | RowsFault::CannotWrite | RowsFault::NoMemory => None,
        }
    }

    /// Returns the other file that it is about: its name follows the reason.
    pub const fn other(&self) -> Option<usize> {
        match self {
            RowsFault::OtherColumns { other, .. } | RowsFault::OtherFigures { other, .. } => {
                Some(*other)
            }
            _ => None,
        }
    }

    /// Returns the exit status of a program that stops at this fault.
    pub const fn status(&self) -> u8 {
        match self {
            RowsFault::NoMemory => 3,
            _ => 2,
        }
    }
}

impl From<AllocError> for RowsFault {
    ghost use Rattle.program_rows.specs.declared.fault.RowsFault.TheVariants.{NoMemory};

    ghost from_gives = { λ _ fault. fault ≡ NoMemory };

    fn from(_error: AllocError) -> RowsFault {
        RowsFault::NoMemory
    }
}

impl<T: Drop> From<AllocFailed<T>> for RowsFault {
    ghost use Rattle.program_rows.specs.declared.fault.RowsFault.TheVariants.{NoMemory};

    ghost from_gives = { λ _ fault. fault ≡ NoMemory };

    fn from(_error: AllocFailed<T>) -> RowsFault {
        RowsFault::NoMemory
    }
}
