//! Why a printed table can't be read.

use std::alloc::AllocError;
use thiserror::Error;

/// What is wrong with a cell, a line or a column.
#[derive(Clone, Copy, Debug, PartialEq, Eq, Error)]
pub enum CellFault {
    #[error("a line before any heading")]
    NoHeading,
    #[error("there is no such line in the table")]
    UnknownLine,
    #[error("there is no such column in the table")]
    UnknownColumn,
    #[error("what is sent or done isn't known")]
    UnknownEffect,
    #[error("the next state isn't known")]
    UnknownNextState,
    #[error("the access never comes to the table here")]
    NotOfTable,
    #[error("no core asks here, so r may neither share nor own the line")]
    NoAsker,
    #[error("the same cell stands above with another text")]
    Twice,
}

/// Why a printed table can't be read.
#[derive(Clone, Copy, Debug, PartialEq, Eq, Error)]
pub enum TableFault {
    #[error("no line is a heading of the table")]
    NoTable,
    /// Lines are counted from 1, and a line's cells too; its first is the name of the line.
    #[error("line {line}, cell {cell}: {why}")]
    At {
        line: usize,
        cell: usize,
        why: CellFault,
    },
    #[error("no memory")]
    NoMemory,
}

impl From<AllocError> for TableFault {
    ghost use Rattle.std.specs.Prelude.{◌≡◌};
    ghost use Rattle.changed_tables.specs.declared.fault.TableFault.TheVariants.{NoMemory};

    ghost from_gives = { λ _ fault. fault ≡ NoMemory };

    fn from(_: AllocError) -> Self {
        TableFault::NoMemory
    }
}
