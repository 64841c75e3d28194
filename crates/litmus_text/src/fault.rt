ghost use Rattle.std.specs.Prelude.{◌≡◌};

use address_map::ConfigError;
use std::alloc::{AllocError, AllocFailed};
use thiserror::Error;

/// What is wrong with one line.
#[derive(Clone, Copy, Debug, PartialEq, Eq, Error)]
pub enum LineFault {
    #[error("not a command")]
    NotACommand,
    /// The first line isn't that of a trace.
    #[error("not a trace")]
    NotATrace,
    /// The first line isn't that of a litmus text.
    #[error("not a litmus text")]
    NotALitmusText,
    #[error("bad number")]
    BadNumber,
    #[error("configuration after a command")]
    LateConfiguration,
    #[error("out of range")]
    OutOfRange,
    #[error("name used twice")]
    NameUsedTwice,
    #[error("too many names")]
    TooManyNames,
    #[error("unknown name")]
    UnknownName,
    #[error("store to a counter")]
    StoreToACounter,
}

/// Why reading a text stopped. It displays as the text of the fault.
#[derive(Clone, Copy, Debug, PartialEq, Eq, Error)]
pub enum TextFault {
    #[error("line {number}: {fault}")]
    Line { number: usize, fault: LineFault },
    #[error("config {0}")]
    Config(ConfigError),
    #[error("cannot write")]
    CannotWrite,
    #[error("no memory")]
    NoMemory,
}

impl LineFault {
    ghost use Rattle.litmus_text.specs.declared.fault.TextFault.TheVariants.{Line};

    /// Returns this fault, at the line with this number. Lines count from 1.
    pub const fn at(self, number: usize) -> TextFault
        ensures { result ≡ Line number self }
    {
        TextFault::Line {
            number,
            fault: self,
        }
    }
}

impl From<AllocError> for TextFault {
    ghost use Rattle.litmus_text.specs.declared.fault.TextFault.TheVariants.{NoMemory};

    ghost from_gives = { λ _ fault. fault ≡ NoMemory };

    fn from(_error: AllocError) -> TextFault {
        TextFault::NoMemory
    }
}

impl<T: Drop> From<AllocFailed<T>> for TextFault {
    ghost use Rattle.litmus_text.specs.declared.fault.TextFault.TheVariants.{NoMemory};

    ghost from_gives = { λ _ fault. fault ≡ NoMemory };

    fn from(_error: AllocFailed<T>) -> TextFault {
        TextFault::NoMemory
    }
}

impl TextFault {
    ghost use Rattle.litmus_text.specs.Fault.{status_of};

    /// Returns the exit status of a program that stops at this fault.
    pub const fn status(&self) -> u8
        ensures { result ≡ status_of self.now }
    {
        match self {
            TextFault::NoMemory => 3,
            _ => 2,
        }
    }
}
