ghost use Rattle.std.specs.Prelude.{◌≡◌};

use litmus_text::TextFault;
use std::alloc::AllocError;
use thiserror::Error;

/// Why no programs are generated.
#[derive(Clone, Copy, Debug, PartialEq, Eq, Error)]
pub enum GenerateFault {
    #[error("no such workload (matmul, histogram, ring, lock, chase, uniform, zipf, stencil)")]
    Unknown,
    #[error("--cores takes 1 to 64")]
    Cores,
    #[error("--size takes 1 to {0} here")]
    Size(u64),
    #[error("more than 1000000 accesses")]
    TooMany,
    #[error("cannot write")]
    CannotWrite,
    #[error("no memory")]
    NoMemory,
}

impl GenerateFault {
    /// Returns the exit status of a program that stops at this fault.
    pub const fn status(&self) -> u8 {
        match self {
            GenerateFault::NoMemory => 3,
            _ => 2,
        }
    }

    /// Why the reader doesn't take what was generated: it is of the right form, so there are too many accesses.
    pub(crate) fn of_text(fault: TextFault) -> GenerateFault {
        match fault {
            TextFault::NoMemory => GenerateFault::NoMemory,
            _ => GenerateFault::TooMany,
        }
    }
}

impl From<AllocError> for GenerateFault {
    ghost use Rattle.program_text.specs.declared.workloads.fault.GenerateFault.TheVariants.{NoMemory};

    ghost from_gives = { λ _ fault. fault ≡ NoMemory };

    fn from(_error: AllocError) -> GenerateFault {
        GenerateFault::NoMemory
    }
}
