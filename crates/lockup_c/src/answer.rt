//! What an export shows, and the code that it returns.
ghost use Rattle.std.specs.Prelude.{◌≡◌};
ghost use Rattle.lockup_c.specs.Answer.{code_of, code_of_fault, shown_of};

use super::codes::{DONE, NO_MACHINE, NO_MEMORY, OUT_OF_RANGE};
use std::alloc::AllocError;

/// Why an export shows nothing.
#[derive(Clone, Copy)]
pub enum Fault {
    /// The handle has no machine, or nothing of the kind that is meant.
    NoMachine,
    OutOfRange,
    NoMemory,
}

impl Fault {
    const fn code(self) -> u32
        ensures { result ≡ code_of_fault self }
    {
        match self {
            Fault::NoMachine => NO_MACHINE,
            Fault::OutOfRange => OUT_OF_RANGE,
            Fault::NoMemory => NO_MEMORY,
        }
    }
}

impl From<AllocError> for Fault {
    ghost use Rattle.std.specs.Prelude.{◌≡◌};
    ghost use Rattle.lockup_c.specs.declared.answer.Fault.TheVariants.{NoMemory};

    ghost from_gives = { λ _ fault. fault ≡ NoMemory };

    fn from(_: AllocError) -> Self {
        Fault::NoMemory
    }
}

/// Writes what is shown, or what stands for nothing, and returns the code.
pub(crate) fn show<T: Copy>(shown: Result<T, Fault>, nothing: T, to: &mut T) -> u32
    ensures code { result ≡ code_of shown }
    ensures shown { to.new ≡ shown_of nothing shown }
{
    match shown {
        Ok(shown) => {
            *to = shown;
            DONE
        }
        Err(fault) => {
            *to = nothing;
            fault.code()
        }
    }
}
