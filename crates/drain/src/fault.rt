use address_map::{CoreId, SliceId};
use core_thread_system::{Core, SystemNames};
use mshr_file::MissFile;
use std::fmt;

/// Why an audit fails: the first of these reasons, and of several cores or slices the least.
#[derive(Clone, Copy, Debug, PartialEq, Eq)]
pub enum AuditError {
    /// No core of this number was given.
    Missing(CoreId),
    /// Two or more cores of this number were given.
    Repeated(CoreId),
    /// A message is in flight in the slice, a miss register is held, a write-back is pending, or a reply isn't handed
    /// out.
    NotQuiet(SliceId),
    /// The slice is quiet, and the cores' requests and receipts aren't its log.
    Differs(SliceId),
    /// An allocation failed.
    Memory,
}

impl fmt::Display for AuditError {
    ghost use Rattle.std.specs.Prelude.{Some};
    ghost use Rattle.drain.specs.Fault.{text_of_error};

    ghost output = { λ error. Some (text_of_error error) };

    fn fmt<W: fmt::Write>(&self, f: &mut fmt::Formatter<W>) -> fmt::Result {
        match self {
            AuditError::Missing(core) => write!(f, "1 Missing {}", core.0),
            AuditError::Repeated(core) => write!(f, "2 Repeated {}", core.0),
            AuditError::NotQuiet(slice) => write!(f, "3 NotQuiet {}", slice.0),
            AuditError::Memory => f.write_str("4 Memory"),
            AuditError::Differs(slice) => write!(f, "5 Differs {}", slice.0),
        }
    }
}

/// An audit that failed, and the cores that it was given.
#[derive(Drop)]
pub struct AuditFault<'a, F: MissFile, M: SystemNames> {
    pub error: AuditError,
    pub cores: Vec<Core<'a, F, M>>,
}
