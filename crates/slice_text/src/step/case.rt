use super::message::MessageName;
use address_map::CoreId;
use cache_table::CopyState;
use directory_table::DirState;
use slice_queues::Message;
use std::fmt;

/// Who does a row of the tables, and the state of its entry or its copy of the line.
#[derive(Clone, Copy)]
pub enum Who {
    /// The directory of a slice.
    Directory { slice: usize, state: DirState },
    Core { core: CoreId, state: CopyState },
}

/// What happens to it.
#[derive(Clone, Copy)]
pub enum Event {
    Message(Message),
    /// An access that reads.
    Load,
    /// An access that needs the right to write.
    Write,
    Eviction,
}

impl fmt::Display for Event {
    ghost use Rattle.std.specs.Prelude.{Some};
    ghost use Rattle.slice_text.specs.Case.{text_of_event};

    ghost output = { λ event. Some (text_of_event event) };

    fn fmt<W: fmt::Write>(&self, f: &mut fmt::Formatter<W>) -> fmt::Result {
        match self {
            Event::Message(message) => write!(f, "{}", MessageName(*message)),
            Event::Load => f.write_str("load"),
            Event::Write => f.write_str("write"),
            Event::Eviction => f.write_str("eviction"),
        }
    }
}

/// A case of the tables.
#[derive(Clone, Copy)]
pub struct Case {
    pub who: Who,
    pub event: Event,
}

impl fmt::Display for Case {
    ghost use Rattle.std.specs.Prelude.{Some};
    ghost use Rattle.slice_text.specs.Case.{text_of_case};

    ghost output = { λ case. Some (text_of_case case) };

    fn fmt<W: fmt::Write>(&self, f: &mut fmt::Formatter<W>) -> fmt::Result {
        let event = self.event;
        match self.who {
            Who::Directory { slice, state } => write!(f, "dir {slice} ({state}, {event})"),
            Who::Core {
                core: CoreId(core),
                state,
            } => write!(f, "core {core} ({state}, {event})"),
        }
    }
}
