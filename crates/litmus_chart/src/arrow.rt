ghost use Rattle.std.specs.Prelude.{◌≡◌};
ghost use Rattle.litmus_chart.specs.Chart.{receiver_of, sender_of};

use address_map::{CoreId, LineAddr};
use slice_core::{Cell, Message, Pick};
use slice_text::MessageName;
use std::fmt;

/// Who takes part in a chart.
#[derive(Clone, Copy, Debug, PartialEq, Eq)]
pub enum Participant {
    /// The directory of a slice.
    Directory(usize),
    Core(CoreId),
}

impl fmt::Display for Participant {
    ghost use Rattle.std.specs.Prelude.{Some};
    ghost use Rattle.litmus_chart.specs.Chart.{text_of_participant};

    ghost output = { λ participant. Some (text_of_participant participant) };

    fn fmt<W: fmt::Write>(&self, f: &mut fmt::Formatter<W>) -> fmt::Result {
        match self {
            Participant::Directory(slice) => write!(f, "dir{slice}"),
            Participant::Core(CoreId(core)) => write!(f, "core{core}"),
        }
    }
}

/// What became of a message at the front of its channel.
#[derive(Clone, Copy)]
pub enum Fate {
    Delivered,
    Blocked,
    Broken(Cell),
}

/// A message in flight: an arrow, which ends in a cross if the message isn't delivered.
#[derive(Drop)]
pub struct Arrow {
    pub from: Participant,
    pub to: Participant,
    pub message: Message,
    pub line: LineAddr,
    pub fate: Fate,
}

impl fmt::Display for Arrow {
    ghost use Rattle.std.specs.Prelude.{Some};
    ghost use Rattle.litmus_chart.specs.Chart.{text_of_arrow};

    ghost output = { λ arrow. Some (text_of_arrow arrow) };

    fn fmt<W: fmt::Write>(&self, f: &mut fmt::Formatter<W>) -> fmt::Result {
        let from = self.from;
        let to = self.to;
        let name = MessageName(self.message);
        let line = self.line.0;
        match self.fate {
            Fate::Delivered => write!(f, "{from}->>{to}: {name}, line {line}"),
            Fate::Blocked => write!(f, "{from}-x{to}: {name}, line {line} (blocked)"),
            Fate::Broken(cell) => write!(f, "{from}-x{to}: {name}, line {line} (broken {cell})"),
        }
    }
}

/// Returns the receiver of a channel of a slice.
pub fn receiver(slice: usize, pick: Pick) -> Participant
    ensures { result ≡ receiver_of slice pick }
{
    match pick {
        Pick::Req(..) | Pick::Home(_) => Participant::Directory(slice),
        Pick::Fwd(_, core) | Pick::Data(_, core) | Pick::Ack { to: core, .. } => {
            Participant::Core(core)
        }
    }
}

/// Returns the sender of the message of a channel of a slice, with or without a core known to have sent it.
pub fn sender(slice: usize, pick: Pick, known: Option<CoreId>) -> Participant
    ensures { result ≡ sender_of slice pick known }
{
    match (pick, known) {
        (Pick::Req(_, core) | Pick::Ack { from: core, .. }, _) => Participant::Core(core),
        (Pick::Data(..) | Pick::Home(_), Some(core)) => Participant::Core(core),
        _ => Participant::Directory(slice),
    }
}
