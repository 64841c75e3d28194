//! What a chart looks at before a call, which may change it.
use super::arrow::{Participant, receiver};
use super::note::write_changes;
use address_map::LineAddr;
use litmus_script::Machine;
use slice_core::{LineView, Message, Pick};
use std::fmt;
use std::fmt::Write;

/// The slice's view of a line.
#[derive(Drop)]
pub struct Seen {
    pub line: LineAddr,
    /// None for a line that the memory doesn't have.
    view: Option<LineView>,
}

impl Seen {
    pub fn of(machine: &Machine, line: LineAddr) -> Self {
        Seen {
            line,
            view: machine.view(line),
        }
    }

    /// Draws what has changed of the line.
    pub fn write_change<W: Write>(&self, now: &Machine, out: &mut W) -> fmt::Result {
        if let (Some(before), Some(after)) = (&self.view, &now.view(self.line)) {
            let directory = Participant::Directory(now.slice_of(self.line));
            write_changes(directory, self.line, before, after, out)?;
        }
        Ok(())
    }
}

/// A message at the front of a channel, and its line.
#[derive(Drop)]
pub struct Flight {
    pub pick: Pick,
    pub slice: usize,
    /// None if nothing waits.
    pub message: Option<Message>,
    pub line: Seen,
}

impl Flight {
    pub fn of(machine: &Machine, pick: Pick) -> Self {
        let line = pick.line();
        Flight {
            pick,
            slice: machine.slice_of(line),
            message: machine.front(pick),
            line: Seen::of(machine, line),
        }
    }

    /// Returns the receiver of the channel.
    pub fn receiver(&self) -> Participant {
        receiver(self.slice, self.pick)
    }
}
