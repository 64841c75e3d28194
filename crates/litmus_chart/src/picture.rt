ghost use Rattle.std.specs.Prelude.{IfErr};
ghost use Rattle.litmus_script.specs.Play.{IsOfRun};
ghost use Rattle.litmus_text.specs.Command.{HasCore};

use super::arrow::{Arrow, Fate, sender};
use super::names::Names;
use super::seen::{Flight, Seen};
use address_map::{CoreId, LineAddr};
use litmus_script::{Machine, TextWriter, written};
use litmus_text::TextFault;
use slice_core::{CoreLines, ForwardedMessage, Message, Pick};
use std::alloc::Global;
use std::fmt;
use std::fmt::Write as _;
use std::io::Write;

/// Data or a block in flight that a core has sent. All others are the directory's.
#[derive(Drop)]
struct Sent {
    pick: Pick,
    by: CoreId,
}

/// What a chart knows of a run besides the machine.
#[derive(Drop)]
pub struct Picture {
    names: Names,
    sent: Vec<Sent>,
}

impl Picture {
    pub fn new(alloc: Global) -> Self {
        Picture {
            names: Names::new(alloc),
            sent: Vec::new(alloc),
        }
    }

    /// Returns what an access of a core can change: the line itself, and those of its set in the core's array, one of
    /// which may be evicted for it.
    pub fn look(
        &self,
        alloc: Global,
        machine: &Machine,
        core: CoreId,
        line: LineAddr,
    ) -> Result<Vec<Seen>, TextFault>
        requires { HasCore machine.now.config core }
        ensures fault { IfErr result IsOfRun }
    {
        let mut seen = Vec::new(alloc);
        note(&mut seen, Seen::of(machine, line))?;
        for other in set_of(alloc, machine, core, line)? {
            if other != line {
                note(&mut seen, Seen::of(machine, other))?;
            }
        }
        Ok(seen)
    }

    /// Notes that a core has requested the line.
    pub fn name(&mut self, line: LineAddr) -> Result<(), TextFault>
        ensures fault { IfErr result IsOfRun }
    {
        self.names.name(line)
    }

    /// Draws what an access of a core changed: the line itself, and the one that was evicted for it, in the order of
    /// their first requests. Before that these were looked at, the line first.
    pub fn write_access<W: Write>(
        &self,
        now: &Machine,
        core: CoreId,
        before: &[Seen],
        out: &mut TextWriter<'_, W>,
    ) -> fmt::Result
        requires { HasCore now.now.config core }
    {
        let Some((seen, others)) = before.split_first() else {
            return Ok(());
        };
        let left = match last_written_back(now, core, seen.line) {
            Some(left) => others.iter().find(|other| other.line == left),
            None => None,
        };
        match left {
            Some(left) if self.names.is_first(left.line, seen.line) => {
                left.write_change(now, out)?;
                seen.write_change(now, out)
            }
            Some(left) => {
                seen.write_change(now, out)?;
                left.write_change(now, out)
            }
            None => seen.write_change(now, out),
        }
    }

    /// Draws a message at the front of its channel. There is none if nothing waits.
    pub fn write_arrow<W: Write>(
        &self,
        flight: &Flight,
        fate: Fate,
        out: &mut TextWriter<'_, W>,
    ) -> fmt::Result {
        let Some(message) = flight.message else {
            return Ok(());
        };
        let pick = flight.pick;
        let arrow = Arrow {
            from: sender(flight.slice, pick, self.core_that_sent(pick)),
            to: flight.receiver(),
            message,
            line: pick.line(),
            fate,
        };
        writeln!(out, "    {arrow}")
    }

    /// Draws a message that was delivered, and what that changed.
    pub fn deliver<W: Write>(
        &mut self,
        now: &Machine,
        flight: &Flight,
        out: &mut TextWriter<'_, W>,
    ) -> Result<(), TextFault>
        ensures fault { IfErr result IsOfRun }
    {
        written(self.write_arrow(flight, Fate::Delivered, out))?;
        self.forget(flight.pick);
        self.expect(flight)?;
        written(flight.line.write_change(now, out))
    }

    /// Notes the sender of the data that a message requested from its receiver.
    fn expect(&mut self, flight: &Flight) -> Result<(), TextFault>
        ensures fault { IfErr result IsOfRun }
    {
        let line = flight.pick.line();
        match (flight.pick, flight.message) {
            (Pick::Fwd(_, by), Some(Message::Forwarded(ForwardedMessage::FwdGetS(requester)))) => {
                self.send(Pick::Data(line, requester), by)?;
                self.send(Pick::Home(line), by)
            }
            (Pick::Fwd(_, by), Some(Message::Forwarded(ForwardedMessage::FwdGetM(requester)))) =>
                self.send(Pick::Data(line, requester), by),
            _ => Ok(()),
        }
    }

    fn send(&mut self, pick: Pick, by: CoreId) -> Result<(), TextFault>
        ensures fault { IfErr result IsOfRun }
    {
        self.sent
            .push(Sent { pick, by })
            .map_err(|_| TextFault::NoMemory)
    }

    fn forget(&mut self, pick: Pick) {
        if let Some(at) = self.sent.iter().position(|sent| sent.pick == pick) {
            self.sent.swap_remove(at);
        }
    }

    fn core_that_sent(&self, pick: Pick) -> Option<CoreId> {
        self.sent
            .iter()
            .find(|sent| sent.pick == pick)
            .map(|sent| sent.by)
    }
}

fn note(seen: &mut Vec<Seen>, one: Seen) -> Result<(), TextFault>
    ensures fault { IfErr result IsOfRun }
{
    seen.push(one).map_err(|_| TextFault::NoMemory)
}

/// Returns the lines of the line's set in the core's array.
fn set_of(
    alloc: Global,
    machine: &Machine,
    core: CoreId,
    line: LineAddr,
) -> Result<Vec<LineAddr>, TextFault>
    requires { HasCore machine.now.config core }
    ensures fault { IfErr result IsOfRun }
{
    let slice = machine.slice_of(line);
    machine.slices[slice]
        .core_lines(alloc, core, CoreLines::InSetOf(line))
        .map_err(|_| TextFault::NoMemory)
}

/// Returns the line that the core last evicted in the slice of this one.
fn last_written_back(machine: &Machine, core: CoreId, line: LineAddr) -> Option<LineAddr>
    requires { HasCore machine.now.config core }
{
    let slice = machine.slice_of(line);
    machine.slices[slice].last_written_back(core)
}
