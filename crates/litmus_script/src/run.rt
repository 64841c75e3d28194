//! What a machine does and prints for each command.
ghost use Rattle.std.specs.Prelude.{◌≡◌, ◌<◌, IfErr, OnOk};
ghost use Rattle.litmus_script.specs.Play.{IsOfRun};
ghost use Rattle.litmus_script.specs.Prints.{IsPrinted};
ghost use Rattle.litmus_text.specs.Command.{IsInRange, HasCore};
ghost use Rattle.litmus_text.specs.declared.command.Command.TheVariants as commands;

use super::answers::{
    TextWriter, write_delivered, write_evicted, write_handed, write_issued, write_pumped, written,
};
use super::machine::Machine;
use super::pump::pump_slices;
use address_map::{CoreId, LineAddr, Request, SliceId};
use litmus_text::{Command, TextFault};
use slice_core::Pick;
use std::io::Write;

impl Machine {
    /// Does what the command says, and writes the answer.
    pub fn run<W: Write>(&mut self, command: Command, out: &mut W) -> Result<(), TextFault>
        requires { IsInRange self.old.config command }
        ensures config { self.new.config ≡ self.old.config }
        ensures fault { IfErr result IsOfRun }
        ensures printed { OnOk result (IsPrinted self.old.config command self.old.slices.items self.new.slices.items
            (W.contents out.old) (W.contents out.new)) }
    {
        match command {
            Command::Issue { core, request } => self.run_issue(core, request, out),
            Command::Evict { core, line } => self.run_evict(core, line, out),
            Command::Deliver(pick) => self.run_deliver(pick, out),
            Command::Hand { core, slice } => self.run_hand(core, slice, out),
            Command::Look(look) => self.show(look, out),
            Command::Pump(calls) => self.run_pump(calls, out),
        }
    }

    fn run_issue<W: Write>(
        &mut self,
        core: CoreId,
        request: Request,
        out: &mut W,
    ) -> Result<(), TextFault>
        requires { HasCore self.old.config core }
        ensures config { self.new.config ≡ self.old.config }
        ensures fault { IfErr result IsOfRun }
        ensures printed { OnOk result (IsPrinted self.old.config (commands.Issue core request)
            self.old.slices.items self.new.slices.items (W.contents out.old) (W.contents out.new)) }
    {
        let issued = self.issue(core, request)?;
        let mut answers = TextWriter { out };
        written(write_issued(issued, &mut answers))
    }

    fn run_evict<W: Write>(
        &mut self,
        core: CoreId,
        line: LineAddr,
        out: &mut W,
    ) -> Result<(), TextFault>
        requires { HasCore self.old.config core }
        ensures config { self.new.config ≡ self.old.config }
        ensures fault { IfErr result IsOfRun }
        ensures printed { OnOk result (IsPrinted self.old.config (commands.Evict core line)
            self.old.slices.items self.new.slices.items (W.contents out.old) (W.contents out.new)) }
    {
        let evicted = self.evict(core, line);
        let mut answers = TextWriter { out };
        written(write_evicted(evicted, &mut answers))
    }

    fn run_deliver<W: Write>(&mut self, pick: Pick, out: &mut W) -> Result<(), TextFault>
        ensures config { self.new.config ≡ self.old.config }
        ensures fault { IfErr result IsOfRun }
        ensures printed { OnOk result (IsPrinted self.old.config (commands.Deliver pick)
            self.old.slices.items self.new.slices.items (W.contents out.old) (W.contents out.new)) }
    {
        let delivered = self.deliver(pick);
        let mut answers = TextWriter { out };
        written(write_delivered(delivered, &mut answers))
    }

    fn run_hand<W: Write>(
        &mut self,
        core: CoreId,
        slice: SliceId,
        out: &mut W,
    ) -> Result<(), TextFault>
        requires core { HasCore self.old.config core }
        requires slice { slice.0 < self.old.config.slices }
        ensures config { self.new.config ≡ self.old.config }
        ensures fault { IfErr result IsOfRun }
        ensures printed { OnOk result (IsPrinted self.old.config (commands.Hand core slice)
            self.old.slices.items self.new.slices.items (W.contents out.old) (W.contents out.new)) }
    {
        let handed = self.hand(core, slice);
        let mut answers = TextWriter { out };
        written(write_handed(handed, &mut answers))
    }

    fn run_pump<W: Write>(&mut self, calls: u64, out: &mut W) -> Result<(), TextFault>
        ensures config { self.new.config ≡ self.old.config }
        ensures fault { IfErr result IsOfRun }
        ensures printed { OnOk result (IsPrinted self.old.config (commands.Pump calls)
            self.old.slices.items self.new.slices.items (W.contents out.old) (W.contents out.new)) }
    {
        let pumped = pump_slices(self, calls, out)?;
        let mut answers = TextWriter { out };
        written(write_pumped(pumped, &mut answers))
    }
}
