//! Plays a script's commands for waves.
ghost use Rattle.std.specs.Prelude.{◌≡◌, ◌+◌, ◌++◌, ◌%◌, ◌^◌, [], IfErr, IfOk, OnOk, Some};
ghost use Rattle.std.specs.Fmt.{WritesInCalls};
ghost use Rattle.std.specs.Io.KnownBytes.{Appends};
ghost use Rattle.std.specs.Str.Lines.{lines};
ghost use Rattle.litmus_script.specs.Play.{IsOfRun};
ghost use Rattle.litmus_script.specs.Prints.{IsPrinted};
ghost use Rattle.litmus_text.specs.Command.{IsInRange};
ghost use Rattle.script_waves.specs.Named.{Names, line_named};
ghost use Rattle.script_waves.specs.Values.{text_of_command, text_of_lines, text_of_time};
ghost use Rattle.script_waves.specs.Waves.{ArePumpTicks, IsShown, IsTick, ShowsNext, shown_by, text_of_tick, text_of_values};

use super::changes::write_changes;
use super::command::{write_command, write_time};
use super::in_use::write_uses;
use super::named::note_line;
use super::values::write_lines;
use address_map::{Checked, LineAddr};
use litmus_script::{Deliverer, Machine, Player, TextWriter, pump_slices, written};
use litmus_text::{Command, Statement, TextFault};
use script_explained::delivery_text;
use slice_core::DeliveredNext;
use std::alloc::Global;
use std::fmt;
use std::io::Write;

/// A player that writes, after each command and each delivery of a pump, what it changed of what each core has in use, and
/// of what the slices have of each line named so far.
#[derive(Drop)]
pub(crate) struct Waved {
    pub(crate) machine: Machine,
    /// The lines that the commands named so far, each once.
    pub(crate) named: Vec<LineAddr>,
    /// How many commands were played and deliveries of pumps made, modulo 2^64.
    pub(crate) played: u64,
    /// The values after the last command.
    pub(crate) values: Vec<u8>,
    /// The buffer for an answer, which isn't shown.
    answer: Vec<u8>,
    alloc: Global,
}

impl Player for Waved {
    ghost use Rattle.std.specs.Prelude.{◌≡◌};
    ghost use Rattle.script_waves.specs.Waves.{Ticks, shown_by};

    ghost config_of = { λ player. player.machine.config };

    ghost plays = { λ old line command before after new. (new.machine.config ≡ old.machine.config)
        × Ticks old.machine.config (shown_by old) line command before after (shown_by new) };

    fn config(&self) -> &Checked {
        &self.machine.config
    }

    fn play<W: Write>(
        &mut self,
        statement: &Statement<'_>,
        command: Command,
        out: &mut W,
    ) -> Result<(), TextFault> {
        match command {
            Command::Pump(calls) => self.pump(statement.line, calls, out),
            _ => self.tick(statement.line, command, out),
        }
    }
}

/// Each delivery that a pump makes takes a unit of time.
impl Deliverer for Waved {
    ghost use Rattle.std.specs.Prelude.{◌≡◌};
    ghost use Rattle.script_waves.specs.Waves.{IsNextTick, shown_by};

    ghost config_of = { λ player. player.machine.config };

    ghost delivers = { λ old slice answer before after new. (new.machine.config ≡ old.machine.config)
        × IsNextTick old.machine.config (shown_by old) slice answer before after (shown_by new) };

    fn slices(&self) -> usize {
        self.machine.config.slices()
    }

    fn deliver_next<W: Write>(
        &mut self,
        slice: usize,
        out: &mut W,
    ) -> Result<DeliveredNext, TextFault> {
        let delivered = self.machine.deliver_next(slice, out)?;
        self.show_next(delivered, out)?;
        Ok(delivered)
    }
}

impl Waved {
    pub(crate) fn new(alloc: Global, machine: Machine) -> Self
        ensures machine { result.machine ≡ machine }
        ensures named { result.named.items ≡ [] }
        ensures played { result.played ≡ 0 }
        ensures values { result.values.items ≡ [] }
    {
        Waved {
            machine,
            named: Vec::new(alloc),
            played: 0,
            values: Vec::new(alloc),
            answer: Vec::new(alloc),
            alloc,
        }
    }

    /// Plays the command, and shows what it changed.
    fn tick<W: Write>(
        &mut self,
        line: &[u8],
        command: Command,
        out: &mut W,
    ) -> Result<(), TextFault>
        requires { IsInRange self.old.machine.config command }
        ensures config { self.new.machine.config ≡ self.old.machine.config }
        ensures ticked { OnOk result (IsTick self.old.machine.config line.now command
            (shown_by self.old) (shown_by self.new) (W.contents out.old) (W.contents out.new)) }
        ensures fault { IfErr result IsOfRun }
    {
        self.answer(command)?;
        self.show(line, command, out)
    }

    /// Pumps: shows what each delivery changed, and then the pump itself.
    fn pump<W: Write>(&mut self, line: &[u8], calls: u64, out: &mut W) -> Result<(), TextFault>
        ensures config { self.new.machine.config ≡ self.old.machine.config }
        ensures ticked { OnOk result (ArePumpTicks self.old.machine.config line.now calls
            (shown_by self.old) (shown_by self.new) (W.contents out.old) (W.contents out.new)) }
        ensures fault { IfErr result IsOfRun }
    {
        let _pumped = pump_slices(self, calls, out)?;
        self.show(line, Command::Pump(calls), out)
    }

    /// Shows what a delivery of a pump changed, if one was made.
    fn show_next<W: Write>(
        &mut self,
        delivered: DeliveredNext,
        out: &mut W,
    ) -> Result<(), TextFault>
        ensures machine { self.new.machine ≡ self.old.machine }
        ensures shown { OnOk result (ShowsNext self.old.machine.config delivered
            (shown_by self.old) (W.contents out.old) (W.contents out.new) (shown_by self.new)) }
        ensures fault { IfErr result IsOfRun }
    {
        let DeliveredNext::Moved(pick) = delivered else {
            return Ok(());
        };
        let line = delivery_text(self.alloc, pick)?;
        self.show(line.as_slice(), Command::Deliver(pick), out)
    }

    /// Takes a unit of time for a command that was played: shows this line, and what has changed.
    fn show<W: Write>(
        &mut self,
        line: &[u8],
        command: Command,
        out: &mut W,
    ) -> Result<(), TextFault>
        ensures machine { self.new.machine ≡ self.old.machine }
        ensures shown { OnOk result (IsShown self.old.machine.config line.now command
            (shown_by self.old) (shown_by self.new) (W.contents out.old) (W.contents out.new)) }
        ensures fault { IfErr result IsOfRun }
    {
        self.name(command)?;
        self.played = self.played.wrapping_add(1);
        let values = self.look()?;
        self.tell(line, values.as_slice(), out)?;
        self.values = values;
        Ok(())
    }

    /// Plays the command.
    fn answer(&mut self, command: Command) -> Result<(), TextFault>
        requires { IsInRange self.old.machine.config command }
        ensures config { self.new.machine.config ≡ self.old.machine.config }
        ensures named { self.new.named ≡ self.old.named }
        ensures count { self.new.played ≡ self.old.played }
        ensures values { self.new.values ≡ self.old.values }
        ensures played { OnOk result (IsPrinted self.old.machine.config command
            self.old.machine.slices.items self.new.machine.slices.items (Some []) (Some self.new.answer.items)) }
        ensures fault { IfErr result IsOfRun }
    {
        self.answer.clear();
        match self.machine.run(command, &mut self.answer) {
            Ok(()) => Ok(()),
            // writing to memory fails when there is none left
            Err(_) => Err(TextFault::NoMemory),
        }
    }

    /// Puts the command's line after those that were named, where it is a line of the memory and new.
    fn name(&mut self, command: Command) -> Result<(), TextFault>
        ensures machine { self.new.machine ≡ self.old.machine }
        ensures count { self.new.played ≡ self.old.played }
        ensures values { self.new.values ≡ self.old.values }
        ensures names { OnOk result (Names self.old.machine.config (line_named command)
            self.old.named.items self.new.named.items) }
        ensures fault { IfErr result IsOfRun }
    {
        let Waved { machine, named, .. } = self;
        note_line(&machine.config, command, named)
    }

    /// Returns the values that are now.
    fn look(&self) -> Result<Vec<u8>, TextFault>
        ensures values { IfOk result (λ values. values.items
            ≡ text_of_values self.now.machine.config self.now.machine.slices.items self.now.named.items) }
        ensures fault { IfErr result IsOfRun }
    {
        let mut values = Vec::new(self.alloc);
        match self.write_values(&mut values) {
            Ok(()) => Ok(values),
            // writing to memory fails when there is none left
            Err(_) => Err(TextFault::NoMemory),
        }
    }

    fn write_values<W: Write>(&self, out: &mut W) -> Result<(), TextFault>
        ensures written { OnOk result (Appends (W.contents out.old) (W.contents out.new)
            (text_of_values self.now.machine.config self.now.machine.slices.items self.now.named.items)) }
        ensures fault { IfErr result IsOfRun }
    {
        write_uses(self.alloc, &self.machine, out)?;
        self.tell_lines(out)
    }

    /// Writes what there is after a command on this line, where these values are now.
    fn tell<W: Write>(&self, line: &[u8], values: &[u8], out: &mut W) -> Result<(), TextFault>
        ensures told { OnOk result (Appends (W.contents out.old) (W.contents out.new)
            (text_of_tick line.now self.now.played self.now.values.items values.now)) }
        ensures fault { IfErr result IsOfRun }
    {
        self.tell_command(line, out)?;
        write_changes(self.values.as_slice(), values, out)
    }

    fn tell_command<W: Write>(&self, line: &[u8], out: &mut W) -> Result<(), TextFault>
        ensures told { OnOk result (Appends (W.contents out.old) (W.contents out.new)
            (text_of_time self.now.played ++ text_of_command line.now)) }
        ensures fault { IfErr result IsOfRun }
    {
        let mut answers = TextWriter { out };
        written(self.write_timed(line, &mut answers))
    }

    fn write_timed<W: fmt::Write>(&self, line: &[u8], out: &mut W) -> fmt::Result
        ensures { OnOk result (WritesInCalls W.write_str_gives out.old
            (text_of_time self.now.played ++ text_of_command line.now) out.new) }
    {
        write_time(self.played, out)?;
        write_command(line, out)
    }

    fn tell_lines<W: Write>(&self, out: &mut W) -> Result<(), TextFault>
        ensures told { OnOk result (Appends (W.contents out.old) (W.contents out.new)
            (text_of_lines self.now.machine.config self.now.machine.slices.items self.now.named.items)) }
        ensures fault { IfErr result IsOfRun }
    {
        let mut answers = TextWriter { out };
        written(write_lines(&self.machine, self.named.as_slice(), &mut answers))
    }
}
