//! The commands that only show part of the machine.
ghost use Rattle.std.specs.Prelude.{◌≡◌, ◌/◌, ◌<◌, IfErr, OnOk};
ghost use Rattle.litmus_script.specs.Play.{IsOfRun};
ghost use Rattle.litmus_script.specs.Prints.{IsPrinted};
ghost use Rattle.litmus_text.specs.Command.{HasLine};
ghost use Rattle.litmus_text.specs.Look.{HasSubject, subject_of};
ghost use Rattle.litmus_text.specs.declared.command.Command.TheVariants as commands;
ghost use Rattle.litmus_text.specs.declared.look.Look.TheVariants as looks;
ghost use Rattle.litmus_text.specs.declared.look.MachineLook.TheVariants as machine_looks;

use super::answers::{TextWriter, write_word, written};
use super::machine::Machine;
use super::trace::write_trace;
use address_map::{LineAddr, SliceId, WordAddr};
use litmus_text::{Look, MachineLook, TextFault};
use slice_text::{write_line, write_slices};
use stats_report::{ReportError, write_report};
use std::io::Write;

impl Machine {
    /// Shows what a command asks to see.
    pub fn show<W: Write>(&self, look: Look, out: &mut W) -> Result<(), TextFault>
        requires { HasSubject self.now.config (subject_of look) }
        ensures fault { IfErr result IsOfRun }
        ensures printed { OnOk result (IsPrinted self.now.config (commands.Look look)
            self.now.slices.items self.now.slices.items
            (W.contents out.old) (W.contents out.new)) }
    {
        match look {
            Look::Word(word) => self.show_word(word, out),
            Look::State(line) => self.show_state(line, out),
            Look::Log(slice) => self.show_log(slice, out),
            Look::Machine(MachineLook::Stats) => self.show_stats(out),
            Look::Machine(MachineLook::Waiting) => self.show_waiting(out),
            Look::Machine(MachineLook::Show) => self.show_moving(out),
        }
    }

    fn show_word<W: Write>(&self, word: WordAddr, out: &mut W) -> Result<(), TextFault>
        requires { word.0 / 8 < self.now.config.lines }
        ensures fault { IfErr result IsOfRun }
        ensures printed { OnOk result (IsPrinted self.now.config (commands.Look (looks.Word word))
            self.now.slices.items self.now.slices.items
            (W.contents out.old) (W.contents out.new)) }
    {
        let shown = self.word_now(word);
        let mut answers = TextWriter { out };
        written(write_word(shown, &mut answers))
    }

    /// Shows the slice's view of a line.
    fn show_state<W: Write>(&self, line: LineAddr, out: &mut W) -> Result<(), TextFault>
        requires { HasLine self.now.config line }
        ensures fault { IfErr result IsOfRun }
        ensures printed { OnOk result (IsPrinted self.now.config (commands.Look (looks.State line))
            self.now.slices.items self.now.slices.items
            (W.contents out.old) (W.contents out.new)) }
    {
        let shown = self.line_now(line);
        let mut answers = TextWriter { out };
        written(write_line(line, &shown, &mut answers))
    }

    fn show_log<W: Write>(&self, slice: SliceId, out: &mut W) -> Result<(), TextFault>
        ensures fault { IfErr result IsOfRun }
        ensures printed { OnOk result (IsPrinted self.now.config (commands.Look (looks.Log slice))
            self.now.slices.items self.now.slices.items
            (W.contents out.old) (W.contents out.new)) }
    {
        let init = self.init_of(slice);
        let log = self.log_of(slice);
        let mut answers = TextWriter { out };
        written(write_trace(&self.config, init, log, &mut answers))
    }

    fn show_stats<W: Write>(&self, out: &mut W) -> Result<(), TextFault>
        ensures fault { IfErr result IsOfRun }
        ensures printed { OnOk result (IsPrinted self.now.config (commands.Look (looks.Machine machine_looks.Stats))
            self.now.slices.items self.now.slices.items
            (W.contents out.old) (W.contents out.new)) }
    {
        let stats = self.stats()?;
        match write_report(self.alloc, stats.as_slice(), out) {
            Ok(()) => Ok(()),
            Err(ReportError::Memory) => Err(TextFault::NoMemory),
            Err(ReportError::Cut(_)) => Err(TextFault::CannotWrite),
        }
    }

    /// Shows all that isn't at rest.
    fn show_moving<W: Write>(&self, out: &mut W) -> Result<(), TextFault>
        ensures fault { IfErr result IsOfRun }
        ensures printed { OnOk result (IsPrinted self.now.config (commands.Look (looks.Machine machine_looks.Show))
            self.now.slices.items self.now.slices.items
            (W.contents out.old) (W.contents out.new)) }
    {
        let mut answers = TextWriter { out };
        written(write_slices(&self.config, self.slices.as_slice(), &mut answers))
    }
}
