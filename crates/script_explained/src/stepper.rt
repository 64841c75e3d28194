//! Plays a script's commands as steps, and has each written.
ghost use Rattle.std.specs.Prelude.{◌≡◌, IfErr, OnOk};
ghost use Rattle.litmus_script.specs.Play.{IsOfRun};
ghost use Rattle.litmus_text.specs.Command.{IsInRange};
ghost use Rattle.script_explained.specs.Step.{ArePumped, IsStepped, WritesMade, Writing, WritingNext, command_of};

use super::machine_step;
use super::step::{DeliveryStep, Step};
use address_map::Checked;
use litmus_script::{Deliverer, Machine, Player, pump_slices};
use litmus_text::{Command, Statement, TextFault};
use slice_core::DeliveredNext;
use std::alloc::Global;
use std::io::Write;

/// What writes the steps that a machine makes.
pub trait StepWriter: Copy {
    /// What it writes of the step of a command.
    ghost writes: { Self → Writing };

    /// What it writes of a delivery that a pump made.
    ghost writes_next: { Self → WritingNext };

    /// Writes the step of a statement's command, where the machine is this after it.
    fn write<W: Write>(
        &self,
        machine: &Machine,
        statement: &Statement<'_>,
        step: &Step,
        out: &mut W,
    ) -> Result<(), TextFault>
        requires { IsInRange machine.now.config (command_of step.now) }
        ensures written { OnOk result (writes self.now machine.now.config machine.now.slices.items
            statement.now.line.now step.now (W.contents out.old) (W.contents out.new)) }
        ensures fault { IfErr result IsOfRun };

    /// Writes a delivery that the pump of this line of the text made, where the machine is this after it.
    fn write_next<W: Write>(
        &self,
        machine: &Machine,
        number: usize,
        delivery: DeliveryStep,
        out: &mut W,
    ) -> Result<(), TextFault>
        ensures written { OnOk result (writes_next self.now machine.now.config machine.now.slices.items
            delivery (W.contents out.old) (W.contents out.new)) }
        ensures fault { IfErr result IsOfRun };
}

/// A player that plays each command as a step, and each delivery of a pump as one.
#[derive(Drop)]
pub struct Stepper<S: StepWriter> {
    pub machine: Machine,
    pub writer: S,
    pub alloc: Global,
    /// The place in the script of the pump that is played.
    number: usize,
}

impl<S: StepWriter> Player for Stepper<S> {
    ghost use Rattle.std.specs.Prelude.{◌≡◌};
    ghost use Rattle.script_explained.specs.Step.{AreSteps};

    ghost config_of = { λ player. player.machine.config };

    ghost plays = { λ old line command before after new. (new.machine.config ≡ old.machine.config)
        × (new.writer ≡ old.writer)
        × AreSteps (S.writes old.writer) (S.writes_next old.writer) old.machine.config old.machine.slices.items
        line command before after new.machine.slices.items };

    fn config(&self) -> &Checked {
        &self.machine.config
    }

    fn play<W: Write>(
        &mut self,
        statement: &Statement<'_>,
        command: Command,
        out: &mut W,
    ) -> Result<(), TextFault> {
        match command {
            Command::Pump(calls) => self.pump(statement, calls, out),
            _ => self.step(statement, command, out),
        }
    }
}

impl<S: StepWriter> Deliverer for Stepper<S> {
    ghost use Rattle.std.specs.Prelude.{◌≡◌};
    ghost use Rattle.script_explained.specs.Step.{IsNextStep};

    ghost config_of = { λ player. player.machine.config };

    ghost delivers = { λ old slice answer before after new. (new.machine.config ≡ old.machine.config)
        × (new.writer ≡ old.writer)
        × IsNextStep (S.writes_next old.writer) old.machine.config old.machine.slices.items slice answer
        before after new.machine.slices.items };

    fn slices(&self) -> usize {
        self.machine.config.slices()
    }

    fn deliver_next<W: Write>(
        &mut self,
        slice: usize,
        out: &mut W,
    ) -> Result<DeliveredNext, TextFault> {
        let (answer, made) = machine_step::deliver_next(&mut self.machine, slice);
        self.write_made(made, out)?;
        Ok(answer)
    }
}

impl<S: StepWriter> Stepper<S> {
    pub fn new(alloc: Global, machine: Machine, writer: S) -> Self
        ensures machine { result.machine ≡ machine }
        ensures writer { result.writer ≡ writer }
    {
        Stepper {
            machine,
            writer,
            alloc,
            number: 0,
        }
    }

    /// Plays a command as one step, and writes it.
    fn step<W: Write>(
        &mut self,
        statement: &Statement<'_>,
        command: Command,
        out: &mut W,
    ) -> Result<(), TextFault>
        requires { IsInRange self.old.machine.config command }
        ensures config { self.new.machine.config ≡ self.old.machine.config }
        ensures writer { self.new.writer ≡ self.old.writer }
        ensures stepped { OnOk result (IsStepped (S.writes self.old.writer) self.old.machine.config
            self.old.machine.slices.items statement.now.line.now command
            (W.contents out.old) (W.contents out.new) self.new.machine.slices.items) }
        ensures fault { IfErr result IsOfRun }
    {
        let step = machine_step::make_step(self.alloc, &mut self.machine, command)?;
        self.writer.write(&self.machine, statement, &step, out)
    }

    /// Pumps: writes each delivery that is made, and then what is left.
    fn pump<W: Write>(
        &mut self,
        statement: &Statement<'_>,
        calls: u64,
        out: &mut W,
    ) -> Result<(), TextFault>
        ensures config { self.new.machine.config ≡ self.old.machine.config }
        ensures pumped { OnOk result ((self.new.writer ≡ self.old.writer)
            × ArePumped (S.writes self.old.writer) (S.writes_next self.old.writer) self.old.machine.config
            self.old.machine.slices.items statement.now.line.now calls
            (W.contents out.old) (W.contents out.new) self.new.machine.slices.items) }
        ensures fault { IfErr result IsOfRun }
    {
        self.number = statement.number;
        let pumped = pump_slices(self, calls, out)?;
        let step = Step::Pump { calls, pumped };
        self.writer.write(&self.machine, statement, &step, out)
    }

    fn write_made<W: Write>(&self, made: Option<DeliveryStep>, out: &mut W) -> Result<(), TextFault>
        ensures written { OnOk result (WritesMade (S.writes_next self.now.writer) self.now.machine.config
            self.now.machine.slices.items made (W.contents out.old) (W.contents out.new)) }
        ensures fault { IfErr result IsOfRun }
    {
        match made {
            Some(delivery) => self
                .writer
                .write_next(&self.machine, self.number, delivery, out),
            None => Ok(()),
        }
    }
}
