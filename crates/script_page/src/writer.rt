//! Writes the steps of a page.
ghost use Rattle.std.specs.Prelude.{◌≡◌, [], IfErr, IfOk, Some};
ghost use Rattle.litmus_script.specs.Play.{IsOfRun};
ghost use Rattle.litmus_text.specs.Command.{IsInRange, parts_of};
ghost use Rattle.litmus_text.specs.declared.command.Command.TheVariants as commands;
ghost use Rattle.script_explained.specs.Explains.{Explains, ExplainsNext};
ghost use Rattle.script_explained.specs.Step.{command_of};
ghost use Rattle.litmus_text.specs.Line.{text_of_parts};

use super::step::{PageStep, write_step};
use litmus_script::Machine;
use litmus_text::{Statement, TextFault};
use script_explained::{DeliveryStep, Explaining, Step, StepWriter, delivery_text};
use std::alloc::Global;
use std::io::Write;

/// Writes each step as an object of the page's run.
#[derive(Clone, Copy)]
pub(crate) struct PageWriter {
    pub(crate) alloc: Global,
}

impl StepWriter for PageWriter {
    ghost use Rattle.script_page.specs.Steps.{PageWriting, PageWritingNext};

    ghost writes = { λ _. PageWriting };

    ghost writes_next = { λ _. PageWritingNext };

    fn write<W: Write>(
        &self,
        machine: &Machine,
        statement: &Statement<'_>,
        step: &Step,
        out: &mut W,
    ) -> Result<(), TextFault> {
        let answer = self.told(machine, statement, step)?;
        let told = PageStep {
            number: statement.number,
            line: statement.line,
            answer: answer.as_slice(),
            step,
        };
        write_step(self.alloc, machine, &told, out)
    }

    fn write_next<W: Write>(
        &self,
        machine: &Machine,
        number: usize,
        delivery: DeliveryStep,
        out: &mut W,
    ) -> Result<(), TextFault> {
        let answer = self.told_next(machine, number, &delivery)?;
        let line = self.line_of(&delivery)?;
        let step = Step::Deliver(delivery);
        let told = PageStep {
            number,
            line: line.as_slice(),
            answer: answer.as_slice(),
            step: &step,
        };
        write_step(self.alloc, machine, &told, out)
    }
}

impl PageWriter {
    /// Returns the answer of a step, with what happened.
    fn told(
        &self,
        machine: &Machine,
        statement: &Statement<'_>,
        step: &Step,
    ) -> Result<Vec<u8>, TextFault>
        requires { IsInRange machine.now.config (command_of step.now) }
        ensures told { IfOk result (λ answer. Explains machine.now.config machine.now.slices.items
            statement.now.line.now step.now (Some []) (Some answer.items)) }
        ensures fault { IfErr result IsOfRun }
    {
        let mut answer = Vec::new(self.alloc);
        let explaining = Explaining { alloc: self.alloc };
        match explaining.write(machine, statement, step, &mut answer) {
            Ok(()) => Ok(answer),
            // writing to memory fails when there is none left
            Err(_) => Err(TextFault::NoMemory),
        }
    }

    /// Returns the command that makes a delivery.
    fn line_of(&self, delivery: &DeliveryStep) -> Result<Vec<u8>, TextFault>
        ensures text { IfOk result (λ text. text.items ≡ text_of_parts (parts_of (commands.Deliver delivery.now.pick))) }
        ensures fault { IfErr result IsOfRun }
    {
        delivery_text(self.alloc, delivery.pick)
    }

    /// .. of a delivery that a pump made.
    fn told_next(
        &self,
        machine: &Machine,
        number: usize,
        delivery: &DeliveryStep,
    ) -> Result<Vec<u8>, TextFault>
        ensures told { IfOk result (λ answer. ExplainsNext machine.now.config machine.now.slices.items
            delivery.now (Some []) (Some answer.items)) }
        ensures fault { IfErr result IsOfRun }
    {
        let mut answer = Vec::new(self.alloc);
        let explaining = Explaining { alloc: self.alloc };
        match explaining.write_next(machine, number, *delivery, &mut answer) {
            Ok(()) => Ok(answer),
            Err(_) => Err(TextFault::NoMemory),
        }
    }
}
