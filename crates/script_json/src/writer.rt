//! Writes the items of answers.
ghost use Rattle.std.specs.Prelude.{◌≡◌, ◌++◌, ◌%◌, [], IfErr, IfOk, OnOk, Some, None, codes};
ghost use Rattle.std.specs.Io.KnownBytes.{Appends};
ghost use Rattle.address_map.specs.Place.{line_of as line_of_word};
ghost use Rattle.litmus_script.specs.Machine.{HasAt};
ghost use Rattle.litmus_script.specs.Play.{IsOfRun};
ghost use Rattle.litmus_text.specs.Command.{HasCore, IsInRange};
ghost use Rattle.litmus_text.specs.declared.command.Command.TheVariants as commands;
ghost use Rattle.script_explained.specs.Delivery.{told_of_delivery};
ghost use Rattle.script_explained.specs.Explains.{Explains};
ghost use Rattle.script_explained.specs.Hand.{told_of_hand};
ghost use Rattle.script_explained.specs.Step.{command_of};
ghost use Rattle.script_explained.specs.Unrest.{text_of_unrest};
ghost use Rattle.script_json.specs.Answer.{members_of, members_of_delivered, members_of_handed, members_of_made};
ghost use Rattle.script_json.specs.Answer.{members_of_word};
ghost use Rattle.script_json.specs.Value.{item_of};
ghost use Rattle.script_json.specs.Values.{unrest_of, ValueOfAccess, ValueOfEviction};

use super::answer::Answer;
use super::item::write_item;
use super::look::write_look;
use super::told;
use litmus_script::Machine;
use litmus_text::{Statement, TextFault};
use script_explained::{
    AccessStep, DeliveryStep, EvictionStep, Explaining, HandStep, Step, StepWriter, Unrest,
    WordStep,
};
use slice_queues::Pick;
use stats_report::write_text;
use std::alloc::Global;
use std::io::Write;

/// Writes the items of each answer: what became of a command, and what happened.
#[derive(Clone, Copy)]
pub(crate) struct ValueWriter {
    pub(crate) alloc: Global,
}

impl StepWriter for ValueWriter {
    ghost use Rattle.script_json.specs.Values.{Values, ValuesNext};

    ghost writes = { λ _. Values };

    ghost writes_next = { λ _. ValuesNext };

    fn write<W: Write>(
        &self,
        machine: &Machine,
        statement: &Statement<'_>,
        step: &Step,
        out: &mut W,
    ) -> Result<(), TextFault> {
        match step {
            Step::Issue(access) => self.write_access(machine, statement, *access, out),
            Step::Evict(eviction) => self.write_eviction(machine, statement, *eviction, out),
            Step::Deliver(delivery) => self.write_delivery(*delivery, out),
            Step::Hand(hand) => self.write_hand(*hand, out),
            Step::Word(word) => self.write_word(*word, out),
            Step::Pump { pumped, .. } => write_item(Answer::Pump(*pumped), None, out),
            Step::Show { command, text } => write_look(machine, *command, text.as_slice(), out),
        }
    }

    fn write_next<W: Write>(
        &self,
        _machine: &Machine,
        _number: usize,
        delivery: DeliveryStep,
        out: &mut W,
    ) -> Result<(), TextFault> {
        let told = told::of_delivery(self.alloc, delivery.told)?;
        write_made(delivery.pick, told.as_bytes(), out)
    }
}

impl ValueWriter {
    fn write_access<W: Write>(
        &self,
        machine: &Machine,
        statement: &Statement<'_>,
        access: AccessStep,
        out: &mut W,
    ) -> Result<(), TextFault>
        requires { HasCore machine.now.config access.core }
        ensures written { OnOk result (HasAt machine.now.slices.items
            ((line_of_word access.decided.request.word).0 % machine.now.config.slices)
            (λ state. ValueOfAccess access state.view (W.contents out.old) (W.contents out.new))) }
        ensures fault { IfErr result IsOfRun }
    {
        let length = told::length_of_issued(self.alloc, access.issued)?;
        let line = self.explained(machine, statement, &Step::Issue(access))?;
        let told = told::behind(line.as_slice(), length);
        write_item(Answer::Access(access.issued), Some(told), out)
    }

    fn write_eviction<W: Write>(
        &self,
        machine: &Machine,
        statement: &Statement<'_>,
        eviction: EvictionStep,
        out: &mut W,
    ) -> Result<(), TextFault>
        requires { IsInRange machine.now.config (commands.Evict eviction.core eviction.line) }
        ensures written { OnOk result (HasAt machine.now.slices.items
            (eviction.line.0 % machine.now.config.slices)
            (λ state. ValueOfEviction eviction state.view (W.contents out.old) (W.contents out.new))) }
        ensures fault { IfErr result IsOfRun }
    {
        let answer = eviction.eviction.answer;
        let length = told::length_of_evicted(self.alloc, answer)?;
        let line = self.explained(machine, statement, &Step::Evict(eviction))?;
        let told = told::behind(line.as_slice(), length);
        write_item(Answer::Eviction(answer), Some(told), out)
    }

    /// The line that explains a step.
    fn explained(
        &self,
        machine: &Machine,
        statement: &Statement<'_>,
        step: &Step,
    ) -> Result<Vec<u8>, TextFault>
        requires { IsInRange machine.now.config (command_of step.now) }
        ensures told { IfOk result (λ line. Explains machine.now.config machine.now.slices.items
            statement.now.line.now step.now (Some []) (Some line.items)) }
        ensures fault { IfErr result IsOfRun }
    {
        let mut line = Vec::new(self.alloc);
        let explaining = Explaining { alloc: self.alloc };
        match explaining.write(machine, statement, step, &mut line) {
            Ok(()) => Ok(line),
            // writing to memory fails when there is none left
            Err(_) => Err(TextFault::NoMemory),
        }
    }

    fn write_delivery<W: Write>(&self, delivery: DeliveryStep, out: &mut W) -> Result<(), TextFault>
        ensures written { OnOk result (Appends (W.contents out.old) (W.contents out.new)
            (item_of (members_of_delivered delivery.delivered) (Some (told_of_delivery delivery.told)))) }
        ensures fault { IfErr result IsOfRun }
    {
        let told = told::of_delivery(self.alloc, delivery.told)?;
        write_item(
            Answer::Delivery(delivery.delivered),
            Some(told.as_bytes()),
            out,
        )
    }

    fn write_hand<W: Write>(&self, hand: HandStep, out: &mut W) -> Result<(), TextFault>
        ensures written { OnOk result (Appends (W.contents out.old) (W.contents out.new)
            (item_of (members_of_handed hand.handed) (Some (told_of_hand hand.core hand.handed)))) }
        ensures fault { IfErr result IsOfRun }
    {
        let told = told::of_hand(self.alloc, hand)?;
        write_item(Answer::Reply(hand.handed), Some(told.as_bytes()), out)
    }

    fn write_word<W: Write>(&self, word: WordStep, out: &mut W) -> Result<(), TextFault>
        ensures written { OnOk result (Appends (W.contents out.old) (W.contents out.new)
            (item_of (members_of_word word.shown) (unrest_of word.shown word.unrest))) }
        ensures fault { IfErr result IsOfRun }
    {
        let answer = Answer::Word(word.shown);
        match (word.shown, word.unrest) {
            (Some(_), _) => write_item(answer, None, out),
            (None, Some(unrest)) => self.write_unrest(answer, unrest, out),
            (None, None) => write_item(answer, None, out),
        }
    }

    fn write_unrest<W: Write>(
        &self,
        answer: Answer,
        unrest: Unrest,
        out: &mut W,
    ) -> Result<(), TextFault>
        ensures written { OnOk result (Appends (W.contents out.old) (W.contents out.new)
            (item_of (members_of answer) (Some (text_of_unrest unrest)))) }
        ensures fault { IfErr result IsOfRun }
    {
        let told = told::of_unrest(self.alloc, unrest)?;
        write_item(answer, Some(told.as_bytes()), out)
    }
}

/// Writes a delivery that a pump made. It is followed by another, or by what is left.
fn write_made<W: Write>(pick: Pick, told: &[u8], out: &mut W) -> Result<(), TextFault>
    ensures written { OnOk result (Appends (W.contents out.old) (W.contents out.new)
        (item_of (members_of_made pick) (Some told.now) ++ codes ",")) }
    ensures fault { IfErr result IsOfRun }
{
    write_item(Answer::Made(pick), Some(told), out)?;
    match write_text(out, b",") {
        Ok(()) => Ok(()),
        Err(_) => Err(TextFault::CannotWrite),
    }
}
