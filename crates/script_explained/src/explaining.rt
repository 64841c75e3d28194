//! Writes each answer with what happened after it.
ghost use Rattle.std.specs.Prelude.{◌≡◌, ◌++◌, ◌/◌, ◌%◌, IfErr, OnOk, codes};
ghost use Rattle.std.specs.Io.KnownBytes.{Appends};
ghost use Rattle.address_map.specs.Place.{line_of as line_of_word};
ghost use Rattle.litmus_script.specs.Answer.{text_of_handed, text_of_pumped, text_of_word};
ghost use Rattle.litmus_script.specs.Machine.{HasAt};
ghost use Rattle.litmus_script.specs.Play.{IsOfRun};
ghost use Rattle.litmus_script.specs.Prints.{Adds};
ghost use Rattle.litmus_text.specs.Command.{HasCore};
ghost use Rattle.script_explained.specs.Delivery.{told_of_delivery};
ghost use Rattle.script_explained.specs.Hand.{told_of_hand};
ghost use Rattle.script_explained.specs.Issue.{TellsAccess, TellsEviction};
ghost use Rattle.script_explained.specs.Unrest.{told_of_word};
ghost use Rattle.slice_answer.specs.Text.{text_of_delivered};

use super::delivery::{write_delivered, write_made};
use super::hand::write_hand;
use super::issue::{write_access, write_evicted};
use super::step::{AccessStep, DeliveryStep, EvictionStep, HandStep, Step, WordStep};
use super::stepper::StepWriter;
use super::unrest::write_word;
use litmus_script::{Machine, Pumped, TextWriter, write_pumped, written};
use litmus_text::{Statement, TextFault};
use stats_report::write_text;
use std::alloc::Global;
use std::io::Write;

/// Writes each answer, and after it what was decided and done.
#[derive(Clone, Copy)]
pub struct Explaining {
    pub alloc: Global,
}

impl StepWriter for Explaining {
    ghost use Rattle.script_explained.specs.Explains.{Explains, ExplainsNext};

    ghost writes = { λ _. Explains };

    ghost writes_next = { λ _. ExplainsNext };

    fn write<W: Write>(
        &self,
        machine: &Machine,
        _statement: &Statement<'_>,
        step: &Step,
        out: &mut W,
    ) -> Result<(), TextFault> {
        match step {
            Step::Issue(access) => explain_access(self.alloc, machine, *access, out),
            Step::Evict(eviction) => explain_eviction(self.alloc, machine, *eviction, out),
            Step::Deliver(delivery) => explain_delivery(*delivery, out),
            Step::Hand(hand) => explain_hand(*hand, out),
            Step::Word(word) => explain_word(*word, out),
            Step::Pump { pumped, .. } => explain_pump(*pumped, out),
            Step::Show { text, .. } => explain_show(text.as_slice(), out),
        }
    }

    fn write_next<W: Write>(
        &self,
        _machine: &Machine,
        _number: usize,
        delivery: DeliveryStep,
        out: &mut W,
    ) -> Result<(), TextFault> {
        let mut answers = TextWriter { out };
        written(write_made(delivery, &mut answers))
    }
}

fn explain_access<W: Write>(
    alloc: Global,
    machine: &Machine,
    access: AccessStep,
    out: &mut W,
) -> Result<(), TextFault>
    requires { HasCore machine.now.config access.core }
    ensures told { OnOk result (HasAt machine.now.slices.items
        ((line_of_word access.decided.request.word).0 % machine.now.config.slices)
        (λ state. TellsAccess access state.view (W.contents out.old) (W.contents out.new))) }
    ensures fault { IfErr result IsOfRun }
{
    let slice = machine.slice_of(access.decided.request.word.line());
    write_access(alloc, &machine.slices[slice], access, out)
}

fn explain_eviction<W: Write>(
    alloc: Global,
    machine: &Machine,
    eviction: EvictionStep,
    out: &mut W,
) -> Result<(), TextFault>
    requires { HasCore machine.now.config eviction.core }
    ensures told { OnOk result (HasAt machine.now.slices.items
        (eviction.line.0 % machine.now.config.slices)
        (λ state. TellsEviction eviction state.view (W.contents out.old) (W.contents out.new))) }
    ensures fault { IfErr result IsOfRun }
{
    let slice = machine.slice_of(eviction.line);
    write_evicted(alloc, &machine.slices[slice], eviction, out)
}

fn explain_delivery<W: Write>(delivery: DeliveryStep, out: &mut W) -> Result<(), TextFault>
    ensures told { OnOk result (Adds (W.contents out.old) (W.contents out.new)
        (text_of_delivered delivery.delivered ++ codes "   " ++ told_of_delivery delivery.told)) }
    ensures fault { IfErr result IsOfRun }
{
    let mut answers = TextWriter { out };
    written(write_delivered(delivery, &mut answers))
}

fn explain_hand<W: Write>(hand: HandStep, out: &mut W) -> Result<(), TextFault>
    ensures told { OnOk result (Adds (W.contents out.old) (W.contents out.new)
        (text_of_handed hand.handed ++ codes "   " ++ told_of_hand hand.core hand.handed)) }
    ensures fault { IfErr result IsOfRun }
{
    let mut answers = TextWriter { out };
    written(write_hand(hand, &mut answers))
}

fn explain_word<W: Write>(word: WordStep, out: &mut W) -> Result<(), TextFault>
    ensures told { OnOk result (Adds (W.contents out.old) (W.contents out.new)
        (text_of_word word.shown ++ told_of_word word.shown word.unrest)) }
    ensures fault { IfErr result IsOfRun }
{
    let mut answers = TextWriter { out };
    written(write_word(word, &mut answers))
}

fn explain_pump<W: Write>(pumped: Pumped, out: &mut W) -> Result<(), TextFault>
    ensures told { OnOk result (Adds (W.contents out.old) (W.contents out.new) (text_of_pumped pumped)) }
    ensures fault { IfErr result IsOfRun }
{
    let mut answers = TextWriter { out };
    written(write_pumped(pumped, &mut answers))
}

fn explain_show<W: Write>(text: &[u8], out: &mut W) -> Result<(), TextFault>
    ensures told { OnOk result (Appends (W.contents out.old) (W.contents out.new) text.now) }
    ensures fault { IfErr result IsOfRun }
{
    match write_text(out, text) {
        Ok(()) => Ok(()),
        Err(_) => Err(TextFault::CannotWrite),
    }
}
