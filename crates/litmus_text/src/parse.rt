//! The commands of a script, and the accesses in them, which traces write in the same way.
ghost use Rattle.std.specs.Prelude.{◌≡◌, ◌≢◌, ℕ, ◌∷◌, codes, IfOk, IfErr, IfSome, IfNone, map};
ghost use Rattle.address_map.specs.declared.config.Config.{Config};
ghost use Rattle.address_map.specs.declared.request.Op.{Op};
ghost use Rattle.litmus_text.specs.Access.{name_of_access};
ghost use Rattle.litmus_text.specs.Command.{IsFaultOfCommand, IsRead, ReadsAs, parts_of_access, parts_of_op};
ghost use Rattle.litmus_text.specs.Form.{Writes, IsFormFaultOf};
ghost use Rattle.litmus_text.specs.Look.{name_of_machine_look};
ghost use Rattle.litmus_text.specs.Verb.{name_of_verb};
ghost use Rattle.litmus_text.specs.declared.parse.Verb.{Verb};

use super::channel::parse_pick;
use super::command::Command;
use super::fault::LineFault;
use super::look::{Look, MachineLook};
use super::number::{
    core_in, line_in, no_numbers, number, one_number, slice_in, tag_number, three_numbers,
    two_numbers, word_in,
};
use super::slot::Slot;
use super::table::value_named;
use address_map::{Checked, Op, Request, WordAddr};

/// What a line of a script asks for, by its first word.
#[derive(Clone, Copy)]
pub(super) enum Verb {
    Issue,
    Evict,
    Deliver,
    Hand,
    Word,
    State,
    Log,
    Machine(MachineLook),
    Pump,
}

/// Each verb, by its name.
static VERBS: [(&[u8], Verb); 11] = [
    (b"issue", Verb::Issue),
    (b"evict", Verb::Evict),
    (b"deliver", Verb::Deliver),
    (b"hand", Verb::Hand),
    (b"word", Verb::Word),
    (b"state", Verb::State),
    (b"log", Verb::Log),
    (b"stats", Verb::Machine(MachineLook::Stats)),
    (b"waiting", Verb::Machine(MachineLook::Waiting)),
    (b"show", Verb::Machine(MachineLook::Show)),
    (b"pump", Verb::Pump),
];

impl Verb {
    /// Returns the verb with this name.
    pub(super) fn named(name: &[u8]) -> Option<Verb>
        ensures found { IfSome result (λ verb. name.now ≡ name_of_verb verb) }
        ensures none { IfNone result ((verb : Verb) → name.now ≢ name_of_verb verb) }
    {
        value_named(&VERBS, name)
    }

    /// The slots that follow its name.
    pub(super) const fn slots(self) -> &'static [Slot] {
        match self {
            Verb::Issue => &[Slot::Core, Slot::Tag, Slot::Access],
            Verb::Evict => &[Slot::Core, Slot::Line],
            Verb::Deliver => &[Slot::Channel],
            Verb::Hand => &[Slot::Core, Slot::Slice],
            Verb::Word => &[Slot::Word],
            Verb::State => &[Slot::Line],
            Verb::Log => &[Slot::Slice],
            Verb::Machine(_) => &[],
            Verb::Pump => &[Slot::Number],
        }
    }
}

/// Parses the words of a command for a machine of this configuration. Checks first the keywords and
/// the number of words, then the numbers, and last that the machine has what they name.
#[tactic(auto, unfolding(crate::specs::Form::IsFaultOf))]
pub fn parse_command(config: &Checked, words: &[&[u8]]) -> Result<Command, LineFault>
    ensures read { IfOk result (IsRead config.now (map (λ w. w.now) words.now)) }
    ensures fault { IfErr result (IsFaultOfCommand config.now (map (λ w. w.now) words.now)) }
{
    let Some((name, rest)) = words.split_first() else {
        return Err(LineFault::NotACommand);
    };
    let Some(verb) = Verb::named(name) else {
        return Err(LineFault::NotACommand);
    };
    match verb {
        Verb::Issue => parse_issue(config, rest),
        Verb::Evict => parse_evict(config, rest),
        Verb::Deliver => parse_deliver(config, rest),
        Verb::Hand => parse_hand(config, rest),
        Verb::Word => parse_word(config, rest),
        Verb::State => parse_state(config, rest),
        Verb::Log => parse_log(config, rest),
        Verb::Machine(look) => parse_machine(look, rest),
        Verb::Pump => parse_pump(rest),
    }
}

#[tactic(auto, using(crate::proofs::FormLemmas::wrong_count, crate::proofs::FormLemmas::wrong_form))]
fn parse_issue(config: &Checked, words: &[&[u8]]) -> Result<Command, LineFault>
    ensures { ReadsAs config.now (codes "issue" ∷ map (λ w. w.now) words.now) result }
{
    let [core, tag, access @ ..] = words else {
        return Err(LineFault::NotACommand);
    };
    let (op, word) = parse_access(access)?;
    let core = number(core)?;
    let tag = tag_number(tag)?;
    Ok(Command::Issue {
        core: core_in(config, core)?,
        request: Request { op, word, tag },
    })
}

fn parse_evict(config: &Checked, words: &[&[u8]]) -> Result<Command, LineFault>
    ensures { ReadsAs config.now (codes "evict" ∷ map (λ w. w.now) words.now) result }
{
    let (core, line) = two_numbers(words)?;
    Ok(Command::Evict {
        core: core_in(config, core)?,
        line: line_in(config, line)?,
    })
}

fn parse_deliver(config: &Checked, words: &[&[u8]]) -> Result<Command, LineFault>
    ensures { ReadsAs config.now (codes "deliver" ∷ map (λ w. w.now) words.now) result }
{
    Ok(Command::Deliver(parse_pick(config, words)?))
}

fn parse_hand(config: &Checked, words: &[&[u8]]) -> Result<Command, LineFault>
    ensures { ReadsAs config.now (codes "hand" ∷ map (λ w. w.now) words.now) result }
{
    let (core, slice) = two_numbers(words)?;
    Ok(Command::Hand {
        core: core_in(config, core)?,
        slice: slice_in(config, slice)?,
    })
}

fn parse_word(config: &Checked, words: &[&[u8]]) -> Result<Command, LineFault>
    ensures { ReadsAs config.now (codes "word" ∷ map (λ w. w.now) words.now) result }
{
    let word = one_number(words)?;
    Ok(Command::Look(Look::Word(word_in(config, word)?)))
}

fn parse_state(config: &Checked, words: &[&[u8]]) -> Result<Command, LineFault>
    ensures { ReadsAs config.now (codes "state" ∷ map (λ w. w.now) words.now) result }
{
    let line = one_number(words)?;
    Ok(Command::Look(Look::State(line_in(config, line)?)))
}

fn parse_log(config: &Checked, words: &[&[u8]]) -> Result<Command, LineFault>
    ensures { ReadsAs config.now (codes "log" ∷ map (λ w. w.now) words.now) result }
{
    let slice = one_number(words)?;
    Ok(Command::Look(Look::Log(slice_in(config, slice)?)))
}

fn parse_machine(look: MachineLook, words: &[&[u8]]) -> Result<Command, LineFault>
    ensures { (config : Config)
        → ReadsAs config (name_of_machine_look look ∷ map (λ w. w.now) words.now) result }
{
    no_numbers(words)?;
    Ok(Command::Look(Look::Machine(look)))
}

fn parse_pump(words: &[&[u8]]) -> Result<Command, LineFault>
    ensures { (config : Config) → ReadsAs config (codes "pump" ∷ map (λ w. w.now) words.now) result }
{
    Ok(Command::Pump(one_number(words)?))
}

/// What an access does, by its name.
#[derive(Clone, Copy)]
pub(super) enum Access {
    Load,
    Store,
    Add,
    Cas,
}

/// Each access, by its name.
pub(super) static ACCESSES: [(&[u8], Access); 4] = [
    (b"load", Access::Load),
    (b"store", Access::Store),
    (b"add", Access::Add),
    (b"cas", Access::Cas),
];

impl Access {
    /// The slots that follow its name: the word, and its other operands.
    pub(super) const fn slots(self) -> &'static [Slot] {
        match self {
            Access::Load => &[Slot::Number],
            Access::Store | Access::Add => &[Slot::Number, Slot::Number],
            Access::Cas => &[Slot::Number, Slot::Number, Slot::Number],
        }
    }
}

/// Parses an access: its name, its word and its other operands.
pub fn parse_access(words: &[&[u8]]) -> Result<(Op, WordAddr), LineFault>
    ensures written { IfOk result (λ p. Writes (map (λ w. w.now) words.now) (parts_of_op p.0 p.1.0)) }
    ensures refused { IfErr result (λ fault. (op : Op) (word : ℕ)
        → Writes (map (λ w. w.now) words.now) (parts_of_op op word) → ⊥) }
    ensures fault { IfErr result (IsFormFaultOf parts_of_access (map (λ w. w.now) words.now)) }
{
    let Some((name, rest)) = words.split_first() else {
        return Err(LineFault::NotACommand);
    };
    match value_named(&ACCESSES, name) {
        Some(access) => parse_access_called(access, rest),
        None => Err(LineFault::NotACommand),
    }
}

// Parses the words that follow an access's name.
#[tactic(auto, unfolding(crate::specs::Command::parts_of_op))]
fn parse_access_called(access: Access, words: &[&[u8]]) -> Result<(Op, WordAddr), LineFault>
    ensures written { IfOk result
        (λ p. Writes (name_of_access access ∷ map (λ w. w.now) words.now) (parts_of_op p.0 p.1.0)) }
    ensures fault { IfErr result
        (IsFormFaultOf parts_of_access (name_of_access access ∷ map (λ w. w.now) words.now)) }
{
    match access {
        Access::Load => {
            let word = one_number(words)?;
            Ok((Op::Load, WordAddr(word)))
        }
        Access::Store => {
            let (word, value) = two_numbers(words)?;
            Ok((Op::Store(value), WordAddr(word)))
        }
        Access::Add => {
            let (word, delta) = two_numbers(words)?;
            Ok((Op::Add(delta), WordAddr(word)))
        }
        Access::Cas => {
            let (word, expect, new) = three_numbers(words)?;
            Ok((Op::Cas { expect, new }, WordAddr(word)))
        }
    }
}
