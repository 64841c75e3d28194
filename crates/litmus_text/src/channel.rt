ghost use Rattle.std.specs.Prelude.{◌≡◌, ◌≢◌, [], ◌∷◌, IfOk, IfErr, IfSome, IfNone, map};
ghost use Rattle.litmus_text.specs.Class.{name_of_class};
ghost use Rattle.litmus_text.specs.declared.channel.Class.{Class};
ghost use Rattle.litmus_text.specs.Form.{Writes, HasForm, IsFaultOf, num, two_parts};
ghost use Rattle.litmus_text.specs.Command.{ReadsAsPick, HasCore, HasLine, HasLineAndCore};

use super::fault::LineFault;
use super::number::{core_in, line_in, one_number, three_numbers, two_numbers};
use super::slot::Slot;
use super::table::value_named;
use address_map::{Checked, CoreId, LineAddr};
use slice_queues::Pick;

/// The class of the messages in a channel.
#[derive(Clone, Copy)]
pub(super) enum Class {
    Req,
    Fwd,
    Data,
    Ack,
    Home,
}

/// Each class, by its name.
static CLASSES: [(&[u8], Class); 5] = [
    (b"req", Class::Req),
    (b"fwd", Class::Fwd),
    (b"data", Class::Data),
    (b"ack", Class::Ack),
    (b"home", Class::Home),
];

impl Class {
    /// The slots that follow its name.
    pub(super) const fn slots(self) -> &'static [Slot] {
        match self {
            Class::Req | Class::Fwd | Class::Data => &[Slot::Line, Slot::Core],
            Class::Ack => &[Slot::Line, Slot::Core, Slot::Core],
            Class::Home => &[Slot::Line],
        }
    }
}

/// Parses a channel: its class, its line and its cores.
pub(super) fn parse_pick(config: &Checked, words: &[&[u8]]) -> Result<Pick, LineFault>
    ensures { ReadsAsPick config.now (map (λ w. w.now) words.now) result }
{
    let Some((name, rest)) = words.split_first() else {
        return Err(LineFault::NotACommand);
    };
    match class_named(name) {
        Some(class) => parse_pick_called(config, class, rest),
        None => Err(LineFault::NotACommand),
    }
}

pub(super) fn class_named(name: &[u8]) -> Option<Class>
    ensures found { IfSome result (λ class. name.now ≡ name_of_class class) }
    ensures none { IfNone result ((class : Class) → name.now ≢ name_of_class class) }
{
    value_named(&CLASSES, name)
}

// Parses the words that follow a channel's class.
#[tactic(auto, unfolding(crate::specs::Command::parts_of_pick, crate::specs::Command::HasPick))]
fn parse_pick_called(config: &Checked, class: Class, words: &[&[u8]]) -> Result<Pick, LineFault>
    ensures { ReadsAsPick config.now (name_of_class class ∷ map (λ w. w.now) words.now) result }
{
    match class {
        Class::Req => {
            let (line, core) = line_and_core(config, words)?;
            Ok(Pick::Req(line, core))
        }
        Class::Fwd => {
            let (line, core) = line_and_core(config, words)?;
            Ok(Pick::Fwd(line, core))
        }
        Class::Data => {
            let (line, core) = line_and_core(config, words)?;
            Ok(Pick::Data(line, core))
        }
        Class::Ack => {
            let (line, to, from) = three_numbers(words)?;
            Ok(Pick::Ack {
                line: line_in(config, line)?,
                to: core_in(config, to)?,
                from: core_in(config, from)?,
            })
        }
        Class::Home => {
            let line = one_number(words)?;
            Ok(Pick::Home(line_in(config, line)?))
        }
    }
}

fn line_and_core(config: &Checked, words: &[&[u8]]) -> Result<(LineAddr, CoreId), LineFault>
    ensures written { IfOk result (λ p. Writes (map (λ w. w.now) words.now) (num p.0.0 ∷ num p.1.0 ∷ [])) }
    ensures line { IfOk result (λ p. HasLine config.now p.0) }
    ensures core { IfOk result (λ p. HasCore config.now p.1) }
    ensures fault { IfErr result
        (IsFaultOf (λ p. HasForm (map (λ w. w.now) words.now) (two_parts p))
        (λ p. Writes (map (λ w. w.now) words.now) (two_parts p)) (HasLineAndCore config.now)) }
{
    let (line, core) = two_numbers(words)?;
    Ok((line_in(config, line)?, core_in(config, core)?))
}
