//! Replies that are handed out.
ghost use Rattle.std.specs.Prelude.{◌++◌, OnOk, codes};
ghost use Rattle.litmus_script.specs.Answer.{WritesLine, text_of_handed};
ghost use Rattle.script_explained.specs.Hand.{told_of_hand};

use super::step::HandStep;
use slice_text::Performed;
use std::fmt;

/// Writes the reply that was handed out, with the access that it is for.
pub(crate) fn write_hand<W: fmt::Write>(step: HandStep, out: &mut W) -> fmt::Result
    ensures { OnOk result (WritesLine W.write_str_gives out.old
        (text_of_handed step.handed ++ codes "   " ++ told_of_hand step.core step.handed) out.new) }
{
    let Some(given) = step.handed else {
        let number = step.core.0;
        return writeln!(out, "none   core {number}: no reply waits");
    };
    let number = given.number;
    let tag = given.entry.tag;
    let reply = given.entry.reply;
    let performed = Performed(given.entry);
    writeln!(
        out,
        "receipt {number} tag {tag} reply {reply}   {performed}"
    )
}
