//! The command of a delivery as a text of its own.
ghost use Rattle.std.specs.Prelude.{◌≡◌, IfErr, IfOk, OnOk};
ghost use Rattle.std.specs.Fmt.{WritesInCalls};
ghost use Rattle.std.specs.Io.KnownBytes.{Appends};
ghost use Rattle.litmus_script.specs.Play.{IsOfRun};
ghost use Rattle.litmus_text.specs.Command.{parts_of};
ghost use Rattle.litmus_text.specs.declared.command.Command.TheVariants as commands;
ghost use Rattle.litmus_text.specs.Line.{text_of_parts};

use litmus_script::TextWriter;
use litmus_text::{Delivery, TextFault};
use slice_core::Pick;
use std::alloc::Global;
use std::fmt;
use std::io::Write;

/// Returns the command by which a script makes a delivery.
pub fn delivery_text(alloc: Global, pick: Pick) -> Result<Vec<u8>, TextFault>
    ensures text { IfOk result (λ text. text.items ≡ text_of_parts (parts_of (commands.Deliver pick))) }
    ensures fault { IfErr result IsOfRun }
{
    let mut text = Vec::new(alloc);
    match print_delivery(pick, &mut text) {
        Ok(()) => Ok(text),
        Err(_) => Err(TextFault::NoMemory),
    }
}

fn print_delivery<W: Write>(pick: Pick, out: &mut W) -> fmt::Result
    ensures { OnOk result (Appends (W.contents out.old) (W.contents out.new)
        (text_of_parts (parts_of (commands.Deliver pick)))) }
{
    let mut answers = TextWriter { out };
    write_delivery(pick, &mut answers)
}

fn write_delivery<W: fmt::Write>(pick: Pick, out: &mut W) -> fmt::Result
    ensures { OnOk result (WritesInCalls W.write_str_gives out.old
        (text_of_parts (parts_of (commands.Deliver pick))) out.new) }
{
    let delivery = Delivery(pick);
    write!(out, "{delivery}")
}
