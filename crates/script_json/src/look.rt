//! What a command shows of a machine.
ghost use Rattle.std.specs.Prelude.{IfErr, OnOk};
ghost use Rattle.std.specs.Fmt.{WritesInCalls};
ghost use Rattle.std.specs.Io.KnownBytes.{Appends};
ghost use Rattle.litmus_script.specs.Play.{IsOfRun};
ghost use Rattle.script_json.specs.Values.{items_moving, items_shown, items_waiting};

use super::held::{Choice, write_lines};
use super::item::write_shown;
use super::slices::write_slices;
use litmus_script::{Machine, TextWriter, written};
use litmus_text::{Command, Look, MachineLook, TextFault};
use std::fmt;
use std::io::Write;

/// Writes what a command shows of a machine, of which this text is printed.
pub(crate) fn write_look<W: Write>(
    machine: &Machine,
    command: Command,
    text: &[u8],
    out: &mut W,
) -> Result<(), TextFault>
    ensures written { OnOk result (Appends (W.contents out.old) (W.contents out.new)
        (items_shown machine.now.config machine.now.slices.items command text.now)) }
    ensures fault { IfErr result IsOfRun }
{
    match command {
        Command::Look(Look::Machine(MachineLook::Waiting)) => write_waiting(machine, out),
        Command::Look(Look::Machine(MachineLook::Show)) => write_moving(machine, out),
        _ => write_shown(text, out),
    }
}

/// Writes the lines where messages wait.
fn write_waiting<W: Write>(machine: &Machine, out: &mut W) -> Result<(), TextFault>
    ensures written { OnOk result (Appends (W.contents out.old) (W.contents out.new)
        (items_waiting machine.now.config machine.now.slices.items)) }
    ensures fault { IfErr result IsOfRun }
{
    let mut answers = TextWriter { out };
    written(write_lines(machine, Choice::Waiting, true, &mut answers))
}

/// Writes all that isn't at rest.
fn write_moving<W: Write>(machine: &Machine, out: &mut W) -> Result<(), TextFault>
    ensures written { OnOk result (Appends (W.contents out.old) (W.contents out.new)
        (items_moving machine.now.config machine.now.slices.items)) }
    ensures fault { IfErr result IsOfRun }
{
    let mut answers = TextWriter { out };
    written(write_all(machine, &mut answers))
}

/// Writes each slice, and then the lines that aren't at rest.
fn write_all<W: fmt::Write>(machine: &Machine, out: &mut W) -> fmt::Result
    ensures { OnOk result (WritesInCalls W.write_str_gives out.old
        (items_moving machine.now.config machine.now.slices.items) out.new) }
{
    write_slices(&machine.config, machine.slices.as_slice(), out)?;
    write_lines(machine, Choice::Moving, false, out)
}
