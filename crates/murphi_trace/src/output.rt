//! The pieces of a script.
ghost use Rattle.std.specs.Prelude.{◌++◌, OnOk, codes};
ghost use Rattle.std.specs.Fmt.{WritesInCalls};
ghost use Rattle.std.specs.Io.KnownBytes.{Appends};
ghost use Rattle.litmus_text.specs.Command.{parts_of};
ghost use Rattle.litmus_text.specs.Line.{line_of_parts};
ghost use Rattle.litmus_text.specs.SettingsLines.{text_of_lines};
ghost use Rattle.murphi_trace.specs.Fired.{name_and_cores};
ghost use Rattle.murphi_trace.specs.Script.{comment_of, exclusive_line, machine_lines};

use super::fired::Fired;
use litmus_script::TextWriter;
use litmus_text::{Command, write_command};
use stats_report::write_text;
use std::fmt;
use std::io::Write;

/// Writes the lines that configure the machine.
pub(crate) fn put_machine<W: Write>(cores: u8, exclusive: bool, out: &mut W) -> fmt::Result
    ensures { OnOk result (Appends (W.contents out.old) (W.contents out.new)
        (text_of_lines (machine_lines cores exclusive))) }
{
    let mut answers = TextWriter { out };
    match write_machine(cores, exclusive, &mut answers) {
        Ok(()) => Ok(()),
        Err(error) => Err(error),
    }
}

fn write_machine<W: fmt::Write>(cores: u8, exclusive: bool, out: &mut W) -> fmt::Result
    ensures { OnOk result (WritesInCalls W.write_str_gives out.old
        (text_of_lines (machine_lines cores exclusive)) out.new) }
{
    writeln!(out, "cores {cores}")?;
    write_exclusive(exclusive, out)
}

fn write_exclusive<W: fmt::Write>(exclusive: bool, out: &mut W) -> fmt::Result
    ensures { OnOk result (WritesInCalls W.write_str_gives out.old (text_of_lines (exclusive_line exclusive)) out.new) }
{
    if exclusive {
        writeln!(out, "exclusive on")
    } else {
        Ok(())
    }
}

/// Writes a rule's name and its cores as a comment.
pub(crate) fn put_comment<W: Write>(fired: Fired<'_>, out: &mut W) -> fmt::Result
    ensures { OnOk result (Appends (W.contents out.old) (W.contents out.new)
        (comment_of (name_and_cores fired.entry))) }
{
    put(b"# ", out)?;
    put(fired.name, out)?;
    put(fired.cores, out)?;
    put(b"\n", out)
}

fn put<W: Write>(bytes: &[u8], out: &mut W) -> fmt::Result
    ensures { OnOk result (Appends (W.contents out.old) (W.contents out.new) bytes.now) }
{
    match write_text(out, bytes) {
        Ok(()) => Ok(()),
        Err(_) => Err(fmt::Error),
    }
}

/// Writes a command.
pub(crate) fn put_command<W: Write>(command: Command, out: &mut W) -> fmt::Result
    ensures { OnOk result (Appends (W.contents out.old) (W.contents out.new) (line_of_parts (parts_of command))) }
{
    let mut answers = TextWriter { out };
    match write_command(command, &mut answers) {
        Ok(()) => Ok(()),
        Err(error) => Err(error),
    }
}
