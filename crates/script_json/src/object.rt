//! A command and its answer as one value.
ghost use Rattle.std.specs.Prelude.{OnOk, decimal};
ghost use Rattle.std.specs.Io.KnownBytes.{Appends};
ghost use Rattle.script_json.specs.Value.{head_of, object_of, tail_of};

use super::call::write_call;
use super::text::write_quoted;
use itoa::Buffer;
use litmus_text::{Command, TextFault};
use stats_report::{Cut, write_text};
use std::io::Write;

/// Writes the value of a command: the number of its line, the line, the command as data, and the items of its answer.
pub(crate) fn write_object<W: Write>(
    number: u64,
    line: &[u8],
    command: Command,
    items: &[u8],
    out: &mut W,
) -> Result<(), TextFault>
    ensures { OnOk result (Appends (W.contents out.old) (W.contents out.new)
        (object_of number line.now command items.now)) }
{
    begin(number, line, out)?;
    write_call(command, out)?;
    end(items, out)
}

fn begin<W: Write>(number: u64, line: &[u8], out: &mut W) -> Result<(), TextFault>
    ensures { OnOk result (Appends (W.contents out.old) (W.contents out.new) (head_of number line.now)) }
{
    match write_head(number, line, out) {
        Ok(()) => Ok(()),
        Err(_) => Err(TextFault::CannotWrite),
    }
}

fn end<W: Write>(items: &[u8], out: &mut W) -> Result<(), TextFault>
    ensures { OnOk result (Appends (W.contents out.old) (W.contents out.new) (tail_of items.now)) }
{
    match write_tail(items, out) {
        Ok(()) => Ok(()),
        Err(_) => Err(TextFault::CannotWrite),
    }
}

fn write_head<W: Write>(number: u64, line: &[u8], out: &mut W) -> Result<(), Cut>
    ensures { OnOk result (Appends (W.contents out.old) (W.contents out.new) (head_of number line.now)) }
{
    write_text(out, b"{\"line\":")?;
    write_number(number, out)?;
    write_text(out, b",\"command\":")?;
    write_quoted(line, out)?;
    write_text(out, b",\"call\":")
}

fn write_number<W: Write>(number: u64, out: &mut W) -> Result<(), Cut>
    ensures { OnOk result (Appends (W.contents out.old) (W.contents out.new) (decimal number)) }
{
    let mut buffer = Buffer::new();
    write_text(out, buffer.format(number).as_bytes())
}

fn write_tail<W: Write>(items: &[u8], out: &mut W) -> Result<(), Cut>
    ensures { OnOk result (Appends (W.contents out.old) (W.contents out.new) (tail_of items.now)) }
{
    write_text(out, b",\"answer\":[")?;
    write_text(out, items)?;
    write_text(out, b"]}\n")
}
