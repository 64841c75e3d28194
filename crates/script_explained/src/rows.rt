//! A command, and the lines of its answer next to it.
ghost use Rattle.std.specs.Prelude.{◌≡◌, [], OnOk};
ghost use Rattle.std.specs.Io.KnownBytes.{Appends};
ghost use Rattle.std.specs.List.{flat_map};
ghost use Rattle.std.specs.Str.Lines.{lines};
ghost use Rattle.script_explained.specs.Rows.{blanks_behind, row_of, text_beside};

use litmus_text::Lines;
use stats_report::{Cut, write_text};
use std::io::Write;

/// As wide as the column of the commands is.
const BLANKS: &[u8; 38] = b"                                      ";

/// Writes a command's line, and the lines of its answer next to it.
pub(crate) fn write_beside<W: Write>(command: &[u8], answer: &[u8], out: &mut W) -> Result<(), Cut>
    ensures { OnOk result (Appends (W.contents out.old) (W.contents out.new)
        (text_beside command.now (lines answer.now))) }
{
    let mut lines = Lines::of(answer);
    match lines.next() {
        Some(first) => {
            write_row(command, first, out)?;
            write_further(lines, out)
        }
        None => write_row(command, b"", out),
    }
}

/// Writes the lines of an answer after its first, which have no command next to them.
fn write_further<W: Write>(lines: Lines<'_>, out: &mut W) -> Result<(), Cut>
    ensures { OnOk result (Appends (W.contents out.old) (W.contents out.new) (flat_map (row_of []) lines.entry)) }
{
    for line in lines {
        write_row(b"", line, out)?;
    }
    Ok(())
}

fn write_row<W: Write>(command: &[u8], line: &[u8], out: &mut W) -> Result<(), Cut>
    ensures { OnOk result (Appends (W.contents out.old) (W.contents out.new) (row_of command.now line.now)) }
{
    write_text(out, command)?;
    write_text(out, blanks_behind(command))?;
    write_text(out, b"  ")?;
    write_text(out, line)?;
    write_text(out, b"\n")
}

/// Returns the blanks that fill up the column after a command.
fn blanks_behind(command: &[u8]) -> &'static [u8]
    ensures { result.now ≡ blanks_behind command.now }
{
    &BLANKS[command.len().min(BLANKS.len())..]
}
