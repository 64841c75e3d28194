ghost use Rattle.std.specs.Prelude.{ℕ, List, [], Option, None, Some, ◌≡◌, IfOk, OnOk, length, map};
ghost use Rattle.std.specs.List.{flat_map};
ghost use Rattle.std.specs.Option.{option_map};
ghost use Rattle.std.specs.Io.KnownBytes.{Appends};
ghost use Rattle.script_test.specs.Judged.{text_of_line, text_of_word, text_of_difference, text_of_count, unlike_of};

use super::judge::Difference;
use itoa::Buffer;
use stats_report::{Cut, write_text};
use std::io::Write;

/// Prints differences, a line each.
pub fn write_differences<W: Write>(differences: &[Difference<'_>], out: &mut W) -> Result<(), Cut>
    ensures { OnOk result (Appends (W.contents out.old) (W.contents out.new)
        (flat_map text_of_difference (map unlike_of differences.now))) }
{
    for difference in differences {
        write_difference(*difference, out)?;
    }
    Ok(())
}

fn write_difference<W: Write>(difference: Difference<'_>, out: &mut W) -> Result<(), Cut>
    ensures { OnOk result (Appends (W.contents out.old) (W.contents out.new)
        (text_of_difference (unlike_of difference.entry))) }
{
    let mut digits = Buffer::new();
    write_text(out, b"line ")?;
    write_text(out, digits.format(difference.line).as_bytes())?;
    write_text(out, b": wanted ")?;
    write_line(difference.wanted, out)?;
    write_text(out, b", got ")?;
    write_line(difference.got, out)?;
    write_word(difference.word, out)?;
    write_text(out, b"\n")
}

/// Prints a line of an answer, or that there is none.
fn write_line<W: Write>(line: Option<&[u8]>, out: &mut W) -> Result<(), Cut>
    ensures { OnOk result
        (Appends (W.contents out.old) (W.contents out.new) (text_of_line (option_map (λ t. t.now) line.entry))) }
{
    match line {
        Some(line) => write_text(out, line),
        None => write_text(out, b"no further line"),
    }
}

/// Prints which word isn't the same, where both lines are there.
fn write_word<W: Write>(word: Option<usize>, out: &mut W) -> Result<(), Cut>
    ensures { OnOk result (Appends (W.contents out.old) (W.contents out.new) (text_of_word word)) }
{
    let Some(number) = word else {
        return Ok(());
    };
    let mut digits = Buffer::new();
    write_text(out, b": word ")?;
    write_text(out, digits.format(number).as_bytes())
}

/// Prints how many lines are as wanted.
pub fn write_count<W: Write>(wanted: usize, out: &mut W) -> Result<(), Cut>
    ensures { OnOk result (Appends (W.contents out.old) (W.contents out.new) (text_of_count wanted)) }
{
    let mut digits = Buffer::new();
    write_text(out, b"as wanted: ")?;
    write_text(out, digits.format(wanted).as_bytes())?;
    write_text(out, b" lines\n")
}
