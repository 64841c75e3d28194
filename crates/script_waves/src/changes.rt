//! Of the values after a command, those that it changed.
ghost use Rattle.std.specs.Prelude.{◌≡◌, ◌++◌, IfErr, OnOk, codes, drop, slice_get};
ghost use Rattle.std.specs.Io.KnownBytes.{Appends};
ghost use Rattle.std.specs.Option.{option_map};
ghost use Rattle.std.specs.Str.{bytes_eq};
ghost use Rattle.std.specs.Str.Lines.{lines};
ghost use Rattle.litmus_script.specs.Play.{IsOfRun};
ghost use Rattle.script_waves.specs.Changes.{change_of, changes, is_told};

use litmus_text::{Lines, TextFault};
use stats_report::{Cut, write_text};
use std::io::Write;

/// Writes the lines of values that differ from those that were at their places before.
pub(crate) fn write_changes<W: Write>(
    before: &[u8],
    values: &[u8],
    out: &mut W,
) -> Result<(), TextFault>
    ensures written { OnOk result (Appends (W.contents out.old) (W.contents out.new)
        (changes (lines before.now) (lines values.now))) }
    ensures fault { IfErr result IsOfRun }
{
    match write_each(Lines::of(before), Lines::of(values), out) {
        Ok(()) => Ok(()),
        Err(_) => Err(TextFault::CannotWrite),
    }
}

fn write_each<W: Write>(before: Lines<'_>, values: Lines<'_>, out: &mut W) -> Result<(), Cut>
    ensures { OnOk result (Appends (W.contents out.old) (W.contents out.new) (changes before.entry values.entry)) }
{
    let mut told = before;
    for value in values {
        let before = next_line(&mut told);
        write_change(before, value, out)?;
    }
    Ok(())
}

fn next_line<'a>(lines: &mut Lines<'a>) -> Option<&'a [u8]>
    ensures first { option_map (λ line. line.now) result ≡ slice_get lines.old 0 }
    ensures rest { lines.new ≡ drop 1 lines.old }
{
    lines.next()
}

fn write_change<W: Write>(before: Option<&[u8]>, value: &[u8], out: &mut W) -> Result<(), Cut>
    ensures { OnOk result (Appends (W.contents out.old) (W.contents out.new)
        (change_of (option_map (λ line. line.now) before.entry) value.now)) }
{
    if is_told(before, value) {
        write_text(out, b"")
    } else {
        write_line(value, out)
    }
}

/// Whether the value was there before.
fn is_told(before: Option<&[u8]>, value: &[u8]) -> bool
    ensures { result ≡ is_told (option_map (λ line. line.now) before.entry) value.now }
{
    match before {
        Some(line) => is_same(line, value),
        None => false,
    }
}

fn is_same(line: &[u8], value: &[u8]) -> bool
    ensures { result ≡ bytes_eq line.now value.now }
{
    line == value
}

fn write_line<W: Write>(value: &[u8], out: &mut W) -> Result<(), Cut>
    ensures { OnOk result (Appends (W.contents out.old) (W.contents out.new) (value.now ++ codes "\n")) }
{
    write_text(out, value)?;
    write_text(out, b"\n")
}
