ghost use Rattle.std.specs.Prelude.{[], ◌∷◌, OnOk};
ghost use Rattle.std.specs.Fmt.{WritesInCalls};
ghost use Rattle.litmus_text.specs.Form.{key, num};
ghost use Rattle.litmus_text.specs.Line.{line_of_parts};

use std::fmt;
use std::fmt::Write;

/// Writes a line of a keyword and a number.
pub(super) fn write_number<W: Write>(name: &str, number: u64, out: &mut W) -> fmt::Result
    ensures { OnOk result (WritesInCalls W.write_str_gives out.old
        (line_of_parts (key name.now ∷ num number ∷ [])) out.new) }
{
    writeln!(out, "{name} {number}")
}

/// Writes a line of a keyword and two numbers.
pub(super) fn write_pair<W: Write>(name: &str, first: u64, second: u64, out: &mut W) -> fmt::Result
    ensures { OnOk result (WritesInCalls W.write_str_gives out.old
        (line_of_parts (key name.now ∷ num first ∷ num second ∷ [])) out.new) }
{
    writeln!(out, "{name} {first} {second}")
}
