//! What texts of JSON (RFC 8259) have in common: lists, whose items have commas between them, and numbers.
//!
//! [`write_comma`] writes the comma before an item. The whole list is `with_commas` of specs/JsonList.antt; the lemmas
//! of proofs/Commas.antt step through a list written by items. A [`Number`] is `number_of` of specs/JsonNumber.antt.
ghost use Rattle.std.specs.Prelude.{OnOk};
ghost use Rattle.std.specs.Fmt.{WritesInCalls};
ghost use Rattle.litmus_text.specs.JsonList.{before_text};

pub use number::{Number, is_exact};
use std::fmt;
use std::fmt::Write;

mod number;

/// Writes a comma before each item of a list but the first.
pub fn write_comma<W: Write>(is_first: bool, out: &mut W) -> fmt::Result
    ensures { OnOk result (WritesInCalls W.write_str_gives out.old (before_text is_first) out.new) }
{
    if is_first {
        return Ok(());
    }
    write!(out, ",")
}
