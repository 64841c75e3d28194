//! Strings and lists of JSON.
ghost use Rattle.std.specs.Prelude.{◌≡◌, ◌<◌, ◌∷◌, [], IsTrue, OnOk, map};
ghost use Rattle.std.specs.Fmt.{WritesInCalls};
ghost use Rattle.std.specs.List.{flat_map};
ghost use Rattle.slice_json.specs.Json.{hex_digit, is_plain, json_of, list_of_lines, list_of_values, text_as};
ghost use Rattle.litmus_text.specs.JsonList.{with_commas};
ghost use Rattle.slice_json.specs.Json.{text_of_block, text_of_byte, text_of_line_number, text_of_value};

use address_map::{Block, CoreSet, LineAddr};
use litmus_text::write_comma;
use slice_text::Cores;
use std::fmt;
use std::fmt::Write;

/// Writes bytes as a JSON string, in which no HTML tag begins. A byte that isn't ASCII represents the character of its
/// number.
pub fn write_json<W: Write>(bytes: &[u8], out: &mut W) -> fmt::Result
    ensures { OnOk result (WritesInCalls W.write_str_gives out.old (json_of bytes.now) out.new) }
{
    out.write_str("\"")?;
    write_bytes(bytes, out)?;
    out.write_str("\"")
}

fn write_bytes<W: Write>(bytes: &[u8], out: &mut W) -> fmt::Result
    ensures { OnOk result (WritesInCalls W.write_str_gives out.old (flat_map text_of_byte bytes.now) out.new) }
{
    for byte in bytes {
        write_byte(*byte, out)?;
    }
    Ok(())
}

fn write_byte<W: Write>(byte: u8, out: &mut W) -> fmt::Result
    ensures { OnOk result (WritesInCalls W.write_str_gives out.old (text_of_byte byte) out.new) }
{
    write_as(is_plain(byte), byte, out)
}

/// Writes a byte as itself, or by its number.
fn write_as<W: Write>(plain: bool, byte: u8, out: &mut W) -> fmt::Result
    requires { IsTrue plain → byte < 128 }
    ensures { OnOk result (WritesInCalls W.write_str_gives out.old (text_as plain byte) out.new) }
{
    if plain {
        return write_ascii(byte, out);
    }
    out.write_str("\\u00")?;
    write_ascii(hex_digit(byte / 16), out)?;
    write_ascii(hex_digit(byte % 16), out)
}

/// Writes a byte that is an ASCII character.
fn write_ascii<W: Write>(byte: u8, out: &mut W) -> fmt::Result
    requires { byte < 128 }
    ensures { OnOk result (WritesInCalls W.write_str_gives out.old (byte ∷ []) out.new) }
{
    out.write_char(byte as char)
}

/// Whether a byte represents itself.
fn is_plain(byte: u8) -> bool
    ensures plain { result ≡ is_plain byte }
    ensures ascii { IsTrue result → byte < 128 }
{
    matches!(byte, b' '..=b'~') && !matches!(byte, b'"' | b'\\' | b'<')
}

fn hex_digit(number: u8) -> u8
    requires { number < 16 }
    ensures digit { result ≡ hex_digit number }
    ensures ascii { result < 128 }
{
    b"0123456789abcdef"[number as usize]
}

/// Writes a block as a list of its words, or null.
pub fn write_block<W: Write>(block: Option<Block>, out: &mut W) -> fmt::Result
    ensures { OnOk result (WritesInCalls W.write_str_gives out.old (text_of_block block) out.new) }
{
    match block {
        Some(block) => write_values(&block.words, out),
        None => write!(out, "null"),
    }
}

/// Writes a list of words. Each is a string, since a JSON number may be read with fewer bits.
pub fn write_values<W: Write>(words: &[u64], out: &mut W) -> fmt::Result
    ensures { OnOk result (WritesInCalls W.write_str_gives out.old (list_of_values words.now) out.new) }
{
    write!(out, "[")?;
    write_words(words, out)?;
    write!(out, "]")
}

fn write_words<W: Write>(words: &[u64], out: &mut W) -> fmt::Result
    ensures { OnOk result (WritesInCalls W.write_str_gives out.old
        (with_commas (map text_of_value words.now)) out.new) }
{
    let mut is_first = true;
    for word in words {
        write_comma(is_first, out)?;
        is_first = false;
        write_value(*word, out)?;
    }
    Ok(())
}

fn write_value<W: Write>(value: u64, out: &mut W) -> fmt::Result
    ensures { OnOk result (WritesInCalls W.write_str_gives out.old (text_of_value value) out.new) }
{
    write!(out, "\"{value}\"")
}

/// Writes a list of lines by their numbers.
pub fn write_lines<W: Write>(lines: &[LineAddr], out: &mut W) -> fmt::Result
    ensures { OnOk result (WritesInCalls W.write_str_gives out.old (list_of_lines lines.now) out.new) }
{
    write!(out, "[")?;
    write_numbers(lines, out)?;
    write!(out, "]")
}

fn write_numbers<W: Write>(lines: &[LineAddr], out: &mut W) -> fmt::Result
    ensures { OnOk result (WritesInCalls W.write_str_gives out.old
        (with_commas (map text_of_line_number lines.now)) out.new) }
{
    let mut is_first = true;
    for line in lines {
        write_comma(is_first, out)?;
        is_first = false;
        write_number(*line, out)?;
    }
    Ok(())
}

fn write_number<W: Write>(line: LineAddr, out: &mut W) -> fmt::Result
    ensures { OnOk result (WritesInCalls W.write_str_gives out.old (text_of_line_number line) out.new) }
{
    let LineAddr(line) = line;
    write!(out, "{line}")
}

/// The cores of a set as a list.
#[derive(Clone, Copy)]
pub struct CoreList(pub CoreSet);

impl fmt::Display for CoreList {
    ghost use Rattle.std.specs.Prelude.{Some};
    ghost use Rattle.slice_json.specs.Json.{list_of_cores};

    ghost output = { λ cores. Some (list_of_cores cores.0) };

    fn fmt<W: fmt::Write>(&self, f: &mut fmt::Formatter<W>) -> fmt::Result {
        if self.0.is_empty() {
            return f.write_str("[]");
        }
        write!(f, "[{}]", Cores(self.0))
    }
}
