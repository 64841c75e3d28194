//! The texts that make up the values.
ghost use Rattle.std.specs.Prelude.{◌≡◌, OnOk, map};
ghost use Rattle.std.specs.Io.KnownBytes.{Appends};
ghost use Rattle.std.specs.List.{flat_map, list_all};
ghost use Rattle.litmus_text.specs.JsonList.{before_text, with_commas};
ghost use Rattle.litmus_text.specs.Text.{words_of_line};
ghost use Rattle.script_json.specs.Text.{escaped, is_digit, is_exact, is_number, quoted, value_of};

use litmus_text::Words;
use stats_report::{Cut, write_text};
use std::io::Write;

/// Writes what is before an item of a list: a comma, but before the first.
pub(crate) fn write_before<W: Write>(is_first: bool, out: &mut W) -> Result<(), Cut>
    ensures { OnOk result (Appends (W.contents out.old) (W.contents out.new) (before_text is_first)) }
{
    if is_first {
        write_text(out, b"")
    } else {
        write_text(out, b",")
    }
}

/// Writes a text between quotes.
pub(crate) fn write_quoted<W: Write>(text: &[u8], out: &mut W) -> Result<(), Cut>
    ensures { OnOk result (Appends (W.contents out.old) (W.contents out.new) (quoted text.now)) }
{
    write_text(out, b"\"")?;
    write_escaped(text, out)?;
    write_text(out, b"\"")
}

fn write_escaped<W: Write>(text: &[u8], out: &mut W) -> Result<(), Cut>
    ensures { OnOk result
        (Appends (W.contents out.old) (W.contents out.new) (flat_map escaped text.now)) }
{
    for byte in text {
        write_byte(*byte, out)?;
    }
    Ok(())
}

fn write_byte<W: Write>(byte: u8, out: &mut W) -> Result<(), Cut>
    ensures { OnOk result (Appends (W.contents out.old) (W.contents out.new) (escaped byte)) }
{
    if byte == b'"' {
        write_text(out, b"\\\"")
    } else if byte == b'\\' {
        write_text(out, b"\\\\")
    } else if byte == b'\t' {
        write_text(out, b"\\t")
    } else {
        write_text(out, &[byte])
    }
}

/// Writes the words of a line, each as a value.
pub(crate) fn write_words<W: Write>(line: &[u8], out: &mut W) -> Result<(), Cut>
    ensures { OnOk result (Appends (W.contents out.old) (W.contents out.new)
        (with_commas (map value_of (words_of_line line.now)))) }
{
    write_each(Words::of_line(line), out)
}

fn write_each<W: Write>(words: Words<'_>, out: &mut W) -> Result<(), Cut>
    ensures { OnOk result (Appends (W.contents out.old) (W.contents out.new)
        (with_commas (map value_of words.entry))) }
{
    let mut is_first = true;
    for word in words {
        write_before(is_first, out)?;
        is_first = false;
        write_value(word, out)?;
    }
    Ok(())
}

/// Writes a number of at most 15 digits as it is, and any other word between quotes.
pub(crate) fn write_value<W: Write>(word: &[u8], out: &mut W) -> Result<(), Cut>
    ensures { OnOk result (Appends (W.contents out.old) (W.contents out.new) (value_of word.now)) }
{
    if is_exact(word) {
        write_text(out, word)
    } else {
        write_quoted(word, out)
    }
}

fn is_exact(word: &[u8]) -> bool
    ensures { result ≡ is_exact word.now }
{
    is_number(word) && word.len() <= 15
}

/// Whether a word is a number as JSON writes it.
pub(crate) fn is_number(word: &[u8]) -> bool
    ensures { result ≡ is_number word.now }
{
    match word {
        [] => false,
        [first] => is_digit(*first),
        [first, ..] => *first != b'0' && are_digits(word),
    }
}

fn are_digits(word: &[u8]) -> bool
    ensures { result ≡ list_all is_digit word.now }
{
    word.iter().all(|byte| is_digit(*byte))
}

fn is_digit(byte: u8) -> bool
    ensures { result ≡ is_digit byte }
{
    b'0' <= byte && byte <= b'9'
}
