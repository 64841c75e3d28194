//! The lines of programs.
ghost use Rattle.std.specs.Prelude.{◌≤◌};

use itoa::Buffer;
use std::alloc::AllocError;

/// How many words a line has.
pub(crate) const WORDS: u64 = 8;

/// Adds a line: a word, and numbers.
pub(crate) fn push_line(text: &mut Vec<u8>, word: &str, numbers: &[u64]) -> Result<(), AllocError> {
    text.extend_from_slice(word.as_bytes())?;
    for number in numbers {
        text.extend_from_slice(b" ")?;
        push_number(text, *number)?;
    }
    text.extend_from_slice(b"\n")
}

/// Adds a load of each word from the first to the last.
pub(crate) fn push_loads(text: &mut Vec<u8>, first: u64, last: u64) -> Result<(), AllocError> {
    text.extend_from_slice(b"load ")?;
    push_number(text, first)?;
    text.extend_from_slice(b"..")?;
    push_number(text, last)?;
    text.extend_from_slice(b"\n")
}

/// Adds the lines of a machine with `cores` cores and `lines` lines.
pub(crate) fn push_machine(text: &mut Vec<u8>, cores: u64, lines: u64) -> Result<(), AllocError> {
    push_line(text, "cores", &[cores])?;
    push_line(text, "lines", &[lines])?;
    push_line(text, "sets", &[16])?;
    push_line(text, "ways", &[4])
}

fn push_number(text: &mut Vec<u8>, number: u64) -> Result<(), AllocError> {
    let mut buffer = Buffer::new();
    text.extend_from_slice(buffer.format(number).as_bytes())
}

/// Returns how many lines `words` words take.
pub(crate) fn lines_of(words: u64) -> u64
    ensures { result ≤ words }
{
    words.div_ceil(WORDS)
}
