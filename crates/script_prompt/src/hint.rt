//! What helps with a line that can't be taken. No contract specifies it: `tests/suite/prompt.py` tests it.

use super::help::HELP;
use super::own::own_word;
use litmus_text::{LineFault, Slot, Statements, TextFault};
use script_explained::{Misfit, expected};
use std::alloc::Global;
use std::fmt;
use std::str::from_utf8;

/// What could be in a line instead.
#[derive(Clone, Copy)]
pub(crate) enum Hint<'a> {
    /// Lines of other words: this one's first word is none of the prompt's.
    Help,
    /// A line of the same first word, as it is written.
    Usage(&'static str),
    Misfit(Misfit<'a>),
}

/// Returns what could be in the last line of the text, which begins with this word and has this fault.
pub(crate) fn hint_of<'a>(
    alloc: Global,
    text: &'a [u8],
    name: &[u8],
    fault: LineFault,
) -> Option<Hint<'a>> {
    if own_word(name).is_some() {
        return own_hint(name, fault);
    }
    if Slot::Name.behind(name).is_none() {
        return Some(Hint::Help);
    }
    let number = last_number(text);
    let misfit = expected(alloc, text, TextFault::Line { number, fault })?;
    Some(Hint::Misfit(misfit))
}

// Returns how lines of a word of the prompt's own are written, if this one isn't written so.
fn own_hint<'a>(name: &[u8], fault: LineFault) -> Option<Hint<'a>> {
    if let LineFault::OutOfRange = fault {
        return None;
    }
    let usage = usage_of(from_utf8(name).ok()?)?;
    Some(Hint::Usage(usage))
}

// Returns how lines of this word are written, as the help has it.
fn usage_of(name: &str) -> Option<&'static str> {
    for line in HELP.lines() {
        let line = line.trim();
        if line.strip_prefix(name).is_some() {
            return match line.split_once("  ") {
                Some((usage, _)) => Some(usage),
                None => Some(line),
            };
        }
    }
    None
}

// Returns the number of the last line of a text that has words.
fn last_number(text: &[u8]) -> usize {
    let mut number = 0;
    for statement in Statements::of(text) {
        number = statement.number;
    }
    number
}

impl fmt::Display for Hint<'_> {
    fn fmt<W: fmt::Write>(&self, f: &mut fmt::Formatter<W>) -> fmt::Result {
        match *self {
            Hint::Help => f.write_str("help lists what can be asked"),
            Hint::Usage(usage) => f.write_str(usage),
            Hint::Misfit(misfit) => write!(f, "{misfit}"),
        }
    }
}
