//! What a line at fault was expected to contain.
//!
//! This is a hint for the reader of a fault, and no contract specifies it: `tests/suite/expected.py` tests it.

use address_map::Checked;
use litmus_script::Script;
use litmus_text::{LineFault, Slot, Statements, TextFault, parse_number};
use std::alloc::Global;
use std::fmt;
use std::str::from_utf8;

/// The largest tag that can be written.
const LAST_TAG: u64 = 255;

/// What a line's numbers are checked against: the fault that the line has, and the machine, if there is one.
#[derive(Drop)]
struct Judge {
    fault: LineFault,
    config: Option<Checked>,
}

impl Judge {
    /// Returns the largest number that can be there, if there is one.
    fn most(&self, slot: Slot) -> Option<u64> {
        if let Slot::Tag = slot {
            return Some(LAST_TAG);
        }
        let config = self.config.as_ref()?;
        let many = match slot {
            Slot::Core => config.cores() as u64,
            Slot::Slice => config.slices() as u64,
            Slot::Line => config.lines() as u64,
            Slot::Word => (config.lines() as u64).saturating_mul(8),
            _ => return None,
        };
        Some(many.saturating_sub(1))
    }

    /// Whether a word can be a number there, as far as this fault goes.
    fn takes(&self, slot: Slot, word: &[u8]) -> bool {
        let number = parse_number(word);
        match (self.fault, number) {
            (LineFault::BadNumber, None) => false,
            (LineFault::BadNumber, Some(number)) => {
                !matches!(slot, Slot::Tag) || number <= LAST_TAG
            }
            (LineFault::OutOfRange, Some(number)) => match self.most(slot) {
                Some(most) => number <= most,
                None => true,
            },
            _ => true,
        }
    }

    /// Returns what follows the word, if it can be there itself.
    fn behind(&self, slot: Slot, rest: &'static [Slot], word: &[u8]) -> Option<&'static [Slot]> {
        match slot {
            Slot::Name
            | Slot::Channel
            | Slot::Access
            | Slot::Policy
            | Slot::Misses
            | Slot::Setting => slot.behind(word),
            _ if self.takes(slot, word) => Some(rest),
            _ => None,
        }
    }

    /// Returns the first word that can't be where it is, or the end of a line that lacks one.
    fn first_misfit<'a>(&self, words: &[&'a [u8]]) -> Option<Misfit<'a>> {
        let mut slots: &'static [Slot] = &[Slot::Name];
        for word in words {
            let Some((slot, rest)) = slots.split_first() else {
                return Some(Misfit {
                    found: Some(word),
                    wanted: Wanted::End,
                });
            };
            match self.behind(*slot, rest, word) {
                Some(behind) => slots = behind,
                None => return Some(self.wanted(Some(word), *slot)),
            }
        }
        let slot = slots.first()?;
        Some(self.wanted(None, *slot))
    }

    fn wanted<'a>(&self, found: Option<&'a [u8]>, slot: Slot) -> Misfit<'a> {
        Misfit {
            found,
            wanted: Wanted::Slot(slot, self.most(slot)),
        }
    }
}

/// What was expected where a word, or the end of the line, was found.
#[derive(Clone, Copy)]
enum Wanted {
    /// This, up to a largest number if it has one.
    Slot(Slot, Option<u64>),
    End,
    /// A place before the first command.
    Earlier,
}

/// The first word of a line that fits nothing, and what could be there.
#[derive(Clone, Copy)]
pub struct Misfit<'a> {
    found: Option<&'a [u8]>,
    wanted: Wanted,
}

/// Returns what the line at fault was expected to contain, if the fault is a line's.
pub fn expected(alloc: Global, input: &[u8], fault: TextFault) -> Option<Misfit<'_>> {
    let TextFault::Line { number, fault } = fault else {
        return None;
    };
    for statement in Statements::of(input) {
        if statement.number == number {
            return expected_of(alloc, input, statement.words.as_slice(), fault);
        }
    }
    None
}

fn expected_of<'a>(
    alloc: Global,
    input: &[u8],
    words: &[&'a [u8]],
    fault: LineFault,
) -> Option<Misfit<'a>> {
    if let LineFault::LateConfiguration = fault {
        return Some(Misfit {
            found: Some(words.first()?),
            wanted: Wanted::Earlier,
        });
    }
    let config = match Script::read(alloc, input) {
        Ok(Some(Script { config, .. })) => Some(config),
        _ => None,
    };
    let judge = Judge { fault, config };
    judge.first_misfit(words)
}

/// Returns what can be at a place, in words.
const fn text_of(slot: Slot) -> &'static str {
    match slot {
        Slot::Name => {
            "issue, evict, deliver, pump, hand, word, state, waiting, show, stats, log, or a field of the configuration"
        }
        Slot::Channel => "req, fwd, data, ack or home",
        Slot::Access => "load, store, add or cas",
        Slot::Policy => "lru, fifo or random",
        Slot::Misses => "explicit or inverted",
        Slot::Setting => "on or off",
        Slot::Core => "a core",
        Slot::Line => "a line",
        Slot::Slice => "a slice",
        Slot::Word => "a word",
        Slot::Tag => "a tag",
        Slot::Number => "a number",
    }
}

impl fmt::Display for Misfit<'_> {
    fn fmt<W: fmt::Write>(&self, f: &mut fmt::Formatter<W>) -> fmt::Result {
        match self.found {
            Some(word) => write_word(word, f)?,
            None => f.write_str("end of the line")?,
        }
        match self.wanted {
            Wanted::Slot(slot, most) => {
                let text = text_of(slot);
                match most {
                    Some(most) => write!(f, ": {text}, 0 to {most}"),
                    None => write!(f, ": {text}"),
                }
            }
            Wanted::End => f.write_str(": the end of the line"),
            Wanted::Earlier => f.write_str(": before the first command"),
        }
    }
}

/// Writes a word, if all of it can be printed.
fn write_word<W: fmt::Write>(word: &[u8], f: &mut fmt::Formatter<W>) -> fmt::Result {
    match from_utf8(word) {
        Ok(text) if word.iter().all(|byte| byte.is_ascii_graphic()) => write!(f, "'{text}'"),
        _ => f.write_str("a word that isn't printed"),
    }
}
