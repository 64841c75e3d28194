//! The word at which a line is wrong, and what could be there or why it can't.

use super::place::{Place, Sizes};
use litmus_text::{ConfigLine, LineFault, Statement, Statements};
use std::fmt;
use std::str::from_utf8;

/// An invalid line, with the text that it is in.
#[derive(Clone, Copy)]
pub(super) struct WrongLine<'a, 'b> {
    pub input: &'a [u8],
    pub number: usize,
    pub words: &'b [&'a [u8]],
    pub fault: LineFault,
}

/// What was found where something else was expected.
#[derive(Clone, Copy)]
pub(super) enum Found<'a> {
    Word(&'a [u8]),
    /// A word of the line with this number.
    WordAt(&'a [u8], usize),
    End,
}

/// What was expected there.
#[derive(Clone, Copy)]
pub(super) enum Wanted {
    /// This, between two numbers if they are bounded.
    Place(Place, Option<(u64, u64)>),
    End,
    /// As the text says.
    Text(&'static str),
    /// As the text says with the number of a line.
    Line(&'static str, usize),
}

/// The word at which a line is wrong.
#[derive(Clone, Copy)]
pub(super) struct Misfit<'a> {
    pub found: Found<'a>,
    pub wanted: Wanted,
}

/// The words that a first line may have.
#[derive(Clone, Copy)]
pub(super) struct Head {
    pub name: &'static [u8],
    /// All of its forms, in words.
    pub forms: &'static str,
    /// What follows the name, in words.
    pub numbers: &'static str,
}

/// Returns the first word of a line.
pub(super) fn name_of<'a>(words: &[&'a [u8]]) -> &'a [u8] {
    match words.first() {
        Some(name) => name,
        None => &[],
    }
}

impl<'a> WrongLine<'a, '_> {
    /// Returns the line's first word.
    pub(super) fn name(self) -> &'a [u8] {
        name_of(self.words)
    }

    /// Returns the word at this place, from 0.
    pub(super) fn word(self, place: usize) -> Option<&'a [u8]> {
        let word = self.words.get(place)?;
        Some(*word)
    }

    /// Whether the line is a malformed line that configures.
    pub(super) fn is_malformed_setting(self) -> bool {
        ConfigLine::is_named(self.name()) && ConfigLine::parse(self.words).is_err()
    }

    /// Whether a statement comes before this line.
    pub(super) fn is_behind(self, statement: &Statement<'_>) -> bool {
        statement.number < self.number
    }

    /// Whether a line before this one begins with a word.
    pub(super) fn is_behind_a(self, name: &[u8]) -> bool {
        for statement in Statements::of(self.input) {
            if !self.is_behind(&statement) {
                return false;
            }
            if name_of(statement.words.as_slice()) == name {
                return true;
            }
        }
        false
    }

    /// Returns the first misplaced word, or the line's end if a word is missing. The line begins at the first of
    /// these places.
    pub(super) fn first_misfit(self, first: &'static [Place], sizes: Sizes) -> Option<Misfit<'a>> {
        let mut places = first;
        for word in self.words {
            let Some((place, rest)) = places.split_first() else {
                return Some(Misfit {
                    found: Found::Word(word),
                    wanted: Wanted::End,
                });
            };
            match place.behind(rest, word, self.fault, sizes) {
                Some(behind) => places = behind,
                None => {
                    return Some(Misfit {
                        found: Found::Word(word),
                        wanted: place.wanted(sizes),
                    });
                }
            }
        }
        let place = places.first()?;
        Some(Misfit {
            found: Found::End,
            wanted: place.wanted(sizes),
        })
    }

    /// Returns the line's first word, which can't be here for this reason.
    pub(super) fn misplaced(self, wanted: Wanted) -> Misfit<'a> {
        Misfit {
            found: Found::Word(self.name()),
            wanted,
        }
    }

    /// Returns the word at this place, which can't be here for this reason.
    pub(super) fn misfit_at(self, place: usize, wanted: Wanted) -> Option<Misfit<'a>> {
        Some(Misfit {
            found: Found::Word(self.word(place)?),
            wanted,
        })
    }

    /// Returns the first word that a first line can't have, if `has_number` says that its number is one that it can.
    pub(super) fn head_misfit(self, head: Head, has_number: bool) -> Option<Misfit<'a>> {
        if self.name() != head.name {
            return Some(self.misplaced(Wanted::Text(head.forms)));
        }
        if has_number {
            return self.misfit_at(2, Wanted::End);
        }
        match self.misfit_at(1, Wanted::Text(head.numbers)) {
            Some(misfit) => Some(misfit),
            None => Some(Misfit {
                found: Found::End,
                wanted: Wanted::Text(head.numbers),
            }),
        }
    }
}

impl fmt::Display for Misfit<'_> {
    fn fmt<W: fmt::Write>(&self, f: &mut fmt::Formatter<W>) -> fmt::Result {
        match self.found {
            Found::Word(word) => write_word(word, f)?,
            Found::WordAt(word, line) => {
                write_word(word, f)?;
                write!(f, " in line {line}")?;
            }
            Found::End => f.write_str("end of the line")?,
        }
        match self.wanted {
            Wanted::Place(place, None) => write!(f, ": {place}"),
            Wanted::Place(place, Some((least, most))) => write!(f, ": {place}, {least} to {most}"),
            Wanted::End => f.write_str(": the end of the line"),
            Wanted::Text(text) => write!(f, ": {text}"),
            Wanted::Line(text, line) => write!(f, ": {text} {line}"),
        }
    }
}

/// Writes a word, if all of it is printable.
fn write_word<W: fmt::Write>(word: &[u8], f: &mut fmt::Formatter<W>) -> fmt::Result {
    match from_utf8(word) {
        Ok(text) if word.iter().all(|byte| byte.is_ascii_graphic()) => write!(f, "'{text}'"),
        _ => f.write_str("a word that isn't printed"),
    }
}
