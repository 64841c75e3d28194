//! What can be at a place of a line.

use super::history_line::{history_access_places, history_places};
use super::misfit::Wanted;
use super::program_line::program_places;
use super::test_line::{old_test_places, test_places};
use super::trace_line::{
    access_places, bare_access_places, bare_trace_places, old_access_places, old_trace_places,
    trace_places,
};
use litmus_text::{LineFault, Statements, parse_number};
use std::fmt;

/// What can be at a place of a line that isn't of a script.
#[derive(Clone, Copy)]
pub(super) enum Place {
    /// What a line of programs begins with.
    ProgramName,
    /// .. of a litmus test, and of one of version 1.
    TestName,
    OldTestName,
    /// .. of a trace, of one of version 1, and of one without SINCE.
    TraceName,
    OldTraceName,
    BareTraceName,
    /// What an entry of a trace performed, in each of these.
    Access,
    OldAccess,
    BareAccess,
    /// What a line of a history begins with, and what a core requested in one.
    HistoryName,
    HistoryAccess,
    Core,
    Line,
    Word,
    /// A word, or the words from one to another.
    Range,
    Tag,
    Rounds,
    Movers,
    Outstanding,
    Pace,
    Number,
    /// The name of a reply.
    Reply,
}

/// The number of cores and lines that a text may name.
#[derive(Clone, Copy)]
pub(super) struct Sizes {
    pub cores: u64,
    pub lines: u64,
}

impl Sizes {
    /// Returns those of the machine that a text configures before the line with this number.
    pub(super) fn before(input: &[u8], number: usize) -> Self {
        let mut sizes = Sizes {
            cores: 2,
            lines: 16,
        };
        for statement in Statements::of(input) {
            if statement.number >= number {
                break;
            }
            sizes.take(statement.words.as_slice());
        }
        sizes
    }

    fn take(&mut self, words: &[&[u8]]) {
        if let [name, number] = words {
            if let Some(number) = parse_number(number) {
                self.set(name, number);
            }
        }
    }

    fn set(&mut self, name: &[u8], number: u64) {
        match name {
            b"cores" => self.cores = number,
            b"lines" => self.lines = number,
            _ => {}
        }
    }

    /// Returns the greatest word, if it is that of the last line.
    pub(super) fn last_word(self) -> u64 {
        self.lines.saturating_mul(8).saturating_sub(1)
    }
}

impl Place {
    /// Returns what follows a word, if it can be here as far as this fault goes.
    pub(super) fn behind(
        self,
        rest: &'static [Place],
        word: &[u8],
        fault: LineFault,
        sizes: Sizes,
    ) -> Option<&'static [Place]> {
        match self {
            Place::ProgramName => program_places(word),
            Place::TestName => test_places(word),
            Place::OldTestName => old_test_places(word),
            Place::TraceName => trace_places(word),
            Place::OldTraceName => old_trace_places(word),
            Place::BareTraceName => bare_trace_places(word),
            Place::Access => access_places(word),
            Place::OldAccess => old_access_places(word),
            Place::BareAccess => bare_access_places(word),
            Place::HistoryName => history_places(word),
            Place::HistoryAccess => history_access_places(word),
            _ if self.takes(word, fault, sizes) => Some(rest),
            _ => None,
        }
    }

    /// Whether a name or a number can be here, as far as this fault goes.
    fn takes(self, word: &[u8], fault: LineFault, sizes: Sizes) -> bool {
        if let Place::Reply = self {
            return is_reply(word);
        }
        match fault {
            LineFault::BadNumber => self.numbers(word).is_some(),
            LineFault::OutOfRange => self.has_all(word, sizes),
            _ => true,
        }
    }

    /// Returns the first and the last number that a word spells.
    fn numbers(self, word: &[u8]) -> Option<(u64, u64)> {
        if let Place::Range = self {
            return range_of(word);
        }
        let number = parse_number(word)?;
        Some((number, number))
    }

    fn has_all(self, word: &[u8], sizes: Sizes) -> bool {
        match self.numbers(word) {
            Some((first, last)) => self.has(first, sizes) && self.has(last, sizes),
            None => true,
        }
    }

    fn has(self, number: u64, sizes: Sizes) -> bool {
        match self.bounds(sizes) {
            Some((least, most)) => least <= number && number <= most,
            None => true,
        }
    }

    /// Returns the least and the greatest number that can be here, unless any can.
    fn bounds(self, sizes: Sizes) -> Option<(u64, u64)> {
        match self {
            Place::Core => Some((0, sizes.cores.saturating_sub(1))),
            Place::Line => Some((0, sizes.lines.saturating_sub(1))),
            Place::Word | Place::Range => Some((0, sizes.last_word())),
            Place::Tag => Some((0, 63)),
            Place::Rounds => Some((1, 10000)),
            Place::Movers => Some((0, 4)),
            Place::Outstanding => Some((1, 64)),
            Place::Pace => Some((0, 64)),
            _ => None,
        }
    }

    /// Returns this as what was expected.
    pub(super) fn wanted(self, sizes: Sizes) -> Wanted {
        Wanted::Place(self, self.bounds(sizes))
    }

    /// Returns the place in words.
    const fn text(self) -> &'static str {
        match self {
            Place::ProgramName => {
                "core, load, store, add, cas, settle, repeat, end, outstanding, pace, or a field of the configuration"
            }
            Place::TestName => {
                "thread, load, store, add, cas, settle, evict, forbid, rounds, movers, or a field of the configuration"
            }
            Place::OldTestName => {
                "thread, load, store, add, settle, evict, forbid, rounds, movers, or a field of the configuration; cas where the first line is lockup-litmus 2"
            }
            Place::TraceName | Place::OldTraceName | Place::BareTraceName => "init or entry",
            Place::HistoryName => "init or core",
            Place::Access | Place::BareAccess | Place::HistoryAccess => "load, store, add or cas",
            Place::OldAccess => "load, store or add; cas where the first line is lockup-trace 2",
            Place::Core => "a core",
            Place::Line => "a line",
            Place::Word => "a word",
            Place::Range => "a word or FIRST..LAST",
            Place::Tag => "a tag",
            Place::Rounds | Place::Movers | Place::Outstanding | Place::Pace | Place::Number => {
                "a number"
            }
            Place::Reply => "a name of 1 to 16 small letters and digits, a letter first",
        }
    }
}

impl fmt::Display for Place {
    fn fmt<W: fmt::Write>(&self, f: &mut fmt::Formatter<W>) -> fmt::Result {
        f.write_str(self.text())
    }
}

/// Returns the words of a range, the first and the last.
pub(super) fn range_of(text: &[u8]) -> Option<(u64, u64)> {
    match text.iter().position(|byte| *byte == b'.') {
        Some(at) => span_of(text, at),
        None => {
            let number = parse_number(text)?;
            Some((number, number))
        }
    }
}

/// .. with its first dot at this place.
fn span_of(text: &[u8], at: usize) -> Option<(u64, u64)> {
    let first = parse_number(text.get(..at)?)?;
    let [_, b'.', last @ ..] = text.get(at..)? else {
        return None;
    };
    Some((first, parse_number(last)?))
}

/// Whether a word can be the name of a reply.
pub(super) fn is_reply(word: &[u8]) -> bool {
    word.len() <= 16 && begins_with_letter(word) && word.iter().all(|byte| may_stand(*byte))
}

fn begins_with_letter(word: &[u8]) -> bool {
    match word.first() {
        Some(byte) => byte.is_ascii_lowercase(),
        None => false,
    }
}

fn may_stand(byte: u8) -> bool {
    byte.is_ascii_lowercase() || byte.is_ascii_digit()
}
