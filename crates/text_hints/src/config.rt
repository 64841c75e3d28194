//! Which line makes a configuration one that isn't allowed.

use super::misfit::{Found, Misfit, Wanted, name_of};
use super::place::{Place, Sizes};
use address_map::ConfigError;
use litmus_text::{ConfigLine, Statement, Statements, parse_number};

/// The maximum number of counters.
const MOST_COUNTERS: usize = 8;

/// The number that isn't allowed, and what is.
pub(super) fn misfit(input: &[u8], error: ConfigError) -> Option<Misfit<'_>> {
    match error {
        ConfigError::Cores => last_number(input, b"cores", "1 to 64"),
        ConfigError::Slices => last_number(input, b"slices", "1, 2 or 4"),
        ConfigError::Lines => last_number(input, b"lines", "1 to 65536, a multiple of the slices"),
        ConfigError::Sets => last_number(input, b"sets", "a power of two, 1 to 256"),
        ConfigError::Ways => last_number(input, b"ways", "1 to 16"),
        ConfigError::Mshrs => last_number(input, b"mshrs", "1 to 32"),
        ConfigError::Targets => last_number(input, b"targets", "1 to 32"),
        ConfigError::Writebacks => last_number(input, b"writebacks", "1 to 16"),
        ConfigError::Init => wrong_word(input, b"init"),
        ConfigError::Counters => wrong_word(input, b"counter"),
    }
}

/// The number of the last line for a field, of those before the first that doesn't configure.
fn last_number<'a>(input: &'a [u8], name: &[u8], allowed: &'static str) -> Option<Misfit<'a>> {
    let mut last = None;
    for statement in Statements::of(input) {
        if !is_at_head(name_of(statement.words.as_slice())) {
            break;
        }
        if name_of(statement.words.as_slice()) == name {
            last = found_in(&statement);
        }
    }
    Some(Misfit {
        found: last?,
        wanted: Wanted::Text(allowed),
    })
}

/// Whether a line that begins with this word configures, or may be among those that do.
fn is_at_head(name: &[u8]) -> bool {
    matches!(name, b"lockup-litmus" | b"rounds" | b"movers") || ConfigLine::is_named(name)
}

fn found_in<'a>(statement: &Statement<'a>) -> Option<Found<'a>> {
    let word = statement.words.as_slice().get(1)?;
    Some(Found::WordAt(word, statement.number))
}

/// The first line for a field whose word isn't of the memory, or not above the one before, or one too many.
fn wrong_word<'a>(input: &'a [u8], name: &[u8]) -> Option<Misfit<'a>> {
    let sizes = Sizes::before(input, usize::MAX);
    let mut before = Before {
        count: 0,
        last: None,
    };
    for statement in Statements::of(input) {
        if name_of(statement.words.as_slice()) == name {
            let word = word_of(&statement)?;
            if let Some(wanted) = before.wanted(name, word, sizes) {
                return Some(Misfit {
                    found: found_in(&statement)?,
                    wanted,
                });
            }
            before.take(word, statement.number);
        }
    }
    None
}

fn word_of(statement: &Statement<'_>) -> Option<u64> {
    parse_number(statement.words.as_slice().get(1)?)
}

/// The lines for a field so far: how many, and the last word with the number of its line.
#[derive(Clone, Copy)]
struct Before {
    count: usize,
    last: Option<(u64, usize)>,
}

impl Before {
    /// Returns what is expected instead of a word, if it can't come next.
    fn wanted(self, name: &[u8], word: u64, sizes: Sizes) -> Option<Wanted> {
        if word > sizes.last_word() {
            return Some(Place::Word.wanted(sizes));
        }
        if name == b"counter".as_slice() && self.count == MOST_COUNTERS {
            return Some(Wanted::Text("at most 8 counters"));
        }
        match self.last {
            Some((last, line)) if word <= last => {
                Some(Wanted::Line("a word above that in line", line))
            }
            _ => None,
        }
    }

    fn take(&mut self, word: u64, line: usize) {
        self.count = self.count.saturating_add(1);
        self.last = Some((word, line));
    }
}
