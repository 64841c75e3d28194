//! Hints for traces.

use super::misfit::{Head, Misfit, Wanted, WrongLine, name_of};
use super::place::{Place, Sizes};
use litmus_text::{LineFault, Statements};
use trace_check::{MOST_CORES, MOST_WORDS, Version};

/// A first line.
const HEAD: Head = Head {
    name: b"lockup-trace",
    forms: "lockup-trace 1, lockup-trace 2 or lockup-trace no-since, the first line",
    numbers: "1, 2 or no-since",
};

/// The places after a word that a line begins with.
pub(super) fn trace_places(name: &[u8]) -> Option<&'static [Place]> {
    match name {
        b"init" => Some(&[Place::Word, Place::Number]),
        b"entry" => Some(&[Place::Core, Place::Number, Place::Tag, Place::Access]),
        _ => None,
    }
}

/// .. in a trace without compare-exchanges.
pub(super) fn old_trace_places(name: &[u8]) -> Option<&'static [Place]> {
    match name {
        b"entry" => Some(&[Place::Core, Place::Number, Place::Tag, Place::OldAccess]),
        _ => trace_places(name),
    }
}

/// .. in a trace that doesn't give the log's length.
pub(super) fn bare_trace_places(name: &[u8]) -> Option<&'static [Place]> {
    match name {
        b"entry" => Some(&[Place::Core, Place::Number, Place::Tag, Place::BareAccess]),
        _ => trace_places(name),
    }
}

/// The places after the name of an access: the word, its other operands, the reply and the log's length.
pub(super) fn access_places(name: &[u8]) -> Option<&'static [Place]> {
    match name {
        b"cas" => Some(&[
            Place::Word,
            Place::Number,
            Place::Number,
            Place::Number,
            Place::Number,
        ]),
        _ => old_access_places(name),
    }
}

/// .. in a trace without compare-exchanges.
pub(super) fn old_access_places(name: &[u8]) -> Option<&'static [Place]> {
    match name {
        b"load" => Some(&[Place::Word, Place::Number, Place::Number]),
        b"store" | b"add" => Some(&[Place::Word, Place::Number, Place::Number, Place::Number]),
        _ => None,
    }
}

/// .. in a trace that doesn't give the log's length.
pub(super) fn bare_access_places(name: &[u8]) -> Option<&'static [Place]> {
    match name {
        b"load" => Some(&[Place::Word, Place::Number]),
        b"store" | b"add" => Some(&[Place::Word, Place::Number, Place::Number]),
        b"cas" => Some(&[Place::Word, Place::Number, Place::Number, Place::Number]),
        _ => None,
    }
}

/// Returns the word at which a line of a trace is wrong.
pub(super) fn misfit<'a>(line: WrongLine<'a, '_>) -> Option<Misfit<'a>> {
    if let LineFault::NotATrace = line.fault {
        return line.head_misfit(HEAD, has_version(line));
    }
    let version = version_of(line.input)?;
    match line.first_misfit(names_of(version), sizes_of(version)) {
        Some(misfit) => Some(misfit),
        None => misplaced(line),
    }
}

/// Whether the first line names a version.
pub(super) fn has_version(line: WrongLine<'_, '_>) -> bool {
    match line.word(1) {
        Some(number) => matches!(number, b"1" | b"2" | b"no-since"),
        None => false,
    }
}

fn version_of(input: &[u8]) -> Option<Version> {
    let first = Statements::of(input).next()?;
    Version::parse(first.words.as_slice()).ok()
}

const fn names_of(version: Version) -> &'static [Place] {
    match version {
        Version::One => &[Place::OldTraceName],
        Version::Two => &[Place::TraceName],
        Version::WithoutSince => &[Place::BareTraceName],
    }
}

/// Returns what a trace may name.
const fn sizes_of(version: Version) -> Sizes {
    let cores = match version {
        Version::One => 16,
        Version::Two | Version::WithoutSince => MOST_CORES,
    };
    Sizes {
        cores,
        lines: MOST_WORDS / 8,
    }
}

/// Returns why a well-formed initial value can't be where it is.
fn misplaced<'a>(line: WrongLine<'a, '_>) -> Option<Misfit<'a>> {
    if line.is_behind_a(b"entry") {
        return Some(line.misplaced(Wanted::Text("before the first entry")));
    }
    line.misfit_at(
        1,
        Wanted::Line("a word above that in line", last_before(line)?),
    )
}

/// Returns the last line before this one that gives a word's initial value.
fn last_before(line: WrongLine<'_, '_>) -> Option<usize> {
    let mut last = None;
    for statement in Statements::of(line.input) {
        if !line.is_behind(&statement) {
            break;
        }
        if name_of(statement.words.as_slice()) == b"init".as_slice() {
            last = Some(statement.number);
        }
    }
    last
}
