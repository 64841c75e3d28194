//! Hints for what each core received: histories, and traces instead of them.

use super::misfit::{Head, Misfit, Wanted, WrongLine, name_of};
use super::place::{Place, Sizes};
use super::trace_line;
use litmus_text::{LineFault, Statements, parse_number};
use trace_check::{MOST_CORES, MOST_WORDS};

/// The first line of a history.
const HEAD: Head = Head {
    name: b"lockup-history",
    forms: "",
    numbers: "1",
};

/// .. of either.
const EITHER_HEAD: Head = Head {
    name: b"lockup-trace",
    forms: "lockup-history 1, lockup-trace 1, lockup-trace 2 or lockup-trace no-since, the first line",
    numbers: "1, 2 or no-since",
};

/// What a history may name.
const SIZES: Sizes = Sizes {
    cores: MOST_CORES,
    lines: MOST_WORDS / 8,
};

/// The places after a word that a line of a history begins with.
pub(super) fn history_places(name: &[u8]) -> Option<&'static [Place]> {
    match name {
        b"init" => Some(&[Place::Word, Place::Number]),
        b"core" => Some(&[Place::Core, Place::HistoryAccess]),
        _ => None,
    }
}

/// The places after the name of an access: the word, its other operands, and the reply, except of a store.
pub(super) fn history_access_places(name: &[u8]) -> Option<&'static [Place]> {
    match name {
        b"load" | b"store" => Some(&[Place::Word, Place::Number]),
        b"add" => Some(&[Place::Word, Place::Number, Place::Number]),
        b"cas" => Some(&[Place::Word, Place::Number, Place::Number, Place::Number]),
        _ => None,
    }
}

/// The word at which a line is wrong.
pub(super) fn misfit<'a>(line: WrongLine<'a, '_>) -> Option<Misfit<'a>> {
    if let LineFault::NotATrace = line.fault {
        return first_line_misfit(line);
    }
    if is_history(line.input) {
        history_misfit(line)
    } else {
        trace_line::misfit(line)
    }
}

fn first_line_misfit<'a>(line: WrongLine<'a, '_>) -> Option<Misfit<'a>> {
    if line.name() == HEAD.name {
        line.head_misfit(HEAD, line.word(1) == Some(b"1".as_slice()))
    } else {
        line.head_misfit(EITHER_HEAD, trace_line::has_version(line))
    }
}

fn is_history(input: &[u8]) -> bool {
    match Statements::of(input).next() {
        Some(first) => name_of(first.words.as_slice()) == HEAD.name,
        None => false,
    }
}

fn history_misfit<'a>(line: WrongLine<'a, '_>) -> Option<Misfit<'a>> {
    let WrongLine { words, .. } = line;
    if let LineFault::NameUsedTwice = line.fault {
        return line.misfit_at(
            1,
            Wanted::Line("another word than that in line", first_of_word(line)?),
        );
    }
    match words.split_last() {
        Some((last, front)) if last.starts_with(b"@") => {
            let front = WrongLine {
                words: front,
                ..line
            };
            match front.first_misfit(&[Place::HistoryName], SIZES) {
                Some(misfit) => Some(misfit),
                None => line.misfit_at(
                    front.words.len(),
                    Wanted::Text("@BEGIN..END, the first not above the last"),
                ),
            }
        }
        _ => line.first_misfit(&[Place::HistoryName], SIZES),
    }
}

/// The line before this one that gives the same word a value.
fn first_of_word(line: WrongLine<'_, '_>) -> Option<usize> {
    for statement in Statements::of(line.input) {
        if !line.is_behind(&statement) {
            return None;
        }
        let words = statement.words.as_slice();
        if name_of(words) == b"init".as_slice() && number_at(words) == number_at(line.words) {
            return Some(statement.number);
        }
    }
    None
}

fn number_at(words: &[&[u8]]) -> Option<u64> {
    parse_number(words.get(1)?)
}
