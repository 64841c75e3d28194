//! Hints for litmus tests.

use super::misfit::{Found, Head, Misfit, Wanted, WrongLine, name_of};
use super::place::{Place, Sizes, is_reply};
use super::program_line::line_with_number;
use litmus_text::{LineFault, Statements, parse_number};

/// The maximum number of pairs that a line may forbid.
const MOST_PAIRS: usize = 16;

/// A first line.
const HEAD: Head = Head {
    name: b"lockup-litmus",
    forms: "lockup-litmus 1 or lockup-litmus 2, the first line",
    numbers: "1 or 2",
};

/// The places after a word that a line begins with, except `forbid`, whose words are checked separately.
pub(super) fn test_places(name: &[u8]) -> Option<&'static [Place]> {
    match name {
        b"cas" => Some(&[Place::Word, Place::Number, Place::Number, Place::Reply]),
        _ => old_test_places(name),
    }
}

/// .. of version 1.
pub(super) fn old_test_places(name: &[u8]) -> Option<&'static [Place]> {
    match name {
        b"rounds" => Some(&[Place::Rounds]),
        b"movers" => Some(&[Place::Movers]),
        b"thread" => Some(&[Place::Core]),
        b"load" => Some(&[Place::Word, Place::Reply]),
        b"store" => Some(&[Place::Word, Place::Number]),
        b"add" => Some(&[Place::Word, Place::Number, Place::Reply]),
        b"settle" => Some(&[]),
        b"evict" => Some(&[Place::Line]),
        _ => None,
    }
}

/// Returns the word at which a line of a litmus test is wrong.
pub(super) fn misfit<'a>(line: WrongLine<'a, '_>) -> Option<Misfit<'a>> {
    match line.fault {
        LineFault::NotALitmusText => line.head_misfit(HEAD, has_version(line)),
        LineFault::LateConfiguration => {
            Some(line.misplaced(Wanted::Text("before the first 'thread'")))
        }
        LineFault::NameUsedTwice => {
            name_misfit(
                line,
                Wanted::Line("the name of the step in line", step(line)?),
            )
        }
        LineFault::TooManyNames => name_misfit(line, Wanted::Text("a test has at most 16 names")),
        LineFault::UnknownName => unknown_misfit(line),
        LineFault::StoreToACounter => {
            line.misfit_at(1, Wanted::Line("a counter, by line", counter(line)?))
        }
        _ => misfit_of_form(line),
    }
}

fn has_version(line: WrongLine<'_, '_>) -> bool {
    match line.word(1) {
        Some(number) => matches!(number, b"1" | b"2"),
        None => false,
    }
}

fn misfit_of_form<'a>(line: WrongLine<'a, '_>) -> Option<Misfit<'a>> {
    let misfit = if line.name() == b"forbid".as_slice() {
        forbid_misfit(line)
    } else {
        line.first_misfit(names_of(line.input), Sizes::before(line.input, line.number))
    };
    match misfit {
        Some(misfit) => Some(misfit),
        None => misfit_of_place(line),
    }
}

/// Returns what a line may begin with, which depends on the first line.
fn names_of(input: &[u8]) -> &'static [Place] {
    let Some(first) = Statements::of(input).next() else {
        return &[Place::OldTestName];
    };
    match first.words.as_slice().get(1) {
        Some(number) if *number == b"2".as_slice() => &[Place::TestName],
        _ => &[Place::OldTestName],
    }
}

/// Returns the first malformed pair, or the end if there is none, or what follows the last.
fn forbid_misfit<'a>(line: WrongLine<'a, '_>) -> Option<Misfit<'a>> {
    let wanted = Wanted::Text("NAME=VALUE");
    if line.words.len() < 2 {
        return Some(Misfit {
            found: Found::End,
            wanted,
        });
    }
    for (place, word) in line.words.iter().enumerate() {
        if place > MOST_PAIRS {
            return line.misfit_at(place, Wanted::End);
        }
        if place > 0 && !is_pair(word, line.fault) {
            return line.misfit_at(place, wanted);
        }
    }
    None
}

/// Whether a word is a pair, as far as this fault goes.
fn is_pair(word: &[u8], fault: LineFault) -> bool {
    let Some((name, value)) = sides_of(word) else {
        return false;
    };
    match fault {
        LineFault::BadNumber => parse_number(value).is_some(),
        _ => is_reply(name),
    }
}

/// Returns the two sides of the first `=`.
fn sides_of(word: &[u8]) -> Option<(&[u8], &[u8])> {
    let at = word.iter().position(|byte| *byte == b'=')?;
    let [_, value @ ..] = word.get(at..)? else {
        return None;
    };
    Some((word.get(..at)?, value))
}

/// Returns why a well-formed line can't be where it is.
fn misfit_of_place<'a>(line: WrongLine<'a, '_>) -> Option<Misfit<'a>> {
    match line.fault {
        LineFault::NotACommand => Some(line.misplaced(misplaced(line))),
        LineFault::OutOfRange => too_much(line),
        _ => None,
    }
}

fn misplaced(line: WrongLine<'_, '_>) -> Wanted {
    Wanted::Text(if line.is_behind_a(b"forbid") {
        "before the first 'forbid'"
    } else {
        "after a line 'thread C'"
    })
}

/// Returns what there is too much of.
fn too_much<'a>(line: WrongLine<'a, '_>) -> Option<Misfit<'a>> {
    if line.name() != b"thread".as_slice() {
        return Some(line.misplaced(Wanted::Text("a thread has at most 4096 steps")));
    }
    let core = parse_number(line.word(1)?)?;
    let first = line_with_number(line.input, b"thread", core)?;
    line.misfit_at(1, Wanted::Line("the core has a thread, in line", first))
}

/// Returns the line's last word, which is its name.
fn name_misfit<'a>(line: WrongLine<'a, '_>, wanted: Wanted) -> Option<Misfit<'a>> {
    line.misfit_at(line.words.len().checked_sub(1)?, wanted)
}

/// Returns the line of the first step that has the same name as this one.
fn step(line: WrongLine<'_, '_>) -> Option<usize> {
    step_named(line.input, line.words.last()?)
}

fn step_named(input: &[u8], name: &[u8]) -> Option<usize> {
    for statement in Statements::of(input) {
        if is_named(statement.words.as_slice(), name) {
            return Some(statement.number);
        }
    }
    None
}

/// Whether the words are a step with this name.
fn is_named(words: &[&[u8]], name: &[u8]) -> bool {
    let Some(last) = words.last() else {
        return false;
    };
    matches!(name_of(words), b"load" | b"add" | b"cas") && *last == name
}

/// Returns the first pair with a name that no step has.
fn unknown_misfit<'a>(line: WrongLine<'a, '_>) -> Option<Misfit<'a>> {
    for (place, word) in line.words.iter().enumerate() {
        if is_of_no_step(line.input, word) {
            return line.misfit_at(place, Wanted::Text("no step has this name"));
        }
    }
    None
}

fn is_of_no_step(input: &[u8], word: &[u8]) -> bool {
    match sides_of(word) {
        Some((name, _)) => step_named(input, name).is_none(),
        None => false,
    }
}

fn counter(line: WrongLine<'_, '_>) -> Option<usize> {
    line_with_number(line.input, b"counter", parse_number(line.word(1)?)?)
}
