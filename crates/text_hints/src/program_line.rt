//! Hints for programs.

use super::misfit::{Misfit, Wanted, WrongLine, name_of};
use super::place::{Place, Sizes, range_of};
use arrayvec::ArrayVec;
use litmus_text::{LineFault, Statement, Statements, parse_number};

/// The maximum nesting depth of blocks.
const MOST_DEPTH: usize = 8;

/// The places after a word that a line begins with.
pub(super) fn program_places(name: &[u8]) -> Option<&'static [Place]> {
    match name {
        b"outstanding" => Some(&[Place::Outstanding]),
        b"pace" => Some(&[Place::Pace]),
        b"core" => Some(&[Place::Core]),
        b"load" => Some(&[Place::Range]),
        b"store" | b"add" => Some(&[Place::Range, Place::Number]),
        b"cas" => Some(&[Place::Range, Place::Number, Place::Number]),
        b"repeat" => Some(&[Place::Number]),
        b"settle" | b"end" => Some(&[]),
        _ => None,
    }
}

/// Returns the word at which a line of programs is wrong.
pub(super) fn misfit<'a>(line: WrongLine<'a, '_>) -> Option<Misfit<'a>> {
    match line.fault {
        LineFault::LateConfiguration => Some(line.misplaced(place_of_setting(line.name()))),
        LineFault::StoreToACounter => {
            line.misfit_at(1, Wanted::Line("a counter, by line", counter(line)?))
        }
        _ => misfit_of_form(line),
    }
}

fn place_of_setting(name: &[u8]) -> Wanted {
    Wanted::Text(match name {
        b"outstanding" | b"pace" => "once, before the first 'core'",
        _ => "before 'outstanding', 'pace' and the first 'core'",
    })
}

fn misfit_of_form<'a>(line: WrongLine<'a, '_>) -> Option<Misfit<'a>> {
    let sizes = Sizes::before(line.input, line.number);
    match line.first_misfit(&[Place::ProgramName], sizes) {
        Some(misfit) => Some(misfit),
        None => misfit_of_place(line),
    }
}

/// Returns why a well-formed line can't be where it is.
fn misfit_of_place<'a>(line: WrongLine<'a, '_>) -> Option<Misfit<'a>> {
    match line.fault {
        LineFault::NotACommand => Some(line.misplaced(misplaced(line)?)),
        LineFault::OutOfRange => too_much(line),
        _ => None,
    }
}

fn misplaced(line: WrongLine<'_, '_>) -> Option<Wanted> {
    if !line.is_behind_a(b"core") {
        return Some(Wanted::Text("after a line 'core C'"));
    }
    match line.name() {
        b"core" => {
            let open = open_blocks(line);
            let innermost = open.as_slice().last()?;
            Some(Wanted::Line("after an 'end' of the 'repeat' in line", *innermost))
        }
        b"end" => Some(Wanted::Text("no 'repeat' is open")),
        b"repeat" => Some(Wanted::Text("it has no 'end'")),
        _ => None,
    }
}

/// Returns what there is too much of.
fn too_much<'a>(line: WrongLine<'a, '_>) -> Option<Misfit<'a>> {
    match line.name() {
        b"core" => line.misfit_at(
            1,
            Wanted::Line("the core has a program, in line", first_of_core(line)?),
        ),
        b"repeat" => {
            let open = open_blocks(line);
            let outermost = open.as_slice().first()?;
            Some(line.misplaced(Wanted::Line(
                "at most 8 are open at once, the first since line",
                *outermost,
            )))
        }
        _ if descends(line) => line.misfit_at(1, Wanted::Text("the last word is below the first")),
        _ => Some(line.misplaced(Wanted::Text(
            "all programs together have at most 1000000 accesses",
        ))),
    }
}

fn descends(line: WrongLine<'_, '_>) -> bool {
    let Some(word) = line.word(1) else {
        return false;
    };
    match range_of(word) {
        Some((first, last)) => last < first,
        None => false,
    }
}

/// Returns the lines of the blocks that are open before this line.
fn open_blocks(line: WrongLine<'_, '_>) -> ArrayVec<usize, MOST_DEPTH> {
    let mut open = ArrayVec::new();
    for statement in Statements::of(line.input) {
        if !line.is_behind(&statement) {
            break;
        }
        note_block(&mut open, &statement);
    }
    open
}

// Before its invalid line no text has more open blocks than there is room for.
fn note_block(open: &mut ArrayVec<usize, MOST_DEPTH>, statement: &Statement<'_>) {
    match name_of(statement.words.as_slice()) {
        b"repeat" => {
            let _ = open.try_push(statement.number);
        }
        b"end" => {
            let _ = open.pop();
        }
        _ => {}
    }
}

/// Returns the line that begins the program of the same core.
fn first_of_core(line: WrongLine<'_, '_>) -> Option<usize> {
    line_with_number(line.input, b"core", parse_number(line.word(1)?)?)
}

/// Returns the first line of a text that is a name and this number.
pub(super) fn line_with_number(input: &[u8], name: &[u8], number: u64) -> Option<usize> {
    for statement in Statements::of(input) {
        if number_behind(statement.words.as_slice(), name) == Some(number) {
            return Some(statement.number);
        }
    }
    None
}

/// Returns the number of a line that is a name and a number.
fn number_behind(words: &[&[u8]], name: &[u8]) -> Option<u64> {
    let [first, number] = words else {
        return None;
    };
    if *first == name {
        parse_number(number)
    } else {
        None
    }
}

/// Returns the line that makes a counter of a word of the line's range.
fn counter(line: WrongLine<'_, '_>) -> Option<usize> {
    let (first, last) = range_of(line.word(1)?)?;
    for statement in Statements::of(line.input) {
        if let Some(word) = number_behind(statement.words.as_slice(), b"counter") {
            if first <= word && word <= last {
                return Some(statement.number);
            }
        }
    }
    None
}
