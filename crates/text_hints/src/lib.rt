//! What a reader of an error may want to know: what could be at a place, which line conflicts, or which command reads
//! such a text.
//!
//! These are hints, and no contract says which: `tests/suite/hints.py` tests them.
#![tactic(auto)]

ghost use Rattle.std.specs.Prelude.{IfSome};
ghost use Rattle.text_hints.specs.Hint.{IsOfText};

use litmus_text::{LineFault, Statement, Statements, TextFault};
use misfit::WrongLine;
use script_explained::expected;
use script_test::script_of;
use std::alloc::Global;
use std::fmt::Display;

mod config;
mod history_line;
mod kind;
mod misfit;
mod place;
mod program_line;
mod test_line;
mod trace_line;

/// What kind of text a command reads.
#[derive(Clone, Copy, Debug, PartialEq, Eq)]
pub enum TextKind {
    Script,
    /// A script with expected answers.
    Exercise,
    LitmusTest,
    Programs,
    Trace,
    /// What each core received, without an order between cores: a history, or a trace.
    History,
}

/// Returns what may help the reader of this error, of a text that was read as one of this kind; `None` also if an
/// allocation fails.
pub fn hint(alloc: Global, read_as: TextKind, input: &[u8], fault: TextFault) -> Option<String>
    ensures { IfSome result (λ hint. IsOfText fault) }
{
    match fault {
        TextFault::Line { number, fault } => hint_at(alloc, read_as, input, number, fault),
        TextFault::Config(error) => told(alloc, config::misfit(input, error)?),
        TextFault::CannotWrite | TextFault::NoMemory => None,
    }
}

fn hint_at(
    alloc: Global,
    read_as: TextKind,
    input: &[u8],
    number: usize,
    fault: LineFault,
) -> Option<String> {
    if number == 1 && kind::begins_with_mark(input) {
        return told(
            alloc,
            "the text begins with a byte order mark: save it as UTF-8 without one",
        );
    }
    match kind::other_kind(read_as, input, number) {
        Some(kind) => told(alloc, kind::reader_of(kind)),
        None => hint_of_line(alloc, read_as, input, number, fault),
    }
}

fn hint_of_line(
    alloc: Global,
    read_as: TextKind,
    input: &[u8],
    number: usize,
    fault: LineFault,
) -> Option<String> {
    match read_as {
        TextKind::Script => told(alloc, expected(alloc, input, fault.at(number))?),
        TextKind::Exercise => hint_of_exercise(alloc, input, fault.at(number)),
        TextKind::LitmusTest | TextKind::Programs | TextKind::Trace | TextKind::History => {
            hint_of_words(alloc, read_as, input, number, fault)
        }
    }
}

/// Returns the hint for an exercise: that for the script in it.
fn hint_of_exercise(alloc: Global, input: &[u8], fault: TextFault) -> Option<String> {
    let Ok(script) = script_of(alloc, input) else {
        return None;
    };
    told(alloc, expected(alloc, script.as_slice(), fault)?)
}

fn hint_of_words(
    alloc: Global,
    read_as: TextKind,
    input: &[u8],
    number: usize,
    fault: LineFault,
) -> Option<String> {
    for statement in Statements::of(input) {
        if statement.number == number {
            return hint_of_statement(alloc, read_as, input, &statement, fault);
        }
    }
    told(alloc, "the text is empty")
}

fn hint_of_statement(
    alloc: Global,
    read_as: TextKind,
    input: &[u8],
    statement: &Statement<'_>,
    fault: LineFault,
) -> Option<String> {
    let line = WrongLine {
        input,
        number: statement.number,
        words: statement.words.as_slice(),
        fault,
    };
    if line.is_malformed_setting() {
        return told(alloc, expected(alloc, input, fault.at(line.number))?);
    }
    let misfit = match read_as {
        TextKind::LitmusTest => test_line::misfit(line),
        TextKind::Programs => program_line::misfit(line),
        TextKind::Trace => trace_line::misfit(line),
        TextKind::History => history_line::misfit(line),
        TextKind::Script | TextKind::Exercise => None,
    };
    told(alloc, misfit?)
}

fn told<T: Display + Drop>(alloc: Global, hint: T) -> Option<String> {
    format!(in alloc; "{hint}").ok()
}
