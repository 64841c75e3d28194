//! What kind of text this is, as far as its first lines show.

use super::TextKind;
use super::misfit::name_of;
use litmus_text::{ConfigLine, Slot, Statements};

/// Whether a text begins with a byte order mark, of UTF-8 or UTF-16.
pub(super) fn begins_with_mark(input: &[u8]) -> bool {
    input.starts_with(b"\xef\xbb\xbf")
        || input.starts_with(b"\xff\xfe")
        || input.starts_with(b"\xfe\xff")
}

/// Returns which command reads a text of this kind.
pub(super) const fn reader_of(kind: TextKind) -> &'static str {
    match kind {
        TextKind::Script => "the text is a script: 'lockup script' reads it",
        TextKind::Exercise => "the text has wanted answers: 'lockup test' reads it",
        TextKind::LitmusTest => {
            "the text is a litmus test: 'lockup litmus' and 'lockup walk' read it"
        }
        TextKind::Programs => "the text has programs: 'lockup run' reads it",
        TextKind::Trace => "the text is a trace: 'lockup check' and 'lockup judge' read it",
        TextKind::History => "the text is a history: 'lockup judge' reads it",
    }
}

/// Returns the kind of a text that was read as one of another kind, and whose line with this number is wrong.
pub(super) fn other_kind(read_as: TextKind, input: &[u8], number: usize) -> Option<TextKind> {
    if read_as == TextKind::Script && wants_answer(input, number) {
        return Some(TextKind::Exercise);
    }
    let kind = kind_up_to(input, number)?;
    match (kind, read_as) {
        (TextKind::Script, TextKind::Script | TextKind::Exercise) => None,
        (TextKind::Trace, TextKind::History) => None,
        (TextKind::Script, _) if wants_answers(input) => Some(TextKind::Exercise),
        _ if kind == read_as => None,
        _ => Some(kind),
    }
}

/// Whether a line of a text has an expected answer.
fn wants_answers(input: &[u8]) -> bool {
    for statement in Statements::of(input) {
        if statement.line.contains(&b'=') {
            return true;
        }
    }
    false
}

/// Whether the line with this number has an expected answer.
fn wants_answer(input: &[u8], number: usize) -> bool {
    for statement in Statements::of(input) {
        if statement.number == number {
            return statement.line.contains(&b'=');
        }
    }
    false
}

/// Returns the kind of a text, unless the line with this number follows the first that doesn't configure.
fn kind_up_to(input: &[u8], number: usize) -> Option<TextKind> {
    let mut first = None;
    for statement in Statements::of(input) {
        let name = name_of(statement.words.as_slice());
        match first {
            Some(first) => return kind_of(first, name),
            None if ConfigLine::is_named(name) => {}
            None if statement.number < number => return None,
            None => first = Some(name),
        }
    }
    kind_of(first?, &[])
}

/// Returns the kind of a text by the first words of its first line that doesn't configure and of the next. `core 0` may
/// also be meant to configure: it begins a program if a line of one follows.
fn kind_of(first: &[u8], next: &[u8]) -> Option<TextKind> {
    match first {
        b"lockup-trace" | b"entry" => Some(TextKind::Trace),
        b"lockup-history" => Some(TextKind::History),
        b"lockup-litmus" | b"thread" | b"rounds" | b"movers" => Some(TextKind::LitmusTest),
        b"outstanding" | b"pace" => Some(TextKind::Programs),
        b"core" if is_of_program(next) => Some(TextKind::Programs),
        _ if Slot::Name.behind(first).is_some() => Some(TextKind::Script),
        _ => None,
    }
}

fn is_of_program(name: &[u8]) -> bool {
    matches!(
        name,
        b"load" | b"store" | b"add" | b"cas" | b"settle" | b"repeat" | b"core"
    )
}
