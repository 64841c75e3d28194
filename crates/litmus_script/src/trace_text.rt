//! The lines of a trace after its first. The text of each is built before it is written, since a log has one for each
//! access.
ghost use Rattle.std.specs.Prelude.{◌≡◌, ◌+◌, ◌≤◌, [], ◌++◌, length, codes, decimal, OnOk};
ghost use Rattle.std.specs.Fmt.{WritesInCalls};
ghost use Rattle.litmus_text.specs.Line.{line_of_parts, text_of_parts};
ghost use Rattle.litmus_text.specs.Command.{parts_of_op};
ghost use Rattle.trace_check.specs.TraceLine.{parts_of_line};
ghost use Rattle.trace_check.specs.declared.trace_line.TraceLine.TheVariants as trace_lines;
ghost use Rattle.litmus_script.specs.declared.trace_text.TheConstants.{LINE_ROOM};

use address_map::{Op, WordAddr};
use arrayvec::ArrayString;
use itoa::Buffer;
use slice_core::Entry;
use std::fmt;
use std::fmt::Write;

/// Room for the longest line, that of a compare-exchange: eight numbers of at most twenty digits, and the words and
/// blanks around them.
const LINE_ROOM: usize = 192;

/// The text of a line that is being built.
type LineText = ArrayString<LINE_ROOM>;

/// Writes the line of a word and the value that it begins with.
pub(crate) fn write_initial<W: Write>(word: WordAddr, value: u64, out: &mut W) -> fmt::Result
    ensures { OnOk result (WritesInCalls W.write_str_gives out.old
        (line_of_parts (parts_of_line (trace_lines.Init word value))) out.new) }
{
    let mut text = LineText::new();
    push_initial(word, value, &mut text);
    out.write_str(text.as_str())
}

/// Builds the line of an initial value.
fn push_initial(word: WordAddr, value: u64, text: &mut LineText)
    requires { text.old.bytes ≡ [] }
    ensures { text.new.bytes ≡ line_of_parts (parts_of_line (trace_lines.Init word value)) }
{
    text.push_str("init");
    push_number(word.0, text);
    push_number(value, text);
    text.push_str("\n");
}

/// Writes the line of an entry.
pub(crate) fn write_entry<W: Write>(entry: &Entry, out: &mut W) -> fmt::Result
    ensures { OnOk result (WritesInCalls W.write_str_gives out.old
        (line_of_parts (parts_of_line (trace_lines.Entry entry.now))) out.new) }
{
    let mut text = LineText::new();
    push_entry(entry, &mut text);
    out.write_str(text.as_str())
}

/// Builds the line of an entry.
fn push_entry(entry: &Entry, text: &mut LineText)
    requires { text.old.bytes ≡ [] }
    ensures { text.new.bytes ≡ line_of_parts (parts_of_line (trace_lines.Entry entry.now)) }
{
    text.push_str("entry");
    push_number(entry.core.0 as u64, text);
    push_number(entry.seq, text);
    push_number(entry.tag as u64, text);
    push_access(entry.op, entry.word, text);
    push_number(entry.reply, text);
    push_number(entry.since, text);
    text.push_str("\n");
}

/// Adds an access, after a blank.
#[tactic(auto, unfolding(litmus_text::specs::Command::parts_of_op))]
fn push_access(op: Op, word: WordAddr, text: &mut LineText)
    requires { length text.old.bytes ≤ 80 }
    ensures bytes { text.new.bytes ≡ text.old.bytes ++ (codes " " ++ text_of_parts (parts_of_op op word.0)) }
    ensures len { length text.new.bytes ≤ length text.old.bytes + 70 }
{
    match op {
        Op::Load => {
            text.push_str(" load");
            push_number(word.0, text);
        }
        Op::Store(value) => {
            text.push_str(" store");
            push_number(word.0, text);
            push_number(value, text);
        }
        Op::Add(delta) => {
            text.push_str(" add");
            push_number(word.0, text);
            push_number(delta, text);
        }
        Op::Cas { expect, new } => {
            text.push_str(" cas");
            push_number(word.0, text);
            push_number(expect, text);
            push_number(new, text);
        }
    }
}

/// Adds a number, after a blank.
fn push_number(number: u64, text: &mut LineText)
    requires { length text.old.bytes + 21 ≤ LINE_ROOM }
    ensures bytes { text.new.bytes ≡ text.old.bytes ++ (codes " " ++ decimal number) }
    ensures len { length text.new.bytes ≤ length text.old.bytes + 21 }
{
    let mut digits = Buffer::new();
    text.push_str(" ");
    text.push_str(digits.format(number));
}
