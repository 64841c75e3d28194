//! What was expected of the invalid entry of a trace, and where that comes from.
//!
//! The trace was judged already. It is read once more, up to that entry; the value of a word is the one that
//! `slice_log` computes plainly from the entries before.
ghost use Rattle.std.specs.Prelude.{◌≡◌};
ghost use Rattle.slice_log.specs.Log.{value};
ghost use Rattle.slice_log.specs.Op.{reply_of};

use address_map::{Op, WordAddr};
use litmus_text::{Statement, Statements};
use slice_log::{Entry, reply_to, value_after};
use std::alloc::{AllocError, Global};
use std::fmt;
use trace_check::{Reason, TraceLine, Version};

/// The invalid entry: the number of its line, and why it can't be there.
#[derive(Clone, Copy)]
pub(super) struct WrongEntry {
    line: usize,
    cause: Cause,
}

/// An earlier entry, with the number of its line.
#[derive(Clone, Copy)]
struct Earlier {
    number: usize,
    line: usize,
}

/// Where the value of a word comes from.
#[derive(Clone, Copy)]
enum Source {
    /// No line gives its initial value, so it begins with 0.
    Nothing,
    /// The line with this number does.
    Initial(usize),
    /// The last entry that wrote the word.
    Entry(Earlier),
}

/// What is wrong with an entry.
#[derive(Clone, Copy)]
enum Cause {
    /// It is a store, and so replies 0.
    Store,
    /// It replies another value than its word has.
    Value {
        expected: u64,
        source: Source,
    },
    /// The last entry before it of its core and line has no smaller SEQ.
    Order {
        seq: u64,
        last: Earlier,
        last_seq: u64,
    },
    /// It was requested when the log was longer than what is before it.
    Since {
        since: u64,
        number: usize,
    },
}

/// A word and the value that it begins with, with the number of its line.
#[derive(Clone, Copy)]
struct Initial {
    word: WordAddr,
    value: u64,
    line: usize,
}

/// What was read of a trace.
#[derive(Drop)]
struct Entries {
    init: Vec<Initial>,
    entries: Vec<Entry>,
    /// The number of each entry's line.
    lines: Vec<usize>,
}

/// Returns what is wrong with the entry of this number in a trace, which is invalid for this reason.
pub(super) fn wrong_entry_at(
    alloc: Global,
    input: &[u8],
    number: usize,
    reason: Reason,
) -> Result<Option<WrongEntry>, AllocError> {
    let read = Entries::read(alloc, input, number)?;
    Ok(read.last(reason))
}

impl Entries {
    /// Reads the entries of a trace up to the one with this number.
    fn read(alloc: Global, input: &[u8], number: usize) -> Result<Self, AllocError> {
        let mut statements = Statements::of(input);
        let Some(first) = statements.next() else {
            return Ok(Entries::new(alloc));
        };
        match Version::parse(first.words.as_slice()) {
            Ok(version) => Entries::read_behind(alloc, version, statements, number),
            Err(_) => Ok(Entries::new(alloc)),
        }
    }

    fn read_behind(
        alloc: Global,
        version: Version,
        statements: Statements<'_>,
        number: usize,
    ) -> Result<Self, AllocError> {
        let mut read = Entries::new(alloc);
        for statement in statements {
            if read.entries.len() > number {
                break;
            }
            read.take(version, &statement)?;
        }
        Ok(read)
    }

    fn new(alloc: Global) -> Self {
        Entries {
            init: Vec::new(alloc),
            entries: Vec::new(alloc),
            lines: Vec::new(alloc),
        }
    }

    fn take(&mut self, version: Version, statement: &Statement<'_>) -> Result<(), AllocError> {
        let line = statement.number;
        match TraceLine::parse(version, statement.words.as_slice()) {
            Ok(TraceLine::Init(word, value)) => self.init.push(Initial { word, value, line })?,
            Ok(TraceLine::Entry(entry)) => {
                self.entries.push(entry)?;
                self.lines.push(line)?;
            }
            // The trace was judged, so no line is refused.
            Err(_) => {}
        }
        Ok(())
    }

    /// Returns what is wrong with the last entry.
    fn last(&self, reason: Reason) -> Option<WrongEntry> {
        let (entry, before) = self.entries.as_slice().split_last()?;
        let line = *self.lines.as_slice().last()?;
        let cause = match reason {
            Reason::Reply => self.value_cause(before, entry),
            Reason::Order => self.order_cause(before, entry)?,
            Reason::Since => Cause::Since {
                since: entry.since,
                number: before.len(),
            },
        };
        Some(WrongEntry { line, cause })
    }

    fn value_cause(&self, before: &[Entry], entry: &Entry) -> Cause {
        if let Op::Store(_) = entry.op {
            return Cause::Store;
        }
        let initial = self.initial(entry.word);
        Cause::Value {
            expected: expected_reply(value_of(initial), before, entry),
            source: self.source(initial, before, entry.word),
        }
    }

    fn order_cause(&self, before: &[Entry], entry: &Entry) -> Option<Cause> {
        let number = last_of_core(before, entry)?;
        Some(Cause::Order {
            seq: entry.seq,
            last: self.earlier(number)?,
            last_seq: before.get(number)?.seq,
        })
    }

    /// Returns the line that gives a word's initial value, if one does.
    fn initial(&self, word: WordAddr) -> Option<Initial> {
        let found = self.init.iter().find(|initial| initial.word == word)?;
        Some(*found)
    }

    fn source(&self, initial: Option<Initial>, before: &[Entry], word: WordAddr) -> Source {
        match self.writer(before, word) {
            Some(writer) => Source::Entry(writer),
            None => source_of(initial),
        }
    }

    fn writer(&self, before: &[Entry], word: WordAddr) -> Option<Earlier> {
        self.earlier(last_writer(before, word)?)
    }

    fn earlier(&self, number: usize) -> Option<Earlier> {
        let line = *self.lines.get(number)?;
        Some(Earlier { number, line })
    }
}

fn value_of(initial: Option<Initial>) -> u64 {
    match initial {
        Some(initial) => initial.value,
        None => 0,
    }
}

fn source_of(initial: Option<Initial>) -> Source {
    match initial {
        Some(initial) => Source::Initial(initial.line),
        None => Source::Nothing,
    }
}

/// Returns the reply that an entry has to give after others, if its word begins with this value.
fn expected_reply(initial: u64, before: &[Entry], entry: &Entry) -> u64
    ensures { result ≡ reply_of entry.now.op (value initial before.now entry.now.word.0) }
{
    reply_to(entry.op, value_after(initial, before, entry.word))
}

/// Returns the number of the last entry that wrote the word.
fn last_writer(before: &[Entry], word: WordAddr) -> Option<usize> {
    let mut writer = None;
    for (number, entry) in before.iter().enumerate() {
        if writes(entry, word) {
            writer = Some(number);
        }
    }
    writer
}

/// Whether an entry wrote the word. A compare-exchange did if it replied what it expected.
fn writes(entry: &Entry, word: WordAddr) -> bool {
    if entry.word != word {
        return false;
    }
    match entry.op {
        Op::Load => false,
        Op::Store(_) | Op::Add(_) => true,
        Op::Cas { expect, .. } => entry.reply == expect,
    }
}

/// Returns the number of the last entry of the same core and line. Before an invalid entry it has the greatest SEQ.
fn last_of_core(before: &[Entry], entry: &Entry) -> Option<usize> {
    let mut last = None;
    for (number, earlier) in before.iter().enumerate() {
        if earlier.core == entry.core && earlier.word.line() == entry.word.line() {
            last = Some(number);
        }
    }
    last
}

impl fmt::Display for WrongEntry {
    fn fmt<W: fmt::Write>(&self, f: &mut fmt::Formatter<W>) -> fmt::Result {
        let line = self.line;
        write!(f, "line {line}: ")?;
        match self.cause {
            Cause::Store => f.write_str("expected reply 0, as of any store"),
            Cause::Value { expected, source } => write!(f, "expected reply {expected}, {source}"),
            Cause::Order {
                seq,
                last,
                last_seq,
            } => write!(f, "SEQ {seq} isn't above {last_seq}, the SEQ of {last}"),
            Cause::Since { since, number } => write!(
                f,
                "SINCE {since} is above {number}, the number of entries before it"
            ),
        }
    }
}

impl fmt::Display for Source {
    fn fmt<W: fmt::Write>(&self, f: &mut fmt::Formatter<W>) -> fmt::Result {
        match self {
            Source::Nothing => f.write_str("the initial value"),
            Source::Initial(line) => write!(f, "the initial value in line {line}"),
            Source::Entry(entry) => write!(f, "written by {entry}"),
        }
    }
}

impl fmt::Display for Earlier {
    fn fmt<W: fmt::Write>(&self, f: &mut fmt::Formatter<W>) -> fmt::Result {
        let Earlier { number, line } = self;
        write!(f, "entry {number} in line {line}")
    }
}

/// The same as members of a JSON object, and nothing if there is none. Words are strings, since they have 64 bits.
#[derive(Clone, Copy)]
pub(super) struct Members(pub Option<WrongEntry>);

impl fmt::Display for Members {
    ghost use Rattle.std.specs.Prelude.{Some};
    ghost use Rattle.text_verdicts.specs.Check.{members_of};

    ghost output = { λ members. Some (members_of members.0) };

    fn fmt<W: fmt::Write>(&self, f: &mut fmt::Formatter<W>) -> fmt::Result {
        match self.0 {
            Some(WrongEntry { line, cause }) => {
                let members = CauseMembers(cause);
                write!(f, ",\"line\":{line}{members}")
            }
            None => f.write_str(""),
        }
    }
}

#[derive(Clone, Copy)]
struct CauseMembers(Cause);

impl fmt::Display for CauseMembers {
    ghost use Rattle.std.specs.Prelude.{Some};
    ghost use Rattle.text_verdicts.specs.Check.{members_of_cause};

    ghost output = { λ members. Some (members_of_cause members.0) };

    fn fmt<W: fmt::Write>(&self, f: &mut fmt::Formatter<W>) -> fmt::Result {
        match self.0 {
            Cause::Store => f.write_str(",\"expected\":\"0\""),
            Cause::Value { expected, source } => {
                let writer = Writer(source);
                write!(f, ",\"expected\":\"{expected}\",\"written_by\":{writer}")
            }
            Cause::Order { last, .. } => {
                let number = last.number;
                write!(f, ",\"earlier_entry\":{number}")
            }
            Cause::Since { .. } => f.write_str(""),
        }
    }
}

/// The entry that wrote a word, or null.
#[derive(Clone, Copy)]
struct Writer(Source);

impl fmt::Display for Writer {
    ghost use Rattle.std.specs.Prelude.{Some};
    ghost use Rattle.text_verdicts.specs.Check.{text_of_writer};

    ghost output = { λ writer. Some (text_of_writer writer.0) };

    fn fmt<W: fmt::Write>(&self, f: &mut fmt::Formatter<W>) -> fmt::Result {
        match self.0 {
            Source::Entry(Earlier { number, .. }) => write!(f, "{number}"),
            _ => f.write_str("null"),
        }
    }
}
