use super::arrow::Participant;
use address_map::{Checked, CoreId, CoreSet, LineAddr};
use litmus_script::TextWriter;
use litmus_text::Statement;
use slice_core::LineView;
use slice_text::Cores;
use std::fmt::{Display, Write};
use std::{fmt, io};

/// Writes the participants: the directory of each slice, and then each core.
pub fn write_participants<W: Write>(config: &Checked, out: &mut W) -> fmt::Result {
    writeln!(out, "sequenceDiagram")?;
    write_directories(config.slices(), out)?;
    for core in 0..config.cores() {
        writeln!(out, "    participant core{core} as core {core}")?;
    }
    Ok(())
}

fn write_directories<W: Write>(slices: usize, out: &mut W) -> fmt::Result {
    if slices == 1 {
        return writeln!(out, "    participant dir0 as directory");
    }
    for slice in 0..slices {
        writeln!(out, "    participant dir{slice} as slice {slice} directory")?;
    }
    Ok(())
}

/// Begins a note on the result of a statement, with its words. The answer is written next, and ends the note.
pub fn begin_note<W: io::Write>(
    over: impl Display + Drop,
    statement: &Statement<'_>,
    out: &mut TextWriter<'_, W>,
) -> fmt::Result {
    write!(out, "    Note over {over}: ")?;
    write_words(statement, out)
}

/// The same for an access that isn't accepted: an arrow of the core to itself, which ends in a cross.
pub fn begin_cross<W: io::Write>(
    core: Participant,
    statement: &Statement<'_>,
    out: &mut TextWriter<'_, W>,
) -> fmt::Result {
    write!(out, "    {core}-x{core}: ")?;
    write_words(statement, out)
}

// The words of a statement, and a colon.
fn write_words<W: io::Write>(
    statement: &Statement<'_>,
    out: &mut TextWriter<'_, W>,
) -> fmt::Result {
    for (place, word) in statement.words.iter().enumerate() {
        if place > 0 {
            out.write_str(" ")?;
        }
        out.write_bytes(word)?;
    }
    out.write_str(": ")
}

/// Writes what changed of a line: a note over its directory, where the entry did, and over each core whose copy did.
pub fn write_changes<W: Write>(
    directory: Participant,
    line: LineAddr,
    before: &LineView,
    after: &LineView,
    out: &mut W,
) -> fmt::Result {
    if is_other_entry(before, after) {
        write_entry_change(directory, line, before, after, out)?;
    }
    let copies = before.copies.iter().zip(after.copies.iter());
    for (core, (before, after)) in copies.enumerate() {
        if before != after {
            write_copy_change(core, line, before, after, out)?;
        }
    }
    Ok(())
}

fn write_copy_change<C: Display, W: Write>(
    core: usize,
    line: LineAddr,
    before: &C,
    after: &C,
    out: &mut W,
) -> fmt::Result {
    let number = line.0;
    writeln!(
        out,
        "    Note over core{core}: line {number}: {before} to {after}"
    )
}

fn is_other_entry(before: &LineView, after: &LineView) -> bool {
    before.dir != after.dir || before.owner != after.owner || before.sharers != after.sharers
}

// The state before and after, and then the owner and the sharers that there are.
fn write_entry_change<W: Write>(
    directory: Participant,
    line: LineAddr,
    before: &LineView,
    after: &LineView,
    out: &mut W,
) -> fmt::Result {
    let number = line.0;
    let (left, entered) = (before.dir, after.dir);
    write!(
        out,
        "    Note over {directory}: line {number}: {left} to {entered}"
    )?;
    if let Some(CoreId(owner)) = after.owner {
        write!(out, ", owner {owner}")?;
    }
    end_with_sharers(CoreSet::from_bits(after.sharers), out)
}

fn end_with_sharers<W: Write>(sharers: CoreSet, out: &mut W) -> fmt::Result {
    if !sharers.is_empty() {
        write!(out, ", sharers {}", Cores(sharers))?;
    }
    writeln!(out)
}
