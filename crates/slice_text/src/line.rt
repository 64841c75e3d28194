ghost use Rattle.std.specs.Prelude.{◌++◌, OnOk, codes};
ghost use Rattle.std.specs.Fmt.{WritesInCalls};
ghost use Rattle.slice_text.specs.Line.{text_of_entry, text_of_line, text_of_owner, text_of_states, text_of_words};

use crate::Cores;
use address_map::{CoreId, CoreSet, LineAddr};
use cache_table::CopyState;
use directory_table::DirState;
use slice_core::LineView;
use std::fmt;
use std::fmt::Write;

/// Writes a slice's view of a line, as one line of text.
pub fn write_line<W: Write>(line: LineAddr, view: &LineView, out: &mut W) -> fmt::Result
    ensures { OnOk result (WritesInCalls W.write_str_gives out.old (text_of_line line view.now) out.new) }
{
    write_entry(line, view.dir, out)?;
    write_owner(view.owner, out)?;
    write!(out, " sharers {}", Cores(CoreSet::from_bits(view.sharers)))?;
    write_home(&view.home, out)?;
    write_copies(view.copies.as_slice(), out)?;
    writeln!(out)
}

fn write_entry<W: Write>(line: LineAddr, dir: DirState, out: &mut W) -> fmt::Result
    ensures { OnOk result (WritesInCalls W.write_str_gives out.old (text_of_entry line dir) out.new) }
{
    let number = line.0;
    write!(out, "line {number} dir {dir}")
}

fn write_owner<W: Write>(owner: Option<CoreId>, out: &mut W) -> fmt::Result
    ensures { OnOk result (WritesInCalls W.write_str_gives out.old (text_of_owner owner) out.new) }
{
    match owner {
        Some(CoreId(owner)) => write!(out, " owner {owner}"),
        None => write!(out, " owner -"),
    }
}

fn write_home<W: Write>(home: &[u64], out: &mut W) -> fmt::Result
    ensures { OnOk result (WritesInCalls W.write_str_gives out.old (codes " home" ++ text_of_words home.now) out.new) }
{
    write!(out, " home")?;
    write_words(home, out)
}

/// Writes the words of a block.
pub(crate) fn write_words<W: Write>(words: &[u64], out: &mut W) -> fmt::Result
    ensures { OnOk result (WritesInCalls W.write_str_gives out.old (text_of_words words.now) out.new) }
{
    for word in words {
        write!(out, " {word}")?;
    }
    Ok(())
}

fn write_copies<W: Write>(copies: &[CopyState], out: &mut W) -> fmt::Result
    ensures { OnOk result (WritesInCalls W.write_str_gives out.old
        (codes " cores" ++ text_of_states copies.now) out.new) }
{
    write!(out, " cores")?;
    for state in copies {
        write!(out, " {state}")?;
    }
    Ok(())
}
