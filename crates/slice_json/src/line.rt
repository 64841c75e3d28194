//! A line as data: the directory's entry, the home copy, and the messages at the fronts of its channels.
ghost use Rattle.std.specs.Prelude.{OnOk};
ghost use Rattle.std.specs.Fmt.{WritesInCalls};
ghost use Rattle.address_map.specs.Locator.{local_at};
ghost use Rattle.slice_json.specs.Line.{text_of_line, text_of_line_in, text_of_mail, text_of_entry, text_of_set};

use super::json::{CoreList, write_values};
use super::message::write_messages;
use address_map::{CoreId, CoreSet, LineAddr};
use mshr_file::MissFile;
use slice_core::{DirState, SliceState};
use std::fmt;
use std::fmt::Write;

/// Writes a slice's view of a line, or null if there is none or the line isn't the slice's.
pub fn write_line_in<F: MissFile, W: Write>(
    state: &SliceState<F>,
    line: Option<LineAddr>,
    out: &mut W,
) -> fmt::Result
    ensures { OnOk result (WritesInCalls W.write_str_gives out.old (text_of_line_in state.now.view line) out.new) }
{
    match line {
        Some(line) => write_line(state, line, out),
        None => write!(out, "null"),
    }
}

fn write_line<F: MissFile, W: Write>(
    state: &SliceState<F>,
    line: LineAddr,
    out: &mut W,
) -> fmt::Result
    ensures { OnOk result (WritesInCalls W.write_str_gives out.old (text_of_line state.now.view line) out.new) }
{
    let Some(view) = state.line_view(line) else {
        return write!(out, "null");
    };
    write_entry(line, view.dir, view.owner, out)?;
    write_set(CoreSet::from_bits(view.sharers), out)?;
    write_values(&view.home, out)?;
    write_mail(state, line, out)
}

fn write_entry<W: Write>(
    line: LineAddr,
    dir: DirState,
    owner: Option<CoreId>,
    out: &mut W,
) -> fmt::Result
    ensures { OnOk result (WritesInCalls W.write_str_gives out.old (text_of_entry line dir owner) out.new) }
{
    let LineAddr(line) = line;
    match owner {
        Some(CoreId(owner)) => {
            write!(
                out,
                "{{\"line\":{line},\"dir\":\"{dir}\",\"owner\":{owner},"
            )
        }
        None => write!(out, "{{\"line\":{line},\"dir\":\"{dir}\",\"owner\":null,"),
    }
}

fn write_set<W: Write>(sharers: CoreSet, out: &mut W) -> fmt::Result
    ensures { OnOk result (WritesInCalls W.write_str_gives out.old (text_of_set sharers) out.new) }
{
    let sharers = CoreList(sharers);
    write!(out, "\"sharers\":{sharers},\"home\":")
}

/// Writes the messages of a line, if it is one of the slice's own.
fn write_mail<F: MissFile, W: Write>(
    state: &SliceState<F>,
    line: LineAddr,
    out: &mut W,
) -> fmt::Result
    ensures { OnOk result (WritesInCalls W.write_str_gives out.old
        (text_of_mail state.now.view line (local_at state.now.view.lines line.0)) out.new) }
{
    let Some(waiting) = state.waiting_at(line) else {
        return write!(out, "}}");
    };
    write!(out, ",\"messages\":")?;
    write_messages(state, line, waiting, out)?;
    write!(out, "}}")
}
