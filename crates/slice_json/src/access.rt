//! Accesses as data: those that wait for a line, and those that were performed.
ghost use Rattle.std.specs.Prelude.{OnOk, drop, map};
ghost use Rattle.std.specs.Fmt.{WritesInCalls};
ghost use Rattle.slice_json.specs.Access.{list_of_entries, list_of_targets, text_of_entry, text_of_log};
ghost use Rattle.slice_json.specs.Access.{text_of_place, text_of_target};
ghost use Rattle.litmus_text.specs.JsonList.{with_commas};

use address_map::{CoreId, Offset, Op, WordAddr};
use litmus_text::write_comma;
use mshr_file::Target;
use slice_core::Entry;
use std::fmt;
use std::fmt::Write;

/// An access, with its operands as strings of their digits.
#[derive(Clone, Copy)]
pub struct Asked(pub Op);

impl fmt::Display for Asked {
    ghost use Rattle.std.specs.Prelude.{Some};
    ghost use Rattle.slice_json.specs.Access.{text_of_op};

    ghost output = { λ asked. Some (text_of_op asked.0) };

    fn fmt<W: fmt::Write>(&self, f: &mut fmt::Formatter<W>) -> fmt::Result {
        match self.0 {
            Op::Load => f.write_str("\"op\":\"load\""),
            Op::Store(value) => write!(f, "\"op\":\"store\",\"value\":\"{value}\""),
            Op::Add(value) => write!(f, "\"op\":\"add\",\"value\":\"{value}\""),
            Op::Cas { expect, new } => write!(
                f,
                "\"op\":\"cas\",\"expect\":\"{expect}\",\"value\":\"{new}\""
            ),
        }
    }
}

/// Writes a list of the accesses that wait for a line, the oldest first.
pub fn write_targets<W: Write>(targets: &[Target], out: &mut W) -> fmt::Result
    ensures { OnOk result (WritesInCalls W.write_str_gives out.old (list_of_targets targets.now) out.new) }
{
    write!(out, "[")?;
    write_each_target(targets, out)?;
    write!(out, "]")
}

fn write_each_target<W: Write>(targets: &[Target], out: &mut W) -> fmt::Result
    ensures { OnOk result (WritesInCalls W.write_str_gives out.old
        (with_commas (map text_of_target targets.now)) out.new) }
{
    let mut is_first = true;
    for target in targets {
        write_comma(is_first, out)?;
        is_first = false;
        write_target(*target, out)?;
    }
    Ok(())
}

fn write_target<W: Write>(target: Target, out: &mut W) -> fmt::Result
    ensures { OnOk result (WritesInCalls W.write_str_gives out.old (text_of_target target) out.new) }
{
    let Target {
        op,
        seq,
        since,
        offset: Offset(offset),
        tag,
    } = target;
    let asked = Asked(op);
    write!(
        out,
        "{{\"tag\":{tag},\"offset\":{offset},{asked},\"seq\":{seq},\"since\":{since}}}"
    )
}

/// Writes the entries of a slice's log from this number on.
pub fn write_log<W: Write>(slice: usize, first: usize, log: &[Entry], out: &mut W) -> fmt::Result
    ensures { OnOk result (WritesInCalls W.write_str_gives out.old (text_of_log slice first log.now) out.new) }
{
    write_place(slice, first, out)?;
    write_entries(first, log, out)?;
    write!(out, "]}}")
}

fn write_place<W: Write>(slice: usize, first: usize, out: &mut W) -> fmt::Result
    ensures { OnOk result (WritesInCalls W.write_str_gives out.old (text_of_place slice first) out.new) }
{
    write!(out, "{{\"slice\":{slice},\"first\":{first},\"entries\":[")
}

fn write_entries<W: Write>(first: usize, log: &[Entry], out: &mut W) -> fmt::Result
    ensures { OnOk result (WritesInCalls W.write_str_gives out.old (list_of_entries (drop first log.now)) out.new) }
{
    let mut is_first = true;
    for number in first..log.len() {
        write_comma(is_first, out)?;
        is_first = false;
        write_entry(log[number], out)?;
    }
    Ok(())
}

fn write_entry<W: Write>(entry: Entry, out: &mut W) -> fmt::Result
    ensures { OnOk result (WritesInCalls W.write_str_gives out.old (text_of_entry entry) out.new) }
{
    let Entry {
        op,
        word: WordAddr(word),
        reply,
        core: CoreId(core),
        tag,
        ..
    } = entry;
    let asked = Asked(op);
    write!(
        out,
        "{{\"core\":{core},\"tag\":{tag},\"word\":{word},{asked},\"reply\":\"{reply}\"}}"
    )
}
