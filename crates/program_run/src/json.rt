//! The report as one value of JSON.

ghost use Rattle.std.specs.Prelude.{◌≡◌, OnOk};
ghost use Rattle.std.specs.Fmt.{WritesInCalls};
ghost use Rattle.program_run.specs.Json.{
  core_object,
  core_objects_of,
  json_of,
  line_object,
  line_objects_of,
  member_of,
  members_of,
  moves_member,
  pace_members,
  usage_members,
};
ghost use Rattle.program_run.specs.Usage.{usage_at};

use super::column::{Column, columns_of_all, columns_of_core, line_columns, pace_columns};
use super::tally::{Counts, Tally};
use super::usage::{Usage, usage_of_all};
use litmus_text::{Number, write_comma};
use program_text::Limits;
use std::fmt;
use std::fmt::Write;

/// Writes what the report shows, under the keys of its columns.
pub(crate) fn write_json<W: Write>(
    tally: &Tally,
    usages: &[Usage],
    limits: Limits,
    seed: u64,
    out: &mut W,
) -> fmt::Result
    ensures { OnOk result
        (WritesInCalls W.write_str_gives out.old (json_of tally.now usages.now limits seed) out.new) }
{
    let is_limited = limits.is_limited();
    let all = tally.all();
    let usage = usage_of_all(usages);
    let seed = Number(seed);
    write!(out, "{{\"seed\":{seed},\"cores\":[")?;
    write_cores(is_limited, tally.cores(), usages, out)?;
    write!(out, "],\"lines\":[")?;
    write_lines(tally.lines(), out)?;
    write!(out, "],\"all\":{{")?;
    write_members(columns_of_all(is_limited), &all, out)?;
    write_usage(is_limited, usage, out)?;
    write_pace(is_limited, limits.is_paced(), usage.moves, &all, out)?;
    writeln!(out, "}}}}")
}

fn write_cores<W: Write>(
    is_limited: bool,
    cores: &[Counts],
    usages: &[Usage],
    out: &mut W,
) -> fmt::Result
    ensures { OnOk result
        (WritesInCalls W.write_str_gives out.old (core_objects_of is_limited cores.now usages.now) out.new) }
{
    let mut is_first = true;
    for (core, counts) in cores.iter().enumerate() {
        write_comma(is_first, out)?;
        is_first = false;
        write_core(core as u64, is_limited, counts, usage_at(usages, core), out)?;
    }
    Ok(())
}

fn usage_at(usages: &[Usage], core: usize) -> Usage
    ensures { result ≡ usage_at usages.now core }
{
    match usages.get(core) {
        Some(usage) => *usage,
        None => Usage::none(),
    }
}

fn write_core<W: Write>(
    core: u64,
    is_limited: bool,
    counts: &Counts,
    usage: Usage,
    out: &mut W,
) -> fmt::Result
    ensures { OnOk result
        (WritesInCalls W.write_str_gives out.old (core_object is_limited core counts.now usage) out.new) }
{
    write!(out, "{{\"core\":{core},")?;
    write_members(columns_of_core(is_limited), counts, out)?;
    write_usage(is_limited, usage, out)?;
    write!(out, "}}")
}

// Writes what was in use, where several accesses of a core may be under way.
fn write_usage<W: Write>(is_limited: bool, usage: Usage, out: &mut W) -> fmt::Result
    ensures { OnOk result (WritesInCalls W.write_str_gives out.old (usage_members is_limited usage) out.new) }
{
    if !is_limited {
        return Ok(());
    }
    let moves = Number(usage.moves);
    let most_registers = Number(usage.most_registers);
    let sum_registers = Number(usage.sum_registers);
    let most_targets = Number(usage.most_targets);
    let sum_targets = Number(usage.sum_targets);
    write!(
        out,
        ",\"moves\":{moves},\"registers_most\":{most_registers},\"registers_sum\":{sum_registers},\"targets_most\":{most_targets},\"targets_sum\":{sum_targets}"
    )
}

// Writes how many moves there were and how many delivered, if it is given how many deliveries each slice makes.
fn write_pace<W: Write>(
    is_limited: bool,
    is_paced: bool,
    moves: u64,
    all: &Counts,
    out: &mut W,
) -> fmt::Result
    ensures { OnOk result
        (WritesInCalls W.write_str_gives out.old (pace_members is_limited is_paced moves all.now) out.new) }
{
    if !is_paced {
        return Ok(());
    }
    write_moves(is_limited, moves, out)?;
    write!(out, ",")?;
    write_members(pace_columns(), all, out)
}

fn write_moves<W: Write>(is_there: bool, moves: u64, out: &mut W) -> fmt::Result
    ensures { OnOk result (WritesInCalls W.write_str_gives out.old (moves_member is_there moves) out.new) }
{
    if is_there {
        return Ok(());
    }
    let moves = Number(moves);
    write!(out, ",\"moves\":{moves}")
}

fn write_lines<W: Write>(lines: &[Counts], out: &mut W) -> fmt::Result
    ensures { OnOk result (WritesInCalls W.write_str_gives out.old (line_objects_of lines.now) out.new) }
{
    let mut is_first = true;
    for (line, counts) in lines.iter().enumerate() {
        if counts.requests() == 0 {
            continue;
        }
        write_comma(is_first, out)?;
        is_first = false;
        write_line(line as u64, counts, out)?;
    }
    Ok(())
}

fn write_line<W: Write>(line: u64, counts: &Counts, out: &mut W) -> fmt::Result
    ensures { OnOk result (WritesInCalls W.write_str_gives out.old (line_object line counts.now) out.new) }
{
    write!(out, "{{\"line\":{line},")?;
    write_members(line_columns(), counts, out)?;
    write!(out, "}}")
}

fn write_members<W: Write>(columns: &[Column], counts: &Counts, out: &mut W) -> fmt::Result
    ensures { OnOk result
        (WritesInCalls W.write_str_gives out.old (members_of columns.now counts.now) out.new) }
{
    let mut is_first = true;
    for column in columns {
        write_comma(is_first, out)?;
        is_first = false;
        write_member(*column, counts, out)?;
    }
    Ok(())
}

fn write_member<W: Write>(column: Column, counts: &Counts, out: &mut W) -> fmt::Result
    ensures { OnOk result (WritesInCalls W.write_str_gives out.old (member_of counts.now column) out.new) }
{
    let key = column.key();
    let count = Number(column.count(counts));
    write!(out, "\"{key}\":{count}")
}
