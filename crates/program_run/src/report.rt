ghost use Rattle.std.specs.Prelude.{◌≡◌, OnOk, decimal};
ghost use Rattle.std.specs.Fmt.{WritesInCalls};
ghost use Rattle.stats_report.specs.Report.{right_in_10};
ghost use Rattle.program_run.specs.Column.{name_of};
ghost use Rattle.program_run.specs.Report.{core_rows, counts_of, heading_of, line_row, line_rows, names_of};
ghost use Rattle.program_run.specs.Report.{mean_of, pace_table, parallel_table, report_of, row_of, usage_row, usage_rows, usage_table};

use super::column::{Column, core_columns, line_columns, pace_columns, parallel_columns};
use super::tally::{Counts, Tally};
use super::usage::{Usage, hundredths_of, usage_of_all, whole_of};
use program_text::Limits;
use std::fmt;
use std::fmt::Write;

/// Writes a table of the cores, and one of the lines that were asked for, which ends with the sums. Two further tables
/// of the cores follow it where several accesses of each may be under way, and at the end how many moves delivered,
/// if it is given how many deliveries each slice makes.
pub(crate) fn write_report<W: Write>(
    tally: &Tally,
    usages: &[Usage],
    limits: Limits,
    seed: u64,
    out: &mut W,
) -> fmt::Result
    ensures { OnOk result
        (WritesInCalls W.write_str_gives out.old (report_of tally.now usages.now limits seed) out.new) }
{
    let is_limited = limits.is_limited();
    let all = tally.all();
    writeln!(out, "seed {seed}")?;
    write_heading("      core", core_columns(), out)?;
    write_cores(core_columns(), tally.cores(), out)?;
    write_heading("      line", line_columns(), out)?;
    write_lines(tally.lines(), out)?;
    write!(out, "       all")?;
    write_counts(line_columns(), &all, out)?;
    writeln!(out)?;
    write_parallel(is_limited, tally.cores(), out)?;
    write_usages(is_limited, usages, out)?;
    write_pace(limits.is_paced(), usage_of_all(usages).moves, &all, out)
}

fn write_parallel<W: Write>(is_limited: bool, cores: &[Counts], out: &mut W) -> fmt::Result
    ensures { OnOk result (WritesInCalls W.write_str_gives out.old (parallel_table is_limited cores.now) out.new) }
{
    if !is_limited {
        return Ok(());
    }
    write_heading("      core", parallel_columns(), out)?;
    write_cores(parallel_columns(), cores, out)
}

fn write_usages<W: Write>(is_limited: bool, usages: &[Usage], out: &mut W) -> fmt::Result
    ensures { OnOk result (WritesInCalls W.write_str_gives out.old (usage_table is_limited usages.now) out.new) }
{
    if !is_limited {
        return Ok(());
    }
    writeln!(
        out,
        "      core regs-most    regs-mean tgts-most    tgts-mean"
    )?;
    write_usage_rows(usages, out)
}

fn write_pace<W: Write>(is_paced: bool, moves: u64, all: &Counts, out: &mut W) -> fmt::Result
    ensures { OnOk result (WritesInCalls W.write_str_gives out.old (pace_table is_paced moves all.now) out.new) }
{
    if !is_paced {
        return Ok(());
    }
    write_heading("     moves", pace_columns(), out)?;
    write_row(moves, pace_columns(), all, out)
}

fn write_usage_rows<W: Write>(usages: &[Usage], out: &mut W) -> fmt::Result
    ensures { OnOk result (WritesInCalls W.write_str_gives out.old (usage_rows usages.now) out.new) }
{
    for (core, usage) in usages.iter().enumerate() {
        write_usage(core as u64, usage, out)?;
    }
    Ok(())
}

fn write_usage<W: Write>(core: u64, usage: &Usage, out: &mut W) -> fmt::Result
    ensures { OnOk result (WritesInCalls W.write_str_gives out.old (usage_row core usage.now) out.new) }
{
    write_number(core, out)?;
    write_number(usage.most_registers, out)?;
    write_mean(usage.sum_registers, usage.moves, out)?;
    write_number(usage.most_targets, out)?;
    write_mean(usage.sum_targets, usage.moves, out)?;
    writeln!(out)
}

// Writes a mean with two places after the point.
fn write_mean<W: Write>(sum: u64, moves: u64, out: &mut W) -> fmt::Result
    ensures { OnOk result (WritesInCalls W.write_str_gives out.old (mean_of sum moves) out.new) }
{
    let hundredths = hundredths_of(sum, moves);
    let tenths = hundredths / 10;
    let rest = hundredths % 10;
    write_number(whole_of(sum, moves), out)?;
    write!(out, ".{tenths}{rest}")
}

fn write_heading<W: Write>(title: &str, columns: &[Column], out: &mut W) -> fmt::Result
    ensures { OnOk result (WritesInCalls W.write_str_gives out.old (heading_of title.now columns.now) out.new) }
{
    write!(out, "{title}")?;
    write_names(columns, out)?;
    writeln!(out)
}

fn write_names<W: Write>(columns: &[Column], out: &mut W) -> fmt::Result
    ensures { OnOk result (WritesInCalls W.write_str_gives out.old (names_of columns.now) out.new) }
{
    for column in columns {
        write_name(*column, out)?;
    }
    Ok(())
}

fn write_name<W: Write>(column: Column, out: &mut W) -> fmt::Result
    ensures { OnOk result (WritesInCalls W.write_str_gives out.old (right_in_10 (name_of column)) out.new) }
{
    let name = column.name();
    write!(out, "{name:>10}")
}

fn write_cores<W: Write>(columns: &[Column], cores: &[Counts], out: &mut W) -> fmt::Result
    ensures { OnOk result (WritesInCalls W.write_str_gives out.old (core_rows columns.now cores.now) out.new) }
{
    for (core, counts) in cores.iter().enumerate() {
        write_row(core as u64, columns, counts, out)?;
    }
    Ok(())
}

fn write_lines<W: Write>(lines: &[Counts], out: &mut W) -> fmt::Result
    ensures { OnOk result (WritesInCalls W.write_str_gives out.old (line_rows lines.now) out.new) }
{
    for (line, counts) in lines.iter().enumerate() {
        write_line(line as u64, counts, out)?;
    }
    Ok(())
}

// A line that wasn't asked for has no row.
fn write_line<W: Write>(line: u64, counts: &Counts, out: &mut W) -> fmt::Result
    ensures { OnOk result (WritesInCalls W.write_str_gives out.old (line_row line counts.now) out.new) }
{
    if counts.requests() == 0 {
        return Ok(());
    }
    write_row(line, line_columns(), counts, out)
}

fn write_row<W: Write>(number: u64, columns: &[Column], counts: &Counts, out: &mut W) -> fmt::Result
    ensures { OnOk result
        (WritesInCalls W.write_str_gives out.old (row_of number columns.now counts.now) out.new) }
{
    write_number(number, out)?;
    write_counts(columns, counts, out)?;
    writeln!(out)
}

fn write_counts<W: Write>(columns: &[Column], counts: &Counts, out: &mut W) -> fmt::Result
    ensures { OnOk result (WritesInCalls W.write_str_gives out.old (counts_of columns.now counts.now) out.new) }
{
    for column in columns {
        write_number(column.count(counts), out)?;
    }
    Ok(())
}

fn write_number<W: Write>(number: u64, out: &mut W) -> fmt::Result
    ensures { OnOk result (WritesInCalls W.write_str_gives out.old (right_in_10 (decimal number)) out.new) }
{
    write!(out, "{number:>10}")
}
