ghost use Rattle.std.specs.Prelude.{◌≡◌, ◌++◌, All, OnOk, IfOk, IfErr};
ghost use Rattle.std.specs.String.{string_bytes};
ghost use Rattle.std.specs.Fmt.{decimal};
ghost use Rattle.std.specs.Io.KnownBytes.{Appends};
ghost use Rattle.stats_report.specs.Text.{LeavesOnly};
ghost use Rattle.stats_report.specs.Column.{name_of};
ghost use Rattle.stats_report.specs.Report.{
  views_of,
  right_in_10,
  HasCore,
  HasCores,
  AreAlike,
  heading_of,
  cell_of,
  core_line,
  core_lines,
  message_line,
  report_of,
  message_totals,
};

use super::column::{Column, columns};
use super::total::{total, total_messages};
use super::write::{Cut, write_text};
use slice_answer::{MessageCounts, Stats};
use std::alloc::{AllocError, Global};
use std::error::Error;
use std::fmt;
use std::io::Write;

/// Why a report wasn't written whole.
#[derive(Clone, Copy, Debug, PartialEq, Eq)]
pub enum ReportError {
    /// There was no memory for its text, and nothing of it was written.
    Memory,
    Cut(Cut),
}

impl fmt::Display for ReportError {
    ghost use Rattle.std.specs.Prelude.{Some};
    ghost use Rattle.stats_report.specs.Text.{text_of_error};

    ghost output = { λ error. Some (text_of_error error) };

    fn fmt<W: fmt::Write>(&self, f: &mut fmt::Formatter<W>) -> fmt::Result {
        f.write_str(match self {
            ReportError::Memory => "no memory",
            ReportError::Cut(_) => "cannot write",
        })
    }
}

impl Error for ReportError {}

/// Writes the report on the slices of one machine.
pub fn write_report<W: Write>(
    alloc: Global,
    stats: &[&Stats],
    out: &mut W,
) -> Result<(), ReportError>
    requires { AreAlike (views_of stats.now) }
    ensures ok { OnOk result (Appends (W.contents out.old) (W.contents out.new) (report_of (views_of stats.now))) }
    ensures err { IfErr result (LeavesOnly (W.contents out.old) (W.contents out.new) (report_of (views_of stats.now))) }
{
    let Ok(text) = report(alloc, stats) else {
        return Err(ReportError::Memory);
    };
    match write_text(out, text.as_bytes()) {
        Ok(()) => Ok(()),
        Err(cut) => Err(ReportError::Cut(cut)),
    }
}

// The text of the report.
fn report(alloc: Global, stats: &[&Stats]) -> Result<String, AllocError>
    requires { AreAlike (views_of stats.now) }
    ensures { IfOk result (λ text. string_bytes text ≡ report_of (views_of stats.now)) }
{
    let first = stats[0];
    let columns = columns(first.exclusive());
    let mut text = String::new(alloc);
    push_heading(&mut text, columns)?;
    push_core_lines(&mut text, stats, columns, first.cores().len())?;
    push_message_line(&mut text, &total_messages(stats))?;
    Ok(text)
}

fn push_heading(text: &mut String, columns: &[Column]) -> Result<(), AllocError>
    ensures { OnOk result (string_bytes text.new ≡ string_bytes text.old ++ heading_of columns.now) }
{
    text.push_str("      core")?;
    for column in columns {
        push_name(text, *column)?;
    }
    text.push('\n')
}

fn push_name(text: &mut String, column: Column) -> Result<(), AllocError>
    ensures { OnOk result (string_bytes text.new ≡ string_bytes text.old ++ right_in_10 (name_of column)) }
{
    let name = column.name();
    write!(text, "{name:>10}")
}

fn push_core_lines(
    text: &mut String,
    stats: &[&Stats],
    columns: &[Column],
    cores: usize,
) -> Result<(), AllocError>
    requires { All (HasCores cores) (views_of stats.now) }
    ensures { OnOk result
        (string_bytes text.new ≡ string_bytes text.old ++ core_lines columns.now (views_of stats.now) cores) }
{
    for core in 0..cores {
        push_core_line(text, stats, columns, core)?;
    }
    Ok(())
}

fn push_core_line(
    text: &mut String,
    stats: &[&Stats],
    columns: &[Column],
    core: usize,
) -> Result<(), AllocError>
    requires { All (HasCore core) (views_of stats.now) }
    ensures { OnOk result
        (string_bytes text.new ≡ string_bytes text.old ++ core_line columns.now (views_of stats.now) core) }
{
    push_number(text, core as u64)?;
    for column in columns {
        push_cell(text, stats, core, *column)?;
    }
    text.push('\n')
}

fn push_cell(
    text: &mut String,
    stats: &[&Stats],
    core: usize,
    column: Column,
) -> Result<(), AllocError>
    requires { All (HasCore core) (views_of stats.now) }
    ensures { OnOk result (string_bytes text.new ≡ string_bytes text.old ++ cell_of (views_of stats.now) core column) }
{
    push_number(text, total(stats, core, column))
}

fn push_number(text: &mut String, number: u64) -> Result<(), AllocError>
    ensures { OnOk result (string_bytes text.new ≡ string_bytes text.old ++ right_in_10 (decimal number)) }
{
    write!(text, "{number:>10}")
}

fn push_message_line(text: &mut String, messages: &MessageCounts) -> Result<(), AllocError>
    ensures { OnOk result (string_bytes text.new ≡ string_bytes text.old ++ message_line messages.now) }
{
    let MessageCounts {
        requests,
        forwarded,
        data_replies,
        acknowledgements,
        home,
    } = *messages;
    writeln!(
        text,
        "messages req {requests} fwd {forwarded} data {data_replies} ack {acknowledgements} home {home}",
    )
}
