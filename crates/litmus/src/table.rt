ghost use Rattle.std.specs.Prelude.{◌≡◌, IfErr, IfOk, OnOk};
ghost use Rattle.std.specs.Fmt.{WritesInCalls};
ghost use Rattle.std.specs.Io.KnownBytes.{Appends};
ghost use Rattle.litmus.specs.Table.{text_of_table, values_of};
ghost use Rattle.litmus_command_line.specs.declared.table.Table.TheVariants as tables;

use super::legend;
use litmus_command_line::Table;
use litmus_script::TextWriter;
use litmus_text::TextFault;
use protocol_tables::{
    write_cache_cells, write_cache_table, write_directory_cells, write_directory_table,
};
use std::fmt;
use std::io::Write;

/// Prints a table, with or without what the exclusive state adds to it, and what its words mean. Returns the exit
/// status.
pub fn run_table<W: Write>(table: Table, exclusive: bool, out: &mut W) -> Result<u8, TextFault>
    ensures status { IfOk result (λ status. status ≡ 0) }
    ensures fault { IfErr result (λ fault. fault ≡ TextFault.CannotWrite) }
    ensures printed { OnOk result (Appends (W.contents out.old) (W.contents out.new) (text_of_table table exclusive)) }
{
    let mut answers = TextWriter { out };
    match write_table(table, exclusive, &mut answers) {
        Ok(()) => Ok(0),
        Err(_) => Err(TextFault::CannotWrite),
    }
}

/// Prints each cell of a table as a JSON value. Returns the exit status.
pub fn run_table_cells<W: Write>(
    table: Table,
    exclusive: bool,
    out: &mut W,
) -> Result<u8, TextFault>
    ensures status { IfOk result (λ status. status ≡ 0) }
    ensures fault { IfErr result (λ fault. fault ≡ TextFault.CannotWrite) }
    ensures printed { OnOk result (Appends (W.contents out.old) (W.contents out.new) (values_of table exclusive)) }
{
    let mut answers = TextWriter { out };
    match write_cells(table, exclusive, &mut answers) {
        Ok(()) => Ok(0),
        Err(_) => Err(TextFault::CannotWrite),
    }
}

fn write_cells<W: fmt::Write>(table: Table, exclusive: bool, out: &mut W) -> fmt::Result
    ensures { OnOk result (WritesInCalls W.write_str_gives out.old (values_of table exclusive) out.new) }
{
    match table {
        Table::Cache => write_cache_cells(exclusive, out),
        Table::Directory => write_directory_cells(exclusive, out),
    }
}

fn write_table<W: fmt::Write>(table: Table, exclusive: bool, out: &mut W) -> fmt::Result
    ensures { OnOk result (WritesInCalls W.write_str_gives out.old (text_of_table table exclusive) out.new) }
{
    match table {
        Table::Cache => write_cache(exclusive, out),
        Table::Directory => write_directory(exclusive, out),
    }
}

fn write_cache<W: fmt::Write>(exclusive: bool, out: &mut W) -> fmt::Result
    ensures { OnOk result (WritesInCalls W.write_str_gives out.old (text_of_table tables.Cache exclusive) out.new) }
{
    write_cache_table(exclusive, out)?;
    write!(out, "{}", legend::CACHE)
}

fn write_directory<W: fmt::Write>(exclusive: bool, out: &mut W) -> fmt::Result
    ensures { OnOk result (WritesInCalls W.write_str_gives out.old (text_of_table tables.Directory exclusive) out.new) }
{
    write_directory_table(exclusive, out)?;
    write!(out, "{}", legend::DIRECTORY)
}
