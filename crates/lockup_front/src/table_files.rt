//! Tables with changed cells, read from files.

use super::files::text_of;
use super::streams::{REFUSED, Streams, complain};
use changed_tables::{
    CacheChange, DirectoryChange, TableFault, Tables, read_cache_table, read_directory_table,
};
use litmus_command_line::TableFiles;
use litmus_text::Lines;
use std::rt::Files;

/// Reads the tables in these files, and takes ours if none is named. At Err, the error was reported, and this is the
/// exit status.
pub fn read_tables<R>(
    rt: &R,
    streams: Streams,
    files: TableFiles<'_>,
    exclusive: bool,
) -> Result<Tables, u8>
where
    R: Files + Input + AllocGlobal + Eprint,
{
    Ok(Tables {
        exclusive,
        cache: cache_changes(rt, streams, files.cache, exclusive)?,
        directory: directory_changes(rt, streams, files.directory, exclusive)?,
    })
}

fn cache_changes<R>(
    rt: &R,
    streams: Streams,
    file: Option<&str>,
    exclusive: bool,
) -> Result<Vec<CacheChange>, u8>
where
    R: Files + Input + AllocGlobal + Eprint,
{
    let Some(file) = file else {
        return Ok(Vec::new(rt.alloc()));
    };
    let text = text_of(rt, streams, file)?;
    match read_cache_table(rt.alloc(), exclusive, &text) {
        Ok(changes) => Ok(changes),
        Err(fault) => Err(refuse(rt, streams, file, &text, fault)),
    }
}

fn directory_changes<R>(
    rt: &R,
    streams: Streams,
    file: Option<&str>,
    exclusive: bool,
) -> Result<Vec<DirectoryChange>, u8>
where
    R: Files + Input + AllocGlobal + Eprint,
{
    let Some(file) = file else {
        return Ok(Vec::new(rt.alloc()));
    };
    let text = text_of(rt, streams, file)?;
    match read_directory_table(rt.alloc(), exclusive, &text) {
        Ok(changes) => Ok(changes),
        Err(fault) => Err(refuse(rt, streams, file, &text, fault)),
    }
}

/// Reports why a table can't be read, with the row, the column and the words of the cell, and returns the exit status.
fn refuse<R: Eprint>(rt: &R, streams: Streams, file: &str, text: &[u8], fault: TableFault) -> u8 {
    match cell_at(text, fault) {
        Some(cell) => {
            let Cell { row, column, words } = cell;
            complain(
                rt,
                streams,
                format_args!("{file}: {fault}: row '{row}', column '{column}': '{words}'"),
            );
        }
        None => complain(rt, streams, format_args!("{file}: {fault}")),
    }
    REFUSED
}

/// What a text says of a cell.
#[derive(Clone, Copy)]
struct Cell<'a> {
    row: &'a str,
    column: &'a str,
    words: &'a str,
}

// Returns the cell of a fault, under the last heading above it.
fn cell_at(text: &[u8], fault: TableFault) -> Option<Cell<'_>> {
    let TableFault::At { line, cell, .. } = fault else {
        return None;
    };
    let mut heading = None;
    let mut number = 0usize;
    for read in Lines::of(text) {
        number = number.saturating_add(1);
        if number == line {
            return Some(Cell {
                row: word_of(read, 1)?,
                column: word_of(heading?, cell)?,
                words: word_of(read, cell)?,
            });
        }
        if matches!(word_of(read, 1), Some("Cache" | "Directory")) {
            heading = Some(read);
        }
    }
    None
}

// Returns the words of a cell of a line. The first cell has number 1.
fn word_of(line: &[u8], cell: usize) -> Option<&str> {
    let mut number = 0usize;
    for words in str::from_utf8(line).ok()?.split('|') {
        if number == cell {
            return Some(words.trim());
        }
        number = number.saturating_add(1);
    }
    None
}
