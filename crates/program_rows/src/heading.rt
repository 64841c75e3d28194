//! The heading of rows: which columns are settings, and which are counts.

use super::fault::RowsFault;
use super::field::{first_field, unquoted};
use super::line::{Place, whole_line};
use std::alloc::Global;

/// The heading of all rows.
#[derive(Debug, Drop)]
pub(crate) struct Heading {
    /// The file that had it first.
    pub file: usize,
    /// Its line, without the end.
    pub text: Vec<u8>,
    pub columns: Columns,
}

/// How many columns come before `seed`, and how many after it.
#[derive(Clone, Copy, Debug)]
pub(crate) struct Columns {
    pub settings: usize,
    pub counts: usize,
}

/// Whether a text begins as rows do: with a heading whose first column is `program`.
pub fn are_rows(text: &[u8]) -> bool {
    let line = match whole_line(text) {
        Some((line, _)) => line,
        None => text,
    };
    match first_field(line) {
        Some(split) => is_named(split.field, b"program"),
        None => false,
    }
}

impl Heading {
    /// Reads the first line of a file.
    pub fn read(alloc: Global, file: usize, line: &[u8]) -> Result<Self, RowsFault> {
        Ok(Heading {
            file,
            text: Vec::from_slice(alloc, line)?,
            columns: columns_of(file, line)?,
        })
    }
}

fn columns_of(file: usize, line: &[u8]) -> Result<Columns, RowsFault> {
    let place = Place { file, line: 1 };
    let mut settings = None;
    let mut rest = line;
    for column in 0..line.len() {
        let Some(split) = first_field(rest) else {
            return Err(place.not_a_row());
        };
        if settings.is_none() && is_named(split.field, b"seed") {
            settings = Some(column);
        }
        let Some(behind) = split.behind else {
            return match settings {
                Some(settings) => Ok(Columns {
                    settings,
                    counts: column - settings,
                }),
                None => Err(RowsFault::NoSeed { file }),
            };
        };
        rest = behind;
    }
    Err(RowsFault::NoSeed { file })
}

fn is_named(field: &[u8], name: &[u8]) -> bool {
    unquoted(field) == name
}
