//! What a line of rows holds.

use super::fault::RowsFault;
use super::field::{first_field, unquoted};
use super::heading::Columns;
use litmus_text::parse_number;
use memchr::memchr;
use std::alloc::Global;

/// A line of a file, by their numbers.
#[derive(Clone, Copy)]
pub(crate) struct Place {
    pub file: usize,
    pub line: u64,
}

impl Place {
    pub fn not_a_row(self) -> RowsFault {
        RowsFault::NotARow {
            file: self.file,
            line: self.line,
        }
    }

    pub fn cut_off(self) -> RowsFault {
        RowsFault::CutOff {
            file: self.file,
            line: self.line,
        }
    }

    // Returns the fault of a field that is no number, after `before` columns.
    fn no_number(self, before: usize) -> RowsFault {
        RowsFault::NoNumber {
            file: self.file,
            line: self.line,
            column: (before as u64).saturating_add(1),
        }
    }
}

/// Returns the first line of a text, without its end, and what is after it, unless the text ends within the line.
pub(crate) fn whole_line<'a>(text: &'a [u8]) -> Option<(&'a [u8], &'a [u8])> {
    let (line, rest) = text.split_at(memchr(b'\n', text)?);
    let (_, behind) = rest.split_first()?;
    match line {
        [line @ .., b'\r'] => Some((line, behind)),
        line => Some((line, behind)),
    }
}

/// What a row holds.
#[derive(Drop)]
pub(crate) struct Line<'a> {
    /// Its settings as they are written, with the comma after each.
    pub settings: &'a [u8],
    pub seed: u64,
    pub counts: Vec<Option<u64>>,
}

/// Reads a row.
pub(crate) fn read_line<'a>(
    alloc: Global,
    place: Place,
    columns: Columns,
    line: &'a [u8],
) -> Result<Line<'a>, RowsFault> {
    let Some((settings, rest)) = split_settings(columns.settings, line) else {
        return Err(place.not_a_row());
    };
    let Some(split) = first_field(rest) else {
        return Err(place.not_a_row());
    };
    let Some(seed) = parse_number(unquoted(split.field)) else {
        return Err(place.no_number(columns.settings));
    };
    Ok(Line {
        settings,
        seed,
        counts: read_counts(alloc, place, columns, split.behind)?,
    })
}

// Splits a line after its first `settings` fields.
fn split_settings<'a>(settings: usize, line: &'a [u8]) -> Option<(&'a [u8], &'a [u8])> {
    let mut rest = line;
    for _ in 0..settings {
        rest = first_field(rest)?.behind?;
    }
    Some((&line[..line.len() - rest.len()], rest))
}

// Reads the counts of a row, which are all that is left of its line.
fn read_counts(
    alloc: Global,
    place: Place,
    columns: Columns,
    behind_seed: Option<&[u8]>,
) -> Result<Vec<Option<u64>>, RowsFault> {
    let mut counts = Vec::with_capacity(alloc, columns.counts)?;
    let mut rest = behind_seed;
    for column in 0..columns.counts {
        let Some(split) = rest.and_then(|text| first_field(text)) else {
            return Err(place.not_a_row());
        };
        let field = unquoted(split.field);
        let count = parse_number(field);
        if count.is_none() && !field.is_empty() {
            return Err(place.no_number(columns.settings.saturating_add(1).saturating_add(column)));
        }
        counts.push(count)?;
        rest = split.behind;
    }
    if rest.is_some() {
        return Err(place.not_a_row());
    }
    Ok(counts)
}
