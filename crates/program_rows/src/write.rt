//! The text of rows.

use super::fault::RowsFault;
use super::rows::{Combination, Row, Rows};
use itoa::Buffer;
use std::alloc::AllocError;
use std::io::Write;

impl Rows {
    /// Prints the heading and all rows, each once: combinations in the order in which they first came, the seeds of each
    /// ascending. Where no file was read there is no heading, and nothing is printed.
    pub fn write<W: Write>(&self, out: &mut W) -> Result<(), RowsFault> {
        let Some(heading) = &self.heading else {
            return Ok(());
        };
        write(out, heading.text.as_slice())?;
        write(out, b"\n")?;
        let mut line = Vec::new(self.alloc);
        for (settings, combination) in self.combinations.iter() {
            write_rows(&mut line, settings.as_slice(), combination, out)?;
        }
        Ok(())
    }
}

fn write_rows<W: Write>(
    line: &mut Vec<u8>,
    settings: &[u8],
    combination: &Combination,
    out: &mut W,
) -> Result<(), RowsFault> {
    for (seed, row) in combination.rows.iter() {
        line.clear();
        line.extend_from_slice(settings)?;
        push_number(line, *seed)?;
        push_counts(line, row)?;
        line.extend_from_slice(b"\n")?;
        write(out, line.as_slice())?;
    }
    Ok(())
}

fn push_counts(line: &mut Vec<u8>, row: &Row) -> Result<(), AllocError> {
    for count in row.counts.as_slice() {
        line.extend_from_slice(b",")?;
        if let Some(count) = count {
            push_number(line, *count)?;
        }
    }
    Ok(())
}

pub(crate) fn push_number(line: &mut Vec<u8>, number: u64) -> Result<(), AllocError> {
    let mut digits = Buffer::new();
    line.extend_from_slice(digits.format(number).as_bytes())
}

pub(crate) fn write<W: Write>(out: &mut W, text: &[u8]) -> Result<(), RowsFault> {
    match out.write_all(text) {
        Ok(()) => Ok(()),
        Err(_) => Err(RowsFault::CannotWrite),
    }
}
