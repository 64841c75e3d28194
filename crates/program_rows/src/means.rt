//! The text of means.
ghost use Rattle.std.specs.Prelude.{◌≡◌, IfOk};
ghost use Rattle.std.specs.BTreeMap.{values};
ghost use Rattle.program_rows.specs.Column.{count_in, numbers_in};

use super::fault::RowsFault;
use super::field::first_field;
use super::heading::Heading;
use super::interval::figures_of;
use super::rows::{Combination, Row, Rows};
use super::write::{push_number, write};
use itoa::Buffer;
use std::alloc::{AllocError, Global};
use std::io::Write;

impl Rows {
    /// Prints a row for each combination: its settings, how many seeds it has, and of each count the mean and half the
    /// width of its 95 % confidence interval, with three places after the point. The mean is rounded to the nearest, half
    /// up, half the width up. Both are over those rows that have the count, and empty where none has; one row has no
    /// interval. Where no file was read nothing is printed.
    pub fn write_means<W: Write>(&self, out: &mut W) -> Result<(), RowsFault> {
        let Some(heading) = &self.heading else {
            return Ok(());
        };
        let mut line = Vec::new(self.alloc);
        push_heading(&mut line, heading)?;
        write(out, line.as_slice())?;
        for (settings, combination) in self.combinations.iter() {
            line.clear();
            line.extend_from_slice(settings.as_slice())?;
            push_number(&mut line, combination.rows.len() as u64)?;
            push_means(self.alloc, &mut line, heading, combination)?;
            write(out, line.as_slice())?;
        }
        Ok(())
    }
}

// Adds the columns of means.
fn push_heading(line: &mut Vec<u8>, heading: &Heading) -> Result<(), AllocError> {
    let columns = heading.columns;
    let mut rest = Some(heading.text.as_slice());
    for column in 0..heading.text.len() {
        let Some(split) = rest.and_then(|text| first_field(text)) else {
            break;
        };
        push_name(line, column, columns.settings, split.field)?;
        rest = split.behind;
    }
    line.extend_from_slice(b"\n")
}

// What a column becomes: a setting itself, the seed the number of seeds, and a count two columns.
fn push_name(
    line: &mut Vec<u8>,
    column: usize,
    settings: usize,
    name: &[u8],
) -> Result<(), AllocError> {
    if column < settings {
        line.extend_from_slice(name)?;
        return line.extend_from_slice(b",");
    }
    if column == settings {
        return line.extend_from_slice(b"seeds");
    }
    line.extend_from_slice(b",")?;
    line.extend_from_slice(name)?;
    line.extend_from_slice(b",")?;
    push_interval_name(line, name)
}

fn push_interval_name(line: &mut Vec<u8>, name: &[u8]) -> Result<(), AllocError> {
    match name.strip_suffix(b"\"") {
        Some(open) => {
            line.extend_from_slice(open)?;
            line.extend_from_slice(b"_95\"")
        }
        None => {
            line.extend_from_slice(name)?;
            line.extend_from_slice(b"_95")
        }
    }
}

// Adds the means of a combination's counts, and the end of their line.
fn push_means(
    alloc: Global,
    line: &mut Vec<u8>,
    heading: &Heading,
    combination: &Combination,
) -> Result<(), RowsFault> {
    let columns = heading.columns;
    for column in 0..columns.counts {
        let numbers = numbers_of(alloc, combination, column)?;
        if !push_figures(line, numbers.as_slice())? {
            return Err(RowsFault::TooFarApart {
                column: (columns.settings.saturating_add(2) as u64).saturating_add(column as u64),
            });
        }
    }
    line.extend_from_slice(b"\n")?;
    Ok(())
}

// Returns the counts of a column, of those rows that have one.
fn numbers_of(
    alloc: Global,
    combination: &Combination,
    column: usize,
) -> Result<Vec<u64>, AllocError>
    ensures { IfOk result (λ numbers. numbers.items ≡ numbers_in column (values combination.now.rows)) }
{
    combination
        .rows
        .values()
        .filter_map(|row| row.count(column))
        .collect(alloc)
}

impl Row {
    // Returns the count of this column, if there is one.
    fn count(&self, column: usize) -> Option<u64>
        ensures { result ≡ count_in column self.now }
    {
        *self.counts.get(column)?
    }
}

// Adds the mean and half the width of the interval. Returns false if their squares don't fit.
fn push_figures(line: &mut Vec<u8>, numbers: &[u64]) -> Result<bool, AllocError> {
    if numbers.is_empty() {
        line.extend_from_slice(b",,")?;
        return Ok(true);
    }
    let Some(figures) = figures_of(numbers) else {
        return Ok(false);
    };
    line.extend_from_slice(b",")?;
    push_thousandths(line, figures.mean)?;
    line.extend_from_slice(b",")?;
    if let Some(half_width) = figures.half_width {
        push_thousandths(line, half_width)?;
    }
    Ok(true)
}

fn push_thousandths(line: &mut Vec<u8>, thousandths: u128) -> Result<(), AllocError> {
    let mut digits = Buffer::new();
    line.extend_from_slice(digits.format(thousandths / 1_000).as_bytes())?;
    let rest = (thousandths % 1_000) as u16;
    line.extend_from_slice(&[b'.', digit(rest / 100), digit(rest / 10), digit(rest)])
}

// Returns the last digit of a number.
fn digit(number: u16) -> u8 {
    b'0' + (number % 10) as u8
}
