//! The program's name, as a row has it.

use super::form::RowForm;
use std::alloc::{AllocError, Global};

/// Returns a text as it is in rows of this form: quoted in JSON, and in CSV if it would not be one cell otherwise.
pub fn program_name(alloc: Global, form: RowForm, text: &str) -> Result<Vec<u8>, AllocError> {
    let bytes = text.as_bytes();
    match form {
        RowForm::Csv => csv_cell(alloc, bytes),
        RowForm::Json => in_quotes(alloc, form, bytes),
    }
}

fn csv_cell(alloc: Global, bytes: &[u8]) -> Result<Vec<u8>, AllocError> {
    if bytes.iter().any(|byte| parts_cells(*byte)) {
        in_quotes(alloc, RowForm::Csv, bytes)
    } else {
        Vec::from_slice(alloc, bytes)
    }
}

// Whether a byte ends a cell of CSV, or begins a quoted one.
fn parts_cells(byte: u8) -> bool {
    matches!(byte, b',' | b'"' | b'\n' | b'\r')
}

fn in_quotes(alloc: Global, form: RowForm, bytes: &[u8]) -> Result<Vec<u8>, AllocError> {
    let mut text = Vec::new(alloc);
    text.extend_from_slice(b"\"")?;
    for byte in bytes {
        match form {
            RowForm::Csv => push_doubled(&mut text, *byte)?,
            RowForm::Json => push_escaped(&mut text, *byte)?,
        }
    }
    text.extend_from_slice(b"\"")?;
    Ok(text)
}

fn push_doubled(text: &mut Vec<u8>, byte: u8) -> Result<(), AllocError> {
    if byte == b'"' {
        text.extend_from_slice(b"\"")?;
    }
    text.extend_from_slice(&[byte])
}

fn push_escaped(text: &mut Vec<u8>, byte: u8) -> Result<(), AllocError> {
    match byte {
        b'"' | b'\\' => text.extend_from_slice(&[b'\\', byte]),
        0..=31 => {
            let tens = if byte < 16 { b'0' } else { b'1' };
            let ones = b"0123456789abcdef"[(byte % 16) as usize];
            text.extend_from_slice(b"\\u00")?;
            text.extend_from_slice(&[tens, ones])
        }
        _ => text.extend_from_slice(&[byte]),
    }
}
