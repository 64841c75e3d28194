//! Rows of several files, put together.

use super::files::{complain_of_files, named, text_of};
use super::streams::Streams;
use program_rows::{Rows, RowsFault};
use std::io::{self, BufWriter, Write};
use std::rt::Files;

/// Prints the rows of the files, each once, or the means of each combination of settings. `first` is the text of the
/// first file. Returns the exit status.
pub fn print_merged_rows<R>(
    rt: &R,
    streams: Streams,
    files: &[&str],
    first: &[u8],
    mean: bool,
) -> u8
where
    R: Files + Input + AllocGlobal + Print + Eprint,
{
    let mut rows = Rows::new(rt.alloc());
    if let Err(fault) = rows.read(0, first) {
        return refuse(rt, streams, files, fault);
    }
    if let Err(status) = read_others(rt, streams, files, &mut rows) {
        return status;
    }
    match write(rt, &rows, mean) {
        Ok(()) => 0,
        Err(fault) => refuse(rt, streams, files, fault),
    }
}

fn read_others<R>(rt: &R, streams: Streams, files: &[&str], rows: &mut Rows) -> Result<(), u8>
where
    R: Files + Input + AllocGlobal + Eprint,
{
    for (number, file) in files.iter().enumerate().skip(1) {
        let text = text_of(rt, streams, file)?;
        if let Err(fault) = rows.read(number, text.as_slice()) {
            return Err(refuse(rt, streams, files, fault));
        }
    }
    Ok(())
}

fn write<R>(rt: &R, rows: &Rows, mean: bool) -> Result<(), RowsFault>
where
    R: AllocGlobal + Print,
{
    let Ok(mut out) = BufWriter::new(rt.alloc(), io::writer(rt)) else {
        return Err(RowsFault::NoMemory);
    };
    let written = if mean {
        rows.write_means(&mut out)
    } else {
        rows.write(&mut out)
    };
    match out.flush() {
        Ok(()) => written,
        Err(_) => Err(RowsFault::CannotWrite),
    }
}

/// Reports why rows can't be put together, and returns the exit status.
fn refuse<R: Eprint>(rt: &R, streams: Streams, files: &[&str], fault: RowsFault) -> u8 {
    let (file, other) = (named(files, fault.file()), named(files, fault.other()));
    complain_of_files(rt, streams, file, other, fault);
    fault.status()
}
