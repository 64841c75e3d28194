//! Files, and standard input.

use super::streams::{Streams, complain, report};
use std::fmt::Display;
use std::io::Read;
use std::rt::Files;
use std::{fs, io};

/// The file name that means standard input.
pub const STANDARD_INPUT: &str = "-";

/// Reads a file, or standard input where its name is `-`.
pub fn read<R: Files + Input + AllocGlobal>(rt: &R, file: &str) -> io::Result<Vec<u8>> {
    if file != STANDARD_INPUT {
        return fs::read(rt, file);
    }
    let mut input = Vec::new(rt.alloc());
    rt.reader().read_to_end(&mut input)?;
    Ok(input)
}

/// Reads a file. At Err, the error was reported, and this is the exit status.
pub fn text_of<R>(rt: &R, streams: Streams, file: &str) -> Result<Vec<u8>, u8>
where
    R: Files + Input + AllocGlobal + Eprint,
{
    match read(rt, file) {
        Ok(text) => Ok(text),
        Err(error) => Err(report(rt, streams, &error, format_args!("cannot read {file}"))),
    }
}

/// Returns the file of this number among those that the command line names.
pub(crate) fn named<'a>(files: &[&'a str], number: Option<usize>) -> Option<&'a str> {
    files.get(number?).copied()
}

/// Complains of a fault in a file, and of the other file that it speaks of.
pub(crate) fn complain_of_files<R: Eprint>(
    rt: &R,
    streams: Streams,
    file: Option<&str>,
    other: Option<&str>,
    fault: impl Display + Drop,
) {
    match (file, other) {
        (Some(file), Some(other)) => complain(rt, streams, format_args!("{file}: {fault} {other}")),
        (Some(file), None) => complain(rt, streams, format_args!("{file}: {fault}")),
        (None, _) => complain(rt, streams, fault),
    }
}
