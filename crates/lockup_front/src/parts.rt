//! Parts of a walk, put together.

use super::files::{complain_of_files, named, text_of};
use super::streams::{Streams, complain};
use litmus_rounds::{Found, Merged, Part, PartFault, Parts, sum_of};
use std::rt::Files;

/// Puts together the parts that the files have, of the litmus test with this text, and reports the seeds in no part. At
/// Err, the error was reported, and this is the exit status.
pub fn merged_parts<R>(rt: &R, streams: Streams, test: &[u8], files: &[&str]) -> Result<Merged, u8>
where
    R: Files + Input + AllocGlobal + Eprint,
{
    let mut parts = Parts::new(rt.alloc(), sum_of(test));
    read_parts(rt, streams, files, &mut parts)?;
    match parts.merge() {
        Ok(merged) => {
            tell_gaps(rt, streams, &merged);
            Ok(merged)
        }
        Err(fault) => Err(refuse(rt, streams, files, fault)),
    }
}

/// Returns the whole parts of the file, if one is named, of the litmus test with this text. At Err, the error was
/// reported, and this is the exit status.
pub fn known_parts<R>(
    rt: &R,
    streams: Streams,
    test: &[u8],
    file: Option<&str>,
) -> Result<Vec<Part>, u8>
where
    R: Files + Input + AllocGlobal + Eprint,
{
    let Some(file) = file else {
        return Ok(Vec::new(rt.alloc()));
    };
    let text = text_of(rt, streams, file)?;
    match read_parts_of(rt, test, text.as_slice()) {
        Ok(Found { parts, .. }) => Ok(parts),
        Err(fault) => Err(refuse(rt, streams, &[file], fault)),
    }
}

fn read_parts_of<R: AllocGlobal>(rt: &R, test: &[u8], text: &[u8]) -> Result<Found, PartFault> {
    litmus_rounds::read_parts(rt.alloc(), sum_of(test), 0, text)
}

fn tell_gaps<R: Eprint>(rt: &R, streams: Streams, merged: &Merged) {
    for gap in merged.gaps() {
        complain(rt, streams, format_args!("no part has the rounds of {gap}"));
    }
}

fn read_parts<R>(rt: &R, streams: Streams, files: &[&str], parts: &mut Parts) -> Result<(), u8>
where
    R: Files + Input + AllocGlobal + Eprint,
{
    for (number, file) in files.iter().enumerate() {
        let text = text_of(rt, streams, file)?;
        if let Err(fault) = parts.read(number, text.as_slice()) {
            return Err(refuse(rt, streams, files, fault));
        }
    }
    Ok(())
}

/// Reports why parts can't be put together, and returns the exit status.
fn refuse<R: Eprint>(rt: &R, streams: Streams, files: &[&str], fault: PartFault) -> u8 {
    let (file, other) = (named(files, fault.file()), named(files, fault.other()));
    complain_of_files(rt, streams, file, other, fault);
    fault.status()
}
