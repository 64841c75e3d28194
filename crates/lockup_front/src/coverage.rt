//! The sum of what runs of scripts counted.

use super::files::text_of;
use super::output::{buffered, flushed};
use super::streams::{REFUSED, Streams, complain, end, show};
use litmus_command_line::read_files;
use litmus_text::TextFault;
use script_coverage::{Coverage, print_coverage};
use std::rt::Files;

/// Adds the counts in the files that the command line names, and prints the sum. Returns the exit status.
pub fn add_coverage<R>(rt: &R, streams: Streams, words: &[String]) -> u8
where
    R: Files + Input + AllocGlobal + Print + Eprint,
{
    match read_files(rt.alloc(), words) {
        Ok(files) => run_files(rt, streams, files.as_slice()),
        Err(error) => show(rt, streams, &error),
    }
}

fn run_files<R>(rt: &R, streams: Streams, files: &[&str]) -> u8
where
    R: Files + Input + AllocGlobal + Print + Eprint,
{
    match Coverage::new(rt.alloc(), None) {
        Ok(mut coverage) => {
            if let Err(status) = add_files(rt, streams, files, &mut coverage) {
                return status;
            }
            end(rt, streams, print(rt, &coverage))
        }
        Err(_) => end(rt, streams, Err(TextFault::NoMemory)),
    }
}

/// Adds the counts in these files. At Err, the error was reported, and this is the exit status.
fn add_files<R>(rt: &R, streams: Streams, files: &[&str], coverage: &mut Coverage) -> Result<(), u8>
where
    R: Files + Input + AllocGlobal + Eprint,
{
    for file in files {
        add_file(rt, streams, file, coverage)?;
    }
    Ok(())
}

fn add_file<R>(rt: &R, streams: Streams, file: &str, coverage: &mut Coverage) -> Result<(), u8>
where
    R: Files + Input + AllocGlobal + Eprint,
{
    let text = text_of(rt, streams, file)?;
    match coverage.read(text.as_slice()) {
        Ok(()) => Ok(()),
        Err(unread) => {
            complain(rt, streams, format_args!("{file}: {unread}"));
            Err(REFUSED)
        }
    }
}

fn print<R: AllocGlobal + Print>(rt: &R, coverage: &Coverage) -> Result<u8, TextFault> {
    let mut out = buffered(rt)?;
    let printed = print_coverage(coverage, &mut out).map(|()| 0);
    flushed(&mut out, printed)
}
