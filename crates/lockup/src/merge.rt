//! `merge`: rows of several files together, or after a litmus test the parts of its walk.

use super::outcomes::outcome_form;
use litmus::{MergeArgs, Merged, print_merged, read_files};
use litmus_text::TextFault;
use lockup_front::{
    REFUSED, Streams, buffered, complain, end, flushed, merged_parts, print_merged_rows, show,
    text_of,
};
use program_rows::are_rows;
use std::rt::Files;

/// The error for rows with `--json`.
const NO_JSON: &str = "--json: rows are put together as CSV alone";

/// The error for parts with `--mean`.
const NO_MEAN: &str = "--mean: a walk has outcomes, and no means";

/// Puts the rows of the files together, or after a litmus test the parts of its walk. Returns the exit status.
pub(super) fn merge<R>(rt: &R, streams: Streams, words: &[String], args: MergeArgs) -> u8
where
    R: Files + Input + AllocGlobal + Print + Eprint,
{
    match read_files(rt.alloc(), words) {
        Ok(files) => merge_files(rt, streams, files.as_slice(), args),
        Err(error) => show(rt, streams, &error),
    }
}

fn merge_files<R>(rt: &R, streams: Streams, files: &[&str], args: MergeArgs) -> u8
where
    R: Files + Input + AllocGlobal + Print + Eprint,
{
    // The command requires a file.
    let Some((file, parts)) = files.split_first() else {
        return REFUSED;
    };
    let text = match text_of(rt, streams, file) {
        Ok(text) => text,
        Err(status) => return status,
    };
    match (are_rows(text.as_slice()), args.json, args.mean) {
        (true, false, mean) => print_merged_rows(rt, streams, files, text.as_slice(), mean),
        (false, json, false) => merge_parts(rt, streams, text.as_slice(), parts, json),
        (is_rows, _, _) => {
            complain(rt, streams, if is_rows { NO_JSON } else { NO_MEAN });
            REFUSED
        }
    }
}

/// Puts parts of a walk of a litmus test together, and prints what one walk of all their rounds prints. Returns the exit
/// status.
fn merge_parts<R>(rt: &R, streams: Streams, test: &[u8], files: &[&str], json: bool) -> u8
where
    R: Files + Input + AllocGlobal + Print + Eprint,
{
    match merged_parts(rt, streams, test, files) {
        Ok(merged) => end(rt, streams, write_merged(rt, test, &merged, json)),
        Err(status) => status,
    }
}

fn write_merged<R>(rt: &R, test: &[u8], merged: &Merged, json: bool) -> Result<u8, TextFault>
where
    R: AllocGlobal + Print,
{
    let mut out = buffered(rt)?;
    let printed = print_merged(rt.alloc(), test, merged, outcome_form(json), &mut out);
    flushed(&mut out, printed)
}
