//! The standard streams, and what is reported on them.

ghost use Rattle.std.specs.Prelude.{◌≡◌, ◌<◌};
ghost use Rattle.litmus_text.specs.Fault as faults;
ghost use Rattle.lockup_front.specs.Status.{status_of};

use clap::Error;
use clap::error::ErrorKind;
use litmus_text::TextFault;
use std::fmt::Display;
use std::io;

/// The exit status where the command line or the file is refused.
pub const REFUSED: u8 = 2;

/// What the standard streams are: whether somebody watches, to whom a long run shows how far it is, or types, to whom a
/// prompt shows that it waits; and whether answers and errors have colors.
#[derive(Clone, Copy)]
pub struct Streams {
    pub is_watched: bool,
    pub is_typed: bool,
    pub color_answers: bool,
    pub color_errors: bool,
}

/// Shows what the reader of the command line has to say: help, or why it was refused.
pub fn show<R: Print + Eprint>(rt: &R, streams: Streams, error: &Error) -> u8 {
    if error.kind() == ErrorKind::OutOfMemory {
        return fail(rt, streams, TextFault::NoMemory);
    }
    match error.print(rt) {
        Ok(()) if !error.use_stderr() => 0,
        Ok(()) => REFUSED,
        Err(_) => fail(rt, streams, TextFault::CannotWrite),
    }
}

/// Writes why input can't be read to standard error: no memory, or else this text. Returns the exit status.
pub fn report<R: Eprint>(
    rt: &R,
    streams: Streams,
    error: &io::Error,
    text: impl Display + Drop,
) -> u8
    ensures { 0 < result }
{
    if error.kind() == io::ErrorKind::OutOfMemory {
        return fail(rt, streams, TextFault::NoMemory);
    }
    complain(rt, streams, text);
    REFUSED
}

/// Writes one line to standard error. If that fails there is no way left to report it.
pub fn complain<R: Eprint>(rt: &R, streams: Streams, text: impl Display + Drop) {
    let _ = if streams.color_errors {
        eprintln!(rt; "\x1b[1;31mlockup:\x1b[0m {text}")
    } else {
        eprintln!(rt; "lockup: {text}")
    };
}

/// Returns the exit status of what was printed, and complains of a fault.
pub fn end<R: Eprint>(rt: &R, streams: Streams, printed: Result<u8, TextFault>) -> u8
    ensures { result ≡ status_of printed }
{
    match printed {
        Ok(status) => status,
        Err(fault) => fail(rt, streams, fault),
    }
}

/// Complains of a fault, and returns the exit status.
pub(crate) fn fail<R: Eprint>(rt: &R, streams: Streams, fault: TextFault) -> u8
    ensures { result ≡ faults.status_of fault }
{
    complain(rt, streams, fault);
    fault.status()
}
