//! What a subcommand does that reads one text, or none, and prints what it comes to.

ghost use denote.Param.Send.{IsSync};

use litmus::{TextKind, hint};
use litmus_text::TextFault;
use lockup_front::{Painted, Streams, buffered, complain, flushed, read, report};
use std::io;
use std::io::Write;
use std::rt::Files;
use std::sync::Wait;
use std::thread::Threads;

/// A subcommand, or a form of one, with its arguments.
pub(super) trait Subcommand {
    /// Returns the file of the text, if there is one.
    fn file(&self) -> Option<&str>;

    /// Returns the kind of text whose errors are explained, if they are.
    fn explained(&self) -> Option<TextKind> {
        None
    }

    /// Returns whether what moved and what is blocked is colored on a terminal.
    fn is_colored(&self) -> bool {
        false
    }

    /// Prints what the text comes to, including the answers before a fault, and returns the exit status: `REFUSED` where
    /// `remark` is to say why. The text is empty if there is no file.
    fn print<R, W>(
        &self,
        rt: &R,
        streams: Streams,
        input: &[u8],
        out: &mut W,
    ) -> Result<u8, TextFault>
    where
        R: Files + Input + AllocGlobal + Eprint + Threads + Wait + Sync,
        W: Write,
        // In a trait nothing is known of the bound `Sync` without it, nor in an impl with clauses of its own.
        requires { IsSync R.row };

    /// Reports of a run that ended with this status what its output doesn't say.
    fn remark<R>(&self, _rt: &R, _streams: Streams, _input: &[u8], _status: u8)
    where
        R: AllocGlobal + Eprint,
    {}
}

/// Reads the text that a subcommand names, and prints what it comes to. Returns the exit status.
pub(super) fn run<R, S>(rt: &R, streams: Streams, asked: &S) -> u8
where
    R: Files + Input + AllocGlobal + Print + Eprint + Threads + Wait + Sync,
    S: Subcommand,
{
    let Some(file) = asked.file() else {
        return run_text(rt, streams, asked, &[]);
    };
    match read(rt, file) {
        Ok(input) => run_text(rt, streams, asked, input.as_slice()),
        Err(error) => match why_unread(asked.explained(), &error) {
            Some(why) => {
                report(
                    rt,
                    streams,
                    &error,
                    format_args!("cannot read {file}   {why}"),
                )
            }
            None => report(rt, streams, &error, format_args!("cannot read {file}")),
        },
    }
}

fn run_text<R, S>(rt: &R, streams: Streams, asked: &S, input: &[u8]) -> u8
where
    R: Files + Input + AllocGlobal + Print + Eprint + Threads + Wait + Sync,
    S: Subcommand,
{
    match print(rt, streams, asked, input) {
        Ok(status) => {
            asked.remark(rt, streams, input, status);
            status
        }
        Err(fault) => {
            complain_of(rt, streams, asked.explained(), input, fault);
            fault.status()
        }
    }
}

fn print<R, S>(rt: &R, streams: Streams, asked: &S, input: &[u8]) -> Result<u8, TextFault>
where
    R: Files + Input + AllocGlobal + Print + Eprint + Threads + Wait + Sync,
    S: Subcommand,
{
    let is_colored = streams.color_answers && asked.is_colored();
    let mut out = Painted::new(buffered(rt)?, is_colored);
    let printed = asked.print(rt, streams, input, &mut out);
    flushed(&mut out, printed)
}

/// Returns why a file can't be read, where errors are explained.
fn why_unread(explained: Option<TextKind>, error: &io::Error) -> Option<&'static str> {
    explained?;
    match error.kind() {
        io::ErrorKind::NotFound => Some("there is no such file"),
        io::ErrorKind::IsADirectory => Some("it is a folder"),
        io::ErrorKind::PermissionDenied => Some("permission is denied"),
        io::ErrorKind::NotADirectory => Some("a part of its path is no folder"),
        _ => None,
    }
}

/// Complains of a fault, and where errors are explained reports what its reader may want to know.
fn complain_of<R>(
    rt: &R,
    streams: Streams,
    explained: Option<TextKind>,
    input: &[u8],
    fault: TextFault,
)
where
    R: AllocGlobal + Eprint,
{
    let Some(kind) = explained else {
        return complain(rt, streams, fault);
    };
    match hint(rt.alloc(), kind, input, fault) {
        Some(hint) => complain(rt, streams, format_args!("{fault}   {hint}")),
        None => complain(rt, streams, fault),
    }
}
