//! `try`: lines of standard input, answered one by one.

use super::subcommand::Subcommand;
use litmus::{TextKind, TryArgs};
use litmus_text::TextFault;
use lockup_front::{Streams, answer_lines};
use std::io::Write;
use std::rt::Files;
use std::sync::Wait;
use std::thread::Threads;

impl Subcommand for TryArgs<'_> {
    fn file(&self) -> Option<&str> {
        self.file
    }

    fn explained(&self) -> Option<TextKind> {
        Some(TextKind::Script)
    }

    fn is_colored(&self) -> bool {
        true
    }

    fn print<R, W>(
        &self,
        rt: &R,
        streams: Streams,
        input: &[u8],
        out: &mut W,
    ) -> Result<u8, TextFault>
    where
        R: Files + Input + AllocGlobal + Eprint + Threads + Wait + Sync,
        W: Write,
    {
        answer_lines(rt, input, streams.is_typed, out)
    }
}
