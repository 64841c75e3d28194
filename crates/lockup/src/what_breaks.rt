//! `what-if`: what changed cells of the tables break.

use super::subcommand::Subcommand;
use litmus_command_line::WhatIfArgs;
use litmus_text::TextFault;
use lockup_front::{Streams, write_what_breaks};
use std::io::Write;
use std::rt::Files;
use std::sync::Wait;
use std::thread::Threads;

impl Subcommand for WhatIfArgs<'_> {
    fn file(&self) -> Option<&str> {
        None
    }

    fn print<R, W>(
        &self,
        rt: &R,
        streams: Streams,
        _input: &[u8],
        out: &mut W,
    ) -> Result<u8, TextFault>
    where
        R: Files + Input + AllocGlobal + Eprint + Threads + Wait + Sync,
        W: Write,
    {
        write_what_breaks(rt, streams, *self, out)
    }
}
