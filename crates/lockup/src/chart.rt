//! `chart`: a script's run as a sequence diagram, or one of its lines over time.

use super::subcommand::Subcommand;
use litmus::{ChartArgs, TextKind, line_count, run_chart, run_svg};
use litmus_text::TextFault;
use lockup_front::{REFUSED, Streams, complain};
use std::alloc::Global;
use std::io::Write;
use std::rt::Files;
use std::sync::Wait;
use std::thread::Threads;

impl Subcommand for ChartArgs<'_> {
    fn file(&self) -> Option<&str> {
        Some(self.file)
    }

    fn explained(&self) -> Option<TextKind> {
        Some(TextKind::Script)
    }

    fn print<R, W>(
        &self,
        rt: &R,
        _streams: Streams,
        input: &[u8],
        out: &mut W,
    ) -> Result<u8, TextFault>
    where
        R: Files + Input + AllocGlobal + Eprint + Threads + Wait + Sync,
        W: Write,
    {
        if self.svg || self.line.is_some() {
            write_picture(rt.alloc(), input, self.line, out)
        } else {
            run_chart(rt.alloc(), input, out)
        }
    }

    fn remark<R>(&self, rt: &R, streams: Streams, input: &[u8], status: u8)
    where
        R: AllocGlobal + Eprint,
    {
        if let (Some(line), REFUSED) = (self.line, status) {
            complain_of_line(rt, streams, line, input);
        }
    }
}

/// Draws this line of a script's run, or the one that is named first. It is refused where the machine lacks the line.
fn write_picture<W: Write>(
    alloc: Global,
    input: &[u8],
    line: Option<u64>,
    out: &mut W,
) -> Result<u8, TextFault> {
    if let Some(line) = line {
        if line >= line_count(alloc, input)? {
            return Ok(REFUSED);
        }
    }
    run_svg(alloc, input, line, out)
}

/// Complains that the machine of a script lacks a line.
fn complain_of_line<R: AllocGlobal + Eprint>(rt: &R, streams: Streams, line: u64, input: &[u8]) {
    match line_count(rt.alloc(), input) {
        Ok(count) => {
            let last = count.saturating_sub(1);
            complain(
                rt,
                streams,
                format_args!("--line {line}: the machine has lines 0 to {last}"),
            );
        }
        Err(fault) => complain(rt, streams, fault),
    }
}
