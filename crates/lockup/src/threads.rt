//! `litmus`: a litmus test over threads.

use super::outcomes::outcome_form;
use super::subcommand::Subcommand;
use litmus::{LitmusArgs, TextKind, run_litmus_as, trace_litmus};
use litmus_text::TextFault;
use lockup_front::{Counted, Shown, Streams, tell_unforbidden};
use std::io::Write;
use std::rt::Files;
use std::sync::Wait;
use std::thread::Threads;

impl Subcommand for LitmusArgs<'_> {
    fn file(&self) -> Option<&str> {
        Some(self.file)
    }

    fn explained(&self) -> Option<TextKind> {
        self.explain.then_some(TextKind::LitmusTest)
    }

    fn print<R, W>(
        &self,
        rt: &R,
        streams: Streams,
        input: &[u8],
        out: &mut W,
    ) -> Result<u8, TextFault>
    where
        R: Files + Input + AllocGlobal + Eprint + Threads + Wait + Sync,
        W: Write,
    {
        let (seed, limit) = (self.seed, self.limit);
        match self.trace {
            Some(round) => trace_litmus(rt.alloc(), rt, input, seed, limit, round, out),
            None => {
                let shown = &mut Shown::new(rt, streams, Counted::Rounds);
                let form = outcome_form(self.json);
                run_litmus_as(rt.alloc(), rt, input, seed, limit, form, shown, out)
            }
        }
    }

    fn remark<R>(&self, rt: &R, streams: Streams, input: &[u8], status: u8)
    where
        R: AllocGlobal + Eprint,
    {
        if self.trace.is_none() && status == 0 {
            tell_unforbidden(rt, streams, input);
        }
    }
}
