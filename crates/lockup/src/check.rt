//! `check`: what a trace comes to.

ghost use Rattle.std.specs.Prelude.{IfErr, IfOk};
ghost use Rattle.lockup.specs.Printed.{PrintsVerdict};
ghost use Rattle.text_verdicts.specs.Check.{IsNotChecked};

use super::subcommand::Subcommand;
use litmus::{CheckArgs, TextKind, run_check, run_check_explained, run_check_json};
use litmus_text::TextFault;
use lockup_front::Streams;
use std::io::Write;
use std::rt::Files;
use std::sync::Wait;
use std::thread::Threads;

impl Subcommand for CheckArgs<'_> {
    fn file(&self) -> Option<&str> {
        Some(self.file)
    }

    fn explained(&self) -> Option<TextKind> {
        self.explain.then_some(TextKind::Trace)
    }

    fn print<R, W>(
        &self,
        rt: &R,
        _streams: Streams,
        input: &[u8],
        out: &mut W,
    ) -> Result<u8, TextFault>
    where
        R: Files + Input + AllocGlobal + Eprint + Threads + Wait + Sync,
        W: Write,
        ensures printed { IfOk result (PrintsVerdict self.now.json self.now.explain input.now
            (W.contents out.old) (W.contents out.new)) }
        ensures fault { IfErr result (IsNotChecked input.now) }
    {
        match (self.json, self.explain) {
            (true, _) => run_check_json(rt.alloc(), input, out),
            (false, true) => run_check_explained(rt.alloc(), input, out),
            (false, false) => run_check(rt.alloc(), input, out),
        }
    }
}
