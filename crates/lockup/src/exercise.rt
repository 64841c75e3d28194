//! `test`: a script against the answers that it wants.

ghost use Rattle.std.specs.Prelude.{IfErr, IfOk};
ghost use Rattle.script_test.specs.Judged.{IsStopped, PrintsTest};

use super::subcommand::Subcommand;
use litmus::{TestArgs, TextKind, run_test};
use litmus_text::TextFault;
use lockup_front::{REFUSED, Streams, complain};
use std::io::Write;
use std::rt::Files;
use std::sync::Wait;
use std::thread::Threads;

/// The error for a script to be tested that wants no answer.
const NO_TEST: &str = "no answer is wanted: this is no test";

/// How an answer is wanted.
const HOW_TO_WANT: &str = "a wanted answer follows '=' at the end of its command's line";

impl Subcommand for TestArgs<'_> {
    fn file(&self) -> Option<&str> {
        Some(self.file)
    }

    fn explained(&self) -> Option<TextKind> {
        self.explain.then_some(TextKind::Exercise)
    }

    fn print<R, W>(
        &self,
        rt: &R,
        _streams: Streams,
        input: &[u8],
        out: &mut W,
    ) -> Result<u8, TextFault>
    where
        R: Files + Input + AllocGlobal + Eprint + Threads + Wait + Sync,
        W: Write,
        ensures printed { IfOk result
            (PrintsTest input.now self.now.first (W.contents out.old) (W.contents out.new)) }
        ensures fault { IfErr result (IsStopped input.now) }
    {
        run_test(rt.alloc(), input, self.first, out)
    }

    fn remark<R>(&self, rt: &R, streams: Streams, _input: &[u8], status: u8)
    where
        R: AllocGlobal + Eprint,
    {
        match (status, self.explain) {
            (REFUSED, true) => complain(rt, streams, format_args!("{NO_TEST}   {HOW_TO_WANT}")),
            (REFUSED, false) => complain(rt, streams, NO_TEST),
            _ => {}
        }
    }
}
