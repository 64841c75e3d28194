//! `page`: a script's run as a page for a browser.

ghost use Rattle.std.specs.Prelude.{◌≡◌, IfErr, IfOk, OnOk};
ghost use Rattle.std.specs.Str.Lines.{lines};
ghost use Rattle.litmus_text.specs.Statement.{statements_from};
ghost use Rattle.script_page.specs.Page.{IsPage, IsPageFault};

use super::subcommand::Subcommand;
use litmus::{PageArgs, TextKind, run_page};
use litmus_text::TextFault;
use lockup_front::Streams;
use std::io::Write;
use std::rt::Files;
use std::sync::Wait;
use std::thread::Threads;

impl Subcommand for PageArgs<'_> {
    fn file(&self) -> Option<&str> {
        Some(self.file)
    }

    fn explained(&self) -> Option<TextKind> {
        Some(TextKind::Script)
    }

    fn print<R, W>(
        &self,
        rt: &R,
        _streams: Streams,
        input: &[u8],
        out: &mut W,
    ) -> Result<u8, TextFault>
    where
        R: Files + Input + AllocGlobal + Eprint + Threads + Wait + Sync,
        W: Write,
        ensures status { IfOk result (λ status. status ≡ 0) }
        ensures printed { OnOk result
            (IsPage self.now.guess input.now (statements_from 0 (lines input.now))
            (W.contents out.old) (W.contents out.new)) }
        ensures fault { IfErr result (IsPageFault (statements_from 0 (lines input.now))) }
    {
        run_page(rt.alloc(), input, self.guess, out)
    }
}
