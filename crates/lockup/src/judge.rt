//! `judge`: what histories come to.

ghost use Rattle.std.specs.Prelude.{◌≡◌, IfErr, IfOk};
ghost use Rattle.lockup.specs.Printed.{extent_of};
ghost use Rattle.text_verdicts.specs.Judge.{IsJudgedAs, IsNotJudged};

use super::subcommand::Subcommand;
use litmus::{Extent, JudgeArgs, JudgeForm, TextKind, run_judge};
use litmus_text::TextFault;
use lockup_front::Streams;
use std::io::Write;
use std::rt::Files;
use std::sync::Wait;
use std::thread::Threads;

impl Subcommand for JudgeArgs<'_> {
    fn file(&self) -> Option<&str> {
        Some(self.file)
    }

    fn explained(&self) -> Option<TextKind> {
        self.explain.then_some(TextKind::History)
    }

    fn print<R, W>(
        &self,
        rt: &R,
        _streams: Streams,
        input: &[u8],
        out: &mut W,
    ) -> Result<u8, TextFault>
    where
        R: Files + Input + AllocGlobal + Eprint + Threads + Wait + Sync,
        W: Write,
        ensures judged { IfOk result (IsJudgedAs input.now (extent_of self.now.line)) }
        ensures fault { IfErr result (IsNotJudged input.now) }
    {
        let extent = judged_together(self.line);
        let form = judge_form(self.witness, self.json);
        run_judge(rt.alloc(), input, extent, self.limit, form, out)
    }
}

/// Returns which words are judged together.
const fn judged_together(line: bool) -> Extent
    ensures { result ≡ extent_of line }
{
    if line { Extent::Line } else { Extent::Word }
}

/// Returns how a judgement is printed.
const fn judge_form(witness: Option<u64>, json: bool) -> JudgeForm {
    match witness {
        Some(word) => JudgeForm::Witness(word),
        None if json => JudgeForm::Json,
        None => JudgeForm::Text,
    }
}
