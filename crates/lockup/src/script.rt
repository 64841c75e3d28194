//! `script`: a run of a script, in one of many forms.

ghost use Rattle.std.specs.Prelude.{◌≡◌, IfErr, IfOk, OnOk};
ghost use Rattle.lockup.specs.Printed.{PrintsScript, PrintsScriptUpTo};

use super::subcommand::Subcommand;
use litmus::{
    ScriptArgs, ScriptForm, TextKind, run_beside, run_coverage, run_explained, run_json,
    run_script, run_trace, run_waves,
};
use litmus_text::TextFault;
use lockup_front::Streams;
use std::io::Write;
use std::rt::Files;
use std::sync::Wait;
use std::thread::Threads;

impl Subcommand for ScriptArgs<'_> {
    fn file(&self) -> Option<&str> {
        Some(self.file)
    }

    fn explained(&self) -> Option<TextKind> {
        match self.form {
            ScriptForm::Answers { explain: true, .. } | ScriptForm::Beside { explain: true } => {
                Some(TextKind::Script)
            }
            _ => None,
        }
    }

    fn is_colored(&self) -> bool {
        self.explained().is_some()
    }

    fn print<R, W>(
        &self,
        rt: &R,
        _streams: Streams,
        input: &[u8],
        out: &mut W,
    ) -> Result<u8, TextFault>
    where
        R: Files + Input + AllocGlobal + Eprint + Threads + Wait + Sync,
        W: Write,
        ensures status { IfOk result (λ status. status ≡ 0) }
        ensures printed { OnOk result
            (PrintsScript self.now.form input.now (W.contents out.old) (W.contents out.new)) }
        ensures fault { IfErr result
            (PrintsScriptUpTo self.now.form input.now (W.contents out.old) (W.contents out.new)) }
    {
        let alloc = rt.alloc();
        match self.form {
            ScriptForm::Answers {
                echo,
                explain: true,
            } => run_explained(alloc, input, echo, out),
            ScriptForm::Answers {
                echo,
                explain: false,
            } => run_script(alloc, input, echo, out),
            ScriptForm::Beside { explain } => run_beside(alloc, input, explain, out),
            ScriptForm::Waves => run_waves(alloc, input, out),
            ScriptForm::Json => run_json(alloc, input, out),
            ScriptForm::Coverage => run_coverage(alloc, input, out),
            ScriptForm::FromMurphi => run_trace(input, out),
        }
    }
}
