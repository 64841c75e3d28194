//! `run`: programs, in an order that a seed draws.

use super::subcommand::Subcommand;
use litmus::{
    Form, Limits, RunArgs, ScheduleForm, TextKind, View, run_programs, view_schedule,
    write_schedule,
};
use litmus_text::TextFault;
use lockup_front::{Counted, Shown, Streams, head_of, tell_unused};
use std::io::Write;
use std::rt::Files;
use std::sync::Wait;
use std::thread::Threads;

impl Subcommand for RunArgs<'_> {
    fn file(&self) -> Option<&str> {
        Some(self.file)
    }

    fn explained(&self) -> Option<TextKind> {
        self.explain.then_some(TextKind::Programs)
    }

    fn print<R, W>(
        &self,
        rt: &R,
        streams: Streams,
        input: &[u8],
        out: &mut W,
    ) -> Result<u8, TextFault>
    where
        R: Files + Input + AllocGlobal + Eprint + Threads + Wait + Sync,
        W: Write,
    {
        let (alloc, seed) = (rt.alloc(), self.seed);
        let limits = limits_of(self);
        let view = match self.form {
            ScheduleForm::Script => return write_schedule(alloc, input, limits, seed, out),
            ScheduleForm::Report { json } => {
                let shown = &mut Shown::new(rt, streams, Counted::Steps);
                return run_programs(alloc, input, limits, seed, report_form(json), shown, out);
            }
            ScheduleForm::Page => {
                let head = head_of(alloc, self.file, seed)?;
                return view_schedule(alloc, View::Page, head, input, limits, seed, out);
            }
            ScheduleForm::Trace => View::Traces,
            ScheduleForm::Coverage => View::Coverage,
        };
        view_schedule(alloc, view, Vec::new(alloc), input, limits, seed, out)
    }

    fn remark<R>(&self, rt: &R, streams: Streams, input: &[u8], _status: u8)
    where
        R: AllocGlobal + Eprint,
    {
        tell_unused(rt, streams, input, limits_of(self));
    }
}

/// Returns the limits that are given.
const fn limits_of(args: &RunArgs<'_>) -> Limits {
    Limits {
        outstanding: args.outstanding,
        pace: args.pace,
    }
}

/// Returns how the counts of programs are printed.
const fn report_form(json: bool) -> Form {
    if json { Form::Json } else { Form::Table }
}
