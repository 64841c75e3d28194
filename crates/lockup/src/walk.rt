//! `walk`: a litmus test on random schedules.

use super::outcomes::{jobs_of, outcome_form};
use super::subcommand::Subcommand;
use litmus::{
    ScheduleForm, TextKind, View, WalkArgs, coverage_walk, run_walk, view_walk, write_walk,
};
use litmus_text::TextFault;
use lockup_front::{Counted, Shown, Streams, head_of, tell_unforbidden};
use std::io::Write;
use std::rt::Files;
use std::sync::Wait;
use std::thread::Threads;

impl Subcommand for WalkArgs<'_> {
    fn file(&self) -> Option<&str> {
        Some(self.file)
    }

    fn explained(&self) -> Option<TextKind> {
        self.explain.then_some(TextKind::LitmusTest)
    }

    fn print<R, W>(
        &self,
        rt: &R,
        streams: Streams,
        input: &[u8],
        out: &mut W,
    ) -> Result<u8, TextFault>
    where
        R: Files + Input + AllocGlobal + Eprint + Threads + Wait + Sync,
        W: Write,
    {
        let alloc = rt.alloc();
        let (rounds, seed, limit) = (self.rounds, self.seed, self.limit);
        let shown = &mut Shown::new(rt, streams, Counted::Rounds);
        match self.form {
            ScheduleForm::Script => write_walk(alloc, input, seed, limit, out),
            ScheduleForm::Page => {
                let head = head_of(alloc, self.file, seed)?;
                view_walk(alloc, View::Page, head, input, seed, limit, out)
            }
            ScheduleForm::Trace => {
                let head = Vec::new(alloc);
                view_walk(alloc, View::Traces, head, input, seed, limit, out)
            }
            ScheduleForm::Coverage => coverage_walk(alloc, input, rounds, seed, limit, shown, out),
            ScheduleForm::Report { json } => {
                let (jobs, form) = (jobs_of(rt, self.jobs), outcome_form(json));
                run_walk(
                    alloc, rt, jobs, input, rounds, seed, limit, form, shown, out,
                )
            }
        }
    }

    fn remark<R>(&self, rt: &R, streams: Streams, input: &[u8], status: u8)
    where
        R: AllocGlobal + Eprint,
    {
        if matches!(self.form, ScheduleForm::Report { .. }) && status == 0 {
            tell_unforbidden(rt, streams, input);
        }
    }
}
