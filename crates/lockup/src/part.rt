//! `walk --part`: rounds of a walk, printed in parts.

use super::outcomes::jobs_of;
use super::subcommand::Subcommand;
use litmus::{PartArgs, TextKind, print_parts};
use litmus_text::TextFault;
use lockup_front::{Counted, REFUSED, Shown, Streams, complain, known_parts};
use std::io::Write;
use std::rt::Files;
use std::sync::Wait;
use std::thread::Threads;

/// The error for parts after which a walk can't go on.
const OTHER_ROUNDS: &str = "its parts are not the first of these rounds";

impl Subcommand for PartArgs<'_> {
    fn file(&self) -> Option<&str> {
        Some(self.file)
    }

    fn explained(&self) -> Option<TextKind> {
        self.explain.then_some(TextKind::LitmusTest)
    }

    fn print<R, W>(
        &self,
        rt: &R,
        streams: Streams,
        input: &[u8],
        out: &mut W,
    ) -> Result<u8, TextFault>
    where
        R: Files + Input + AllocGlobal + Eprint + Threads + Wait + Sync,
        W: Write,
    {
        let known = match known_parts(rt, streams, input, self.resume) {
            Ok(known) => known,
            Err(status) => return Ok(status),
        };
        let (rounds, seed, limit) = (self.rounds, self.seed, self.limit);
        let (jobs, known) = (jobs_of(rt, self.jobs), known.as_slice());
        let shown = &mut Shown::new(rt, streams, Counted::Rounds);
        let printed = print_parts(
            rt.alloc(),
            rt,
            jobs,
            input,
            known,
            rounds,
            seed,
            limit,
            shown,
            out,
        );
        if let (Some(file), Ok(REFUSED)) = (self.resume, printed) {
            complain(rt, streams, format_args!("{file}: {OTHER_ROUNDS}"));
        }
        printed
    }
}
