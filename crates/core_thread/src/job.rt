use core_thread_system::{All, Core, Gate, Outcome, Step, SystemKeys, SystemNames};
use mshr_file::MissFile;
use std::sync::Wait;
use thiserror::Error;

/// A core, what it is to run, and how that ended.
#[derive(Drop)]
pub struct Job<'a, F: MissFile, M: SystemNames> {
    pub core: Core<'a, F, M>,
    pub program: Vec<Step>,
    pub outcome: Outcome,
}

/// Why not all jobs were run, with its number and name.
#[derive(Clone, Copy, Debug, PartialEq, Eq, Error)]
pub enum RunError {
    /// A thread couldn't be started.
    #[error("1 Start")]
    Start,
}

// What a thread is started for: a job, of whatever machine.
pub(crate) trait Worker {
    fn work<R: Wait, G: Gate>(&mut self, rt: &R, gate: &G, limit: u64);
}

impl<'a, F: MissFile, M: SystemKeys> Worker for Job<'a, F, All<M>> {
    fn work<R: Wait, G: Gate>(&mut self, rt: &R, gate: &G, limit: u64) {
        self.outcome = self.core.run(rt, self.program.as_slice(), gate, limit);
    }
}
