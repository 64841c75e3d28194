//! The cores of a machine at work, each in a thread of its own.
//!
//! A [`Job`] is a core with its program. [`run_all`] starts a thread for each of several jobs, and threads that do
//! nothing but move messages on ([`Movers`]), and returns once all of them have ended. Each core is then still in its
//! job, with all that it asked for and got, and what it got can be settled and audited as after a run in one thread.
//!
//! Nothing is claimed of what the threads did: in which order they came, whether a program ended, or that an outcome is
//! that of the job's program. What is behind a slice's lock keeps its promises all the same, and so does a core, since
//! both are promises of their types.
#![tactic(auto)]

pub use job::{Job, RunError};
pub use movers::Movers;
pub use threads::run_all;

mod job;
mod movers;
mod threads;
