//! Litmus tests on real threads.
//!
//! - [`run_test`] runs all rounds of a test. Each builds a machine (src/machine.rt); a core that has a thread runs the
//!   thread's program in a thread of its own, in parallel with those that move messages; then the cores are drained
//!   and audited. The outcome is taken from the audit (src/found.rt).
//! - [`play_test`] does so, and writes the table of the outcomes. specs/Run.antt specifies what is written, and the
//!   exit status.
//! - [`trace_test`] plays one round, and writes each slice's log as a trace, built from the audit's receipts
//!   (src/log.rt), with comment lines after it (src/notes.rt). specs/Trace.antt specifies what is written.
//!
//! No contract says what threads do. So each round checks that every core has made exactly its thread's requests, in
//! each slice in the thread's order (src/made.rt), and doesn't count as played otherwise. An outcome that is counted
//! comes from a legal log of each slice, with exactly the test's requests (`IsFoundOn` of specs/Round.antt).
//!
//! A round allocates its machine and its cores' programs.
#![tactic(auto)]

pub use notes::write_heading;
pub use rounds::{Run, run_test};
pub use run::play_test;
pub use trace::trace_test;

mod crew;
mod found;
mod log;
mod machine;
mod made;
mod notes;
mod plan;
mod program;
mod rounds;
mod run;
mod threads;
mod trace;
