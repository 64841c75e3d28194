//! Runs programs without threads, in an order that a seed draws, and reports what was counted.
//!
//! A core asks for its next access once the one before was performed, or while fewer accesses than the text says are
//! under way. At each step one of the possible moves is drawn, each as likely as the others ([`Xoshiro256++`] of the
//! seed): the next access of a core, where it doesn't stall, or the next delivery of a slice, where one can be made. So
//! the same seed runs the same way on every machine. Where a text says how many accesses may be under way, an access
//! that would stall is asked for too, once, and so its stall is counted; then it waits until it stalls no more. Where it
//! says how many deliveries each slice makes after an access, these come first: each is drawn from those that the slice
//! can be asked for, even if it is blocked.
//!
//! - src/runner.rt: the machine, where each program is, and what a move does (`Makes` of specs/Run.antt);
//!   src/performed.rt: the accesses that a delivery performs.
//! - src/moves.rt: what may come next (`moves_of`); src/kept.rt: what was decided of the cores' next accesses, as long
//!   as it holds (specs/Kept.antt); src/front.rt: the next delivery of a slice, without a look at lines that were seen to
//!   be idle (specs/Front.antt). src/owed.rt: the deliveries that slices have still to make after an access.
//! - src/observer.rt: what is seen of each call: what becomes of the cores' copies, and what is counted
//!   (specs/History.antt).
//! - src/memory.rt: what must be known of these events to find why an access missed, as architects count misses; a miss
//!   is counted under its cause, a function of the events alone (src/cause.rt, specs/Cause.antt).
//! - src/tally.rt: the counts, for each core and for each line (specs/Tally.antt).
//! - src/usage.rt: how many miss registers and targets are in use, move by move (specs/Usage.antt).
//! - src/report.rt and src/json.rt write what was counted (specs/Report.antt, specs/Json.antt); src/column.rt has the
//!   columns of both, with their names in tables and elsewhere. src/sums.rt gives the sums as a value
//!   (specs/Sums.antt).
//! - src/calls.rt: the calls that the moves make of the machine, where they are wanted; src/script.rt prints them as a
//!   script (specs/Calls.antt).
//!
//! [`run_programs`] is proved to print the report of what the moves of one such run counted (`IsProgramsRun`),
//! [`count_programs`] to return the sums of it (`IsCounted`), and [`write_schedule`] to print the calls that the moves of
//! one make, as a script for its machine (`PrintsSchedule`).
//!
//! [`Xoshiro256++`]: rand_xoshiro::Xoshiro256PlusPlus
#![tactic(auto)]

pub use column::Column;
pub use run::{Form, limit, run_programs};
pub use script::write_schedule;
pub use sums::{Sums, count_programs};
pub use tally::Counts;
pub use usage::Usage;

mod calls;
mod cause;
mod column;
mod front;
mod json;
mod kept;
mod memory;
mod moves;
mod observer;
mod owed;
mod performed;
mod register;
mod report;
mod run;
mod runner;
mod script;
mod sums;
mod tally;
mod tidy;
mod usage;
