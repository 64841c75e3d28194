//! Runs the rounds of a litmus test without threads, each in the order that its seed draws, and prints how often each
//! outcome came.
//!
//! - src/outcome.rt: a round's outcome is read from the logs of its slices, and from their words once they are quiet
//!   (specs/Outcome.antt).
//! - src/stretch.rt: consecutive rounds, one after another, and their table (specs/Run.antt).
//! - src/batch.rt: stretches in parallel, whose tables are joined in the order of their rounds. So the table is that of
//!   one round after another, for any number of jobs.
//! - src/run.rt: all rounds, and what is printed of them.
//! - src/part.rt: a part of a walk, the table of consecutive rounds and how they ended, so that a walk can be split
//!   among machines. src/part_form.rt writes one as a text (`text_of_part` of specs/PartForm.antt): a first line with
//!   the format, the version of the program, the sum of the test's text ([`sum_of`]), the limit of moves, the first
//!   seed and the number of rounds; then a line for each outcome; and a last line, so that a part that is cut off is
//!   recognized. Texts can follow one another. src/part_read.rt reads them; what it reads is spelled so, byte for byte.
//! - src/parts.rt: a walk printed in parts (specs/Parts.antt), and src/merge.rt: parts joined (specs/Merge.antt). If no
//!   round is missing they equal one walk of all rounds.
#![tactic(auto)]

pub use merge::{Merged, Parts, print_merged};
pub use part::{Gap, Part};
pub use part_fault::PartFault;
pub use part_read::{Found, read_parts};
pub use parts::{PART_ROUNDS, first_other, print_parts};
pub use run::{processors, run_walk};
pub use sum::sum_of;

mod batch;
mod merge;
mod outcome;
mod part;
mod part_fault;
mod part_form;
mod part_read;
mod parts;
mod run;
mod stretch;
mod sum;
