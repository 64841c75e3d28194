//! The cells of the protocol's two tables, and how often the steps of scripts met each.
//!
//! - A [`Cell`] is a state of one table, what comes to it, and what follows. [`CELLS`] has each that can be met, in the
//!   order of the tables; a cell's number is its place there.
//! - A [`Coverage`] counts how often each cell was met (specs/Counts.antt). [`Coverage::add_all`] adds the counts of
//!   another, and [`Coverage::read`] those that a text has, as [`Coverage::write`] writes them (specs/Read.antt). A call
//!   takes no memory, but `new`.
//! - [`cell_of`] is the cell that a step met (specs/Cell.antt): the state and the event that an explained answer names, and
//!   what was decided or planned; [`cell_at`] and its neighbours make it of a case that isn't a step yet.
//! - [`coverage_of`] plays a script as `script_explained` does, and notes the number of each step's cell
//!   (specs/Trail.antt); these are counted (specs/Coverage.antt). [`run_coverage`] prints the counts.
#![tactic(auto)]

pub use cell::{cell_at, cell_of, outcome_of_decision, outcome_of_plan};
pub use cells::CELLS;
pub use coverage::{Coverage, TooOften};
pub use read::{CoverageFault, Unread};
pub use run::{coverage_of, print_coverage, run_coverage};
pub use table_cell::{Cell, Outcome, TableEvent, TableState};
pub use writer::number_of;

mod cell;
mod cells;
mod coverage;
mod read;
mod run;
mod same;
mod table_cell;
mod writer;
