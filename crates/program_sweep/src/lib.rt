//! Runs a text of programs once for each combination of settings and each seed, and prints a row of each run.
//!
//! A [`Sweep`] says which settings vary, over which values, and which seeds each combination is run with; the last
//! setting varies fastest, and the seeds faster still. [`run_sweep`] runs them in parallel on all processors, and
//! prints the rows in their order, as CSV after a heading or as one value of JSON.
//!
//! - src/setting.rt and src/seeds.rt: what varies. src/place.rt: which value and which seed a row has.
//! - src/text.rt: a text with other settings (`with_settings` of specs/Text.antt).
//! - src/row.rt: what a row has of a run (`row_of` of specs/Row.antt). src/cell.rt: the columns of rows (`all_cells`,
//!   `name_of` and `value_in` of specs/Cell.antt).
//! - src/form.rt: the text of rows (`text_of_row` of specs/Form.antt). src/quote.rt: the program's name, as they have it.
//! - src/sweep.rt: the rows, made in parallel.
//!
//! [`run_sweep`] is proved to print, in order, the row of each run: the program's name, the settings, the seed, and the
//! sums that `program_run` counts in that run of the text with these settings (`AreRows` of specs/Sweep.antt).
//!
//! A run's machine takes memory, and one run per processor is under way. Rows are written once each
//! thread has made its share of a few: one run at first, and then enough to make some thousands of accesses, at most
//! [`MOST_RUNS`].
#![tactic(auto)]

pub use fault::{Refusal, RowFault, SweepFault};
pub use form::RowForm;
pub use quote::program_name;
pub use seeds::Seeds;
pub use setting::Setting;
pub use sweep::{MOST_ROWS, MOST_RUNS, Sweep, run_sweep};

mod cell;
mod fault;
mod form;
mod name;
mod place;
mod quote;
mod row;
mod seeds;
mod setting;
mod sweep;
mod text;
