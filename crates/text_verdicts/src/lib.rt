//! Prints the verdict on a trace or on histories.
//!
//! [`run_check`] judges a trace and writes its verdict, [`run_check_explained`] with what was expected of an invalid
//! entry, and [`run_check_json`] both as JSON. [`run_judge`] judges histories, in which the order of several cores'
//! accesses isn't known, and prints that in a [`JudgeForm`].
#![tactic(auto)]

pub use check::{run_check, run_check_explained, run_check_json};
pub use judge::{JudgeForm, run_judge};

mod check;
mod contradiction;
mod judge;
mod shown;
mod wrong_entry;
