//! The log of a slice: what was performed, in order, and what a log promises.
//!
//! An entry is one performed access. The definitions of `specs/Log.antt` say what a word's value is after a
//! list of entries, when a log is legal (each reply is the value that its word had) and when it is in each
//! core's order. The functions of `history` compute each of them from the entries alone, plainly and slowly.
#![tactic(auto)]

pub use checks::{is_legal, is_ordered};
pub use entry::{Entry, Numbered};
pub use history::{named_sum, value_after};
pub use perform::{performed, reply_to};

mod checks;
mod entry;
mod history;
mod perform;
