//! Writes whole texts, and the report on what a machine's slices have counted.
//!
//! - [`write_text`] writes a text to any writer. Of what the writer then holds, its contract says that the whole text
//!   was added, or, at a [`Cut`], its first `taken` bytes and nothing else.
//! - [`write_report`] writes the report on what slices counted, their [`Stats`], byte for byte (`report_of` of
//!   specs/Report.antt): a heading, a line for each core with the sums over all slices, and a line with the messages
//!   that were taken. Sums stop at 2^64 - 1.
//!
//! [`write_text`] allocates nothing. [`write_report`] makes the whole text first, at most 250 bytes a line, and then
//! writes it; each core's line goes once over the slices for each of its columns.
#![tactic(auto)]

pub use report::{ReportError, write_report};
pub use slice_answer::Stats;
pub use write::{Cut, write_text};

mod column;
mod report;
mod total;
mod write;
