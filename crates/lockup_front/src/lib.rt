//! What the subcommands of the program share, and those that print by themselves.
//!
//! - [`Streams`] are the standard streams: [`complain`], [`report`] and [`show`] report errors, [`end`] what came of
//!   printing, [`Shown`] how far a long run is, and [`Painted`] colors answers. Answers are printed to what [`buffered`]
//!   returns, until they are [`flushed`]. [`read`] reads a file, or standard input, and [`text_of`] reports where that
//!   can't be done.
//! - [`print_rows`], [`print_workload`], [`add_coverage`], [`answer_lines`] and [`write_what_breaks`] each do what a
//!   subcommand asks for; [`read_tables`] reads tables with changed cells, [`known_parts`] those of a walk that goes on,
//!   [`merged_parts`] puts parts together, and [`print_merged_rows`] rows.
//! - [`tell_unused`] and [`tell_unforbidden`] report about a text that was run what its output doesn't.
#![tactic(auto)]

pub use coverage::add_coverage;
pub use files::{STANDARD_INPUT, read, text_of};
pub use head::head_of;
pub use merged_rows::print_merged_rows;
pub use output::{buffered, flushed};
pub use painted::Painted;
pub use parts::{known_parts, merged_parts};
pub use progress::{Counted, Shown};
pub use prompt::answer_lines;
pub use rows::print_rows;
pub use streams::{REFUSED, Streams, complain, end, report, show};
pub use table_files::read_tables;
pub use unforbidden::tell_unforbidden;
pub use unused::tell_unused;
pub use what_breaks::write_what_breaks;
pub use workload::print_workload;

mod coverage;
mod files;
mod head;
mod merged_rows;
mod output;
mod painted;
mod parts;
mod progress;
mod prompt;
mod rows;
mod streams;
mod table_files;
mod unforbidden;
mod unused;
mod what_breaks;
mod what_drawn;
mod what_page;
mod workload;
