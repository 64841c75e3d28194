//! What a slice has, as text.
//!
//! [`write_line`] writes what a slice shows of a line, and [`write_slices`] all that isn't at rest in the slices of a
//! machine: for each line that some core has, or that the directory waits for, its entry, each core's copy with its
//! block, and the accesses that wait for it; then the replies that weren't delivered to their cores, and the order in
//! which lines are considered for the next delivery. specs/Line.antt and specs/Shown.antt specify what is written.
#![tactic(auto)]

pub use line::write_line;
pub use shown::write_slices;
pub use step::{
    Asked, Case, Cores, Done, Event, Eviction, ExplainedDelivery, Issue, MessageName, Performed,
    Who,
};

mod copy;
mod line;
mod reply;
mod shown;
mod step;
