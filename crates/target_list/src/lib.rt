//! The targets of a miss register: the accesses that wait for one line, in the order in which they came.
//!
//! A miss register of a lockup-free cache (Kroft 1981) has a field for each access that waits for its line. Each field
//! carries the place of its word within the line, so that several of them may name one word: Farkas and Jouppi (1994)
//! call such a register explicitly addressed. [`Target`] is one field, and [`TargetList`] a list of at most 64, one for
//! each tag of a core. Contracts see a list. [`TargetList::take_first`] takes the oldest, [`TargetList::take_all`] all
//! of them, and [`TargetList::take_loads`] the loads in front of the first write, which is what data that may only be
//! read can answer.
//!
//! No call allocates: the targets are in the value, and what is taken is returned by value. The others stay where
//! they are; once the last of 64 fields was used they move to the front, to make room for a push.
#![tactic(auto)]

pub use list::{MOST_TARGETS, TargetList};
pub use target::Target;

mod list;
mod target;
