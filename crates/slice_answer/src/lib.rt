//! What one slice returns to its callers, and what it counts.
//!
//! - [`Issue`] and [`Refused`] answer a request, [`Evicted`] an eviction that was asked for, [`Delivered`] a delivery
//!   and [`DeliveredNext`] one that the slice was to choose: a [`Delivery`], as what is planned is (specs/Delivery.antt).
//!   What each of them prints is given by its `output` (specs/Text.antt).
//! - [`Stats`] counts, for each core, its hits, its misses, its stalls and its evictions, and the messages that were
//!   taken, by the kind of their channel. Contracts see it as `StatsView` of specs/Stats.antt. Each count goes up by
//!   one and stays at 2^64 - 1 (`next_count`), and a counting call changes nothing else (`after_hit` and the others).
//!
//! Only [`Stats::new`] and [`Stats::try_clone`] allocate: 80 bytes for each core, in a boxed slice, which has no call that lets it grow. A
//! counting call writes one or two numbers in place.
#![tactic(auto)]

pub use answer::{Cell, Delivered, DeliveredNext, Delivery, Evicted, Issue, Refused, Stall};
pub use stats::{CoreStats, MessageCounts, Stats};

mod answer;
mod stats;
