//! The table of a private cache: what a copy of a line does at each event.
//!
//! The stable states are those of the Primer (Sorin, Hill and Wood, *A Primer on Memory Consistency and Cache
//! Coherence*): M may be written, E is the only copy and clean, S may be read, I is nothing. A transient state `XY_Z`
//! goes from X to Y and waits for Z: D for data, A for acknowledgements. [`cache_row`] is the table. Its contract says
//! so cell by cell, and above that gives the laws on which the coherence of a line rests (`specs/Law.antt`): when a
//! core gains and loses the right to read or to write, and what it owes to others. Each row obeys them, and is the only
//! one that does. `state` has the states, `row` the events, the sends and the table, and `docs/PROTOCOL.md` shows it. A
//! call allocates nothing.
#![tactic(auto)]

pub use row::{CacheEvent, CacheSends, Row, cache_row};
pub use state::CopyState;

mod row;
mod state;
