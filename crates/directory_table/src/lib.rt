//! The table of a directory: what the directory's entry of a line does at each request, and at data that come home.
//!
//! The states are the Primer's (Sorin, Hill and Wood, *A Primer on Memory Consistency and Cache Coherence*): in I
//! no core has the line, in S its sharers may read it, in M its owner has the only copy, and in S_D the directory waits
//! for the block that the last owner sends home. [`dir_row`] is the table, for both settings of the exclusive state.
//! Its contract says so cell by cell, and above that gives the laws on which the coherence of a line rests: who owns
//! and who shares it, from where its data come, and what each core is sent. `state` has the entry, `row` the events,
//! the sends and the table, and `docs/PROTOCOL.md` shows it. A call looks at one entry, and allocates nothing.
#![tactic(auto)]

pub use row::{DirEvent, DirRow, DirSends, DirStep, dir_row};
pub use state::{DirEntry, DirState};

mod row;
mod state;
