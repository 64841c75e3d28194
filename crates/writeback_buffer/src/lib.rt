//! The write-back buffer of a private cache: the lines that it has evicted, each with its block, until the directory
//! acknowledges them (Kroft's lockup-free cache; Sorin, Hill and Wood's Primer).
//!
//! A line being written back is still answered for: its block may be forwarded to another core, and its state then goes
//! from MI_A by SI_A to II_A. So the buffer is a bounded map from a line to a [`Leaving`], its state and its block.
//!
//! - The buffer is seen as `Buffer` of specs/Buffer.antt: its write-backs in the order in which they came, and its
//!   capacity. `held_at` finds a line among them. [`WritebackBuffer::get`] returns it, and says that no line occurs
//!   twice. [`WritebackBuffer::write_backs`] shows all, the latest last.
//! - [`WritebackBuffer::put`], [`WritebackBuffer::advance`] and [`WritebackBuffer::remove`] say the write-backs that they
//!   leave, and how many. What is held of every other line is as it was (`ChangesOnly`).
//! - [`WritebackBuffer::has_room`] compares the number of write-backs with the capacity, which is never passed.
//!
//! No call allocates: the write-backs, at most [`MOST_WRITE_BACKS`] of 80 bytes, are in the value. A call looks at each
//! write-back at most once, and copies no block but the one that comes or goes. Those after one that goes move down by a
//! place.
#![tactic(auto)]

pub use buffer::{MOST_WRITE_BACKS, WritebackBuffer};
pub use pending::{Leaving, PendingWriteBack};

mod buffer;
mod pending;
