//! Runs litmus tests without threads, in an order that a seed draws.
//!
//! A round is a walk: at each turn one of the possible moves is drawn, each with equal probability ([`Xoshiro256++`]
//! of the round's seed): the next step of a thread, a delivery at a channel in which a message waits, or the delivery
//! of a waiting reply to its core. It ends when no move is left, or is given up after a maximum number ([`End`]). So
//! the same seed walks the same way on every machine.
//!
//! - src/recorded.rt: a machine that records the calls made to it. Each call appends itself, and the slices are what
//!   those calls make of new ones (`Plays` of specs/Walk.antt).
//! - src/walker.rt and src/moves.rt: where the threads are, and which moves may come next.
//! - src/script.rt prints a walk as a script: all that configures the machine, and each call, in order
//!   (specs/Script.antt).
//!
//! [`Xoshiro256++`]: rand_xoshiro::Xoshiro256PlusPlus
#![tactic(auto)]

pub use moves::named_lines;
pub use place::StepPlace;
pub use recorded::{Made, Recorded};
pub use round::{End, Walked, walk};
pub use script::write_walk;

mod moves;
mod place;
mod recorded;
mod round;
mod script;
mod walker;
