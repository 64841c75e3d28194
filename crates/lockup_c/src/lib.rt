//! The library that C links: a machine behind a handle (`include/lockup.h`).
//!
//! Each export of `lockup.h` takes what the handle has out of it, makes one call, and puts it back. What the call does
//! is stated in specs/Calls.antt, which restates the slice's own promise: of the handle's machine, at what the
//! numbers name (specs/Named.antt), with the numbers of the answer (specs/Number.antt, specs/Numbers.antt). A code other
//! than 0 leaves what the handle has.
//!
//! A [`handle::Handle`] owns a box at its pointer, or is null (specs/Owner.antt); src/boxed_parts.rt takes the box apart
//! and puts it together again. Five functions reach the pointer, three of the handle and two of the box, and are proved
//! by hand; C passes nothing for a parameter of type `Global`.
#![tactic(auto)]

pub use handle::Handle;
pub use held::Held;
pub use histories::JudgedHistories;

mod answer;
mod boxed_parts;
mod cells;
mod check;
mod codes;
mod contradiction;
mod counts;
mod handle;
mod held;
mod histories;
mod judge;
mod lines;
mod looks;
mod made;
mod messages;
mod names;
mod numbers;
mod plans;
mod registers;
mod steps;
mod structs;
