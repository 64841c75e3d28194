//! The parts of the text that no row of a table decides.

pub use introduction::INTRODUCTION;
pub use invariant::{INVARIANT, WORDS};
pub use line::{ROWS, STATE, TAKEN};
pub use whole::{BEGINNING, COVERAGE, EXCLUSIVE_ALONE, NEVER};

mod introduction;
mod invariant;
mod line;
mod whole;
