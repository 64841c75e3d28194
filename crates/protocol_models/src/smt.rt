//! Writes the coherence of one line as queries for SMT solvers, for any number of cores.
//!
//! [`write_queries`] asks the tables for each of their rows, and writes a query for each: that the invariant holds
//! before the row and not after it, or, of a message without a row, that it can come. If all are unsatisfiable, each
//! row keeps the invariant. The parts that no row decides are in src/smt/fixed: what a line is, what a row's parts
//! mean, the invariant and the promises. `docs/COHERENCE.md` says what solvers find.
pub use queries::write_queries;

mod cache;
mod directory;
mod fixed;
mod queries;
