//! Writes the protocol of one line for tools that check it: as a model for the explicit-state model checkers Rumur and
//! CMurphi, and its coherence as queries for SMT solvers.
//!
//! [`write_model`] writes the rules of a few cores, each row of the tables as one (src/murphi.rt), [`write_queries`] a
//! query for each row, for any number of cores (src/smt.rt). Both ask the tables for their rows, so independent tools
//! check the rows that the slices run by, as `protocol_tables` has them. The contracts say what is written
//! byte for byte. A call allocates nothing, and fails only where its writer does.
#![tactic(auto)]

pub use murphi::write_model;
pub use smt::write_queries;

mod murphi;
mod smt;
