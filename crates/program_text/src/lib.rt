//! Reads programs: what each core of a machine asks for, access by access.
//!
//! [`Programs::read`] reads a text. `repeat` blocks and ranges of words are written out, so that a core's program is a
//! list of steps, at most [`MOST_ACCESSES`] in all programs of a text. It returns exactly the programs that the
//! text's lines write (specs/Line.antt, specs/Text.antt), or the fault of the first line at fault, in the order in
//! which faults are checked (specs/Judged.antt, specs/Fault.antt).
#![tactic(auto)]

pub use programs::{
    Access, CoreProgram, Limits, MOST_ACCESSES, MOST_DEPTH, MOST_OUTSTANDING, MOST_PACE, Programs,
    Step,
};
pub use workloads::{GenerateFault, Size, Workload, write_workload};

mod body;
mod judge;
mod keyword;
mod line;
mod programs;
mod range;
mod reader;
mod repeat;
mod workloads;
