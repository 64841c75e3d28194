//! Generates programs of workloads that people know: what each core of a machine asks for, as a text that
//! this crate reads.
//!
//! - src/workloads/workload.rt: which workloads there are.
//! - src/workloads/dense.rt: a blocked product of matrices, and a stencil.
//! - src/workloads/shared.rt: a histogram, a ring buffer, and a lock.
//! - src/workloads/drawn.rt: a pointer chase, and accesses drawn uniformly and by Zipf's law.
//! - src/workloads/text.rt writes lines.
//!
//! [`write_workload`] has the reader read what it generated before it prints any of it. So what is printed is proved to
//! be a text of programs (`IsWorkload` of specs/Workload.antt). That it is the workload's is only tested.
pub use fault::GenerateFault;
pub use generate::write_workload;
pub use workload::{Size, Workload};

mod dense;
mod drawn;
mod fault;
mod generate;
mod shared;
mod text;
mod workload;
