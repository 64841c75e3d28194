//! How a run of a machine ends: its cores are drained, and then audited.
//!
//! [`drain`] lets the cores take replies, round by round, until each slice is quiet. [`audit`] takes all cores, in any
//! order, and returns an [`Audit`]: the receipts of all cores in one list, and the value of each counter. What it
//! promises is `IsAudited` (`specs/Audited.antt`): each core of the machine was given once, no receipt is left out or
//! doubled, as many were handed out as requests were accepted, a counter's value is its initial value and what all
//! receipts add to it, and the receipts of each slice are exactly a log that is legal and in each core's order. Where
//! that can't be had the cores are given back, with the first reason ([`AuditError`], `specs/Fault.antt`).
//!
//! An audit allocates its two lists alone. What the slices and cores do meanwhile isn't said: behind locks
//! no slice is sure to stay quiet.
#![tactic(auto)]

pub use auditor::audit;
pub use fault::{AuditError, AuditFault};
pub use report::{Audit, CounterValue, Drain};
pub use rounds::drain;

mod auditor;
mod counted;
mod fault;
mod gathered;
mod report;
mod rounds;
mod settled;
mod whole;
