use address_map::{CoreId, LineAddr, Op, WordAddr};
use slice_answer::Refused;
use std::sync::Wait;

/// A step of a core's program.
#[derive(Clone, Copy, Debug, PartialEq, Eq)]
pub enum Step {
    /// Asks for an access by the lowest free tag. Where no tag is free or the request has to wait, the core makes a
    /// turn and tries again.
    Access(WordAddr, Op),
    /// Makes turns until no tag is in flight.
    Settle,
    /// Tries once to evict its copy of a line, whatever is returned.
    Evict(LineAddr),
    /// Makes this many turns.
    Turns(u8),
}

/// How the run of a program ended.
#[derive(Clone, Copy, Debug, PartialEq, Eq)]
pub enum Outcome {
    /// Each step was done.
    Finished,
    /// The step at this place needed one turn more than the run was allowed. Places count from 0.
    Limit(usize),
    /// The access at this place was refused.
    Refused(usize, Refused),
    /// Nothing was run.
    NotRun,
}

/// Is notified of each request that a run makes: once before it is made, and once after it was answered. No lock is
/// held then. The core's requests count from 1, and the count stops at 2^64 - 1.
pub trait Gate {
    fn before<R: Wait>(&self, rt: &R, core: CoreId, call: u64);

    fn after<R: Wait>(&self, rt: &R, core: CoreId, call: u64);
}

/// A gate that lets each request pass.
#[derive(Clone, Copy, Debug, PartialEq, Eq)]
pub struct Open;

impl Gate for Open {
    fn before<R: Wait>(&self, _rt: &R, _core: CoreId, _call: u64) {}

    fn after<R: Wait>(&self, _rt: &R, _core: CoreId, _call: u64) {}
}
