//! What an export returns, as `lockup.h` names it.

pub(crate) const DONE: u32 = 0;

/// The handle has no machine, or no trace where one is meant.
pub(crate) const NO_MACHINE: u32 = 1;

pub(crate) const OUT_OF_RANGE: u32 = 2;

pub(crate) const NO_MEMORY: u32 = 3;

/// The handle has a machine already.
pub(crate) const IN_USE: u32 = 4;
