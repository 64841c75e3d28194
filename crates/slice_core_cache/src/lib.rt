//! What one core has in a slice: its array, its miss registers, its write-back buffer, its tags and the generator of
//! its random victims, and the exact steps on them.
//!
//! A copy of a line is in the array, or in the write-back buffer once it was evicted, or nowhere.
//! [`CoreCache::decide`] says what an access does (`access_of` of specs/Access.antt); [`CoreCache::hit`], [`CoreCache::join`],
//! [`CoreCache::open`] and [`CoreCache::evict`] do it. [`CoreCache::advance`], [`CoreCache::fill`] and [`CoreCache::acknowledge`] are what
//! messages do to a copy; [`CoreCache::settle`] performs the targets that it then allows (specs/Perform.antt). Each contract
//! gives the whole core after the call (specs/Steps.antt), and proofs/Found.antt what that makes of each line's copy.
//!
//! All memory is taken by [`CoreCache::with_file`] and [`CoreCache::try_clone`]. A call looks at the one set of its line,
//! at the lines that are waited for and at those that are written back, and copies no block but the one that comes. The next reply is found among the tags that name
//! one.
#![tactic(auto)]

pub use access::{AccessKind, Ask, Placement};
pub use copy::CacheCopy;
pub use core_cache::{CopyLook, CoreCache};
pub use tags::TagState;

mod access;
mod copy;
mod core_cache;
mod perform;
mod tags;
