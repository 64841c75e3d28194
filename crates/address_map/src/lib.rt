//! Words, lines, slices and cores: how they are named, what a core may ask of a word, and how a machine is configured.
//!
//! Memory is an array of words of 64 bits. Eight words are a line, and lines are dealt out to the slices in turn.
//! `split` finds the place of a word and `join` the word at a place, and each one's contract says that the other undoes
//! it. A `Locator` does so for the lines of one slice, by a shift and a mask. A `CoreSet` is a set of the cores 0 to
//! 63, and each of its calls takes a few instructions. `Config::check` returns the first invalid field, or a
//! `Checked`, whose getters say what it may be relied on for (`IsAllowed` in `specs/Config.antt`). Only naming an
//! initial value or a counter takes memory, and `Checked::try_clone`.
#![tactic(auto)]

pub use address::{CoreId, LineAddr, Local, Offset, SliceId, WordAddr};
pub use block::Block;
pub use config::{Checked, Config, ConfigError, MOST_CORES, PolicyKind, is_counter};
pub use core_set::CoreSet;
pub use locator::Locator;
pub use place::{Place, counters_of, init_of, is_of_slice, join, slice_of, split};
pub use request::{Op, Request};
pub use words::{CounterWords, InitialValues};

mod address;
mod block;
mod config;
mod core_set;
mod locator;
mod place;
mod request;
mod words;
