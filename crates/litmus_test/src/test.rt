ghost use Rattle.litmus_test.specs.Sound.{IsSound};

use address_map::{Checked, CoreId, LineAddr, Op, WordAddr};
use mshr_file::MissKind;

/// The most rounds of a test.
pub const MOST_ROUNDS: u64 = 10_000;

/// The most threads that move messages, besides those of the cores.
pub const MOST_MOVERS: u8 = 4;

/// The most steps of a thread.
pub const MOST_STEPS: usize = 4096;

/// The most replies that have names.
pub const MOST_NAMES: usize = 16;

/// The most bytes of a name.
pub const LONGEST_NAME: usize = 16;

/// The most pairs of an outcome that must not occur.
pub const MOST_PAIRS: usize = 16;

/// A step of a thread.
#[derive(Clone, Copy, Debug, PartialEq, Eq)]
pub enum Action {
    Access(WordAddr, Op),
    /// Waits until all requests of the core were answered.
    Settle,
    /// Evicts the core's copy of a line, if possible at once.
    Evict(LineAddr),
}

/// The program of a core.
#[derive(Debug, Drop)]
pub struct Thread {
    pub core: CoreId,
    pub steps: Vec<Action>,
}

/// The reply of a step, by its name. Threads and steps count from 0.
#[derive(Clone, Copy, Debug, PartialEq, Eq)]
pub struct NamedReply<'a> {
    pub name: &'a [u8],
    pub thread: usize,
    pub step: usize,
}

/// A named reply, by its place among the names, and a value that it may have.
#[derive(Clone, Copy, Debug, PartialEq, Eq)]
pub struct Pair {
    pub name: usize,
    pub value: u64,
}

/// An outcome that must not occur: all pairs hold.
#[derive(Debug, Drop)]
pub struct Forbidden {
    pub pairs: Vec<Pair>,
}

/// A litmus test. It is run `rounds` times, each time on a new machine with `movers` threads that move messages.
#[derive(Debug, Drop)]
pub struct LitmusTest<'a> {
    pub config: Checked,
    pub misses: MissKind,
    pub rounds: u64,
    pub movers: u8,
    /// In the order of the text, each of another core.
    pub threads: Vec<Thread>,
    /// In the order of the text.
    pub names: Vec<NamedReply<'a>>,
    pub forbidden: Vec<Forbidden>,
    ghost sound: { IsSound config rounds movers threads.items names.items forbidden.items },
}
