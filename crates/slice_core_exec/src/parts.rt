ghost use Rattle.std.specs.Prelude.{◌≡◌, length};

use address_map::{Locator, WordAddr};
use directory_table::DirEntry;
use mshr_file::MissFile;
use slice_answer::Stats;
use slice_core_cache::CoreCache;
use slice_log::Entry;
use slice_queues::Queues;
use std::boxed::BoxedSlice;
use std::marker::Model;

mod build;
mod deliver;
mod evict;
mod hand;
mod issue;
mod look;
mod new_log;
mod next;
mod plan;

/// One slice: its directory, its channels, each core's cache and the log. What is in a boxed slice can't grow.
#[derive(Drop)]
pub struct Parts<F: MissFile> {
    entries: BoxedSlice<DirEntry>,
    queues: Queues,
    caches: BoxedSlice<CoreCache<F>>,
    log: Vec<Entry>,
    stats: Stats,
    /// The configured initial values and counters of this slice.
    init: BoxedSlice<(WordAddr, u64)>,
    counters: BoxedSlice<WordAddr>,
    lines: Locator,
    /// How many targets wait.
    pending: usize,
    exclusive: bool,
}

impl<F: MissFile> Model for Parts<F> {
    ghost use Rattle.std.specs.Box.{boxed_slice_items};
    ghost use Rattle.std.specs.Prelude.{vec_capacity};
    ghost use Rattle.slice_core_spec.specs.Calls.{PartsView};

    ghost Value = { PartsView };

    ghost view = { λ p. record {
      view = record { entries = boxed_slice_items p.entries; channels = p.queues.channels.lines; caches = boxed_slice_items p.caches; log = p.log.items; init = boxed_slice_items p.init; counters = boxed_slice_items p.counters; lines = p.lines; exclusive = p.exclusive };
      stats = p.stats;
      pending = p.pending;
      room = vec_capacity p.log;
      ring = p.queues.ring;
    } };
}

impl<F: MissFile> Parts<F> {
    ghost use Rattle.slice_core_spec.specs.Calls.{PartsView};

    pub fn log(&self) -> &[Entry]
        ensures { result.now ≡ self.now.view.log }
    {
        &self.log
    }

    /// Returns each core's cache.
    pub fn caches(&self) -> &[CoreCache<F>]
        ensures { result.now ≡ self.now.view.caches }
    {
        &self.caches
    }

    /// Returns the configured initial values of the slice's words.
    pub fn init(&self) -> &[(WordAddr, u64)]
        ensures { result.now ≡ self.now.view.init }
    {
        &self.init
    }

    pub fn stats(&self) -> &Stats
        ensures { result.now ≡ self.now.stats }
    {
        &self.stats
    }

    /// Which lines of the memory are the slice's.
    pub fn lines(&self) -> Locator
        ensures { result ≡ self.now.view.lines }
    {
        self.lines
    }
}
