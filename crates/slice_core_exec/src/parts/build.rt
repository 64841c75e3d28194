ghost use Rattle.std.specs.Box.{boxed_slice_items};
ghost use Rattle.std.specs.Prelude.{◌≡◌, ◌<◌, [], IfOk, vec_capacity};
ghost use Rattle.address_map.specs.Place.{counters_of, init_of};
ghost use Rattle.slice_answer.specs.Stats.{no_stats};
ghost use Rattle.slice_core_spec.specs.Initial.{IsInitialBlock, AreInitialEntries, AreNewCaches};
ghost use Rattle.slice_core_spec.specs.Calls.{PartsView, IsNew};
ghost use Rattle.slice_queues.specs.Slice.{empty_slice};

use super::Parts;
use address_map::{
    Block, Checked, CoreId, CoreSet, Local, Locator, Offset, SliceId, WordAddr, counters_of,
    init_of,
};
use directory_table::{DirEntry, DirState};
use mshr_file::MissFile;
use slice_answer::Stats;
use slice_core_cache::CoreCache;
use slice_log::Entry;
use slice_queues::Queues;
use std::alloc::{AllocError, Global};
use std::boxed::BoxedSlice;

impl<F: MissFile> Parts<F> {
    /// Returns a slice of the configured machine in which nothing was requested yet. Its cores keep their misses in
    /// files like this one, which is empty.
    pub fn new(
        alloc: Global,
        config: &Checked,
        slice: SliceId,
        empty: &F,
    ) -> Result<Self, AllocError>
        requires slice { slice.0 < config.now.slices }
        requires empty { F.misses empty.now ≡ [] }
        ensures { IfOk result (IsNew config.now (F.bound empty.now) slice) }
    {
        let lines = Locator::of(config, slice);
        let (entries, queues) = new_lines(alloc, config, lines)?;
        let (caches, stats) = new_cores(alloc, config, slice, empty)?;
        let (init, counters) = configured_words(alloc, config, slice)?;
        Ok(Parts {
            entries,
            queues,
            caches,
            log: Vec::new(alloc),
            stats,
            init,
            counters,
            lines,
            pending: 0,
            exclusive: config.exclusive(),
        })
    }
}

impl<F: MissFile> Parts<F> {
    /// Returns a copy of the slice, in memory of its own.
    pub fn try_clone(&self, alloc: Global) -> Result<Self, AllocError>
        ensures { IfOk result (λ copy. copy ≡ self.now) }
    {
        let (entries, queues) = self.copied_lines(alloc)?;
        let (caches, log, stats) = self.copied_cores(alloc)?;
        let (init, counters) = self.copied_words(alloc)?;
        Ok(Parts {
            entries,
            queues,
            caches,
            log,
            stats,
            init,
            counters,
            lines: self.lines,
            pending: self.pending,
            exclusive: self.exclusive,
        })
    }

    fn copied_lines(&self, alloc: Global) -> Result<(BoxedSlice<DirEntry>, Queues), AllocError>
        ensures entries { IfOk result (λ copy. boxed_slice_items copy.0 ≡ self.now.view.entries) }
        ensures channels { IfOk result (λ copy. copy.1.channels.lines ≡ self.now.view.channels) }
        ensures ring { IfOk result (λ copy. copy.1.ring ≡ self.now.ring) }
    {
        let entries = copied(alloc, &self.entries)?;
        let queues = self.queues.try_clone(alloc)?;
        Ok((entries, queues))
    }

    // Copies the caches, the log with the same capacity, and the counts.
    fn copied_cores(
        &self,
        alloc: Global,
    ) -> Result<(BoxedSlice<CoreCache<F>>, Vec<Entry>, Stats), AllocError>
        ensures caches { IfOk result (λ copy. boxed_slice_items copy.0 ≡ self.now.view.caches) }
        ensures log { IfOk result (λ copy. copy.1.items ≡ self.now.view.log) }
        ensures room { IfOk result (λ copy. vec_capacity copy.1 ≡ self.now.room) }
        ensures stats { IfOk result (λ copy. copy.2 ≡ self.now.stats) }
    {
        let caches = copied_caches(alloc, &self.caches)?;
        let log = copied_log(alloc, &self.log)?;
        let stats = self.stats.try_clone(alloc)?;
        Ok((caches, log, stats))
    }

    fn copied_words(
        &self,
        alloc: Global,
    ) -> Result<(BoxedSlice<(WordAddr, u64)>, BoxedSlice<WordAddr>), AllocError>
        ensures init { IfOk result (λ copy. boxed_slice_items copy.0 ≡ self.now.view.init) }
        ensures counters { IfOk result (λ copy. boxed_slice_items copy.1 ≡ self.now.view.counters) }
    {
        let init = copied(alloc, &self.init)?;
        let counters = copied(alloc, &self.counters)?;
        Ok((init, counters))
    }
}

// Returns the directory's entries, with their home copies, and the empty channels. No core has a copy of a line.
fn new_lines(
    alloc: Global,
    config: &Checked,
    lines: Locator,
) -> Result<(BoxedSlice<DirEntry>, Queues), AllocError>
    ensures entries { IfOk result (λ made. AreInitialEntries config.now lines lines.lines (boxed_slice_items made.0)) }
    ensures queues { IfOk result (λ made. made.1 ≡ record {
      channels = empty_slice lines.lines config.now.cores lines.slice lines.slices;
      ring = [];
    }) }
{
    let entries = new_entries(alloc, config, lines)?;
    let queues = Queues::build(alloc, config.cores(), lines)?;
    Ok((entries, queues))
}

// Returns cores that have requested nothing yet, and their counts.
fn new_cores<F: MissFile>(
    alloc: Global,
    config: &Checked,
    slice: SliceId,
    empty: &F,
) -> Result<(BoxedSlice<CoreCache<F>>, Stats), AllocError>
    requires slice { slice.0 < config.now.slices }
    requires empty { F.misses empty.now ≡ [] }
    ensures caches { IfOk result (λ made. AreNewCaches config.now (F.bound empty.now) slice.0 config.now.cores
        (boxed_slice_items made.0)) }
    ensures stats { IfOk result (λ made. made.1 ≡ no_stats config.now.cores config.now.exclusive) }
{
    let caches = new_caches(alloc, config, slice, empty)?;
    let stats = Stats::new(alloc, config.cores(), config.exclusive())?;
    Ok((caches, stats))
}

// The words of the slice that have an initial value, and those that are counters.
fn configured_words(
    alloc: Global,
    config: &Checked,
    slice: SliceId,
) -> Result<(BoxedSlice<(WordAddr, u64)>, BoxedSlice<WordAddr>), AllocError>
    ensures init { IfOk result (λ words. boxed_slice_items words.0 ≡ init_of config.now slice.0) }
    ensures counters { IfOk result (λ words. boxed_slice_items words.1 ≡ counters_of config.now slice.0) }
{
    let init = init_of(alloc, config, slice)?;
    let counters = counters_of(alloc, config, slice)?;
    Ok((init, counters))
}

fn copied<T: Copy>(alloc: Global, items: &BoxedSlice<T>) -> Result<BoxedSlice<T>, AllocError>
    ensures { IfOk result (λ copy. boxed_slice_items copy ≡ boxed_slice_items items.now) }
{
    BoxedSlice::from_slice(alloc, items.as_slice())
}

fn copied_caches<F: MissFile>(
    alloc: Global,
    caches: &BoxedSlice<CoreCache<F>>,
) -> Result<BoxedSlice<CoreCache<F>>, AllocError>
    ensures { IfOk result (λ copy. boxed_slice_items copy ≡ boxed_slice_items caches.now) }
{
    let mut all = Vec::with_capacity(alloc, caches.len())?;
    for core in 0..caches.len() {
        all.push(caches[core].try_clone(alloc)?)?;
    }
    Ok(all.into_boxed_slice())
}

// Copies the entries, with the same capacity.
fn copied_log(alloc: Global, log: &Vec<Entry>) -> Result<Vec<Entry>, AllocError>
    ensures items { IfOk result (λ copy. copy.items ≡ log.now.items) }
    ensures room { IfOk result (λ copy. vec_capacity copy ≡ vec_capacity log.now) }
{
    let mut copy = Vec::with_capacity(alloc, log.capacity())?;
    for number in 0..log.len() {
        copy.push_reserved(log[number]);
    }
    Ok(copy)
}

fn new_entries(
    alloc: Global,
    config: &Checked,
    lines: Locator,
) -> Result<BoxedSlice<DirEntry>, AllocError>
    ensures { IfOk result (λ v. AreInitialEntries config.now lines lines.lines (boxed_slice_items v)) }
{
    let mut all = Vec::with_capacity(alloc, lines.lines())?;
    for local in 0..lines.lines() {
        all.push(DirEntry {
            home: initial_block(config, lines, Local(local)),
            sharers: CoreSet::none(),
            owner: None,
            state: DirState::I,
        })?;
    }
    Ok(all.into_boxed_slice())
}

// The home copy that a line begins with.
fn initial_block(config: &Checked, lines: Locator, local: Local) -> Block
    requires line { local.0 < lines.lines }
    ensures { IsInitialBlock config.now lines local result }
{
    let mut words = [0; 8];
    for offset in 0..8u8 {
        words[offset as usize] = config.initial_word(lines.word_at(local, Offset(offset)));
    }
    Block { words }
}

fn new_caches<F: MissFile>(
    alloc: Global,
    config: &Checked,
    slice: SliceId,
    empty: &F,
) -> Result<BoxedSlice<CoreCache<F>>, AllocError>
    requires slice { slice.0 < config.now.slices }
    requires empty { F.misses empty.now ≡ [] }
    ensures { IfOk result (λ v. AreNewCaches config.now (F.bound empty.now) slice.0 config.now.cores
        (boxed_slice_items v)) }
{
    let mut all = Vec::with_capacity(alloc, config.cores())?;
    for core in 0..config.cores() {
        let file = empty.try_clone(alloc)?;
        all.push(CoreCache::with_file(alloc, config, slice, CoreId(core as u8), file)?)?;
    }
    Ok(all.into_boxed_slice())
}
