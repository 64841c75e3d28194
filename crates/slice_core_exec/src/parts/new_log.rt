ghost use Rattle.std.specs.Box.{boxed_slice_items};
ghost use Rattle.std.specs.Prelude.{◌≡◌, ◌*◌, ◌<◌, IfOk, OnErr, OnOk, length, map};
ghost use Rattle.slice_core_cache.specs.CoreCache.{recounted};
ghost use Rattle.slice_core_spec.specs.Calls.{PartsView};
ghost use Rattle.slice_core_spec.specs.View.{View, IsOwned, IsShaped};
ghost use Rattle.slice_core_exec.specs.NewLog.{with_new_log, word_of, words_now};

use super::Parts;
use address_map::{Local, Offset, WordAddr};
use mshr_file::MissFile;
use slice_answer::Stats;
use slice_core_cache::CoreCache;
use std::alloc::{AllocError, Global};
use std::boxed::BoxedSlice;

impl<F: MissFile> Parts<F> {
    /// Begins a new log: each word begins with the value that it has, and what is counted begins at 0. Where an
    /// allocation fails nothing changes.
    pub fn begin_log(&mut self, alloc: Global) -> Result<(), AllocError>
        requires shaped { IsShaped self.old.view }
        requires owned { (local : Local) → local.0 < self.old.view.lines.lines → IsOwned self.old.view local }
        ensures begun { OnOk result (self.new ≡ with_new_log self.old) }
        ensures unchanged { OnErr result (self.new ≡ self.old) }
    {
        let init = self.words_now(alloc)?;
        let stats = Stats::new(alloc, self.caches.len(), self.stats.exclusive())?;
        count_anew(&mut self.caches);
        self.log.clear();
        self.init = init;
        self.stats = stats;
        Ok(())
    }

    // Each word of the slice with the value that it has.
    fn words_now(&self, alloc: Global) -> Result<BoxedSlice<(WordAddr, u64)>, AllocError>
        requires shaped { IsShaped self.now.view }
        requires owned { (local : Local) → local.0 < self.now.view.lines.lines → IsOwned self.now.view local }
        ensures { IfOk result (λ words. boxed_slice_items words ≡ words_now self.now.view) }
    {
        let count = 8 * self.lines.lines();
        let mut words = Vec::with_capacity(alloc, count)?;
        for place in 0..count {
            words.push(self.word_of(place))?;
        }
        Ok(words.into_boxed_slice())
    }

    // The word at a place among the slice's words, eight a line, with the value that it has.
    fn word_of(&self, place: usize) -> (WordAddr, u64)
        requires place { place < 8 * self.now.view.lines.lines }
        requires shaped { IsShaped self.now.view }
        requires owned { (local : Local) → local.0 < self.now.view.lines.lines → IsOwned self.now.view local }
        ensures { result ≡ word_of self.now.view place }
    {
        let local = Local(place / 8);
        let offset = Offset((place % 8) as u8);
        (
            self.lines.word_at(local, offset),
            self.word_now(local, offset),
        )
    }
}

// Counts each core's requests from 0 again.
fn count_anew<F: MissFile>(caches: &mut [CoreCache<F>])
    ensures { caches.new ≡ map recounted caches.old }
{
    for cache in caches.iter_mut() {
        cache.count_anew();
    }
}
