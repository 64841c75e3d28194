ghost use Rattle.std.specs.Prelude.{◌≡◌, ◌<◌, ◌≤◌, ◌↔◌, All, IfOk, IsTrue, length, map, slice_get};
ghost use Rattle.address_map.specs.Locator.{line_at};
ghost use Rattle.slice_core_cache.specs.CoreCache.{CoreCacheView, state_of, IsCoreCacheQuiet};
ghost use Rattle.slice_core_spec.specs.Parts.{ring_lines};
ghost use Rattle.slice_core_spec.specs.View.{View, channels_at, entry_at, word_now, IsOwned, IsQuiet, IsShaped};
ghost use Rattle.slice_core_exec.specs.CoreLines.{last_written_back, lines_of_core, places_of};
ghost use Rattle.slice_queues.specs.Line.{messages_at};
ghost use Rattle.slice_queues.specs.Waiting.{line_waiting, lines_waiting, placed_by, HasEachOnce, HasEachPickOnce};

use super::Parts;
use crate::core_lines::CoreLines;
use crate::line_view::LineView;
use address_map::{CoreId, LineAddr, Local, Locator, Offset};
use arrayvec::ArrayVec;
use cache_table::CopyState;
use mshr_file::MissFile;
use slice_core_cache::CoreCache;
use slice_queues::{Channel, LineWaiting, Message, Picks};
use std::alloc::{AllocError, Global};

impl<F: MissFile> Parts<F> {
    /// Returns what the slice has of a line.
    pub fn line_view(&self, local: Local) -> LineView
        requires line { local.0 < length self.now.view.entries }
        requires cores { length self.now.view.caches ≤ 64 }
        ensures dir { result.dir ≡ (entry_at self.now.view local).state }
        ensures owner { result.owner ≡ (entry_at self.now.view local).owner }
        ensures sharers { result.sharers ≡ (entry_at self.now.view local).sharers }
        ensures home { result.home ≡ (entry_at self.now.view local).home.words }
        ensures copies { result.copies.items ≡ map (λ cache. state_of cache local) self.now.view.caches }
    {
        let entry = &self.entries[local.0];
        let block = entry.home;
        let home = block.words;
        LineView {
            dir: entry.state,
            owner: entry.owner,
            sharers: entry.sharers.bits(),
            home,
            copies: states_of(&self.caches, local),
        }
    }

    /// Returns some of the lines that the core has a copy of, each once.
    pub fn core_lines(
        &self,
        alloc: Global,
        core: CoreId,
        which: CoreLines,
    ) -> Result<Vec<LineAddr>, AllocError>
        requires core { core.0 < length self.now.view.caches }
        requires own { All (λ local. local.0 < self.now.view.lines.lines) (places_of self.now.view core which) }
        ensures { IfOk result (λ lines. lines.items ≡ lines_of_core self.now.view core which) }
    {
        let places = self.places_of(alloc, core, which)?;
        lines_at(alloc, self.lines, places.as_slice())
    }

    // The same by their places in the slice.
    fn places_of(
        &self,
        alloc: Global,
        core: CoreId,
        which: CoreLines,
    ) -> Result<Vec<Local>, AllocError>
        requires { core.0 < length self.now.view.caches }
        ensures { IfOk result (λ places. places.items ≡ places_of self.now.view core which) }
    {
        let cache = &self.caches[core.0 as usize];
        match which {
            CoreLines::Waiting => cache.waited(alloc),
            CoreLines::Leaving => cache.leaving(alloc),
            CoreLines::InSetOf(line) => match self.lines.local_of(line) {
                Some(local) => cache.in_set_of(alloc, local),
                None => Ok(Vec::new(alloc)),
            },
        }
    }

    /// Returns the line that the core's write-back buffer took in last.
    pub fn last_written_back(&self, core: CoreId) -> Option<LineAddr>
        requires core { core.0 < length self.now.view.caches }
        requires own { All (λ local. local.0 < self.now.view.lines.lines)
            (places_of self.now.view core CoreLines.Leaving) }
        ensures { result ≡ last_written_back self.now.view core }
    {
        let local = self.caches[core.0 as usize].last_written_back()?;
        Some(self.lines.line_at(local))
    }

    /// Returns the oldest message in a channel of a line. `None` too where the channel names a core that isn't there.
    pub fn front(&self, local: Local, channel: Channel) -> Option<Message>
        requires { local.0 < length self.now.view.channels }
        ensures { result ≡ slice_get (messages_at (channels_at self.now.view local) channel) 0 }
    {
        self.queues.line(local).front(channel)
    }

    /// The line at a place of the ring, the front at 0: lines are looked at in this order for the next delivery.
    pub fn ring_line(&self, place: usize) -> Option<LineAddr>
        requires { IsShaped self.now.view }
        ensures { result ≡ slice_get (ring_lines self.now) place }
    {
        if place < self.queues.ring_len() {
            Some(self.lines.line_at(self.queues.ring_at(place)))
        } else {
            None
        }
    }

    /// Returns the picks with a message, each once and no other, from the first line to the last.
    pub fn waiting(&self) -> Picks<'_>
        requires { IsShaped self.now.view }
        ensures order { result ≡ lines_waiting self.now.view.lines.slice self.now.view.lines.slices 0
            self.now.view.channels }
        ensures once { HasEachPickOnce (placed_by self.now.view.lines self.now.view.channels) result }
    {
        self.queues.picks_of(self.lines)
    }

    /// Returns the channels of a line in which a message waits, each once and no other.
    pub fn waiting_at(&self, local: Local) -> LineWaiting<'_>
        requires { local.0 < length self.now.view.channels }
        ensures order { result ≡ line_waiting (channels_at self.now.view local) }
        ensures once { HasEachOnce (channels_at self.now.view local) result }
    {
        self.queues.line(local).waiting()
    }

    /// Whether no message is in flight, no miss register is held, no write-back is pending and each reply is handed
    /// out.
    pub fn is_quiet(&self) -> bool
        ensures { IsTrue result ↔ IsQuiet self.now.view }
    {
        self.queues.is_empty() && are_quiet(&self.caches)
    }

    /// Returns the word at a place of a line of a quiet slice: the owner's copy has it where there is an owner, else
    /// the home copy.
    pub fn word_now(&self, local: Local, offset: Offset) -> u64
        requires line { local.0 < length self.now.view.entries }
        requires within { offset.0 < 8 }
        requires owned { IsOwned self.now.view local }
        ensures { result ≡ word_now self.now.view local offset.0 }
    {
        let entry = &self.entries[local.0];
        let block = match entry.owner {
            Some(owner) => self.caches[owner.0 as usize].copy(local).block,
            None => entry.home,
        };
        block.words[offset.0 as usize]
    }
}

fn states_of<F: MissFile>(caches: &[CoreCache<F>], local: Local) -> ArrayVec<CopyState, 64>
    requires { length caches.now ≤ 64 }
    ensures { result.items ≡ map (λ cache. state_of cache local) caches.now }
{
    let mut states = ArrayVec::new();
    for cache in caches {
        states.push(cache.copy(local).state);
    }
    states
}

fn are_quiet<F: MissFile>(caches: &[CoreCache<F>]) -> bool
    ensures { IsTrue result ↔ All IsCoreCacheQuiet caches.now }
{
    caches.iter().all(|cache| cache.is_quiet())
}

// The lines at these places of the slice.
fn lines_at(alloc: Global, own: Locator, places: &[Local]) -> Result<Vec<LineAddr>, AllocError>
    requires { All (λ place. place.0 < own.lines) places.now }
    ensures { IfOk result (λ lines. lines.items ≡ map (line_at own) places.now) }
{
    let mut lines = Vec::new(alloc);
    for place in places {
        lines.push(own.line_at(*place))?;
    }
    Ok(lines)
}
