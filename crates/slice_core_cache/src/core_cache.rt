ghost use Rattle.std.specs.Prelude.{◌≡◌, ◌<◌, ◌↔◌, [], IfOk, IsTrue};

use super::copy::CacheCopy;
use super::tags::{TagState, Tags};
use address_map::{Checked, CoreId, Local, PolicyKind, SliceId};
use cache_array::CacheArray;
use cache_table::CopyState;
use mshr_file::MissFile;
use rand_core::SeedableRng;
use rand_xoshiro::Xoshiro256PlusPlus;
use std::alloc::{AllocError, Global};
use std::marker::Model;
use writeback_buffer::WritebackBuffer;

mod evict;
mod issue;
mod look;
mod message;

pub use look::CopyLook;

/// What one core has in the slice.
#[derive(Drop)]
pub struct CoreCache<F: MissFile> {
    array: CacheArray<CacheCopy, PolicyKind>,
    file: F,
    buffer: WritebackBuffer,
    tags: Tags,
    generator: Xoshiro256PlusPlus,
    accepted: u64,
}

impl<F: MissFile> Model for CoreCache<F> {
    ghost use Rattle.slice_core_cache.specs.CoreCache.{CoreCacheView};

    ghost Value = { CoreCacheView };

    ghost view = { λ s. record {
      array = s.array;
      buffer = s.buffer;
      misses = F.misses s.file;
      bound = F.bound s.file;
      tags = s.tags;
      accepted = s.accepted;
      generator = s.generator;
    } };
}

impl<F: MissFile> CoreCache<F> {
    ghost use Rattle.slice_core_cache.specs.CoreCache.{new_cache, copy_of, recounted, tag_at, IsCoreCacheQuiet};
    ghost use Rattle.slice_core_cache.specs.Steps.{AfterHand};

    /// Returns a core that has requested nothing yet, and keeps its misses in this file, which is empty. It allocates
    /// all the memory that it will ever need.
    pub fn with_file(
        alloc: Global,
        config: &Checked,
        slice: SliceId,
        core: CoreId,
        file: F,
    ) -> Result<Self, AllocError>
        requires named { (slice.0 < 4) × (core.0 < 64) }
        requires empty { F.misses file ≡ [] }
        ensures { IfOk result (λ cache. cache ≡ new_cache config.now (F.bound file) slice.0 core.0) }
    {
        let policy = config.policy();
        let array = CacheArray::make(alloc, config, policy)?;
        let seed = match policy {
            PolicyKind::Random(seed) => {
                let stream = 64 * u64::from(slice.0) + u64::from(core.0);
                seed.wrapping_add(stream)
            }
            PolicyKind::Lru | PolicyKind::Fifo => 0,
        };
        Ok(CoreCache {
            array,
            file,
            buffer: WritebackBuffer::make(config),
            tags: Tags::new(),
            generator: Xoshiro256PlusPlus::seed_from_u64(seed),
            accepted: 0,
        })
    }

    /// Returns a copy of the cache, in memory of its own.
    pub fn try_clone(&self, alloc: Global) -> Result<Self, AllocError>
        ensures { IfOk result (λ copy. copy ≡ self.now) }
    {
        let array = self.array.try_clone(alloc)?;
        let file = self.file.try_clone(alloc)?;
        let generator = self.generator.clone()?;
        Ok(CoreCache {
            array,
            file,
            buffer: self.buffer.copy(),
            tags: self.tags.copy(),
            generator,
            accepted: self.accepted,
        })
    }

    /// Returns how many requests of the core were accepted.
    pub fn accepted(&self) -> u64
        ensures { result ≡ self.now.accepted }
    {
        self.accepted
    }

    /// Returns what a tag names.
    pub fn tag(&self, tag: u8) -> TagState
        requires { tag < 64 }
        ensures { result ≡ tag_at self.now tag }
    {
        self.tags.get(tag)
    }

    /// Returns the core's copy of a line, and its way in the set if it is in the array.
    pub fn copy(&self, local: Local) -> CacheCopy
        ensures { result ≡ copy_of self.now local }
    {
        if let Some(copy) = self.array.get(local) {
            return *copy;
        }
        match self.buffer.get(local) {
            Some(leaving) => CacheCopy::leaving(*leaving),
            None => CacheCopy::missing(CopyState::I),
        }
    }

    /// Hands out the reply of least number, if there is one: its tag is free then. Returns the number.
    pub fn hand(&mut self) -> Option<u64>
        ensures { AfterHand self.old result self.new }
    {
        let (tag, number) = self.tags.least_reply()?;
        self.tags.set(tag, TagState::Free);
        Some(number)
    }

    /// Counts the core's requests from 0 again.
    pub fn count_anew(&mut self)
        ensures { self.new ≡ recounted self.old }
    {
        self.accepted = 0;
    }

    /// Whether no access waits, no write-back is pending and each reply is handed out.
    pub fn is_quiet(&self) -> bool
        ensures { IsTrue result ↔ IsCoreCacheQuiet self.now }
    {
        self.file.registers() == 0 && self.buffer.is_empty() && self.tags.has_no_reply()
    }
}
