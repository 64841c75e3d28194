ghost use Rattle.std.specs.Prelude.{◌≡◌, true, false, None, is_some, IfSome, IsSome, IsSomeAnd};
ghost use Rattle.cache_array.specs.Array.{held_at as array_at, IsArray};
ghost use Rattle.cache_array.specs.Victim.{ShareSet};
ghost use Rattle.writeback_buffer.specs.Buffer.{held_at as buffer_at};
ghost use Rattle.slice_core_cache.specs.Copy.{may_leave};

use super::CoreCache;
use crate::copy::may_leave;
use address_map::{Local, PolicyKind};
use cache_table::{CacheEvent, CacheSends, Row, cache_row};
use mshr_file::MissFile;
use rand_core::utils::NextWord;
use slice_answer::Evicted;
use slice_queues::RequestMessage;
use writeback_buffer::Leaving;

impl<F: MissFile> CoreCache<F> {
    ghost use Rattle.slice_core_cache.specs.CoreCache.{array_copy};
    ghost use Rattle.slice_core_cache.specs.Access.{evicted_of, has_victim, victim_of, CanLeave, CanReplace, CanStand};
    ghost use Rattle.slice_core_cache.specs.Steps.{after_draw, after_evict, after_replace, put_of, victim_for};

    /// Decides whether the line can be evicted, or why not.
    pub fn decide_evict(&self, local: Local) -> Evicted
        ensures { result ≡ evicted_of self.now local }
    {
        if self.file.find(local) || self.buffer.get(local).is_some() {
            return Evicted::Busy;
        }
        match self.array.get(local) {
            None => Evicted::NotHeld,
            Some(copy) if !may_leave(copy.state) => Evicted::Busy,
            Some(_) if !self.buffer.has_room() => Evicted::WriteBackFull,
            Some(_) => Evicted::Evicting,
        }
    }

    /// Makes a way for the line: evicts a victim of its set. Returns the victim, and what is sent to the directory.
    #[inline(always)]
    pub fn replace(&mut self, local: Local) -> (Local, RequestMessage)
        requires replaces { CanReplace self.old local }
        requires apart { (line : Local) → IsSome (array_at self.old.array line)
            → buffer_at self.old.buffer.write_backs line.0 ≡ None }
        ensures victim { result.0 ≡ victim_for self.old local }
        ensures put { result.1 ≡ put_of (array_copy self.old result.0) }
        ensures held { IsSomeAnd (array_at self.old.array result.0) (λ copy. may_leave copy.state ≡ true) }
        ensures after { self.new ≡ after_replace self.old local }
        ensures stands { CanStand self.new local false }
    {
        let victim = self.draw_victim(local);
        let put = self.evict(victim);
        (victim, put)
    }

    // Chooses the line to evict for another of its set. A random policy draws its next word for it.
    #[inline(always)]
    fn draw_victim(&mut self, local: Local) -> Local
        requires { has_victim self.old local ≡ true }
        ensures victim { result ≡ victim_for self.old local }
        ensures after { self.new ≡ after_draw self.old }
        ensures goes { IsSomeAnd (array_at self.old.array result) (λ copy. may_leave copy.state ≡ true) }
        ensures set { ShareSet self.old.array local result }
        ensures arranged { IsArray self.old.array }
    {
        let word = match self.array.policy() {
            PolicyKind::Random(_) => self.generator.next_word(),
            PolicyKind::Lru | PolicyKind::Fifo => 0,
        };
        match self.victim(local, word) {
            Some(victim) => victim,
            None => unreachable!(),
        }
    }

    // Whether some line of the line's set may be evicted.
    pub(super) fn has_victim(&self, local: Local) -> bool
        ensures { result ≡ has_victim self.now local }
    {
        self.array.has_victim(local, |copy| may_leave(copy.state))
    }

    // The line of the line's set that the policy evicts by this word, if one may be evicted.
    fn victim(&self, local: Local, word: u64) -> Option<Local>
        ensures victim { result ≡ victim_of self.now local word }
        ensures some { is_some result ≡ has_victim self.now local }
        ensures goes { IfSome result (λ victim. IsSomeAnd (array_at self.now.array victim)
            (λ copy. may_leave copy.state ≡ true)) }
        ensures set { IfSome result (λ victim. ShareSet self.now.array local victim) }
        ensures arranged { IsArray self.now.array }
    {
        self.array.victim(local, |copy| may_leave(copy.state), word)
    }

    /// Moves the line's copy to the write-back buffer. Returns what is sent to the directory.
    // Its result carries a block: were it not inlined, that would be copied once more, as by the two above.
    #[inline(always)]
    pub fn evict(&mut self, local: Local) -> RequestMessage
        requires { CanLeave self.old local }
        ensures put { result ≡ put_of (array_copy self.old local) }
        ensures after { self.new ≡ after_evict self.old local }
    {
        let Some(copy) = self.array.remove(local) else {
            unreachable!();
        };
        let (state, put) = match cache_row(copy.state, CacheEvent::Eviction) {
            Row::Go(state, CacheSends::PutM) => (state, RequestMessage::PutM(copy.block)),
            Row::Go(state, _) => (state, RequestMessage::PutS),
            Row::Blocked | Row::NoEntry => (copy.state, RequestMessage::PutS),
        };
        let block = copy.block;
        self.buffer.put(local, Leaving { block, state });
        put
    }
}
