ghost use Rattle.std.specs.Prelude.{◌≡◌, ◌+◌, ◌^◌, ◌<◌, length, true, false, None, Some, IsTrue, position};
ghost use Rattle.cache_array.specs.Array.{held_at as array_at, slots_at};
ghost use Rattle.cache_array.specs.Set.{holds};
ghost use Rattle.mshr_file.specs.Miss.{has_miss, can_open, can_join, AddsTarget, IsMissFile};
ghost use Rattle.writeback_buffer.specs.Buffer.{held_at as buffer_at};
ghost use Rattle.slice_log.specs.Op.{reply_of};
ghost use Rattle.slice_core_cache.specs.Access.{event_of};
ghost use Rattle.slice_core_cache.specs.Copy.{word_at};

use super::CoreCache;
use crate::access::{AccessKind, Ask, Placement};
use crate::copy::CacheCopy;
use crate::tags::TagState;
use address_map::{Local, Offset, Op, Request};
use cache_table::{CacheEvent, CacheSends, CopyState, Row, cache_row};
use mshr_file::{Admission, MissFile};
use slice_answer::Stall;
use slice_log::{performed, reply_to};
use target_list::Target;

impl<F: MissFile> CoreCache<F> {
    ghost use Rattle.slice_core_cache.specs.CoreCache.{array_copy};
    ghost use Rattle.slice_core_cache.specs.Access.{access_of, alone_of, CanStand, IsAlone, IsWithin};
    ghost use Rattle.slice_core_cache.specs.Steps.{after_hit, after_join, after_open, target_of};

    /// Returns what is to be done with an access to a line.
    pub fn decide(&self, local: Local, tag: u8, op: Op) -> AccessKind
        requires { tag < 64 }
        ensures decided { result ≡ access_of self.now local tag op }
        ensures within { IsWithin self.now local tag result }
    {
        let room = match self.file.admit(local, tag) {
            Admission::Join => return AccessKind::SecondaryMiss,
            Admission::NoTarget => return AccessKind::Stall(Stall::NoTarget),
            Admission::Open => true,
            Admission::NoRegister => false,
        };
        match self.array.find(local) {
            Some(way) => self.decide_held(local, way, op, room),
            None if self.buffer.get(local).is_some() => AccessKind::Stall(Stall::WriteBackBusy),
            None => self.decide_absent(local, op, room),
        }
    }

    // What is to be done with an access to a copy in this way of its set. `room` says that a register can be opened.
    fn decide_held(&self, local: Local, way: usize, op: Op, room: bool) -> AccessKind
        requires { position (holds local) (slots_at self.now.array local) ≡ Some way }
        ensures decided { result ≡ alone_of self.now local room op }
        ensures within { IsAlone self.now local room result }
    {
        let state = self.array.value(local, way).state;
        let (next, ask) = match cache_row(state, event_of(op)) {
            Row::Go(next, CacheSends::Nothing) => {
                // a write to an exclusive copy changes it, and no message is sent
                let silent = matches!((state, next), (CopyState::E, CopyState::M));
                return AccessKind::Hit { way, next, silent };
            }
            Row::Go(next, CacheSends::GetS) => (next, Ask::GetS),
            Row::Go(next, CacheSends::GetM) => (next, Ask::GetM),
            _ => return AccessKind::Stall(Stall::NoTarget),
        };
        if room {
            let placement = Placement::Held;
            AccessKind::PrimaryMiss {
                next,
                ask,
                placement,
            }
        } else {
            AccessKind::Stall(Stall::NoRegister)
        }
    }

    // Decides what is to be done with an access to a line that the core has no copy of.
    fn decide_absent(&self, local: Local, op: Op, room: bool) -> AccessKind
        requires absent { array_at self.now.array local ≡ None }
        requires stays { buffer_at self.now.buffer.write_backs local.0 ≡ None }
        ensures decided { result ≡ alone_of self.now local room op }
        ensures within { IsAlone self.now local room result }
    {
        let (next, ask) = match cache_row(CopyState::I, event_of(op)) {
            Row::Go(next, CacheSends::GetS) => (next, Ask::GetS),
            Row::Go(next, CacheSends::GetM) => (next, Ask::GetM),
            _ => return AccessKind::Stall(Stall::NoTarget),
        };
        if !room {
            return AccessKind::Stall(Stall::NoRegister);
        }
        let placement = if self.array.has_way(local) {
            Placement::Free
        } else if !self.has_victim(local) {
            return AccessKind::Stall(Stall::NoWay);
        } else if !self.buffer.has_room() {
            return AccessKind::Stall(Stall::WriteBackFull);
        } else {
            Placement::Victim
        };
        AccessKind::PrimaryMiss {
            next,
            ask,
            placement,
        }
    }

    /// Performs an access on the copy in this way of the line's set, which allows it, and returns the reply.
    pub fn hit(&mut self, local: Local, way: usize, offset: Offset, op: Op, next: CopyState) -> u64
        requires held { position (holds local) (slots_at self.old.array local) ≡ Some way }
        requires within { offset.0 < 8 }
        requires fits { self.old.accepted + 1 < 2 ^ 64 }
        ensures reply { result ≡ reply_of op (word_at (array_copy self.old local).block offset.0) }
        ensures after { self.new ≡ after_hit self.old local offset.0 op next }
    {
        self.accepted += 1;
        let copy = self.array.value_mut(local, way);
        copy.state = next;
        let word = &mut copy.block.words[offset.0 as usize];
        let value = *word;
        *word = performed(op, value);
        self.array.touch_at(local, way);
        reply_to(op, value)
    }

    /// Adds the access to the line's miss register. Returns its `seq`.
    pub fn join(&mut self, local: Local, offset: Offset, request: Request, since: u64) -> u64
        requires tag { request.tag < 64 }
        requires found { has_miss self.old.misses local.0 ≡ true }
        requires room { can_join self.old.bound self.old.misses local.0 request.tag ≡ true }
        requires fits { self.old.accepted + 1 < 2 ^ 64 }
        ensures seq { result ≡ self.old.accepted }
        ensures added { AddsTarget self.old.misses self.new.misses local.0 (target_of self.old request offset since) }
        ensures sound { IsMissFile self.new.misses }
        ensures after { self.new ≡ after_join self.old request self.new.misses }
    {
        let target = self.next_target(offset, request, since);
        self.file.join(local, target);
        target.seq
    }

    /// Opens a miss register for the access. Its copy goes to a state that waits, in the way that it holds (`held`) or
    /// in a free one. Returns its `seq`.
    pub fn open(
        &mut self,
        local: Local,
        held: bool,
        next: CopyState,
        offset: Offset,
        request: Request,
        since: u64,
    ) -> u64
        requires tag { request.tag < 64 }
        requires free { has_miss self.old.misses local.0 ≡ false }
        requires room { can_open self.old.bound self.old.misses request.tag ≡ true }
        requires way { CanStand self.old local held }
        requires fits { self.old.accepted + 1 < 2 ^ 64 }
        ensures seq { result ≡ self.old.accepted }
        ensures added { AddsTarget self.old.misses self.new.misses local.0 (target_of self.old request offset since) }
        ensures sound { IsMissFile self.new.misses }
        ensures after { self.new ≡ after_open self.old local held next request self.new.misses }
    {
        if held {
            let copy = self.array.get_mut(local);
            copy.state = next;
            copy.wants = 0;
            copy.counted = 0;
        } else {
            self.array.insert(local, CacheCopy::missing(next));
        }
        let target = self.next_target(offset, request, since);
        self.file.open(local, target);
        target.seq
    }

    // The access as a target, the next request that is accepted. Its tag is open.
    fn next_target(&mut self, offset: Offset, request: Request, since: u64) -> Target
        requires tag { request.tag < 64 }
        requires fits { self.old.accepted + 1 < 2 ^ 64 }
        ensures target { result ≡ target_of self.old request offset since }
        ensures after { self.new ≡ after_join self.old request self.old.misses }
    {
        let seq = self.accepted;
        self.accepted += 1;
        self.tags.set(request.tag, TagState::Open);
        Target {
            op: request.op,
            seq,
            since,
            offset,
            tag: request.tag,
        }
    }
}

// The event of the cache's table that an access is.
fn event_of(op: Op) -> CacheEvent
    ensures { result ≡ event_of op }
{
    match op {
        Op::Load => CacheEvent::Load,
        Op::Store(_) | Op::Add(_) | Op::Cas { .. } => CacheEvent::Write,
    }
}
