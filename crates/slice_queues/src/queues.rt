ghost use Rattle.std.specs.Prelude.{◌≡◌, ℕ, ◌<◌, ◌≤◌, ◌↔◌, ◌++◌, [], length, take, drop, filter, slice_get};
ghost use Rattle.std.specs.Prelude.{slice_index, Some, IsTrue, IfOk};
ghost use Rattle.slice_queues.specs.Pick.{line_of, channel_of};
ghost use Rattle.slice_queues.specs.Ring.{with_listed};

use super::channel::{Channel, Pick};
use super::line_queues::LineQueues;
use super::lines::Lines;
use super::message::Message;
use super::picks::{LinesWaiting, Picks};
use super::ring::LineRing;
use address_map::{CoreId, CoreSet, LineAddr, Local, Locator};
use std::alloc::{AllocError, Global};
use std::marker::Model;

/// The channels of one slice, by line, and a ring of the lines that may have messages.
#[derive(Drop)]
pub struct Queues {
    lines: Lines,
    ring: LineRing,
    locator: Locator,
}

impl Model for Queues {
    ghost use Rattle.slice_queues.specs.Ring.{QueuesView, IsQueues};

    ghost Value = { QueuesView };

    ghost view = { λ queues.
        record {
          channels =
              record { lines = queues.lines; slice = queues.locator.slice; slices = queues.locator.slices };
          ring =
              queues.ring.order;
        } };

    ghost invariant = { λ queues. IsQueues queues.lines queues.ring queues.locator };
}

/// The lines by their places in the slice, and the ring.
impl Queues {
    ghost use Rattle.slice_queues.specs.Line.{IsEmptyLine, HasChannel, HasRoom, Carries, SendsOnly, after_send};
    ghost use Rattle.slice_queues.specs.Line.{after_take, TakesInvalidations, after_invalidating};
    ghost use Rattle.slice_queues.specs.Slice.{at_local, empty_slice, IsEmptySlice};
    ghost use Rattle.slice_queues.specs.Ring.{has_mail_at, with_listed, IsRing};
    ghost use Rattle.slice_queues.specs.Lending.{with_lent};

    /// Allocates all the memory that the slice will ever need, for the slice's lines of `cores` cores each.
    pub fn build(alloc: Global, cores: usize, locator: Locator) -> Result<Self, AllocError>
        requires { cores ≤ 64 }
        ensures { IfOk result
            (λ queues. queues ≡ record {
              channels = empty_slice locator.lines cores locator.slice locator.slices;
              ring =
                  [];
            }) }
    {
        let count = locator.lines();
        Ok(Queues {
            lines: Lines::build(alloc, count, cores)?,
            ring: LineRing::build(alloc, count)?,
            locator,
        })
    }

    /// Returns a copy of the channels and the ring, in memory of its own.
    pub fn try_clone(&self, alloc: Global) -> Result<Self, AllocError>
        ensures { IfOk result (λ copy. copy ≡ self.now) }
    {
        let lines = self.lines.try_clone(alloc)?;
        let ring = self.ring.try_clone(alloc)?;
        Ok(Queues {
            lines,
            ring,
            locator: self.locator,
        })
    }

    /// Returns how many lines the slice has.
    pub fn lines(&self) -> usize
        ensures { result ≡ length self.now.channels.lines }
    {
        self.lines.len()
    }

    /// Returns the channels of one line.
    pub fn line(&self, local: Local) -> LineQueues<'_>
        requires { local.0 < length self.now.channels.lines }
        ensures { result ≡ at_local self.now.channels local.0 }
    {
        self.lines.line(local)
    }

    /// Adds the line to the ring, at the back, if it isn't there.
    pub fn list(&mut self, local: Local)
        requires { local.0 < length self.old.channels.lines }
        ensures { self.new ≡ record self.old { ring = with_listed self.old.ring local.0 } }
    {
        let _ = &self.lines;
        self.ring.list(local);
    }

    /// Sends the message on a channel of the line, after those that wait there. The line comes into the ring.
    #[inline(always)]
    pub fn send_at(&mut self, local: Local, channel: Channel, message: Message)
        requires line { local.0 < length self.old.channels.lines }
        requires there { HasChannel (at_local self.old.channels local.0) channel }
        requires room { HasRoom (at_local self.old.channels local.0) channel }
        requires kind { Carries channel message }
        ensures after { self.new
            ≡ with_lent self.old local (after_send (at_local self.old.channels local.0) channel message) }
        ensures sent { SendsOnly (at_local self.old.channels local.0)
            (after_send (at_local self.old.channels local.0) channel message) channel message }
    {
        self.ring.list(local);
        self.lines.send(local, channel, message);
    }

    /// Takes the oldest message of a channel of the line without a look at it. The line comes into the ring.
    #[inline(always)]
    pub fn drop_at(&mut self, local: Local, channel: Channel)
        requires line { local.0 < length self.old.channels.lines }
        requires there { HasChannel (at_local self.old.channels local.0) channel }
        ensures { self.new ≡ with_lent self.old local (after_take (at_local self.old.channels local.0) channel) }
    {
        self.ring.list(local);
        self.lines.drop_front(local, channel);
    }

    /// Sends an invalidation for the requester to each of these cores, after what waits there. The line comes into
    /// the ring.
    pub fn invalidate(&mut self, local: Local, cores: CoreSet, requester: CoreId)
        requires line { local.0 < length self.old.channels.lines }
        requires takes { TakesInvalidations (at_local self.old.channels local.0) cores }
        ensures { self.new
            ≡ with_lent self.old local (after_invalidating (at_local self.old.channels local.0) cores requester) }
    {
        self.ring.list(local);
        self.lines.invalidate(local, cores, requester);
    }

    /// Returns how many lines the ring has.
    pub fn ring_len(&self) -> usize
        ensures len { result ≡ length self.now.ring }
        ensures ring { IsRing self.now }
    {
        let _ = &self.lines;
        self.ring.len()
    }

    /// Returns the line at a place of the ring, the front at 0.
    pub fn ring_at(&self, index: usize) -> Local
        requires { index < length self.now.ring }
        ensures line { result.0 ≡ slice_index self.now.ring index }
        ensures there { result.0 < length self.now.channels.lines }
    {
        self.ring.at(index)
    }

    /// Moves those of the first `count` lines of the ring that have a message to the back, and the others out of it.
    pub fn rotate(&mut self, count: usize)
        requires { count ≤ length self.old.ring }
        ensures ring { self.new.ring
            ≡ drop count self.old.ring ++ filter (has_mail_at self.old.channels) (take count self.old.ring) }
        ensures channels { self.new.channels ≡ self.old.channels }
    {
        for turn in 0..count {
            let first = self.ring.at(0);
            let has_mail = self.lines.line(first).has_mail();
            self.ring.turn(has_mail);
        }
    }

    /// Whether no message waits anywhere in the slice.
    pub fn is_empty(&self) -> bool
        ensures slice { IsTrue result ↔ IsEmptySlice self.now.channels }
        ensures lines { IsTrue result ↔ ((local : ℕ) → IsEmptyLine (at_local self.now.channels local)) }
    {
        self.lines.is_quiet()
    }
}

/// The channels by their names in the whole memory.
impl Queues {
    ghost use Rattle.slice_queues.specs.Line.{Carries, messages_at, after_take, TakesOnly};
    ghost use Rattle.slice_queues.specs.Slice.{at_local, with_local, HasLine, local_of, messages_in, HasPick};
    ghost use Rattle.slice_queues.specs.Slice.{HasRoomIn, after_send_in, after_take_in, SendsOnlyIn, TakesOnlyIn};
    ghost use Rattle.slice_queues.specs.Ring.{with_listed};
    ghost use Rattle.slice_queues.specs.Waiting.{lines_waiting, picks_waiting, placed_by, HasEachPickOnce};

    /// Whether the line is one of this slice, and is there.
    pub fn has_line(&self, line: LineAddr) -> bool
        ensures { IsTrue result ↔ HasLine self.now.channels line }
    {
        self.locator.local_of(line).is_some()
    }

    /// Returns the place of a line that is there.
    fn place_of(&self, line: LineAddr) -> Local
        requires { HasLine self.now.channels line }
        ensures { result.0 ≡ local_of self.now.channels line }
    {
        match self.locator.local_of(line) {
            Some(local) => local,
            None => unreachable!(),
        }
    }

    /// Whether the pick names a channel that is there and takes another message.
    pub fn has_room(&self, pick: Pick) -> bool
        ensures { IsTrue result ↔ (HasPick self.now.channels pick × HasRoomIn self.now.channels pick) }
    {
        self.has_line(pick.line())
            && self
                .line(self.place_of(pick.line()))
                .has_room(pick.channel())
    }

    /// Returns the oldest message at the pick. `None` too where the pick names a line or a core that isn't there.
    pub fn front(&self, pick: Pick) -> Option<Message>
        ensures { result ≡ slice_get (messages_in self.now.channels pick) 0 }
    {
        if self.has_line(pick.line()) {
            self.line(self.place_of(pick.line())).front(pick.channel())
        } else {
            None
        }
    }

    /// Sends the message at the pick, after those that wait there. Its line comes into the ring.
    pub fn send(&mut self, pick: Pick, message: Message)
        requires there { HasPick self.old.channels pick }
        requires room { HasRoomIn self.old.channels pick }
        requires kind { Carries (channel_of pick) message }
        ensures after { self.new.channels ≡ after_send_in self.old.channels pick message }
        ensures sent { SendsOnlyIn self.old.channels self.new.channels pick message }
        ensures ring { self.new.ring ≡ with_listed self.old.ring (local_of self.old.channels (line_of pick)) }
    {
        let local = self.place_of(pick.line());
        self.send_at(local, pick.channel(), message);
    }

    /// Takes the oldest message at the pick. Nothing changes where none waits, or the pick names a line or a core
    /// that isn't there. The ring stays.
    pub fn take(&mut self, pick: Pick) -> Option<Message>
        ensures taken { result ≡ slice_get (messages_in self.old.channels pick) 0 }
        ensures after { self.new.channels ≡ after_take_in self.old.channels pick }
        ensures rest { TakesOnlyIn self.old.channels self.new.channels pick }
        ensures ring { self.new.ring ≡ self.old.ring }
    {
        if self.has_line(pick.line()) {
            self.take_at(self.place_of(pick.line()), pick.channel())
        } else {
            None
        }
    }

    /// Takes the oldest message in the channel of a line.
    fn take_at(&mut self, local: Local, channel: Channel) -> Option<Message>
        requires { local.0 < length self.old.channels.lines }
        ensures taken { result ≡ slice_get (messages_at (at_local self.old.channels local.0) channel) 0 }
        ensures after { self.new ≡ record self.old {
          channels =
              with_local self.old.channels local.0 (after_take (at_local self.old.channels local.0) channel);
        } }
        ensures rest { TakesOnly (at_local self.old.channels local.0)
            (after_take (at_local self.old.channels local.0) channel)
            channel }
    {
        self.lines.take(local, channel)
    }

    /// Returns the picks with a message, each once and no other: those of the start line, then those of the lines
    /// after it, and finally those of the lines before it. Within a line they come kind by kind. Allocates nothing.
    pub fn picks_from(&self, start: LineAddr) -> Picks<'_>
        requires { HasLine self.now.channels start }
        ensures order { result ≡ picks_waiting self.now.channels start }
        ensures once { HasEachPickOnce self.now.channels result }
    {
        let place = self.place_of(start).0;
        let slice = self.locator.slice().0;
        let slices = self.locator.slices() as u8;
        Picks::new(
            LinesWaiting::new(&self.lines, place, self.lines.len(), slice, slices),
            LinesWaiting::new(&self.lines, 0, place, slice, slices),
        )
    }
    /// Returns the picks with a message, each once and no other, where the lines are in the memory as the locator says:
    /// from the first line to the last, within a line kind by kind. It allocates nothing.
    pub fn picks_of(&self, own: Locator) -> Picks<'_>
        requires { own.lines ≡ length self.now.channels.lines }
        ensures order { result ≡ lines_waiting own.slice own.slices 0 self.now.channels.lines }
        ensures once { HasEachPickOnce (placed_by own self.now.channels.lines) result }
    {
        let slice = own.slice().0;
        let slices = own.slices() as u8;
        Picks::new(
            LinesWaiting::new(&self.lines, 0, self.lines.len(), slice, slices),
            LinesWaiting::new(&self.lines, 0, 0, slice, slices),
        )
    }
}
