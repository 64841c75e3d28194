ghost use Rattle.std.specs.Prelude.{◌≡◌, ℕ, ◌+◌, ◌<◌, ◌↔◌, [], length, position, IsTrue, IsSome, Some, None};
ghost use Rattle.std.specs.Option.{option_copied, option_map};
ghost use Rattle.writeback_buffer.specs.Buffer.{is_of};

use super::pending::{Leaving, PendingWriteBack};
use address_map::{Checked, Local};
use arrayvec::ArrayVec;
use cache_table::CopyState;
use std::marker::Model;

/// The most write-backs that a buffer may be configured with.
pub const MOST_WRITE_BACKS: usize = 16;

/// The lines that a core has evicted from one slice and that wait for the directory's acknowledgement.
#[derive(Debug, Drop)]
pub struct WritebackBuffer {
    write_backs: ArrayVec<PendingWriteBack, MOST_WRITE_BACKS>,
    capacity: usize,
}

impl Model for WritebackBuffer {
    ghost use Rattle.writeback_buffer.specs.Buffer.{Buffer, IsBuffer};

    ghost Value = { Buffer };

    ghost view = { λ buffer. record { write_backs = buffer.write_backs.items; capacity = buffer.capacity } };

    ghost invariant = { λ buffer. IsBuffer (record { write_backs = buffer.write_backs.items; capacity = buffer.capacity }) };
}

impl WritebackBuffer {
    ghost use Rattle.writeback_buffer.specs.Buffer.{IsBuffer, ChangesOnly, empty_buffer, held_at, in_state, with_line};
    ghost use Rattle.writeback_buffer.specs.Buffer.{with_state, without_line};

    /// Returns an empty buffer, with room for the configured number of write-backs.
    pub fn make(config: &Checked) -> Self
        ensures { result ≡ empty_buffer config.now.writebacks }
    {
        WritebackBuffer {
            write_backs: ArrayVec::new(),
            capacity: config.writebacks(),
        }
    }

    /// Returns a copy of the write-backs. It allocates nothing.
    pub fn copy(&self) -> Self
        ensures { result ≡ self.now }
    {
        let mut write_backs = ArrayVec::new();
        let _ = write_backs.try_extend_from_slice(self.write_backs.as_slice());
        WritebackBuffer {
            write_backs,
            capacity: self.capacity,
        }
    }

    /// What is held of a line. A line has one write-back at most.
    pub fn get(&self, line: Local) -> Option<&Leaving>
        ensures held { option_copied result ≡ held_at self.now.write_backs line.0 }
        ensures sound { IsBuffer self.now }
    {
        let Some(place) = self.place_of(line) else {
            return None;
        };
        Some(&self.write_backs[place].leaving)
    }

    /// What is held, in the order in which it came.
    pub fn write_backs(&self) -> &[PendingWriteBack]
        ensures write_backs { result.now ≡ self.now.write_backs }
        ensures sound { IsBuffer self.now }
    {
        self.write_backs.as_slice()
    }

    /// Whether another line may be put.
    pub fn has_room(&self) -> bool
        ensures { IsTrue result ↔ (length self.now.write_backs < self.now.capacity) }
    {
        self.write_backs.len() < self.capacity
    }

    /// Whether no line waits.
    pub fn is_empty(&self) -> bool
        ensures empty { IsTrue result ↔ (self.now.write_backs ≡ []) }
        ensures nothing_held { IsTrue result ↔ ((line : ℕ) → held_at self.now.write_backs line ≡ None) }
    {
        self.write_backs.is_empty()
    }

    /// Takes in a line that the cache has just evicted.
    pub fn put(&mut self, line: Local, leaving: Leaving)
        requires room { length self.old.write_backs < self.old.capacity }
        requires absent { held_at self.old.write_backs line.0 ≡ None }

        ensures put { self.new ≡ with_line self.old line.0 leaving }
        ensures held { ChangesOnly self.old self.new line.0 (Some leaving) }
        ensures one_more { length self.new.write_backs ≡ length self.old.write_backs + 1 }
    {
        self.write_backs.push(PendingWriteBack { leaving, line });
    }

    /// Moves a line that is held to this state. Its block stays.
    pub fn advance(&mut self, line: Local, state: CopyState)
        requires held { IsSome (held_at self.old.write_backs line.0) }

        ensures advanced { self.new ≡ with_state self.old line.0 state }
        ensures kept { ChangesOnly self.old self.new line.0
            (option_map (in_state state) (held_at self.old.write_backs line.0)) }
        ensures as_many { length self.new.write_backs ≡ length self.old.write_backs }
    {
        let Some(place) = self.place_of(line) else {
            unreachable!();
        };
        self.write_backs[place].leaving.state = state;
    }

    /// Gives a line up, once it is acknowledged.
    pub fn remove(&mut self, line: Local) -> Option<Leaving>
        ensures taken { result ≡ held_at self.old.write_backs line.0 }
        ensures removed { self.new ≡ without_line self.old line.0 }
        ensures absent { ChangesOnly self.old self.new line.0 None }
        ensures one_less { IsSome result → length self.new.write_backs + 1 ≡ length self.old.write_backs }
        ensures unchanged { result ≡ None → self.new ≡ self.old }
    {
        let Some(place) = self.place_of(line) else {
            return None;
        };
        Some(self.write_backs.remove(place).leaving)
    }

    // Returns where the line is.
    fn place_of(&self, line: Local) -> Option<usize>
        ensures place { result ≡ position (is_of line.0) self.now.write_backs }
        ensures sound { IsBuffer self.now }
    {
        self.write_backs
            .iter()
            .position(|write_back| write_back.line == line)
    }
}
