ghost use Rattle.std.specs.Prelude.{◌≡◌, ℕ, ◌+◌, ◌^◌, ◌<◌, ◌≤◌, ◌++◌, ◌⊎◌, length, vec_capacity, Some, All, IsSome};
ghost use Rattle.std.specs.Prelude.{position};
ghost use Rattle.cache_array.specs.Array.{held_at as array_at, slots_at};
ghost use Rattle.cache_array.specs.Set.{holds};
ghost use Rattle.mshr_file.specs.Miss.{targets_of, IsMissFile, TakesTargets};
ghost use Rattle.slice_core_cache.specs.Perform.{entries_of, performed_in, left_in, asks_to_write};
ghost use Rattle.slice_core_cache.specs.Targets.{IsPerformable};
ghost use Rattle.writeback_buffer.specs.Buffer.{held_at as buffer_at};

use super::CoreCache;
use crate::perform::{count_allowed, perform};
use address_map::{Block, CoreId, Local};
use cache_table::CopyState;
use mshr_file::MissFile;
use slice_log::Entry;

impl<F: MissFile> CoreCache<F> {
    ghost use Rattle.slice_core_cache.specs.CoreCache.{array_copy};
    ghost use Rattle.slice_core_cache.specs.Steps.{copy_after_ack, after_advance, after_change, after_settle, copy_after_fill};

    /// Takes the copy to the next state after a message; nothing is performed in that state.
    pub fn advance(&mut self, local: Local, next: CopyState)
        requires { IsSome (array_at self.old.array local) ⊎ IsSome (buffer_at self.old.buffer.write_backs local.0) }
        ensures { self.new ≡ after_advance self.old local next }
    {
        let gone = next == CopyState::I;
        match self.array.find(local) {
            Some(_) if gone => {
                let _ = self.array.remove(local);
            }
            Some(way) => self.array.value_mut(local, way).state = next,
            None if gone => {
                let _ = self.buffer.remove(local);
            }
            None => self.buffer.advance(local, next),
        }
    }

    /// Gives the copy the data that came, which named `wants` acknowledgements, and takes it to the next state.
    pub fn fill(&mut self, local: Local, way: usize, block: &Block, wants: u8, next: CopyState)
        requires { position (holds local) (slots_at self.old.array local) ≡ Some way }
        ensures { self.new ≡ after_change self.old local (copy_after_fill (array_copy self.old local) block.now wants next) }
    {
        let copy = self.array.value_mut(local, way);
        copy.block = *block;
        copy.wants = wants;
        copy.state = next;
    }

    /// Counts one more acknowledgement for the copy, and takes it to the next state.
    pub fn acknowledge(&mut self, local: Local, way: usize, next: CopyState)
        requires { position (holds local) (slots_at self.old.array local) ≡ Some way }
        ensures { self.new ≡ after_change self.old local (copy_after_ack (array_copy self.old local) next) }
    {
        let copy = self.array.value_mut(local, way);
        copy.counted = copy.counted.saturating_add(1);
        copy.state = next;
    }

    /// Performs and logs the targets that the copy now allows: the loads in front where it may be read, all where it
    /// may be written. Returns whether a write is left, for which the right to write has to be asked. The log has room.
    pub fn settle(
        &mut self,
        core: CoreId,
        local: Local,
        way: usize,
        first: u64,
        log: &mut Vec<Entry>,
    ) -> bool
        requires held { position (holds local) (slots_at self.old.array local) ≡ Some way }
        requires performable { All IsPerformable (targets_of self.old.misses local.0) }
        requires room { length log.old.items + length (targets_of self.old.misses local.0) ≤ vec_capacity log.old }
        requires first { first + 8 ≤ 2 ^ 64 }
        ensures asks { result ≡ asks_to_write (array_copy self.old local).state (targets_of self.old.misses local.0) }
        ensures taken { TakesTargets self.old.misses self.new.misses local.0
            (performed_in (array_copy self.old local).state (targets_of self.old.misses local.0)) }
        ensures sound { IsMissFile self.old.misses → IsMissFile self.new.misses }
        ensures after { self.new ≡ after_settle self.old local (length log.old.items) self.new.misses }
        ensures log { log.new.items ≡ log.old.items ++ entries_of core first (array_copy self.old local).block
            (performed_in (array_copy self.old local).state (targets_of self.old.misses local.0)) }
        ensures room { vec_capacity log.new ≡ vec_capacity log.old }
    {
        let waiting = self.file.waiting(local);
        let copy = self.array.value_mut(local, way);
        let count = count_allowed(&self.file, local, waiting, copy.state);
        perform(
            &mut self.file,
            &mut self.tags,
            &mut copy.block,
            log,
            core,
            local,
            first,
            count,
        );
        let asks = copy.settle(count < waiting);
        if count > 0 {
            self.array.touch_at(local, way);
        }
        asks
    }
}
