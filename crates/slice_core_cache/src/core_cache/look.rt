ghost use Rattle.std.specs.Prelude.{◌≡◌, ◌⊎◌, ◌-◌, length, map, position, slice_get, IfOk, IsSome};
ghost use Rattle.std.specs.List.{list_all};
ghost use Rattle.cache_array.specs.Array.{held_at as array_at, lines_at, slots_at};
ghost use Rattle.cache_array.specs.Set.{holds, lines_of};
ghost use Rattle.mshr_file.specs.Miss.{targets_of, waited_lines};
ghost use Rattle.target_list.specs.Target.{is_load};
ghost use Rattle.writeback_buffer.specs.Buffer.{held_at as buffer_at};

use super::CoreCache;
use crate::copy::CacheCopy;
use address_map::{Block, Local};
use arrayvec::ArrayVec;
use cache_array::Slot;
use cache_table::CopyState;
use mshr_file::{MissFile, Target};
use std::alloc::{AllocError, Global};
use writeback_buffer::PendingWriteBack;

/// What a message looks at of a core's copy: all but its block.
#[derive(Clone, Copy, Debug, PartialEq, Eq)]
pub struct CopyLook {
    /// Where the copy is in its set, if the array holds it.
    pub way: Option<usize>,
    pub state: CopyState,
    /// How many acknowledgements the data named, and how many have come.
    pub wants: u8,
    pub counted: u8,
}

impl<F: MissFile> CoreCache<F> {
    ghost use Rattle.slice_core_cache.specs.CoreCache.{copy_of, leaving_lines};

    /// Returns the core's copy of a line without its block. It is in the array, in the write-back buffer, or nowhere.
    pub fn look(&self, local: Local) -> CopyLook
        ensures way { result.way ≡ position (holds local) (slots_at self.now.array local) }
        ensures state { result.state ≡ (copy_of self.now local).state }
        ensures wants { result.wants ≡ (copy_of self.now local).wants }
        ensures counted { result.counted ≡ (copy_of self.now local).counted }
    {
        if let Some(way) = self.array.find(local) {
            let copy = self.array.value(local, way);
            return CopyLook {
                way: Some(way),
                state: copy.state,
                wants: copy.wants,
                counted: copy.counted,
            };
        }
        let state = match self.buffer.get(local) {
            Some(leaving) => leaving.state,
            None => CopyState::I,
        };
        CopyLook {
            way: None,
            state,
            wants: 0,
            counted: 0,
        }
    }

    /// Returns the block of the core's copy, wherever it is.
    pub fn block(&self, local: Local) -> &Block
        requires { IsSome (array_at self.now.array local) ⊎ IsSome (buffer_at self.now.buffer.write_backs local.0) }
        ensures { result.now ≡ (copy_of self.now local).block }
    {
        if let Some(copy) = self.array.get(local) {
            return &copy.block;
        }
        match self.buffer.get(local) {
            Some(leaving) => &leaving.block,
            None => unreachable!(),
        }
    }

    /// Returns the accesses that wait for the line, the oldest first.
    pub fn targets(&self, local: Local) -> ArrayVec<Target, 64>
        ensures { result.items ≡ targets_of self.now.misses local.0 }
    {
        self.file.targets(local)
    }

    /// Returns the lines that accesses wait for, in the order of their miss registers.
    pub fn waited(&self, alloc: Global) -> Result<Vec<Local>, AllocError>
        ensures { IfOk result (λ lines. lines.items ≡ waited_lines self.now.misses) }
    {
        self.file.lines(alloc)
    }

    /// Returns the lines in the write-back buffer, the latest last.
    pub fn leaving(&self, alloc: Global) -> Result<Vec<Local>, AllocError>
        ensures { IfOk result (λ lines. lines.items ≡ leaving_lines self.now) }
    {
        lines_of_write_backs(alloc, self.buffer.write_backs())
    }

    /// Returns the line that the write-back buffer took in last.
    pub fn last_written_back(&self) -> Option<Local>
        ensures { result ≡ slice_get (leaving_lines self.now) (length (leaving_lines self.now) - 1) }
    {
        match self.buffer.write_backs().last() {
            Some(write_back) => Some(write_back.line),
            None => None,
        }
    }

    /// Returns the lines that the array holds in the set of this one, in the order of their slots.
    pub fn in_set_of(&self, alloc: Global, local: Local) -> Result<Vec<Local>, AllocError>
        ensures { IfOk result (λ lines. lines.items ≡ lines_at self.now.array local) }
    {
        lines_of_slots(alloc, self.array.slots(local))
    }

    /// Whether no access that waits for the line writes it.
    pub fn all_loads(&self, local: Local) -> bool
        ensures { result ≡ list_all is_load (targets_of self.now.misses local.0) }
    {
        self.file.front_loads(local) == self.file.waiting(local)
    }
}

fn lines_of_write_backs(
    alloc: Global,
    write_backs: &[PendingWriteBack],
) -> Result<Vec<Local>, AllocError>
    ensures { IfOk result (λ lines. lines.items ≡ map (λ write_back. write_back.line) write_backs.now) }
{
    let mut lines = Vec::new(alloc);
    for write_back in write_backs {
        lines.push(write_back.line)?;
    }
    Ok(lines)
}

fn lines_of_slots(alloc: Global, slots: &[Slot<CacheCopy>]) -> Result<Vec<Local>, AllocError>
    ensures { IfOk result (λ lines. lines.items ≡ lines_of slots.now) }
{
    let mut lines = Vec::new(alloc);
    for slot in slots {
        lines.push(slot.line)?;
    }
    Ok(lines)
}
