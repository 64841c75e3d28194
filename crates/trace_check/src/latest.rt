ghost use Rattle.std.specs.Prelude.{◌≡◌, ◌<◌, ◌^◌, ◌==◌, ◌&&◌, ℕ, Some, if◌then◌else◌, length, OnOk};
ghost use Rattle.trace_check.specs.Latest.{latest_of};

use super::slots::set_slot;
use std::alloc::{AllocError, Global};

/// The greatest seq of each core and line. A line that wasn't named has no slots, and the others have slots for the
/// cores up to the last that was named with them.
#[derive(Debug, Drop)]
pub struct LatestSeqs {
    lines: Vec<Vec<Option<u64>>>,
    alloc: Global,
}

impl LatestSeqs {
    /// Creates an empty table.
    pub fn new(alloc: Global) -> Self
        ensures { (line core : ℕ) → latest_of result line core ≡ None }
    {
        LatestSeqs {
            lines: Vec::new(alloc),
            alloc,
        }
    }

    pub fn of(&self, line: usize, core: usize) -> Option<u64>
        ensures { result ≡ latest_of self.now line core }
    {
        match self.lines.get(line)?.get(core) {
            Some(seq) => *seq,
            None => None,
        }
    }

    pub fn set(&mut self, line: usize, core: usize, seq: u64) -> Result<(), AllocError>
        requires line { line < 2 ^ 32 }
        requires core { core < 2 ^ 32 }
        ensures { OnOk result
            ((l c : ℕ) → latest_of self.new l c
            ≡ (if line == l && core == c then Some seq else latest_of self.old l c)) }
    {
        self.make_room(line)?;
        set_slot(&mut self.lines[line], None, core, Some(seq))
    }

    // Makes room for the line.
    fn make_room(&mut self, line: usize) -> Result<(), AllocError>
        requires { line < 2 ^ 32 }
        ensures there { OnOk result (line < length self.new.lines.items) }
        ensures same { (l c : ℕ) → latest_of self.new l c ≡ latest_of self.old l c }
    {
        for place in self.lines.len()..line + 1 {
            self.lines.push(Vec::new(self.alloc))?;
        }
        Ok(())
    }
}
