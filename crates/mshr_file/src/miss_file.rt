ghost use Rattle.std.specs.Prelude.{◌≡◌, ◌<◌, ◌≤◌, ◌+◌, ◌++◌, if◌then◌else◌, List, [], ◌∷◌, true, false, ℕ, length};
ghost use Rattle.std.specs.Prelude.{IfOk, All};
ghost use Rattle.address_map.specs.declared.config.Config.{Config};
ghost use Rattle.target_list.specs.Target.{front_loads, behind_loads};
ghost use Rattle.mshr_file.specs.declared.registers.Register.{Register};
ghost use Rattle.mshr_file.specs.Miss.{Bound, IsMissFile, AddsTarget, TakesTargets, IsInOrder, HasEachTagOnce};
ghost use Rattle.mshr_file.specs.Miss.{waited_lines, targets_of, has_miss, is_free, can_open, can_join, admission_of};

use super::admission::Admission;
use address_map::{Checked, Local};
use arrayvec::ArrayVec;
use std::alloc::{AllocError, Global};
use target_list::Target;

/// The misses of one cache: for each line that is waited for, the accesses that wait for it.
pub trait MissFile: Sized + Drop {
    ghost misses: { Self → List Register };

    ghost bound: { Self → Bound };

    ghost bound_by: { Config → Bound };

    /// A file for one core of this machine and one slice, with no miss.
    fn make(alloc: Global, config: &Checked) -> Result<Self, AllocError>
        ensures empty { IfOk result (λ file. misses file ≡ []) }
        ensures bound { IfOk result (λ file. bound file ≡ bound_by config.now) };

    /// The same misses, in memory of their own.
    fn try_clone(&self, alloc: Global) -> Result<Self, AllocError>
        ensures misses { IfOk result (λ copy. misses copy ≡ misses self.now) }
        ensures bound { IfOk result (λ copy. bound copy ≡ bound self.now) };

    /// Whether there is a register for the line.
    fn find(&self, line: Local) -> bool
        ensures found { result ≡ has_miss (misses self.now) line.0 }
        ensures sound { IsMissFile (misses self.now) };

    /// Whether a register can be opened for a request with this tag.
    fn room_open(&self, tag: u8) -> bool
        requires tag { tag < 64 }
        ensures { result ≡ can_open (bound self.now) (misses self.now) tag };

    /// Whether a request with this tag can join the register of the line.
    fn room_join(&self, line: Local, tag: u8) -> bool
        requires found { has_miss (misses self.now) line.0 ≡ true }
        requires tag { tag < 64 }
        ensures { result ≡ can_join (bound self.now) (misses self.now) line.0 tag };

    /// How many targets wait for the line: 0 where it has no register.
    fn waiting(&self, line: Local) -> usize
        ensures count { result ≡ length (targets_of (misses self.now) line.0) }
        ensures few { result ≤ 64 };

    /// How many of the line's targets are loads in front of the first that writes.
    fn front_loads(&self, line: Local) -> usize
        ensures count { result ≡ length (front_loads (targets_of (misses self.now) line.0)) }
        ensures within { result ≤ length (targets_of (misses self.now) line.0) };

    /// The targets of the line, the oldest first: none where it has no register.
    fn targets(&self, line: Local) -> ArrayVec<Target, 64>
        ensures { result.items ≡ targets_of (misses self.now) line.0 };

    /// The lines that are waited for, in the order of their registers.
    fn lines(&self, alloc: Global) -> Result<Vec<Local>, AllocError>
        ensures { IfOk result (λ lines. lines.items ≡ waited_lines (misses self.now)) };

    /// What a request with this tag for the line is to do.
    fn admit(&self, line: Local, tag: u8) -> Admission
        requires tag { tag < 64 }
        ensures { result ≡ admission_of (bound self.now) (misses self.now) line.0 tag };

    /// Opens a register for the line, with one target.
    fn open(&mut self, line: Local, target: Target)
        requires free { has_miss (misses self.old) line.0 ≡ false }
        requires tag { target.tag < 64 }
        requires room { can_open (bound self.old) (misses self.old) target.tag ≡ true }
        ensures added { AddsTarget (misses self.old) (misses self.new) line.0 target }
        ensures registers { length (misses self.new) ≡ length (misses self.old) + 1 }
        ensures sound { IsMissFile (misses self.new) }
        ensures bound { bound self.new ≡ bound self.old };

    /// Adds a target to the line's register, after the others.
    fn join(&mut self, line: Local, target: Target)
        requires found { has_miss (misses self.old) line.0 ≡ true }
        requires tag { target.tag < 64 }
        requires room { can_join (bound self.old) (misses self.old) line.0 target.tag ≡ true }
        ensures added { AddsTarget (misses self.old) (misses self.new) line.0 target }
        ensures registers { length (misses self.new) ≡ length (misses self.old) }
        ensures sound { IsMissFile (misses self.new) }
        ensures bound { bound self.new ≡ bound self.old };

    /// Takes the oldest target of the line. Where no target is left the register is free.
    fn take_first(&mut self, line: Local) -> Target
        requires found { has_miss (misses self.old) line.0 ≡ true }
        ensures taken { TakesTargets (misses self.old) (misses self.new) line.0 (result ∷ []) }
        ensures registers { length (misses self.old)
            ≡ length (misses self.new) + (if has_miss (misses self.new) line.0 then 0 else 1) }
        ensures sound { IsMissFile (misses self.new) }
        ensures bound { bound self.new ≡ bound self.old };

    /// Takes the loads in front of the first target that writes. Where no target is left the register is free.
    fn take_loads(&mut self, line: Local) -> ArrayVec<Target, 64>
        requires found { has_miss (misses self.old) line.0 ≡ true }
        ensures loads { result.items ≡ front_loads (targets_of (misses self.old) line.0) }
        ensures taken { TakesTargets (misses self.old) (misses self.new) line.0 result.items }
        ensures registers { length (misses self.old)
            ≡ length (misses self.new) + (if has_miss (misses self.new) line.0 then 0 else 1) }
        ensures sound { IsMissFile (misses self.new) }
        ensures bound { bound self.new ≡ bound self.old };

    /// Takes all targets of the line, and its register is free.
    fn close(&mut self, line: Local) -> ArrayVec<Target, 64>
        requires found { has_miss (misses self.old) line.0 ≡ true }
        ensures all { result.items ≡ targets_of (misses self.old) line.0 }
        ensures taken { TakesTargets (misses self.old) (misses self.new) line.0 result.items }
        ensures registers { length (misses self.old) ≡ length (misses self.new) + 1 }
        ensures sound { IsMissFile (misses self.new) }
        ensures bound { bound self.new ≡ bound self.old };

    /// How many registers are open.
    fn registers(&self) -> usize
        ensures { result ≡ length (misses self.now) };
}
