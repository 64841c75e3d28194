ghost use Rattle.std.specs.Prelude.{◌≡◌, ◌<◌, ◌↔◌, ◌%◌, Bool, false, List, length, position, None, Some, is_some};
ghost use Rattle.std.specs.Prelude.{IsTrue, IsSome, IfSome, IfOk, MatchOption, option_copied};
ghost use Rattle.std.specs.List.{AllZip};
ghost use Rattle.std.specs.Borrow.{sem};
ghost use Rattle.std.specs.Fn.{FnReturnsAt};
ghost use Rattle.cache_array.specs.History.{after_event};
ghost use Rattle.cache_array.specs.History.Event.{Inserted, Used, Removed};
ghost use Rattle.cache_array.specs.Set.{holds, after_insert, after_write, after_use, after_remove};

use crate::policy::Policy;
use crate::set::{Set, Slot};
use address_map::{Checked, Local};
use std::alloc::{AllocError, Global};
use std::boxed::BoxedSlice;
use std::marker::Model;

/// The array of a private cache: sets of slots, each with a line and its value.
#[derive(Drop)]
pub struct CacheArray<V, P> {
    sets: BoxedSlice<Set<V>>,
    policy: P,
}

impl<V, P> Model for CacheArray<V, P> {
    ghost use Rattle.std.specs.Box.{boxed_slice_items};
    ghost use Rattle.cache_array.specs.Array.{ArrayView, IsArray};

    ghost Value = { ArrayView V P };

    ghost view = { λ array. record { sets = boxed_slice_items array.sets; policy = array.policy } };

    ghost invariant = { λ array. IsArray {V = V} {P = P}
        (record { sets = boxed_slice_items array.sets; policy = array.policy }) };
}

impl<V: Copy, P: Copy> CacheArray<V, P> {
    /// The same sets, in memory of their own.
    pub fn try_clone(&self, alloc: Global) -> Result<Self, AllocError>
        ensures { IfOk result (λ copy. copy ≡ self.now) }
    {
        let mut sets = Vec::with_capacity(alloc, self.sets.len())?;
        for index in 0..self.sets.len() {
            sets.push(self.sets[index].try_clone(alloc)?)?;
        }
        Ok(CacheArray {
            sets: sets.into_boxed_slice(),
            policy: self.policy,
        })
    }
}

impl<V: Copy, P: Policy + Drop> CacheArray<V, P> {
    ghost use Rattle.cache_array.specs.Array.{set_index, slots_at, with_slots, lines_at, held_at, HasWay, empty_array};
    ghost use Rattle.cache_array.specs.Array.{IsArray, SetsOnly};
    ghost use Rattle.cache_array.specs.Lending.{LendsValue};
    ghost use Rattle.cache_array.specs.Victim.{Answers, flags_of, line_in, some_may_go, NoneMayGo, IsVictim};

    /// Allocates all sets.
    pub fn make(alloc: Global, config: &Checked, policy: P) -> Result<Self, AllocError>
        ensures { IfOk result (λ array. array ≡ empty_array config.now.sets config.now.ways policy) }
    {
        let count = config.sets();
        let ways = config.ways();
        let mut sets = Vec::with_capacity(alloc, count)?;
        for set in 0..count {
            sets.push(Set::make(alloc, ways)?)?;
        }
        Ok(CacheArray {
            sets: sets.into_boxed_slice(),
            policy,
        })
    }

    fn set_index(&self, line: Local) -> usize
        ensures index { result ≡ set_index self.now line }
        ensures within { result < length self.now.sets }
    {
        line.0 & (self.sets.len() - 1)
    }

    /// The value of the line, if the array holds it. Doesn't change the order of use.
    pub fn get(&self, line: Local) -> Option<&V>
        ensures held { option_copied result ≡ held_at self.now line }
        ensures arranged { IsArray self.now }
    {
        self.sets[self.set_index(line)].get(line)
    }

    /// Where the line is in its set, if the array holds it.
    pub fn find(&self, line: Local) -> Option<usize>
        ensures way { result ≡ position (holds line) (slots_at self.now line) }
        ensures held { IsSome result ↔ IsSome (held_at self.now line) }
        ensures arranged { IsArray self.now }
    {
        self.sets[self.set_index(line)].find(line)
    }

    /// The value of a line that is there in its set. Doesn't change the order of use.
    pub fn value(&self, line: Local, way: usize) -> &V
        requires { position (holds line) (slots_at self.now line) ≡ Some way }
        ensures { held_at self.now line ≡ Some result.now }
    {
        self.sets[self.set_index(line)].value(line, way)
    }

    /// The value of a line that is there in its set, to be changed in its slot. Doesn't change the order of use.
    pub fn value_mut(&mut self, line: Local, way: usize) -> &mut V
        requires { position (holds line) (slots_at self.old line) ≡ Some way }
        ensures* lends { sem 𝓛 (LendsValue V.row P.row self.entry line result) }
        ensures value { held_at self.old line ≡ Some result.now }
    {
        let index = self.set_index(line);
        let set = &mut self.sets[index];
        set.value_mut(line, way)
    }

    /// The value of a line that the array holds, to be changed in its slot. Doesn't change the order of use.
    pub fn get_mut(&mut self, line: Local) -> &mut V
        requires { IsSome (held_at self.old line) }
        ensures* lends { sem 𝓛 (LendsValue V.row P.row self.entry line result) }
        ensures value { held_at self.old line ≡ Some result.now }
    {
        let Some(way) = self.find(line) else {
            unreachable!();
        };
        self.value_mut(line, way)
    }

    /// The slots of the line's set, in their order.
    pub fn slots(&self, line: Local) -> &[Slot<V>]
        ensures slots { result.now ≡ slots_at self.now line }
        ensures arranged { IsArray self.now }
    {
        self.sets[self.set_index(line)].slots()
    }

    /// The policy by which the array chooses victims.
    pub fn policy(&self) -> &P
        ensures { result.now ≡ self.now.policy }
    {
        &self.policy
    }

    /// Whether the line's set has room for one more line.
    pub fn has_way(&self, line: Local) -> bool
        ensures room { IsTrue result ↔ HasWay self.now line }
        ensures arranged { IsArray self.now }
    {
        self.sets[self.set_index(line)].has_way()
    }

    /// Gives a line that the array holds another value, in the same slot. Doesn't change the order of use.
    pub fn write(&mut self, line: Local, value: V)
        requires { IsSome (held_at self.old line) }
        ensures after { self.new ≡ with_slots self.old line (after_write (slots_at self.old line) line value) }
        ensures held { SetsOnly self.old self.new line (Some value) }
        ensures order { lines_at self.new line ≡ lines_at self.old line }
    {
        let index = self.set_index(line);
        let set = &mut self.sets[index];
        set.write(line, value);
    }

    /// Uses a line that the array holds.
    pub fn touch(&mut self, line: Local)
        requires { IsSome (held_at self.old line) }
        ensures after { self.new ≡ with_slots self.old line
            (after_use (P.moves self.old.policy) (slots_at self.old line) line) }
        ensures held { SetsOnly self.old self.new line (held_at self.old line) }
        ensures order { lines_at self.new line ≡ after_event (P.moves self.old.policy) (Used line)
            (lines_at self.old line) }
    {
        let Some(way) = self.find(line) else {
            unreachable!();
        };
        self.touch_at(line, way);
    }

    /// Uses a line that is there in its set.
    pub fn touch_at(&mut self, line: Local, way: usize)
        requires { position (holds line) (slots_at self.old line) ≡ Some way }
        ensures after { self.new ≡ with_slots self.old line
            (after_use (P.moves self.old.policy) (slots_at self.old line) line) }
        ensures held { SetsOnly self.old self.new line (held_at self.old line) }
        ensures order { lines_at self.new line ≡ after_event (P.moves self.old.policy) (Used line)
            (lines_at self.old line) }
    {
        if self.policy.moves_on_use() {
            let index = self.set_index(line);
            let set = &mut self.sets[index];
            set.move_to_end(line, way);
        }
    }

    /// Puts a line into its set, which must have room.
    pub fn insert(&mut self, line: Local, value: V)
        requires absent { held_at self.old line ≡ None }
        requires room { HasWay self.old line }
        ensures after { self.new ≡ with_slots self.old line (after_insert (slots_at self.old line) line value) }
        ensures held { SetsOnly self.old self.new line (Some value) }
        ensures order { lines_at self.new line ≡ after_event (P.moves self.old.policy) (Inserted line)
            (lines_at self.old line) }
    {
        let index = self.set_index(line);
        let set = &mut self.sets[index];
        set.insert(line, value);
    }

    /// Takes a line out with its value. Nothing changes where the array doesn't hold it.
    // Inlined, so that a value that isn't used isn't copied.
    #[inline(always)]
    pub fn remove(&mut self, line: Local) -> Option<V>
        ensures value { result ≡ held_at self.old line }
        ensures after { self.new ≡ with_slots self.old line (after_remove (slots_at self.old line) line) }
        ensures held { SetsOnly self.old self.new line None }
        ensures order { lines_at self.new line ≡ after_event (P.moves self.old.policy) (Removed line)
            (lines_at self.old line) }
    {
        let index = self.set_index(line);
        let set = &mut self.sets[index];
        set.remove(line)
    }

    /// Whether some line of the line's set has a value that passes `allowed`. Where it has, `victim` of the same test
    /// gives one, whatever the word.
    pub fn has_victim<F: Fn(&V) -> bool>(&self, line: Local, allowed: F) -> bool
        requires { F.IsAlwaysCallable allowed }
        ensures some { (test : V → Bool) → Answers (FnReturnsAt F.Fn allowed) test
            → result ≡ some_may_go test (slots_at self.now line) }
        ensures none { (test : V → Bool) → Answers (FnReturnsAt F.Fn allowed) test
            → (result ≡ false) ↔ NoneMayGo test self.now line }
        ensures arranged { IsArray self.now }
    {
        self.sets[self.set_index(line)].has_victim(allowed)
    }

    /// Returns the line to evict from the line's set, of those whose value passes `allowed`; `None` where none does. A
    /// policy that needs randomness takes it from `word`.
    pub fn victim<F: Fn(&V) -> bool>(&self, line: Local, allowed: F, word: u64) -> Option<Local>
        requires { F.IsAlwaysCallable allowed }
        ensures asked { (flags : List Bool)
            × AllZip (λ slot flag. FnReturnsAt F.Fn allowed slot.value flag) (slots_at self.now line) flags
            × (result ≡ line_in (slots_at self.now line) (P.choice self.now.policy flags word)) }
        ensures choice { (test : V → Bool) → Answers (FnReturnsAt F.Fn allowed) test
            → result ≡ line_in (slots_at self.now line) (P.choice self.now.policy
            (flags_of test (slots_at self.now line)) word) }
        ensures victim { (test : V → Bool) → Answers (FnReturnsAt F.Fn allowed) test
            → MatchOption result (NoneMayGo test self.now line)
            (IsVictim test (P.moves self.now.policy) (P.prefers self.now.policy) self.now line) }
        ensures some { (test : V → Bool) → Answers (FnReturnsAt F.Fn allowed) test
            → is_some result ≡ some_may_go test (slots_at self.now line) }
        ensures arranged { IsArray self.now }
    {
        self.sets[self.set_index(line)].victim(&self.policy, allowed, word)
    }
}
