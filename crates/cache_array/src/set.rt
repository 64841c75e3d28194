ghost use Rattle.std.specs.Prelude.{◌≡◌, ◌<◌, ◌≤◌, ◌↔◌, Bool, true, List, [], ◌∷◌, ◌++◌, length, take, drop, remove};
ghost use Rattle.std.specs.Prelude.{position, option_copied, slice_index_or, Some, IsTrue, IsSome, IfSome, IfOk};
ghost use Rattle.std.specs.Borrow.{sem};
ghost use Rattle.std.specs.List.{AllZip};
ghost use Rattle.std.specs.Fn.{FnReturnsAt};
ghost use Rattle.cache_array.specs.Policy.{IsAllowed, IsPreferred};
ghost use Rattle.cache_array.specs.Set.{holds};
ghost use Rattle.cache_array.specs.Victim.{Answers, line_in, some_may_go};

use crate::policy::Policy;
use address_map::Local;
use arrayvec::ArrayVec;
use std::alloc::{AllocError, Global};
use std::marker::Model;

/// The most ways that a set may have.
pub const MOST_WAYS: usize = 16;

/// A line with its value.
#[derive(Clone, Copy, Debug)]
pub struct Slot<V> {
    // In front: its blocks of 16 bytes are then those of the slot, which is moved by such.
    pub value: V,
    pub line: Local,
}

/// One set: an insertion goes last, a removal closes up. Its ways are allocated when it is made: by its
/// invariant its list never has more room, nor less.
#[derive(Drop)]
pub struct Set<V> {
    slots: Vec<Slot<V>>,
    ways: usize,
}

impl<V> Model for Set<V> {
    ghost use Rattle.std.specs.Prelude.{◌≡◌, ◌≤◌, vec_capacity};
    ghost use Rattle.cache_array.specs.declared.set.TheConstants.{MOST_WAYS};
    ghost use Rattle.cache_array.specs.Set.{SetView};

    ghost Value = { SetView V };

    ghost view = { λ set. record { slots = set.slots.items; ways = set.ways } };

    ghost invariant = { λ set. (set.ways ≤ MOST_WAYS) × (vec_capacity set.slots ≡ set.ways) };
}

impl<V: Copy> Set<V> {
    ghost use Rattle.cache_array.specs.Set.{empty_set, value_in, after_insert, after_write, after_use, after_remove};
    ghost use Rattle.cache_array.specs.Lending.{LendsIn};

    /// Allocates a set of `ways` ways.
    pub fn make(alloc: Global, ways: usize) -> Result<Self, AllocError>
        requires { ways ≤ MOST_WAYS }
        ensures { IfOk result (λ set. set ≡ empty_set ways) }
    {
        let slots = Vec::with_capacity(alloc, ways)?;
        Ok(Set { slots, ways })
    }

    /// The same set, in memory of its own.
    pub fn try_clone(&self, alloc: Global) -> Result<Self, AllocError>
        ensures { IfOk result (λ copy. copy ≡ self.now) }
    {
        let mut slots = Vec::with_capacity(alloc, self.ways)?;
        for way in 0..self.slots.len() {
            slots.push_reserved(self.slots[way]);
        }
        Ok(Set {
            slots,
            ways: self.ways,
        })
    }

    /// Whether there is room for one more line.
    pub fn has_way(&self) -> bool
        ensures { IsTrue result ↔ (length self.now.slots < self.now.ways) }
    {
        self.slots.len() < self.ways
    }

    /// The value of the line, if the set holds it.
    pub fn get(&self, line: Local) -> Option<&V>
        ensures { option_copied result ≡ value_in self.now.slots line }
    {
        let slot = self.slots.iter().find(|slot| slot.line == line);
        slot.map(|slot| &slot.value)
    }

    /// Its slots, in their order.
    pub fn slots(&self) -> &[Slot<V>]
        ensures { result.now ≡ self.now.slots }
    {
        &self.slots
    }

    /// Returns where the line's slot is.
    pub fn find(&self, line: Local) -> Option<usize>
        ensures { result ≡ position (holds line) self.now.slots }
    {
        self.slots.iter().position(|slot| slot.line == line)
    }

    /// Returns the value of the line, whose slot is at `way`.
    pub fn value(&self, line: Local, way: usize) -> &V
        requires { position (holds line) self.now.slots ≡ Some way }
        ensures { value_in self.now.slots line ≡ Some result.now }
    {
        &self.slots[way].value
    }

    /// The value of the line, to be changed in its slot, which is there.
    pub fn value_mut(&mut self, line: Local, way: usize) -> &mut V
        requires { position (holds line) self.old.slots ≡ Some way }
        ensures* lends { sem 𝓛 (LendsIn V.row self.entry line result) }
        ensures value { value_in self.old.slots line ≡ Some result.now }
    {
        let slot = &mut self.slots[way];
        &mut slot.value
    }

    /// Puts another value in the slot of the line.
    pub fn write(&mut self, line: Local, value: V)
        requires { IsSome (value_in self.old.slots line) }
        ensures { self.new ≡ record self.old { slots = after_write self.old.slots line value } }
    {
        if let Some(way) = self.find(line) {
            self.slots[way] = Slot { line, value };
        }
    }

    /// Puts the line in a slot after the others.
    pub fn insert(&mut self, line: Local, value: V)
        requires { length self.old.slots < self.old.ways }
        ensures { self.new ≡ record self.old { slots = after_insert self.old.slots line value } }
    {
        self.slots.push_reserved(Slot { line, value });
    }

    /// Takes the line out; the slots after it close up.
    // It goes to the end first: most sets have few slots after it, and those are passed at little cost.
    #[tactic(auto, using(crate::proofs::Places::removals))]
    #[inline(always)]
    pub fn remove(&mut self, line: Local) -> Option<V>
        ensures value { result ≡ value_in self.old.slots line }
        ensures rest { self.new ≡ record self.old { slots = after_remove self.old.slots line } }
    {
        let Some(way) = self.find(line) else {
            return None;
        };
        move_to_end(&mut self.slots, way);
        let Some(slot) = self.slots.pop() else {
            unreachable!();
        };
        Some(slot.value)
    }

    /// Moves the slot of the line, which is there, after the others.
    pub fn move_to_end(&mut self, line: Local, way: usize)
        requires { position (holds line) self.old.slots ≡ Some way }
        ensures { self.new ≡ record self.old { slots = after_use true self.old.slots line } }
    {
        move_to_end(&mut self.slots, way);
    }

    /// Whether some line's value passes `allowed`.
    pub fn has_victim<F: Fn(&V) -> bool>(&self, allowed: F) -> bool
        requires { F.IsAlwaysCallable allowed }
        ensures { (test : V → Bool) → Answers (FnReturnsAt F.Fn allowed) test
            → result ≡ some_may_go test self.now.slots }
    {
        some_allowed(&self.slots, allowed)
    }

    /// Returns the line in the slot that the policy evicts, of those whose value passes `allowed`.
    pub fn victim<P: Policy, F: Fn(&V) -> bool>(
        &self,
        policy: &P,
        allowed: F,
        word: u64,
    ) -> Option<Local>
        requires callable { F.IsAlwaysCallable allowed }
        requires few { length self.now.slots ≤ self.now.ways }
        ensures { (flags : List Bool)
            × AllZip (λ slot flag. FnReturnsAt F.Fn allowed slot.value flag) self.now.slots flags
            × IsAllowed flags (P.choice policy.now flags word)
            × IfSome (P.choice policy.now flags word) (IsPreferred (P.moves policy.now) (P.prefers policy.now) flags)
            × (result ≡ line_in self.now.slots (P.choice policy.now flags word)) }
    {
        let flags = flags_of(&self.slots, allowed);
        let Some(way) = policy.choose(&flags, word) else {
            return None;
        };
        Some(self.slots[way].line)
    }
}

// For each slot, whether its value may go.
fn flags_of<V, F: Fn(&V) -> bool>(slots: &[Slot<V>], allowed: F) -> ArrayVec<bool, MOST_WAYS>
    requires callable { F.IsAlwaysCallable allowed }
    requires few { length slots.now ≤ MOST_WAYS }
    ensures { AllZip (λ slot flag. FnReturnsAt F.Fn allowed slot.value flag) slots.now result.items }
{
    let mut flags = ArrayVec::new();
    'slots: for i in 0..slots.len() {
        flags.push(allowed(&slots[i].value));
    }
    flags
}

// Whether the value of some slot may go.
fn some_allowed<V, F: Fn(&V) -> bool>(slots: &[Slot<V>], allowed: F) -> bool
    requires { F.IsAlwaysCallable allowed }
    ensures { (test : V → Bool) → Answers (FnReturnsAt F.Fn allowed) test → result ≡ some_may_go test slots.now }
{
    for slot in slots {
        if allowed(&slot.value) {
            return true;
        }
    }
    false
}

// Moves the slot after those that follow it. Nothing moves where it is the last, and one slot is passed at less cost
// than several.
fn move_to_end<V>(slots: &mut [Slot<V>], way: usize)
    requires { way < length slots.old }
    ensures { (d : Slot V) → slots.new ≡ remove slots.old way ++ slice_index_or slots.old way d ∷ [] }
{
    let behind = slots.len() - way - 1;
    if behind == 0 {
        return;
    }
    if behind == 1 {
        slots.swap(way, way + 1);
    } else {
        turn(&mut slots[way..]);
    }
}

// Moves the first slot after the others. Were it inlined, a use that moves one slot or none would cost more.
#[inline(never)]
fn turn<V>(slots: &mut [Slot<V>])
    requires { 0 < length slots.old }
    ensures { slots.new ≡ drop 1 slots.old ++ take 1 slots.old }
{
    slots.rotate_left(1);
}
