ghost use Rattle.std.specs.Prelude.{◌≡◌, ◌↔◌, [], ◌∷◌, None, IfSome, IsTrue};
ghost use Rattle.address_map.specs.CoreSet.{count_of, has, members, only, with, without};

use super::address::CoreId;
use std::marker::Model;

/// A set of cores, with a bit for each. Cores past 63 are in no set: to put one in changes nothing.
#[derive(Clone, Copy, Debug, PartialEq, Eq)]
pub struct CoreSet {
    bits: u64,
}

impl Model for CoreSet {
    ghost use Rattle.std.specs.Prelude.{ℕ};

    ghost Value = { ℕ };

    ghost view = { λ set. set.bits };

    ghost inverse = { λ bits. record { bits = bits } };
}

impl CoreSet {
    pub const fn none() -> Self
        ensures { result ≡ 0 }
    {
        CoreSet { bits: 0 }
    }

    /// The set in which core c is where bit c is 1.
    pub const fn from_bits(bits: u64) -> Self
        ensures { result ≡ bits }
    {
        CoreSet { bits }
    }

    /// The core alone.
    pub const fn only(core: CoreId) -> Self
        ensures { result ≡ only core.0 }
    {
        if core.0 < 64 {
            CoreSet { bits: 1 << core.0 }
        } else {
            CoreSet { bits: 0 }
        }
    }

    pub const fn bits(self) -> u64
        ensures { result ≡ self }
    {
        self.bits
    }

    pub const fn is_empty(self) -> bool
        ensures { IsTrue result ↔ (self ≡ 0) }
    {
        self.bits == 0
    }

    pub const fn has(self, core: CoreId) -> bool
        ensures { result ≡ has self core.0 }
    {
        core.0 < 64 && self.bits >> core.0 & 1 == 1
    }

    /// How many cores the set has.
    pub const fn count(self) -> u8
        ensures { result ≡ count_of self }
    {
        self.bits.count_ones() as u8
    }

    /// The set and the core.
    pub const fn with(self, core: CoreId) -> Self
        ensures { result ≡ with self core.0 }
    {
        CoreSet {
            bits: self.bits | Self::only(core).bits,
        }
    }

    /// The set but for the core.
    pub const fn without(self, core: CoreId) -> Self
        ensures { result ≡ without self core.0 }
    {
        let one = Self::only(core).bits;
        CoreSet {
            bits: (self.bits | one) ^ one,
        }
    }

    pub fn insert(&mut self, core: CoreId)
        ensures { self.new ≡ with self.old core.0 }
    {
        if core.0 < 64 {
            self.bits |= 1 << core.0;
        }
    }

    pub fn remove(&mut self, core: CoreId)
        ensures { self.new ≡ without self.old core.0 }
    {
        *self = self.without(core);
    }

    /// Takes the lowest core out of the set.
    pub fn pop_first(&mut self) -> Option<CoreId>
        ensures none { result ≡ None → (members self.old ≡ []) × (members self.new ≡ []) }
        ensures first { IfSome result (λ core. members self.old ≡ core.0 ∷ members self.new) }
        ensures there { IfSome result (λ core. IsTrue (has self.old core.0)) }
        ensures removed { IfSome result (λ core. self.new ≡ without self.old core.0) }
    {
        if self.bits == 0 {
            return None;
        }
        let first = self.bits.trailing_zeros() as u8;
        self.bits ^= 1 << first;
        Some(CoreId(first))
    }
}
