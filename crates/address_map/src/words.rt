ghost use Rattle.std.specs.Prelude.{◌≡◌, [], ◌∷◌, ◌++◌, length, ◌↔◌, nat_lt, IfOk, IsTrue, OnOk, OnErr};
ghost use Rattle.std.specs.List.{list_all};
ghost use Rattle.address_map.specs.Words.{IsAscendingBy, is_ascending_by, initial_value};

use super::address::WordAddr;
use std::alloc::{AllocError, Global};
use std::marker::Model;

/// The words that begin with a value of their own, each with its value. All others begin as 0.
#[derive(Debug, Drop)]
pub struct InitialValues {
    pairs: Vec<(WordAddr, u64)>,
}

impl Model for InitialValues {
    ghost use Rattle.std.specs.Prelude.{List, ℕ};
    ghost use Rattle.address_map.specs.declared.address.WordAddr.{WordAddr};

    ghost Value = { List (WordAddr × ℕ) };

    ghost view = { λ initial. initial.pairs.items };
}

impl InitialValues {
    pub fn new(alloc: Global) -> Self
        ensures { result ≡ [] }
    {
        InitialValues {
            pairs: Vec::new(alloc),
        }
    }

    /// Names one more word. Whether the words ascend is a matter of `Config::check`.
    pub fn push(&mut self, word: WordAddr, value: u64) -> Result<(), AllocError>
        ensures ok { OnOk result (self.new ≡ self.old ++ (word, value) ∷ []) }
        ensures err { OnErr result (self.new ≡ self.old) }
    {
        self.pairs.push((word, value))?;
        Ok(())
    }

    /// The same words and values, in memory of their own.
    pub(super) fn try_clone(&self, alloc: Global) -> Result<Self, AllocError>
        ensures { IfOk result (λ copy. copy ≡ self.now) }
    {
        let pairs = Vec::from_slice(alloc, self.as_slice())?;
        Ok(InitialValues { pairs })
    }

    pub fn len(&self) -> usize
        ensures { result ≡ length self.now }
    {
        self.pairs.len()
    }

    pub fn is_empty(&self) -> bool
        ensures { IsTrue result ↔ (self.now ≡ []) }
    {
        self.pairs.is_empty()
    }

    pub fn as_slice(&self) -> &[(WordAddr, u64)]
        ensures { result.now ≡ self.now }
    {
        self.pairs.as_slice()
    }

    /// Whether each word is below the next.
    pub(super) fn is_ascending(&self) -> bool
        ensures { result ≡ is_ascending_by (λ pair. pair.0.0) self.now }
    {
        self.as_slice()
            .is_sorted_by(|first, next| first.0.0 < next.0.0)
    }

    /// Whether all words are below the limit.
    pub(super) fn is_below(&self, limit: u64) -> bool
        ensures { result ≡ list_all (λ pair. nat_lt pair.0.0 limit) self.now }
    {
        self.as_slice().iter().all(|pair| pair.0.0 < limit)
    }

    /// The value that a word begins with, where the words ascend.
    pub(super) fn value_of(&self, word: WordAddr) -> u64
        requires { IsAscendingBy (λ pair. pair.0.0) self.now }
        ensures { result ≡ initial_value self.now word }
    {
        let pairs = self.as_slice();
        match pairs.binary_search_by_key(&word.0, |pair| pair.0.0) {
            Ok(at) => pairs[at].1,
            Err(_) => 0,
        }
    }
}

/// The words that are counters: they are read and added to, and never stored to.
#[derive(Debug, Drop)]
pub struct CounterWords {
    words: Vec<WordAddr>,
}

impl Model for CounterWords {
    ghost use Rattle.std.specs.Prelude.{List};
    ghost use Rattle.address_map.specs.declared.address.WordAddr.{WordAddr};

    ghost Value = { List WordAddr };

    ghost view = { λ counters. counters.words.items };
}

impl CounterWords {
    pub fn new(alloc: Global) -> Self
        ensures { result ≡ [] }
    {
        CounterWords {
            words: Vec::new(alloc),
        }
    }

    /// Names one more counter. Whether the words ascend is a matter of `Config::check`.
    pub fn push(&mut self, word: WordAddr) -> Result<(), AllocError>
        ensures ok { OnOk result (self.new ≡ self.old ++ word ∷ []) }
        ensures err { OnErr result (self.new ≡ self.old) }
    {
        self.words.push(word)?;
        Ok(())
    }

    /// The same words, in memory of their own.
    pub(super) fn try_clone(&self, alloc: Global) -> Result<Self, AllocError>
        ensures { IfOk result (λ copy. copy ≡ self.now) }
    {
        let words = Vec::from_slice(alloc, self.as_slice())?;
        Ok(CounterWords { words })
    }

    pub fn len(&self) -> usize
        ensures { result ≡ length self.now }
    {
        self.words.len()
    }

    pub fn is_empty(&self) -> bool
        ensures { IsTrue result ↔ (self.now ≡ []) }
    {
        self.words.is_empty()
    }

    pub fn as_slice(&self) -> &[WordAddr]
        ensures { result.now ≡ self.now }
    {
        self.words.as_slice()
    }

    /// Whether each word is below the next.
    pub(super) fn is_ascending(&self) -> bool
        ensures { result ≡ is_ascending_by (λ word. word.0) self.now }
    {
        self.as_slice().is_sorted_by(|first, next| first.0 < next.0)
    }

    /// Whether all words are below the limit.
    pub(super) fn is_below(&self, limit: u64) -> bool
        ensures { result ≡ list_all (λ word. nat_lt word.0 limit) self.now }
    {
        self.as_slice().iter().all(|word| word.0 < limit)
    }
}
