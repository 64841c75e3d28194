ghost use Rattle.std.specs.Prelude.{◌≡◌, ◌<◌, ℕ, List, [], ◌∷◌, ◌++◌, length, All, OnOk, MatchOption};
ghost use Rattle.std.specs.Prelude.{slice_index, IsTrue, ◌↔◌, ◌/◌};
ghost use Rattle.address_map.specs.declared.address.WordAddr.{WordAddr};
ghost use Rattle.slice_log.specs.Log.{initially};
ghost use Rattle.slice_log.specs.declared.entry.Entry.{Entry};
ghost use Rattle.trace_check.specs.declared.verdict.Verdict.{Verdict};
ghost use Rattle.trace_check.specs.Verdict.{IsVerdict, IsWrong, IsRight, IsInOrder};
ghost use Rattle.trace_check.specs.Judge.{Knows, AreGreatest, IsNameable};

use super::latest::LatestSeqs;
use super::slots::set_slot;
use super::verdict::{Reason, Verdict};
use address_map::WordAddr;
use slice_log::{Entry, performed, reply_to};
use std::alloc::{AllocError, Global};

/// The number of cores that a trace can name.
pub const MOST_CORES: u64 = 64;

/// The number of words that a trace can name.
pub const MOST_WORDS: u64 = 524_288;

/// The state after the entries of a trace so far.
#[derive(Debug, Drop)]
pub struct Judge {
    /// The value of each word. Those past the last have 0.
    values: Vec<u64>,
    /// The greatest seq of each core and line.
    latest: LatestSeqs,
}

impl Judge {
    /// Creates a judge, before the first entry.
    pub fn new(alloc: Global) -> Self
        ensures { Knows result (initially []) [] }
    {
        Judge {
            values: Vec::new(alloc),
            latest: LatestSeqs::new(alloc),
        }
    }

    /// Sets the initial value of a word.
    pub fn begin(&mut self, word: WordAddr, value: u64) -> Result<(), AllocError>
        requires { word.0 < MOST_WORDS }
        ensures { OnOk result
            ((init : List (WordAddr × ℕ)) → All (λ pair. pair.0.0 < word.0) init → Knows self.old (initially init) []
            → Knows self.new (initially (init ++ (word, value) ∷ [])) []) }
    {
        set_slot(&mut self.values, 0, word.0 as usize, value)
    }

    /// Returns why an entry can't follow the `number` entries that were taken.
    pub fn fault(&self, number: usize, entry: &Entry) -> Option<Reason>
        requires { IsNameable entry.now }
        ensures { (initial : ℕ → ℕ) (log : List Entry) → number ≡ length log → Knows self.now initial log
            → MatchOption result (IsRight initial log entry.now) (IsWrong initial log entry.now) }
    {
        if entry.reply != reply_to(entry.op, self.value(entry.word)) {
            return Some(Reason::Reply);
        }
        if !self.is_in_order(entry) {
            return Some(Reason::Order);
        }
        if entry.since > number as u64 {
            return Some(Reason::Since);
        }
        None
    }

    /// Takes an entry that can follow those that were taken.
    pub fn take(&mut self, entry: &Entry) -> Result<(), AllocError>
        requires { IsNameable entry.now }
        ensures { OnOk result
            ((initial : ℕ → ℕ) (log : List Entry) → Knows self.old initial log → IsRight initial log entry.now
            → Knows self.new initial (log ++ entry.now ∷ [])) }
    {
        let value = performed(entry.op, self.value(entry.word));
        set_slot(&mut self.values, 0, entry.word.0 as usize, value)?;
        self.latest
            .set(line_of(entry), entry.core.0 as usize, entry.seq)
    }

    fn value(&self, word: WordAddr) -> u64
        ensures { result ≡ slice_index self.now.values.items word.0 }
    {
        match self.values.get(word.0 as usize) {
            Some(value) => *value,
            None => 0,
        }
    }

    // Whether the entry was requested after all entries of its core and line that were taken.
    fn is_in_order(&self, entry: &Entry) -> bool
        requires { IsNameable entry.now }
        ensures { (log : List Entry) → AreGreatest self.now.latest log
            → (IsTrue result ↔ IsInOrder log entry.now) }
    {
        match self.latest.of(line_of(entry), entry.core.0 as usize) {
            Some(seq) => seq < entry.seq,
            None => true,
        }
    }
}

// Returns the number of the entry's line.
fn line_of(entry: &Entry) -> usize
    requires { IsNameable entry.now }
    ensures { result ≡ entry.now.word.0 / 8 }
{
    entry.word.line().0 as usize
}

/// A log has only one verdict, so one that is legal and ordered is judged legal, and no other is.
pub fn one_verdict()
    ensures { (initial : ℕ → ℕ) (entries : List Entry) (a b : Verdict) → IsVerdict initial entries a
        → IsVerdict initial entries b → a ≡ b }
{}
