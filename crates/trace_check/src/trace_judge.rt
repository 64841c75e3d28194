ghost use Rattle.std.specs.Prelude.{◌≡◌, ◌<◌, ◌↔◌, ◌++◌, ℕ, List, [], ◌∷◌, length, IfErr, IsTrue, OnErr, OnOk};
ghost use Rattle.address_map.specs.declared.address.WordAddr.{WordAddr};
ghost use Rattle.slice_log.specs.Log.{initially};
ghost use Rattle.slice_log.specs.declared.entry.Entry.{Entry};
ghost use Rattle.trace_check.specs.Judge.{IsNameable};
ghost use Rattle.trace_check.specs.SoFar.{IsSoFar, MayBegin, Stands};
ghost use Rattle.trace_check.specs.Verdict.{IsVerdict};
ghost use Rattle.trace_check.specs.declared.judge.TheConstants.{MOST_WORDS};

use super::judge::Judge;
use super::verdict::{Reason, Verdict};
use address_map::WordAddr;
use slice_log::Entry;
use std::alloc::{AllocError, Global};

/// A trace that is judged entry by entry.
#[derive(Drop)]
pub struct TraceJudge {
    judge: Judge,
    /// The last word that was given an initial value.
    last: Option<WordAddr>,
    /// The number of entries.
    pub(super) entries: usize,
    /// The first wrong entry, and why.
    fault: Option<(usize, Reason)>,
}

impl TraceJudge {
    /// Creates the judge of a trace without an initial value and an entry.
    pub fn new(alloc: Global) -> Self
        ensures { Stands result [] [] }
    {
        TraceJudge {
            judge: Judge::new(alloc),
            last: None,
            entries: 0,
            fault: None,
        }
    }

    /// Whether the word may be given an initial value: before the entries, and words ascend.
    pub fn may_begin(&self, word: WordAddr) -> bool
        ensures { IsTrue result ↔ MayBegin self.now word }
    {
        let is_above = match self.last {
            Some(last) => last.0 < word.0,
            None => true,
        };
        is_above && self.entries == 0
    }

    /// Gives a word its initial value.
    pub fn begin(&mut self, word: WordAddr, value: u64) -> Result<(), AllocError>
        requires word { word.0 < MOST_WORDS }
        requires place { MayBegin self.old word }
        ensures { OnOk result
            ((init : List (WordAddr × ℕ)) → Stands self.old init []
            → Stands self.new (init ++ (word, value) ∷ []) []) }
    {
        self.judge.begin(word, value)?;
        self.last = Some(word);
        Ok(())
    }

    /// Judges one more entry.
    pub fn take(&mut self, entry: &Entry) -> Result<(), AllocError>
        requires { IsNameable entry.now }
        ensures { OnOk result
            ((init : List (WordAddr × ℕ)) (entries : List Entry) → Stands self.old init entries
            → Stands self.new init (entries ++ entry.now ∷ [])) }
    {
        // 2^64 entries fit no memory
        let Some(entries) = self.entries.checked_add(1) else {
            return Err(AllocError);
        };
        self.step(entry)?;
        self.entries = entries;
        Ok(())
    }

    // Judges one more entry, up to the first that is wrong.
    fn step(&mut self, entry: &Entry) -> Result<(), AllocError>
        requires { IsNameable entry.now }
        ensures so_far { OnOk result
            ((initial : ℕ → ℕ) (entries : List Entry) → self.old.entries ≡ length entries
            → IsSoFar self.old.judge initial entries self.old.fault
            → IsSoFar self.new.judge initial (entries ++ entry.now ∷ []) self.new.fault) }
        ensures last { self.new.last ≡ self.old.last }
        ensures entries { self.new.entries ≡ self.old.entries }
    {
        if let Some(_) = self.fault {
            return Ok(());
        }
        match self.judge.fault(self.entries, entry) {
            Some(reason) => {
                self.fault = Some((self.entries, reason));
                Ok(())
            }
            None => self.judge.take(entry),
        }
    }

    /// Returns the verdict on the entries so far.
    pub fn verdict(&self) -> Verdict
        ensures { (init : List (WordAddr × ℕ)) (entries : List Entry) → Stands self.now init entries
            → IsVerdict (initially init) entries result }
    {
        match self.fault {
            Some((entry, reason)) => Verdict::Illegal(entry, reason),
            None => Verdict::Legal(self.entries),
        }
    }
}
