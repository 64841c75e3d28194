ghost use Rattle.std.specs.Prelude.{◌≡◌, ◌+◌, ◌<◌, ◌≤◌};
ghost use Rattle.receipt_ledger.specs.Names.{AreCounters, AreLedgersOf};
ghost use Rattle.receipt_ledger.specs.Totals.{nothing, only_accepted, only_handed, together, IsWithin};

use super::blanks::Blanks;
use super::counters::{CounterBooks, CounterShares, pour};
use super::names::{Led, SliceNames};
use super::place::addition;
use address_map::WordAddr;
use slice_log::Entry;
use std::marker::Model;
use std::sync::ledger::{Book, Share};

/// What a port holds of the ten ledgers of a slice. Contracts see its `Amounts`.
#[derive(Drop)]
pub struct Shares<N: SliceNames> {
    accepted: Share<Led<N, 0>>,
    handed: Share<Led<N, 1>>,
    counters: CounterShares<N>,
}

impl<N: SliceNames> Model for Shares<N> {
    ghost use Rattle.std.specs.Prelude.{◌≡◌};
    ghost use Rattle.receipt_ledger.specs.Totals.{Amounts};

    ghost Value = { Amounts };

    ghost view = { λ s. record {
      parts = s.accepted.parts;
      held = record { accepted = s.accepted.amount; handed = s.handed.amount; counters = s.counters.sums };
    } };

    ghost invariant = { λ s. (s.handed.parts ≡ s.accepted.parts) × (s.counters.parts ≡ s.accepted.parts) };
}

/// The totals of a slice: what all shares hold together. Contracts see them as `Totals`.
#[derive(Drop)]
pub struct Books<N: SliceNames> {
    accepted: Book<Led<N, 0>>,
    handed: Book<Led<N, 1>>,
    counters: CounterBooks<N>,
}

impl<N: SliceNames> Model for Books<N> {
    ghost use Rattle.receipt_ledger.specs.Totals.{Totals};

    ghost Value = { Totals };

    ghost view = { λ b. record { accepted = b.accepted.total; handed = b.handed.total; counters = b.counters } };
}

impl<N: SliceNames> Books<N> {
    /// Returns the books of a slice in which nothing was requested, and one share that has every part.
    pub fn open(blanks: Blanks) -> (Books<N>, Shares<N>)
        requires { AreLedgersOf N.setup N.names blanks }
        ensures books { result.0 ≡ nothing }
        ensures parts { result.1.parts ≡ N.setup.cores }
        ensures held { result.1.held ≡ nothing }
    {
        let Blanks {
            accepted,
            handed,
            counters,
        } = blanks;
        let (accepted_book, accepted) = accepted.open();
        let (handed_book, handed) = handed.open();
        let (counter_books, counters) = counters.open();
        (
            Books {
                accepted: accepted_book,
                handed: handed_book,
                counters: counter_books,
            },
            Shares {
                accepted,
                handed,
                counters,
            },
        )
    }

    /// Counts one more request as accepted, in the books and in the share.
    #[tactic(auto, using(crate::proofs::Sums::plus_zeros))]
    pub fn accept(&mut self, shares: &mut Shares<N>)
        requires { 0 < shares.old.parts }
        ensures books { self.new ≡ together self.old (only_accepted 1) }
        ensures parts { shares.new.parts ≡ shares.old.parts }
        ensures held { shares.new.held ≡ together shares.old.held (only_accepted 1) }
    {
        self.accepted.add(&mut shares.accepted, 1);
    }

    /// Counts an entry as handed out, with what it adds to its counter, in the books and in the share.
    #[tactic(auto, using(crate::proofs::Sums::plus_zeros))]
    pub fn hand(&mut self, shares: &mut Shares<N>, words: &[WordAddr], entry: &Entry)
        requires part { 0 < shares.old.parts }
        requires words { AreCounters N.setup N.number words.now }
        ensures books { self.new ≡ together self.old (only_handed words.now entry.now) }
        ensures parts { shares.new.parts ≡ shares.old.parts }
        ensures held { shares.new.held ≡ together shares.old.held (only_handed words.now entry.now) }
    {
        self.handed.add(&mut shares.handed, 1);
        if let Some((place, delta)) = addition(words, entry) {
            self.counters.add(&mut shares.counters, place, delta);
        }
    }

    /// Changes nothing, and says how what the share holds relates to the totals.
    pub fn audit(&mut self, shares: &mut Shares<N>)
        ensures books { self.new ≡ self.old }
        ensures shares { shares.new ≡ shares.old }
        ensures within { IsWithin shares.old.held self.old }
        ensures whole { shares.old.parts ≡ N.setup.cores → shares.old.held ≡ self.old }
    {
        self.accepted.audit(&mut shares.accepted);
        self.handed.audit(&mut shares.handed);
        self.counters.audit(&mut shares.counters);
    }
}

impl<N: SliceNames> Shares<N> {
    /// Cuts one part off, which holds nothing.
    pub fn split_part(&mut self) -> Shares<N>
        requires some { 0 < self.old.parts }
        requires backed { self.old.parts ≡ 1 → self.old.held ≡ nothing }
        ensures part { result.parts ≡ 1 }
        ensures nothing { result.held ≡ nothing }
        ensures parts { self.new.parts + 1 ≡ self.old.parts }
        ensures held { self.new.held ≡ self.old.held }
    {
        let mut part = self.empty();
        self.give_part(&mut part);
        part
    }

    // A share of nothing.
    fn empty(&mut self) -> Shares<N>
        ensures parts { result.parts ≡ 0 }
        ensures held { result.held ≡ nothing }
        ensures same { self.new ≡ self.old }
    {
        Shares {
            accepted: self.accepted.empty(),
            handed: self.handed.empty(),
            counters: self.counters.empty(),
        }
    }

    /// Moves all that another share has to this one, its parts too. No sum is too great for it.
    pub fn gather(&mut self, other: &mut Shares<N>)
        ensures parts { self.new.parts ≡ self.old.parts + other.old.parts }
        ensures held { self.new.held ≡ together self.old.held other.old.held }
        ensures no_part { other.new.parts ≡ 0 }
        ensures nothing { other.new.held ≡ nothing }
        ensures apart { self.new.parts ≤ N.setup.cores }
    {
        pour(&mut other.accepted, &mut self.accepted);
        pour(&mut other.handed, &mut self.handed);
        self.counters.gather(&mut other.counters);
    }

    /// Gives one part to another share, and nothing else.
    pub fn give_part(&mut self, to: &mut Shares<N>)
        requires some { 0 < self.old.parts }
        requires backed { self.old.parts ≡ 1 → self.old.held ≡ nothing }
        ensures parts_left { self.new.parts + 1 ≡ self.old.parts }
        ensures held_left { self.new.held ≡ self.old.held }
        ensures parts_given { to.new.parts ≡ to.old.parts + 1 }
        ensures held_given { to.new.held ≡ to.old.held }
    {
        self.accepted.give(&mut to.accepted, 1, 0);
        self.handed.give(&mut to.handed, 1, 0);
        self.counters.give_part(&mut to.counters);
    }

    /// Gives `requests` accepted requests to another share.
    #[tactic(auto, using(crate::proofs::Sums::plus_zeros))]
    pub fn give_accepted(&mut self, to: &mut Shares<N>, requests: u64)
        requires parts { (0 < self.old.parts) × (0 < to.old.parts) }
        requires enough { requests ≤ self.old.held.accepted }
        ensures parts_left { self.new.parts ≡ self.old.parts }
        ensures held_left { together self.new.held (only_accepted requests) ≡ self.old.held }
        ensures parts_given { to.new.parts ≡ to.old.parts }
        ensures held_given { to.new.held ≡ together to.old.held (only_accepted requests) }
    {
        self.accepted.transfer(&mut to.accepted, requests);
    }

    /// Gives to another share that this entry was handed out, with what it added to its counter.
    #[tactic(auto, using(crate::proofs::Sums::plus_zeros, crate::proofs::Sums::only_within))]
    pub fn give_handed(&mut self, to: &mut Shares<N>, words: &[WordAddr], entry: &Entry)
        requires parts { (0 < self.old.parts) × (0 < to.old.parts) }
        requires words { AreCounters N.setup N.number words.now }
        requires enough { IsWithin (only_handed words.now entry.now) self.old.held }
        ensures parts_left { self.new.parts ≡ self.old.parts }
        ensures held_left { together self.new.held (only_handed words.now entry.now) ≡ self.old.held }
        ensures parts_given { to.new.parts ≡ to.old.parts }
        ensures held_given { to.new.held ≡ together to.old.held (only_handed words.now entry.now) }
    {
        self.handed.transfer(&mut to.handed, 1);
        if let Some((place, delta)) = addition(words, entry) {
            self.counters.give(&mut to.counters, place, delta);
        }
    }
}
