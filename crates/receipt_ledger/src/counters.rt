#![tactic(auto, unfolding(crate::specs::Sums::at, crate::specs::Sums::table, crate::specs::Sums::zeros, crate::specs::Sums::plus, crate::specs::Sums::only))]

ghost use Rattle.std.specs.Prelude.{◌≡◌, ℕ, ◌+◌, ◌<◌, ◌≤◌};
ghost use Rattle.receipt_ledger.specs.Sums.{zeros, plus, only, at};
ghost use Rattle.receipt_ledger.specs.Names.{AreNamed};

use super::names::{Led, SliceNames};
use std::marker::Model;
use std::mem;
use std::sync::ledger::{Blank, Book, Ledger, Share};

/// The eight counters' ledgers before any type represents them, all with the same number of parts.
#[derive(Drop)]
pub(crate) struct CounterBlanks {
    c0: Blank,
    c1: Blank,
    c2: Blank,
    c3: Blank,
    c4: Blank,
    c5: Blank,
    c6: Blank,
    c7: Blank,
}

impl Model for CounterBlanks {
    ghost use Rattle.std.specs.Prelude.{◌≡◌, [], ◌∷◌};
    ghost use Rattle.receipt_ledger.specs.Names.{Unopened};

    ghost Value = { Unopened };

    ghost view = { λ b. record {
      names = b.c0.name ∷ b.c1.name ∷ b.c2.name ∷ b.c3.name ∷ b.c4.name ∷ b.c5.name ∷ b.c6.name ∷ b.c7.name ∷ [];
      parts = b.c0.parts;
    } };

    ghost invariant = { λ b.
        (b.c1.parts ≡ b.c0.parts) × (b.c2.parts ≡ b.c0.parts) × (b.c3.parts ≡ b.c0.parts) × (b.c4.parts ≡ b.c0.parts)
        × (b.c5.parts ≡ b.c0.parts) × (b.c6.parts ≡ b.c0.parts) × (b.c7.parts ≡ b.c0.parts) };
}

/// A share of each of the eight counters' ledgers, all with the same number of parts.
#[derive(Drop)]
pub(crate) struct CounterShares<N: SliceNames> {
    c0: Share<Led<N, 2>>,
    c1: Share<Led<N, 3>>,
    c2: Share<Led<N, 4>>,
    c3: Share<Led<N, 5>>,
    c4: Share<Led<N, 6>>,
    c5: Share<Led<N, 7>>,
    c6: Share<Led<N, 8>>,
    c7: Share<Led<N, 9>>,
}

impl<N: SliceNames> Model for CounterShares<N> {
    ghost use Rattle.std.specs.Prelude.{◌≡◌};
    ghost use Rattle.receipt_ledger.specs.Sums.{Held};

    ghost Value = { Held };

    ghost view = { λ s. record {
      parts = s.c0.parts;
      sums = record {
        c0 = s.c0.amount;
        c1 = s.c1.amount;
        c2 = s.c2.amount;
        c3 = s.c3.amount;
        c4 = s.c4.amount;
        c5 = s.c5.amount;
        c6 = s.c6.amount;
        c7 = s.c7.amount;
      };
    } };

    ghost invariant = { λ s.
        (s.c1.parts ≡ s.c0.parts) × (s.c2.parts ≡ s.c0.parts) × (s.c3.parts ≡ s.c0.parts) × (s.c4.parts ≡ s.c0.parts)
        × (s.c5.parts ≡ s.c0.parts) × (s.c6.parts ≡ s.c0.parts) × (s.c7.parts ≡ s.c0.parts) };
}

/// The book of each of the eight counters' ledgers.
#[derive(Drop)]
pub(crate) struct CounterBooks<N: SliceNames> {
    c0: Book<Led<N, 2>>,
    c1: Book<Led<N, 3>>,
    c2: Book<Led<N, 4>>,
    c3: Book<Led<N, 5>>,
    c4: Book<Led<N, 6>>,
    c5: Book<Led<N, 7>>,
    c6: Book<Led<N, 8>>,
    c7: Book<Led<N, 9>>,
}

impl<N: SliceNames> Model for CounterBooks<N> {
    ghost use Rattle.receipt_ledger.specs.Sums.{Sums};

    ghost Value = { Sums };

    ghost view = { λ b. record {
      c0 = b.c0.total;
      c1 = b.c1.total;
      c2 = b.c2.total;
      c3 = b.c3.total;
      c4 = b.c4.total;
      c5 = b.c5.total;
      c6 = b.c6.total;
      c7 = b.c7.total;
    } };
}

/// Moves all that a share has to another one.
pub(crate) fn pour<L: Ledger>(from: &mut Share<L>, to: &mut Share<L>)
    ensures from_parts { from.new.parts ≡ 0 }
    ensures from_amount { from.new.amount ≡ 0 }
    ensures to_parts { to.new.parts ≡ to.old.parts + from.old.parts }
    ensures to_amount { to.new.amount ≡ to.old.amount + from.old.amount }
    ensures apart { to.new.parts ≤ L.parts }
{
    let none = from.empty();
    to.merge(mem::replace(from, none));
}

impl CounterBlanks {
    /// Creates ledgers of `parts` parts.
    pub(crate) fn new(parts: u64) -> CounterBlanks
        ensures { result.parts ≡ parts }
    {
        CounterBlanks {
            c0: Blank::new(parts),
            c1: Blank::new(parts),
            c2: Blank::new(parts),
            c3: Blank::new(parts),
            c4: Blank::new(parts),
            c5: Blank::new(parts),
            c6: Blank::new(parts),
            c7: Blank::new(parts),
        }
    }

    /// Returns the books of the ledgers, and one share with every part.
    pub(crate) fn open<N: SliceNames>(self) -> (CounterBooks<N>, CounterShares<N>)
        requires names { AreNamed (λ place. N.names (place + 2)) self.names }
        requires parts { self.parts ≡ N.setup.cores }
        ensures books { result.0 ≡ zeros }
        ensures parts { result.1.parts ≡ N.setup.cores }
        ensures sums { result.1.sums ≡ zeros }
    {
        let (book0, share0) = self.c0.open();
        let (book1, share1) = self.c1.open();
        let (book2, share2) = self.c2.open();
        let (book3, share3) = self.c3.open();
        let (book4, share4) = self.c4.open();
        let (book5, share5) = self.c5.open();
        let (book6, share6) = self.c6.open();
        let (book7, share7) = self.c7.open();
        (
            CounterBooks {
                c0: book0,
                c1: book1,
                c2: book2,
                c3: book3,
                c4: book4,
                c5: book5,
                c6: book6,
                c7: book7,
            },
            CounterShares {
                c0: share0,
                c1: share1,
                c2: share2,
                c3: share3,
                c4: share4,
                c5: share5,
                c6: share6,
                c7: share7,
            },
        )
    }
}

impl<N: SliceNames> CounterShares<N> {
    /// A share of nothing.
    pub(crate) fn empty(&mut self) -> CounterShares<N>
        ensures parts { result.parts ≡ 0 }
        ensures sums { result.sums ≡ zeros }
        ensures same { self.new ≡ self.old }
    {
        CounterShares {
            c0: self.c0.empty(),
            c1: self.c1.empty(),
            c2: self.c2.empty(),
            c3: self.c3.empty(),
            c4: self.c4.empty(),
            c5: self.c5.empty(),
            c6: self.c6.empty(),
            c7: self.c7.empty(),
        }
    }

    /// Moves all that another share has to this one.
    pub(crate) fn gather(&mut self, other: &mut CounterShares<N>)
        ensures parts { self.new.parts ≡ self.old.parts + other.old.parts }
        ensures sums { self.new.sums ≡ plus self.old.sums other.old.sums }
        ensures none { other.new.parts ≡ 0 }
        ensures left { other.new.sums ≡ zeros }
    {
        pour(&mut other.c0, &mut self.c0);
        pour(&mut other.c1, &mut self.c1);
        pour(&mut other.c2, &mut self.c2);
        pour(&mut other.c3, &mut self.c3);
        pour(&mut other.c4, &mut self.c4);
        pour(&mut other.c5, &mut self.c5);
        pour(&mut other.c6, &mut self.c6);
        pour(&mut other.c7, &mut self.c7);
    }

    /// Gives one part to another share, and nothing else.
    pub(crate) fn give_part(&mut self, to: &mut CounterShares<N>)
        requires some { 0 < self.old.parts }
        requires backed { self.old.parts ≡ 1 → self.old.sums ≡ zeros }
        ensures parts_left { self.new.parts + 1 ≡ self.old.parts }
        ensures sums_left { self.new.sums ≡ self.old.sums }
        ensures parts_given { to.new.parts ≡ to.old.parts + 1 }
        ensures sums_given { to.new.sums ≡ to.old.sums }
    {
        self.c0.give(&mut to.c0, 1, 0);
        self.c1.give(&mut to.c1, 1, 0);
        self.c2.give(&mut to.c2, 1, 0);
        self.c3.give(&mut to.c3, 1, 0);
        self.c4.give(&mut to.c4, 1, 0);
        self.c5.give(&mut to.c5, 1, 0);
        self.c6.give(&mut to.c6, 1, 0);
        self.c7.give(&mut to.c7, 1, 0);
    }

    /// Gives so much of the counter at a place to another share.
    pub(crate) fn give(&mut self, to: &mut CounterShares<N>, place: usize, amount: u64)
        requires place { place < 8 }
        requires parts { (0 < self.old.parts) × (0 < to.old.parts) }
        requires enough { amount ≤ at self.old.sums place }
        ensures parts_left { self.new.parts ≡ self.old.parts }
        ensures sums_left { plus self.new.sums (only place amount) ≡ self.old.sums }
        ensures parts_given { to.new.parts ≡ to.old.parts }
        ensures sums_given { to.new.sums ≡ plus to.old.sums (only place amount) }
    {
        match place {
            0 => self.c0.transfer(&mut to.c0, amount),
            1 => self.c1.transfer(&mut to.c1, amount),
            2 => self.c2.transfer(&mut to.c2, amount),
            3 => self.c3.transfer(&mut to.c3, amount),
            4 => self.c4.transfer(&mut to.c4, amount),
            5 => self.c5.transfer(&mut to.c5, amount),
            6 => self.c6.transfer(&mut to.c6, amount),
            7 => self.c7.transfer(&mut to.c7, amount),
            _ => unreachable!(),
        }
    }
}

impl<N: SliceNames> CounterBooks<N> {
    /// Adds so much to the counter at a place, in the book and in the share.
    pub(crate) fn add(&mut self, share: &mut CounterShares<N>, place: usize, amount: u64)
        requires place { place < 8 }
        requires part { 0 < share.old.parts }
        ensures book { self.new ≡ plus self.old (only place amount) }
        ensures parts { share.new.parts ≡ share.old.parts }
        ensures sums { share.new.sums ≡ plus share.old.sums (only place amount) }
    {
        match place {
            0 => self.c0.add(&mut share.c0, amount),
            1 => self.c1.add(&mut share.c1, amount),
            2 => self.c2.add(&mut share.c2, amount),
            3 => self.c3.add(&mut share.c3, amount),
            4 => self.c4.add(&mut share.c4, amount),
            5 => self.c5.add(&mut share.c5, amount),
            6 => self.c6.add(&mut share.c6, amount),
            7 => self.c7.add(&mut share.c7, amount),
            _ => unreachable!(),
        }
    }

    /// Changes nothing, and says how the share's sums relate to the book's.
    #[tactic(auto, using(crate::proofs::Sums::at_most))]
    pub(crate) fn audit(&mut self, share: &mut CounterShares<N>)
        ensures book { self.new ≡ self.old }
        ensures share { share.new ≡ share.old }
        ensures whole { share.old.parts ≡ N.setup.cores → share.old.sums ≡ self.old }
        ensures within { (place : ℕ) → at share.old.sums place ≤ at self.old place }
    {
        self.c0.audit(&mut share.c0);
        self.c1.audit(&mut share.c1);
        self.c2.audit(&mut share.c2);
        self.c3.audit(&mut share.c3);
        self.c4.audit(&mut share.c4);
        self.c5.audit(&mut share.c5);
        self.c6.audit(&mut share.c6);
        self.c7.audit(&mut share.c7);
    }
}
