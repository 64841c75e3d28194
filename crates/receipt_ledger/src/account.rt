ghost use Rattle.std.specs.Prelude.{◌≡◌, ◌+◌, ◌<◌, ◌≤◌, [], ◌∷◌, ◌++◌, length, slice_get, vec_capacity, vec_len};
ghost use Rattle.std.specs.Prelude.{IsTrue, OnOk};
ghost use Rattle.std.specs.List.{AllWithin};
ghost use Rattle.std.specs.List.Sorted.{IsNonDecreasingBy};
ghost use Rattle.receipt_ledger.specs.Account.{AreStreaks, GoesOn, IsTold, no_account, told_in};
ghost use Rattle.receipt_ledger.specs.History.{request_of};

use super::receipt::{Ask, Receipt};
use address_map::Request;
use slice_log::Entry;
use std::alloc::{AllocError, Global};
use std::marker::Model;

/// Requests in a row: the first in full, and after it those that were each done at once, with nothing seen in between.
#[derive(Clone, Copy)]
pub(crate) struct Streak {
    ask: Ask,
    /// The first one's number.
    first: usize,
    /// The place of the receipt of the one after it, if there is one.
    receipts: usize,
}

/// What was asked through a port and what was handed out. A request that is done at once is named by its receipt, and
/// the receipt before says what had been seen, so it isn't kept a second time. Most requests are done so, and each
/// byte that is written to a growing list costs more than the search in a short one. Contracts see an `AccountView`.
#[derive(Drop)]
pub(crate) struct Account {
    /// The accepted requests, in this order, which numbers them.
    streaks: Vec<Streak>,
    /// How many there are.
    accepted: usize,
    receipts: Vec<Receipt>,
}

impl Model for Account {
    ghost use Rattle.std.specs.Prelude.{vec_capacity};
    ghost use Rattle.receipt_ledger.specs.Account.{AccountView, AreStreaks, account_of};

    ghost Value = { AccountView };

    ghost view = { λ a. account_of a.streaks.items a.accepted a.receipts.items (vec_capacity a.streaks)
        (vec_capacity a.receipts) };

    ghost invariant = { λ a. AreStreaks a.streaks.items a.accepted a.receipts.items };
}

impl Account {
    /// Nothing was asked yet.
    pub(crate) fn new(alloc: Global) -> Account
        ensures { result ≡ no_account }
    {
        Account {
            streaks: Vec::new(alloc),
            accepted: 0,
            receipts: Vec::new(alloc),
        }
    }

    /// Returns how many requests were accepted.
    pub(crate) fn accepted(&self) -> usize
        ensures { result ≡ length self.now.asked }
    {
        self.accepted
    }

    /// Returns the request of this number.
    pub(crate) fn asked(&self, seq: u64) -> Option<Ask>
        ensures { result ≡ slice_get self.now.asked seq }
    {
        let seq = seq as usize;
        if self.accepted <= seq {
            return None;
        }
        let begun = begun(&self.streaks, seq);
        Some(told_in(&self.receipts, &self.streaks[begun - 1], seq))
    }

    /// Returns the receipts, in the order in which they were handed out.
    pub(crate) fn receipts(&self) -> &[Receipt]
        ensures { result.now ≡ self.now.receipts }
    {
        &self.receipts
    }

    /// Gives the lists room for one more request, and for the receipts of all requests in flight and of that one.
    #[tactic(auto, using(crate::proofs::Streaks::asks_long))]
    pub(crate) fn make_room(&mut self) -> Result<(), AllocError>
        requires fewer { length self.old.receipts ≤ length self.old.asked }
        requires reserved { length self.old.asked ≤ self.old.room.receipts }
        ensures asked { self.new.asked ≡ self.old.asked }
        ensures receipts { self.new.receipts ≡ self.old.receipts }
        ensures asked_room { OnOk result (length self.new.asked < self.new.room.asked) }
        ensures receipts_room { OnOk result (length self.new.asked < self.new.room.receipts) }
        ensures reserved { length self.new.asked ≤ self.new.room.receipts }
    {
        if self.streaks.len() < self.streaks.capacity()
            && self.accepted < self.receipts.capacity()
        {
            return Ok(());
        }
        grow(&mut self.streaks, self.accepted, &mut self.receipts)
    }

    /// Keeps one more request.
    pub(crate) fn keep(&mut self, ask: Ask)
        requires asked_room { length self.old.asked < self.old.room.asked }
        requires receipts_room { length self.old.asked < self.old.room.receipts }
        ensures { self.new ≡ record self.old { asked = self.old.asked ++ ask ∷ [] } }
    {
        let _room = self.receipts.capacity();
        self.streaks.push_reserved(Streak {
            ask,
            first: self.accepted,
            receipts: self.receipts.len(),
        });
        self.accepted += 1;
    }

    /// Keeps a receipt.
    pub(crate) fn receive(&mut self, receipt: Receipt)
        requires { length self.old.receipts < self.old.room.receipts }
        ensures { self.new ≡ record self.old { receipts = self.old.receipts ++ receipt ∷ [] } }
    {
        self.receipts.push_reserved(receipt);
    }

    /// Keeps one more request that was done at once, and its receipt.
    pub(crate) fn keep_done(&mut self, ask: Ask, receipt: Receipt)
        requires named { request_of receipt.entry ≡ ask.request }
        requires fewer { length self.old.receipts ≤ length self.old.asked }
        requires asked_room { length self.old.asked < self.old.room.asked }
        requires receipts_room { length self.old.asked < self.old.room.receipts }
        ensures asked { self.new.asked ≡ self.old.asked ++ ask ∷ [] }
        ensures receipts { self.new.receipts ≡ self.old.receipts ++ receipt ∷ [] }
        ensures room { self.new.room.receipts ≡ self.old.room.receipts }
    {
        let _room = self.receipts.capacity();
        if goes_on(&self.streaks, self.accepted, &self.receipts, ask.seen) {
            self.accepted += 1;
            self.receipts.push_reserved(receipt);
        } else {
            self.receive(receipt);
            self.keep(ask);
        }
    }
}

// How many streaks begin no later than with the request of this number.
fn begun(streaks: &[Streak], seq: usize) -> usize
    requires { IsNonDecreasingBy (λ streak. streak.first) streaks.now }
    ensures within { result ≤ length streaks.now }
    ensures begun { AllWithin (λ streak. streak.first ≤ seq) streaks.now 0 result }
    ensures later { AllWithin (λ streak. seq < streak.first) streaks.now result (length streaks.now) }
{
    streaks.partition_point(|streak| streak.first <= seq)
}

// The request of this number, by the streak that it is of.
fn told_in(receipts: &[Receipt], streak: &Streak, seq: usize) -> Ask
    requires { IsTold receipts.now streak.now seq }
    ensures { result ≡ told_in receipts.now streak.now seq }
{
    if seq <= streak.first {
        return streak.ask;
    }
    let place = streak.receipts + (seq - streak.first - 1);
    Ask {
        request: request_of(&receipts[place].entry),
        seen: receipts[place - 1].number + 1,
    }
}

// The request that the entry performed.
pub(crate) fn request_of(entry: &Entry) -> Request
    ensures { result ≡ request_of entry.now }
{
    Request {
        op: entry.op,
        word: entry.word,
        tag: entry.tag,
    }
}

// Whether one more request that is done at once belongs to the last streak: each receipt since is of that, and the last
// one says that `seen` entries were seen.
fn goes_on(streaks: &[Streak], accepted: usize, receipts: &[Receipt], seen: u64) -> bool
    requires { AreStreaks streaks.now accepted receipts.now }
    ensures { IsTrue result → GoesOn streaks.now accepted receipts.now seen }
{
    match (streaks.last(), receipts.last()) {
        (Some(streak), Some(last)) => {
            receipts.len() - streak.receipts == accepted - streak.first - 1
                && 0 < seen
                && last.number == seen - 1
        }
        _ => false,
    }
}

// Makes room for one more request, and for the receipts of all requests and of that one. It is a separate function,
// since most requests find room.
#[cold]
#[inline(never)]
fn grow(
    streaks: &mut Vec<Streak>,
    accepted: usize,
    receipts: &mut Vec<Receipt>,
) -> Result<(), AllocError>
    requires fewer { vec_len receipts.old ≤ accepted }
    requires reserved { accepted ≤ vec_capacity receipts.old }
    ensures streaks { streaks.new.items ≡ streaks.old.items }
    ensures receipts { receipts.new.items ≡ receipts.old.items }
    ensures streaks_room { OnOk result (vec_len streaks.new < vec_capacity streaks.new) }
    ensures receipts_room { OnOk result (accepted < vec_capacity receipts.new) }
    ensures reserved { accepted ≤ vec_capacity receipts.new }
{
    streaks.reserve(1)?;
    let in_flight = accepted - receipts.len();
    receipts.reserve(in_flight + 1)
}
