ghost use Rattle.std.specs.Prelude.{◌≡◌, ◌+◌, ◌<◌, ◌≤◌, true, false, length, slice_get, vec_capacity, vec_len, OnOk};
ghost use Rattle.std.specs.Prelude.{Some};
ghost use Rattle.receipt_ledger.specs.Answers.{IsDone, IsGiven, IsLastOf};
ghost use Rattle.receipt_ledger.specs.History.{request_of};
ghost use Rattle.receipt_ledger.specs.Names.{AreCounters};
ghost use Rattle.receipt_ledger.specs.Port.{AreOwn, HasRoom, IsEntryOf, IsWithRoom, fresh_port, with_request};
ghost use Rattle.receipt_ledger.specs.Port.{with_seen};
ghost use Rattle.receipt_ledger.specs.Totals.{nothing, only_accepted, together};

use super::account::Account;
use super::names::SliceNames;
use super::receipt::{Ask, Receipt};
use super::shares::{Books, Shares};
use address_map::{CoreId, Request, SliceId, WordAddr};
use slice_log::Entry;
use std::alloc::{AllocError, Global};
use std::marker::Model;

/// A core's port of a slice: what it asked for, its receipts, and its shares of what the slice's book
/// counts. Contracts see a `PortView`.
#[derive(Drop)]
pub struct Port<N: SliceNames> {
    core: CoreId,
    slice: SliceId,
    pub(crate) account: Account,
    seen: u64,
    pub(crate) shares: Shares<N>,
}

impl<N: SliceNames> Model for Port<N> {
    ghost use Rattle.receipt_ledger.specs.Port.{PortView, IsPort, port_with};

    ghost Value = { PortView };

    ghost view = { λ p. port_with p.core p.slice p.account.asked p.account.receipts p.seen p.account.room };

    ghost invariant = { λ p. IsPort N.setup N.number
        (port_with p.core p.slice p.account.asked p.account.receipts p.seen p.account.room) p.shares };
}

impl<N: SliceNames> Port<N> {
    /// Returns the core whose port it is.
    pub fn core(&self) -> CoreId
        ensures core { result ≡ self.now.core }
        ensures known { result.0 < N.setup.cores }
    {
        self.core
    }

    /// Returns the slice that it leads to.
    pub fn slice(&self) -> SliceId
        ensures slice { result ≡ self.now.slice }
        ensures named { result.0 ≡ N.number }
    {
        self.slice
    }

    /// Returns how many requests were accepted through it.
    pub fn accepted(&self) -> u64
        ensures accepted { result ≡ length self.now.asked }
        ensures fewer { length self.now.receipts ≤ result }
    {
        self.account.accepted() as u64
    }

    /// Returns the request of this number, counted from 0, with what the port had seen of the log by then.
    pub fn asked(&self, seq: u64) -> Option<Ask>
        ensures { result ≡ slice_get self.now.asked seq }
    {
        self.account.asked(seq)
    }

    /// Returns the receipts, in the order in which they were handed out.
    pub fn receipts(&self) -> &[Receipt]
        ensures receipts { result.now ≡ self.now.receipts }
        ensures fewer { length result.now ≤ length self.now.asked }
        ensures own { AreOwn N.setup N.number self.now.core result.now }
    {
        self.account.receipts()
    }

    /// Returns one more than the greatest number of a receipt that it got or learned of, and 0 before the first.
    pub fn seen(&self) -> u64
        ensures { result ≡ self.now.seen }
    {
        self.seen
    }

    /// Whether a request that was accepted isn't handed out yet.
    pub fn is_waiting(&self) -> bool
        ensures waiting { result ≡ true → length self.now.receipts < length self.now.asked }
        ensures idle { result ≡ false → length self.now.asked ≤ length self.now.receipts }
    {
        self.account.receipts().len() < self.account.accepted()
    }

    /// Returns a port through which nothing was requested yet.
    pub(crate) fn fresh(alloc: Global, core: CoreId, slice: SliceId, shares: Shares<N>) -> Port<N>
        requires known { core.0 < N.setup.cores }
        requires named { slice.0 ≡ N.number }
        requires part { shares.parts ≡ 1 }
        requires nothing { shares.held ≡ nothing }
        ensures { result ≡ fresh_port core slice }
    {
        Port {
            core,
            slice,
            account: Account::new(alloc),
            seen: 0,
            shares,
        }
    }

    /// Gives the lists room for one more request, and for the receipts of all requests in flight and of that one.
    pub(crate) fn make_room(&mut self) -> Result<(), AllocError>
        ensures same { IsWithRoom self.old self.new }
        ensures fewer { length self.old.receipts ≤ length self.old.asked }
        ensures room { OnOk result (HasRoom self.new) }
    {
        self.account.make_room()
    }

    /// Keeps one more accepted request, and counts it in the book too.
    pub(crate) fn count(&mut self, books: &mut Books<N>, request: Request)
        requires { HasRoom self.old }
        ensures port { self.new ≡ with_request self.old request }
        ensures books { books.new ≡ together books.old (only_accepted 1) }
    {
        books.accept(&mut self.shares);
        let seen = self.seen;
        self.account.keep(Ask { request, seen });
    }

    /// Keeps one more accepted request that was done at once as the entry of the log with this number, and its receipt,
    /// and counts both in the book too.
    pub(crate) fn perform(
        &mut self,
        books: &mut Books<N>,
        words: &[WordAddr],
        log: &[Entry],
        number: u64,
        request: Request,
    )
        requires room { HasRoom self.old }
        requires words { AreCounters N.setup N.number words.now }
        requires within { number < length log.now }
        requires own { (e : Entry) → slice_get log.now number ≡ Some e → IsEntryOf N.setup N.number self.old.core e }
        requires named { (e : Entry) → slice_get log.now number ≡ Some e → request_of e ≡ request }
        ensures { IsDone words.now log.now number request self.old self.new books.old books.new }
    {
        let entry = entry_at(log, number);
        books.accept(&mut self.shares);
        books.hand(&mut self.shares, words, entry);
        let seen = self.seen;
        self.seen = seen.max(after(log, number));
        let receipt = Receipt {
            entry: *entry,
            number,
            slice: self.slice,
        };
        self.account.keep_done(Ask { request, seen }, receipt);
    }

    /// Takes the receipt of the entry of the log with this number, and counts it in the book too.
    pub(crate) fn receive(
        &mut self,
        books: &mut Books<N>,
        words: &[WordAddr],
        log: &[Entry],
        number: u64,
    )
        requires waiting { length self.old.receipts < length self.old.asked }
        requires words { AreCounters N.setup N.number words.now }
        requires within { number < length log.now }
        requires own { (e : Entry) → slice_get log.now number ≡ Some e → IsEntryOf N.setup N.number self.old.core e }
        ensures { IsGiven words.now log.now number self.old self.new books.old books.new }
    {
        let entry = entry_at(log, number);
        books.hand(&mut self.shares, words, entry);
        self.seen = self.seen.max(after(log, number));
        self.account.receive(Receipt {
            entry: *entry,
            number,
            slice: self.slice,
        });
    }

    /// Learns of the entry of the log with this number.
    pub(crate) fn learn(&mut self, log: &[Entry], number: u64)
        requires { number < length log.now }
        ensures { self.new ≡ with_seen self.old number }
    {
        let seen = after(log, number);
        self.seen = self.seen.max(seen);
    }

    /// Returns the last of its receipts.
    pub fn last(&self) -> Receipt
        requires some { 0 < length self.now.receipts }
        ensures { IsLastOf self.now.receipts result }
    {
        let receipts = self.account.receipts();
        receipts[receipts.len() - 1]
    }
}

// The entry of the log with this number.
pub(crate) fn entry_at(log: &[Entry], number: u64) -> &Entry
    requires { number < length log.now }
    ensures { slice_get log.now number ≡ Some result.now }
{
    &log[number as usize]
}

// The number after that of an entry of the log.
fn after(log: &[Entry], number: u64) -> u64
    requires { number < length log.now }
    ensures { result ≡ number + 1 }
{
    let _logged = log.len();
    number + 1
}
