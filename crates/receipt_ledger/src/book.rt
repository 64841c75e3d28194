ghost use Rattle.std.specs.Prelude.{◌≡◌, ◌<◌, ◌↔◌, length, slice_get, IfErr, IfSome, IsOk, IsTrue, OnErr, OnOk, Some};
ghost use Rattle.receipt_ledger.specs.Answers.{AfterAsking, AfterReply, AfterRequest, AsksFor, AsksReply, AsksSlice};
ghost use Rattle.receipt_ledger.specs.Answers.{IsDone, IsGenuine, IsGenuineAnswer, IsGenuineLast, IsGiven, IsJudged};
ghost use Rattle.receipt_ledger.specs.Answers.{IsKnown, IsShortOf};
ghost use Rattle.receipt_ledger.specs.Answers.{answer_steps, reply_steps};
ghost use Rattle.receipt_ledger.specs.Booked.{IsTied};
ghost use Rattle.receipt_ledger.specs.History.{request_of};
ghost use Rattle.receipt_ledger.specs.Port.{HasRoom, IsEntryOf, with_request, with_seen};
ghost use Rattle.address_map.specs.Place.{counters_of};
ghost use Rattle.receipt_ledger.specs.Totals.{only_accepted, together};
ghost use Rattle.slice_core.specs.Facts.{IsSameSlice};
ghost use Rattle.slice_log.specs.declared.entry.Entry.{Entry};
ghost use Rattle.slice_core_theory.specs.Shows.{Leads, issue_steps, next_of};

use super::names::SliceNames;
use super::port::{Port, entry_at};
use super::receipt::{Answer, LearnError, Receipt};
use super::shares::Books;
use address_map::{Request, SliceId, WordAddr};
use mshr_file::MissFile;
use slice_answer::{Issue, Refused};
use slice_core::SliceState;
use slice_log::Entry;
use std::boxed::BoxedSlice;
use std::marker::Model;

/// What the ports of a slice hold together: its book is next to the slice's state, and a port's share moves only with
/// it. Contracts see it as its `Totals`.
#[derive(Drop)]
pub struct Book<N: SliceNames> {
    pub(crate) books: Books<N>,
    /// The slice's counters, in the configured order.
    pub(crate) counters: BoxedSlice<WordAddr>,
}

impl<N: SliceNames> Model for Book<N> {
    ghost use Rattle.receipt_ledger.specs.Totals.{Totals};

    ghost Value = { Totals };

    ghost use Rattle.std.specs.Box.{boxed_slice_items};
    ghost use Rattle.receipt_ledger.specs.Names.{AreCounters};

    ghost view = { λ b. b.books };

    ghost invariant = { λ b. AreCounters N.setup N.number (boxed_slice_items b.counters) };
}

impl<N: SliceNames> Book<N> {
    /// Asks the slice for a word, as the port's core. The port's lists first get room for this request and for the
    /// receipts of all requests in flight and of this one. A log that is shorter than what the port has seen of it
    /// isn't the one that it saw, and is `Ahead`.
    pub fn accept<F: MissFile>(
        &mut self,
        state: &mut SliceState<F>,
        port: &mut Port<N>,
        request: Request,
    ) -> Result<Answer, Refused>
        requires { IsTied N.setup N.number self.old state.old }
        ensures slice { AsksSlice state.old port.old request result state.new }
        ensures port { AfterRequest port.old request result port.new }
        ensures ahead { IfErr result (IsShortOf port.old.seen) }
        ensures judged { IsJudged N.setup N.number request result }
        ensures genuine { IsGenuineAnswer state.new.view.log result }
        ensures machine { Leads (answer_steps (next_of state.old.view port.old.core request) result)
            state.old.view state.new.view }
        ensures same { IsSameSlice state.old state.new }
        ensures tied { IsTied N.setup N.number self.new state.new }
    {
        match self.ask(state, port, request) {
            Ok(Issue::Done(_)) => Ok(Answer::Done(port.last())),
            undone => Answer::of_undone(undone),
        }
    }

    /// The same, with the slice's own answer. The receipt of what was done at once is the port's last: a caller with
    /// state and book behind a lock may release it before that is copied.
    pub fn ask<F: MissFile>(
        &mut self,
        state: &mut SliceState<F>,
        port: &mut Port<N>,
        request: Request,
    ) -> Result<Issue, Refused>
        requires { IsTied N.setup N.number self.old state.old }
        ensures slice { AsksFor state.old port.old request result state.new }
        ensures port { AfterAsking port.old request result port.new }
        ensures ahead { IfErr result (IsShortOf port.old.seen) }
        ensures judged { IsJudged N.setup N.number request result }
        ensures genuine { IsGenuineLast state.new.view.log result port.new }
        ensures machine { Leads (issue_steps (next_of state.old.view port.old.core request) result)
            state.old.view state.new.view }
        ensures same { IsSameSlice state.old state.new }
        ensures tied { IsTied N.setup N.number self.new state.new }
    {
        let Ok(()) = port.make_room() else {
            return Err(Refused::Memory);
        };
        let logged = state.log().len() as u64;
        if logged < port.seen() {
            return Err(Refused::Ahead(logged));
        }
        match state.issue(port.core(), request) {
            Ok(Issue::Done(number)) => {
                self.give_done(state, port, request, number);
                Ok(Issue::Done(number))
            }
            Ok(Issue::Pending(seq)) => {
                self.count(port, request);
                Ok(Issue::Pending(seq))
            }
            Ok(Issue::Stall(stall)) => Ok(Issue::Stall(stall)),
            Err(refused) => Err(refused),
        }
    }

    /// Hands out the reply of the least number that waits for the port's core, if any does. It allocates nothing.
    pub fn hand_out<F: MissFile>(
        &mut self,
        state: &mut SliceState<F>,
        port: &mut Port<N>,
    ) -> Option<Receipt>
        requires { IsTied N.setup N.number self.old state.old }
        ensures slice { AsksReply state.old port.old result state.new }
        ensures port { AfterReply port.old result port.new }
        ensures genuine { IfSome result (IsGenuine state.new.view.log) }
        ensures machine { Leads (reply_steps result) state.old.view state.new.view }
        ensures same { IsSameSlice state.old state.new }
        ensures tied { IsTied N.setup N.number self.new state.new }
    {
        if !port.is_waiting() {
            return None;
        }
        match state.hand(port.core()) {
            Some(given) => {
                self.give(state, port, given.number);
                Some(port.last())
            }
            None => None,
        }
    }

    /// Notifies the port of a receipt, which another core of the slice may have got.
    pub fn learn<F: MissFile>(
        &self,
        state: &SliceState<F>,
        port: &mut Port<N>,
        receipt: &Receipt,
    ) -> Result<(), LearnError>
        ensures known { IsOk result ↔ IsKnown port.old.slice state.now.view.log receipt.now }
        ensures learnt { OnOk result (port.new ≡ with_seen port.old receipt.now.number) }
        ensures unknown { OnErr result (port.new ≡ port.old) }
    {
        let log = state.log();
        if !is_known(port.slice(), log, receipt) {
            return Err(LearnError::Unknown);
        }
        port.learn(log, receipt.number);
        Ok(())
    }

    // Counts a request that was accepted.
    fn count(&mut self, port: &mut Port<N>, request: Request)
        requires { HasRoom port.old }
        ensures port { port.new ≡ with_request port.old request }
        ensures book { self.new ≡ together self.old (only_accepted 1) }
    {
        port.count(&mut self.books, request);
    }

    // Gives the port a request that was done at once as an entry of the log, and its receipt, and counts both.
    fn give_done<F: MissFile>(
        &mut self,
        state: &SliceState<F>,
        port: &mut Port<N>,
        request: Request,
        number: u64,
    )
        requires room { HasRoom port.old }
        requires within { number < length state.now.view.log }
        requires own { (e : Entry) → slice_get state.now.view.log number ≡ Some e
            → IsEntryOf N.setup N.number port.old.core e }
        requires named { (e : Entry) → slice_get state.now.view.log number ≡ Some e → request_of e ≡ request }
        ensures { IsDone (counters_of N.setup N.number) state.now.view.log number request port.old
            port.new self.old self.new }
    {
        port.perform(
            &mut self.books,
            &self.counters,
            state.log(),
            number,
            request,
        );
    }

    // Gives the port the receipt of an entry of the log, and counts it.
    fn give<F: MissFile>(&mut self, state: &SliceState<F>, port: &mut Port<N>, number: u64)
        requires waiting { length port.old.receipts < length port.old.asked }
        requires within { number < length state.now.view.log }
        requires own { (e : Entry) → slice_get state.now.view.log number ≡ Some e
            → IsEntryOf N.setup N.number port.old.core e }
        ensures { IsGiven (counters_of N.setup N.number) state.now.view.log number port.old port.new self.old self.new }
    {
        port.receive(&mut self.books, &self.counters, state.log(), number);
    }
}

// Whether the receipt is one of the slice with this log.
fn is_known(slice: SliceId, log: &[Entry], receipt: &Receipt) -> bool
    ensures { IsTrue result ↔ IsKnown slice log.now receipt.now }
{
    receipt.slice == slice && is_entry(log, receipt.number, &receipt.entry)
}

// Whether the log's entry of this number is this one.
fn is_entry(log: &[Entry], number: u64, wanted: &Entry) -> bool
    ensures { IsTrue result ↔ (slice_get log.now number ≡ Some wanted.now) }
{
    number < log.len() as u64 && *entry_at(log, number) == *wanted
}
