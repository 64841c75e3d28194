ghost use Rattle.std.specs.Prelude.{◌≡◌, ◌<◌, ◌↔◌, length, map, IfErr, IfOk, IsOk, IsTrue, OnErr, OnOk};
ghost use Rattle.receipt_ledger.specs.Answers.{AfterAsking, AfterReply, AsksFor, AsksReply, IsJudged, IsKnown};
ghost use Rattle.receipt_ledger.specs.Answers.{IsShortOf};
ghost use Rattle.receipt_ledger.specs.History.{AreHeld};
ghost use Rattle.receipt_ledger.specs.Port.{with_seen};
ghost use Rattle.receipt_ledger.specs.Settled.{IsSettled};
ghost use Rattle.slice_core.specs.Facts.{IsNotBroken, IsNotBrokenNext};
ghost use Rattle.slice_core_spec.specs.Calls.{AfterDeliverNext, AfterDelivery, AfterEvict};
ghost use Rattle.slice_core_spec.specs.View.{IsQuiet};
ghost use Rattle.slice_lock.specs.Booked.{IsShown};
ghost use Rattle.slice_lock.specs.Settled.{AreSettled, IsUnsettledBy};

use super::slice::Unsettled;
use address_map::{CoreId, LineAddr, Request};
use arrayvec::ArrayVec;
use mshr_file::MissFile;
use receipt_ledger::{Book, LearnError, Lends, Port, Receipt, SliceNames};
use slice_answer::{Delivered, DeliveredNext, Evicted, Issue, Refused};
use slice_core::SliceState;
use slice_queues::{Class, Pick};
use std::marker::Model;

/// A slice's state and its book, which belong together. Contracts see both as a `BookedView`.
#[derive(Drop)]
pub(crate) struct Booked<F: MissFile, N: SliceNames> {
    pub state: SliceState<F>,
    pub book: Book<N>,
}

impl<F: MissFile, N: SliceNames> Model for Booked<F, N> {
    ghost use Rattle.slice_lock.specs.Booked.{BookedView, IsBookedSlice};

    ghost Value = { BookedView };

    ghost view = { λ b. record { state = b.state; totals = b.book } };

    ghost invariant = { λ b. IsBookedSlice N.setup (F.bound_by N.setup) N.number
        (record { state = b.state; totals = b.book }) };
}

impl<F: MissFile, N: SliceNames> Booked<F, N> {
    /// Asks the slice for a word. What was done at once is the port's last receipt.
    pub fn ask(&mut self, port: &mut Port<N>, request: Request) -> Result<Issue, Refused>
        ensures slice { AsksFor self.old.state port.old request result self.new.state }
        ensures port { AfterAsking port.old request result port.new }
        ensures ahead { IfErr result (IsShortOf port.old.seen) }
        ensures judged { IsJudged N.setup N.number request result }
    {
        self.book.ask(&mut self.state, port, request)
    }

    /// Hands out a reply.
    pub fn collect(&mut self, port: &mut Port<N>) -> Option<Receipt>
        ensures slice { AsksReply self.old.state port.old result self.new.state }
        ensures port { AfterReply port.old result port.new }
    {
        self.book.hand_out(&mut self.state, port)
    }

    /// Notifies the port of a receipt.
    pub fn learn(&self, port: &mut Port<N>, receipt: &Receipt) -> Result<(), LearnError>
        ensures known { IsOk result ↔ IsKnown port.old.slice self.now.state.view.log receipt.now }
        ensures learnt { OnOk result (port.new ≡ with_seen port.old receipt.now.number) }
        ensures unknown { OnErr result (port.new ≡ port.old) }
    {
        self.book.learn(&self.state, port, receipt)
    }

    /// Evicts a core's copy of a line.
    pub fn evict(&mut self, core: CoreId, line: LineAddr) -> Evicted
        requires { core.0 < N.setup.cores }
        ensures step { AfterEvict self.old.state core line result self.new.state }
        ensures totals { self.new.totals ≡ self.old.totals }
    {
        self.state.evict(core, line)
    }

    /// Delivers the front message of a channel.
    pub fn deliver(&mut self, pick: Pick) -> Delivered
        ensures step { AfterDelivery self.old.state pick result self.new.state }
        ensures unbroken { IsNotBroken result }
        ensures totals { self.new.totals ≡ self.old.totals }
    {
        self.state.deliver(pick)
    }

    /// Makes one delivery of the class, where one can be made.
    pub fn deliver_next(&mut self, class: Class) -> DeliveredNext
        ensures step { AfterDeliverNext self.old.state class result self.new.state }
        ensures unbroken { IsNotBrokenNext result }
        ensures totals { self.new.totals ≡ self.old.totals }
    {
        self.state.deliver_next(class)
    }

    /// Whether nothing is under way.
    pub fn is_quiet(&self) -> bool
        ensures { IsTrue result ↔ IsQuiet self.now.state.view }
    {
        self.state.is_quiet()
    }

    /// Settles the slice with all its ports, where it is quiet and they hold its log.
    pub fn settle<T: Lends<Port<N>, K>, const K: usize>(
        &mut self,
        ports: &mut [T],
    ) -> Result<ArrayVec<u64, 8>, Unsettled>
        requires whole { length ports.old ≡ N.setup.cores }
        ensures history { IsOk result ↔ IsQuiet self.old.state.view
            × AreHeld (map T.part ports.old) self.old.state.view.log }
        ensures state { IfOk result (λ values. IsSettled N.setup N.number self.old.state.view
            (map T.part ports.old) values.items) }
        ensures settled { IfOk result (λ values. AreSettled N.setup N.number (map T.part ports.old) values.items) }
        ensures unsettled { IfErr result (IsUnsettledBy self.old.state.view (map T.part ports.old)) }
        ensures same { self.new ≡ self.old }
        ensures ports { ports.new ≡ ports.old }
    {
        if !self.state.is_quiet() {
            return Err(Unsettled::NotQuiet);
        }
        let Some(values) = self.book.settle(&self.state, ports) else {
            return Err(Unsettled::Differs);
        };
        Ok(values)
    }

    /// Returns the state. All that holds after every call holds of it.
    pub fn state(&self) -> &SliceState<F>
        ensures same { result.now ≡ self.now.state }
        ensures shown { IsShown N.setup (F.bound_by N.setup) N.number result.now }
    {
        let _log = self.state.log();
        &self.state
    }
}
