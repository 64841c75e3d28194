ghost use Rattle.std.specs.Prelude.{◌≡◌, ◌<◌, ◌≤◌, length, map, IfErr, IfOk, None, OnErr, OnOk};
ghost use Rattle.receipt_ledger.specs.Answers.{AfterReply, AfterRequest, IsJudged, IsShortOf};
ghost use Rattle.receipt_ledger.specs.Names.{AreLedgersOf};
ghost use Rattle.receipt_ledger.specs.Port.{AreFreshPorts, with_seen};
ghost use Rattle.slice_core.specs.Facts.{Holds, IsNotBroken, IsNotBrokenNext};
ghost use Rattle.slice_lock.specs.Booked.{IsShown};
ghost use Rattle.slice_lock.specs.Settled.{AreSettled};

use super::booked::Booked;
use address_map::{Checked, LineAddr, Request, SliceId};
use arrayvec::ArrayVec;
use mshr_file::MissFile;
use receipt_ledger::{Answer, Blanks, Book, LearnError, Lends, Port, Receipt, SliceNames};
use slice_answer::{Delivered, DeliveredNext, Evicted, Issue, Refused};
use slice_core::SliceState;
use slice_queues::{Class, Pick};
use std::alloc::{AllocError, Global};
use std::sync::{Mutex, MutexGuard, Wait};

/// Why a slice isn't settled.
#[derive(Clone, Copy, Debug, PartialEq, Eq)]
pub enum Unsettled {
    /// A message is in flight, a miss register is held, a write-back is pending, or a reply isn't handed out.
    NotQuiet,
    /// The slice is quiet, and the ports' requests and receipts aren't its log.
    Differs,
}

/// A question about a slice's state. An implementation may rely on all that holds of the state after every call.
pub trait Question<F: MissFile> {
    type Answer;

    /// Looks at the state, and returns the answer.
    fn ask(self, state: &SliceState<F>) -> Self::Answer
        requires { Holds state.now };
}

/// One slice of a machine that threads share.
#[derive(Drop)]
pub struct Slice<F: MissFile, N: SliceNames> {
    booked: Mutex<Booked<F, N>>,
}

impl<F: MissFile, N: SliceNames> Slice<F, N> {
    /// Returns a slice of the configured machine in which nothing was requested yet, and a port for each core,
    /// ascending.
    pub fn build(
        alloc: Global,
        config: &Checked,
        slice: SliceId,
        blanks: Blanks,
    ) -> Result<(Slice<F, N>, Vec<Port<N>>), AllocError>
        requires slice { slice.0 < config.now.slices }
        requires setup { config.now ≡ N.setup }
        requires number { slice.0 ≡ N.number }
        requires ledgers { AreLedgersOf N.setup N.names blanks }
        ensures ports { IfOk result (λ r. AreFreshPorts slice N.setup.cores r.1.items) }
    {
        let (state, book, ports) = Book::open(alloc, config, slice, blanks)?;
        let booked = Mutex::new(Booked { state, book });
        Ok((Slice { booked }, ports))
    }

    /// Asks the slice for a word, as the port's core. The port's lists first get room for this request and for the
    /// receipts of all requests in flight and of this one; where they get none the answer is `Memory`, and nothing has
    /// changed. A log that is shorter than what the port has seen of it isn't the one that it saw, and is `Ahead`.
    pub fn issue<R: Wait>(
        &self,
        rt: &R,
        port: &mut Port<N>,
        request: Request,
    ) -> Result<Answer, Refused>
        ensures port { AfterRequest port.old request result port.new }
        ensures ahead { IfErr result (IsShortOf port.old.seen) }
        ensures judged { IsJudged N.setup N.number request result }
    {
        let issue = self.booked.lock(rt).ask(port, request)?;
        // The lock is free here: the receipt is copied from the port alone.
        match issue {
            Issue::Done(_) => Ok(Answer::Done(port.last())),
            undone => Answer::of_undone(Ok(undone)),
        }
    }

    /// Hands out the reply of the least number that waits for the port's core, if any does. Where the port has no
    /// request in flight the lock isn't taken.
    pub fn collect<R: Wait>(&self, rt: &R, port: &mut Port<N>) -> Option<Receipt>
        ensures port { AfterReply port.old result port.new }
        ensures idle { length port.old.asked ≤ length port.old.receipts → result ≡ None }
    {
        if !port.is_waiting() {
            return None;
        }
        self.booked.lock(rt).collect(port)
    }

    /// Notifies the port of a receipt, which another core of the slice may have got: one of another slice, or whose
    /// entry the log doesn't have at its number, is `Unknown`. It allocates nothing.
    pub fn learn<R: Wait>(
        &self,
        rt: &R,
        port: &mut Port<N>,
        receipt: &Receipt,
    ) -> Result<(), LearnError>
        ensures slice { OnOk result (receipt.now.slice ≡ port.old.slice) }
        ensures learnt { OnOk result (port.new ≡ with_seen port.old receipt.now.number) }
        ensures unknown { OnErr result (port.new ≡ port.old) }
    {
        self.booked.lock(rt).learn(port, receipt)
    }

    /// Evicts the copy of a line that the port's core has, or says why not.
    pub fn evict<R: Wait>(&self, rt: &R, port: &mut Port<N>, line: LineAddr) -> Evicted
        ensures { port.new ≡ port.old }
    {
        self.booked.lock(rt).evict(port.core(), line)
    }

    /// Takes the front message of a channel and does its row of the tables, where there is one.
    pub fn deliver<R: Wait>(&self, rt: &R, pick: Pick) -> Delivered
        ensures { IsNotBroken result }
    {
        self.booked.lock(rt).deliver(pick)
    }

    /// Makes one delivery of the class, where one can be made.
    pub fn deliver_next<R: Wait>(&self, rt: &R, class: Class) -> DeliveredNext
        ensures { IsNotBrokenNext result }
    {
        self.booked.lock(rt).deliver_next(class)
    }

    /// Whether no message is in flight, no miss register is held, no write-back is pending and each reply is handed
    /// out.
    pub fn quiet<R: Wait>(&self, rt: &R) -> bool {
        self.booked.lock(rt).is_quiet()
    }

    /// Settles the slice with all its ports, each borrowed from its holder: returns the value of each counter of it,
    /// ascending by word. The ports' receipts are then exactly the slice's log, as it was asked for. It allocates
    /// nothing, and leaves the ports as they were.
    pub fn settle<R: Wait, T: Lends<Port<N>, K>, const K: usize>(
        &self,
        rt: &R,
        ports: &mut [T],
    ) -> Result<ArrayVec<u64, 8>, Unsettled>
        requires whole { length ports.old ≡ N.setup.cores }
        ensures settled { IfOk result (λ values. AreSettled N.setup N.number (map T.part ports.old) values.items) }
        ensures ports { ports.new ≡ ports.old }
    {
        self.booked.lock(rt).settle(ports)
    }

    /// Asks a question about the state while the lock is held, and returns the answer.
    pub fn inspect<R: Wait, Q: Question<F>>(&self, rt: &R, question: Q) -> Q::Answer {
        question.ask(self.look(rt).state())
    }

    /// Takes the lock for a look at the state, and keeps it until the look is dropped. No other call on this slice gets
    /// on meanwhile.
    pub fn look<R: Wait>(&self, rt: &R) -> Look<'_, F, N> {
        Look {
            booked: self.booked.lock(rt),
        }
    }
}

/// A look at a slice's state while its lock is held.
#[derive(Drop)]
pub struct Look<'a, F: MissFile, N: SliceNames> {
    booked: MutexGuard<'a, Booked<F, N>>,
}

impl<F: MissFile, N: SliceNames> Look<'_, F, N> {
    /// Returns the state. The caller may rely on all that holds of it after every call.
    pub fn state(&self) -> &SliceState<F>
        ensures { IsShown N.setup (F.bound_by N.setup) N.number result.now }
    {
        self.booked.state()
    }
}
