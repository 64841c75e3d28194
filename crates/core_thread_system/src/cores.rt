ghost use Rattle.std.specs.Prelude.{◌≡◌, ◌+◌, ◌<◌, ◌≤◌, ◌%◌, slice_get, Err, None, IfSome, OnErr, OnOk};
ghost use Rattle.core_thread_system.specs.Answers.{AfterCollect, AfterIssue, IsAtItsSlice, IsJudgedThere, refusal_of};
ghost use Rattle.core_thread_system.specs.Answers.{tags_after};
ghost use Rattle.core_thread_system.specs.Core.{accepted_of, asked_of, core_of, port_at, receipts_of, with_port};
ghost use Rattle.receipt_ledger.specs.Answers.{AfterReply, AfterRequest, IsJudged};
ghost use Rattle.receipt_ledger.specs.Port.{AreOwn, with_seen};
ghost use Rattle.slice_answer.specs.declared.answer.Evicted.TheVariants.{NotHeld};
ghost use Rattle.slice_core.specs.Facts.{IsNotBrokenNext};

use super::look::SystemLook;
use super::names::SystemNames;
use super::port_set::PortSet;
use super::system::System;
use super::tags::{has_tag, with_tag, without_tag};
use address_map::{CoreId, LineAddr, Request, SliceId};
use mshr_file::MissFile;
use receipt_ledger::{Answer, Ask, LearnError, Port, Receipt, SliceNames};
use slice_answer::{DeliveredNext, Evicted, Refused};
use slice_lock::{Question, Slice};
use slice_queues::Class;
use std::marker::Model;
use std::sync::Wait;

/// A core in the hands of one thread: its port of each slice, and its tags in flight. Contracts see a `CoreView`.
#[derive(Drop)]
pub struct Core<'a, F: MissFile, M: SystemNames> {
    system: &'a System<F, M>,
    core: CoreId,
    pub(crate) port0: Port<M::S0>,
    pub(crate) port1: Port<M::S1>,
    pub(crate) port2: Port<M::S2>,
    pub(crate) port3: Port<M::S3>,
    tags: u64,
    /// The slice that is asked first for a reply.
    next: u8,
}

impl<'a, F: MissFile, M: SystemNames> Model for Core<'a, F, M> {
    ghost use Rattle.core_thread_system.specs.Core.{CoreView};

    ghost Value = { CoreView };

    ghost view = { λ c. record {
      core = c.core;
      p0 = c.port0;
      p1 = c.port1;
      p2 = c.port2;
      p3 = c.port3;
      tags = c.tags;
      next = c.next;
    } };

    ghost use Rattle.std.specs.Prelude.{◌<◌};

    ghost invariant = { λ c. c.core.0 < M.setup.cores };
}

// Does something with the slice of a number and the core's port of it.
macro_rules! at_slice {
    ($core:expr, $slice:expr, |$at:ident, $port:ident| $body:expr) => {{
        let system = $core.system;
        let _few = system.slices();
        match $slice.0 {
            0 => {
                let $at = system.slice0();
                let $port = &mut $core.port0;
                $body
            }
            1 => {
                let $at = system.slice1();
                let $port = &mut $core.port1;
                $body
            }
            2 => {
                let $at = system.slice2();
                let $port = &mut $core.port2;
                $body
            }
            3 => {
                let $at = system.slice3();
                let $port = &mut $core.port3;
                $body
            }
            _ => unreachable!(),
        }
    }};
}

impl<'a, F: MissFile, M: SystemNames> Core<'a, F, M> {
    /// Returns a core with these ports, and no tag in flight.
    pub fn new(system: &'a System<F, M>, ports: PortSet<M>) -> Core<'a, F, M>
        ensures { result ≡ core_of ports }
    {
        let PortSet {
            core,
            port0,
            port1,
            port2,
            port3,
        } = ports;
        Core {
            system,
            core,
            port0,
            port1,
            port2,
            port3,
            tags: 0,
            next: 0,
        }
    }

    /// Returns its number.
    pub fn core(&self) -> CoreId
        ensures core { result ≡ self.now.core }
        ensures known { result.0 < M.setup.cores }
    {
        self.core
    }

    /// Returns the tags of its requests that wait or aren't handed out: bit t for tag t.
    pub fn tags_in_flight(&self) -> u64
        ensures { result ≡ self.now.tags }
    {
        self.tags
    }

    /// Returns its receipts of a slice, in the order in which they were handed out.
    pub fn receipts(&self, slice: SliceId) -> &[Receipt]
        ensures receipts { result.now ≡ receipts_of self.now slice.0 }
        ensures own { AreOwn M.setup slice.0 (port_at self.now slice.0).core result.now }
    {
        match slice.0 {
            0 => self.port0.receipts(),
            1 => self.port1.receipts(),
            2 => self.port2.receipts(),
            3 => self.port3.receipts(),
            _ => &[],
        }
    }

    /// Returns its request that a slice accepted as the one of this number, counted from 0, with what the core had seen
    /// of the slice's log by then.
    pub fn asked(&self, slice: SliceId, seq: u64) -> Option<Ask>
        ensures { result ≡ slice_get (asked_of self.now slice.0) seq }
    {
        match slice.0 {
            0 => self.port0.asked(seq),
            1 => self.port1.asked(seq),
            2 => self.port2.asked(seq),
            3 => self.port3.asked(seq),
            _ => None,
        }
    }

    /// Returns how many requests a slice accepted.
    pub fn accepted(&self, slice: SliceId) -> u64
        ensures { result ≡ accepted_of self.now slice.0 }
    {
        match slice.0 {
            0 => self.port0.accepted(),
            1 => self.port1.accepted(),
            2 => self.port2.accepted(),
            3 => self.port3.accepted(),
            _ => 0,
        }
    }

    /// Asks the slice of the request's word for it. A word past the memory, a tag above 63 and a tag in flight in any
    /// slice are refused, in this order, and no slice is asked.
    pub fn issue<R: Wait>(&mut self, rt: &R, request: Request) -> Result<Answer, Refused>
        ensures core { AfterIssue M.setup self.old request result self.new }
        ensures judged { IsJudgedThere M.setup request result }
        ensures slice { IsAtItsSlice result }
    {
        if let Some(refused) = self.refusal(request) {
            return Err(refused);
        }
        let slice = self.system.slice_of(request.word.line());
        let answer = self.ask(rt, slice, request);
        if let Ok(Answer::Pending) = answer {
            self.tags = with_tag(self.tags, request.tag);
        }
        answer
    }

    // Why the core itself refuses a request, if it does.
    #[tactic(auto, unfolding(crate::specs::Answers::refusal_of))]
    fn refusal(&self, request: Request) -> Option<Refused>
        ensures first { result ≡ refusal_of M.setup self.now.tags request }
        ensures judged { IfSome result (λ refused. IsJudgedThere M.setup request (Err refused)) }
        ensures slice { IfSome result (λ refused. IsAtItsSlice (Err refused)) }
    {
        if request.word.0 >= self.system.words() {
            Some(Refused::OutOfRange)
        } else if request.tag >= 64 {
            Some(Refused::TagRange)
        } else if has_tag(self.tags, request.tag) {
            Some(Refused::TagBusy)
        } else {
            None
        }
    }

    // Asks the slice of this number.
    fn ask<R: Wait>(&mut self, rt: &R, slice: SliceId, request: Request) -> Result<Answer, Refused>
        requires { slice.0 < M.setup.slices }
        ensures port { AfterRequest (port_at self.old slice.0) request result (port_at self.new slice.0) }
        ensures judged { IsJudged M.setup slice.0 request result }
        ensures others { self.new ≡ with_port self.old slice.0 (port_at self.new slice.0) }
    {
        at_slice!(self, slice, |at, port| at.issue(rt, port, request))
    }

    /// Returns how many slices the system has.
    pub(crate) fn slices(&self) -> usize
        ensures slices { result ≡ M.setup.slices }
        ensures some { 1 ≤ result }
        ensures few { result ≤ 4 }
    {
        self.system.slices()
    }

    /// Takes the next reply: each slice is asked once, beginning after the one that gave last, until one gives.
    pub fn collect<R: Wait>(&mut self, rt: &R) -> Option<Receipt>
        ensures { AfterCollect M.setup self.old result self.new }
    {
        let slices = self.system.slices();
        let first = usize::from(self.next);
        for turn in 0..slices {
            let slice = SliceId(((first + turn) % slices) as u8);
            let received = self.collect_from(rt, slice);
            if received.is_some() {
                return received;
            }
        }
        None
    }

    // Takes the next reply of the slice of this number.
    fn collect_from<R: Wait>(&mut self, rt: &R, slice: SliceId) -> Option<Receipt>
        requires { slice.0 < M.setup.slices }
        ensures { AfterCollect M.setup self.old result self.new }
    {
        match self.receive(rt, slice) {
            Some(receipt) => {
                self.tags = without_tag(self.tags, receipt.entry.tag);
                self.next = self.system.after(slice);
                Some(receipt)
            }
            None => None,
        }
    }

    // The same, as far as the port goes.
    fn receive<R: Wait>(&mut self, rt: &R, slice: SliceId) -> Option<Receipt>
        requires { slice.0 < M.setup.slices }
        ensures port { AfterReply (port_at self.old slice.0) result (port_at self.new slice.0) }
        ensures others { self.new ≡ with_port self.old slice.0 (port_at self.new slice.0) }
        ensures slice { IfSome result (λ r. r.slice.0 ≡ slice.0) }
    {
        at_slice!(self, slice, |at, port| receive_from(rt, at, port))
    }

    /// Notifies the core of a receipt that another core got: its port of the receipt's slice learns from it. One that
    /// the slice's log doesn't have, or of a slice that isn't there, is `Unknown`.
    pub fn learn<R: Wait>(&mut self, rt: &R, receipt: &Receipt) -> Result<(), LearnError>
        ensures slice { OnOk result (receipt.now.slice.0 < M.setup.slices) }
        ensures learnt { OnOk result (self.new ≡ with_port self.old receipt.now.slice.0
            (with_seen (port_at self.old receipt.now.slice.0) receipt.now.number)) }
        ensures unknown { OnErr result (self.new ≡ self.old) }
    {
        let slice = receipt.slice;
        if usize::from(slice.0) >= self.system.slices() {
            return Err(LearnError::Unknown);
        }
        at_slice!(self, slice, |at, port| at.learn(rt, port, receipt))
    }

    /// Evicts its copy of a line, or says why not. No core holds a line past the memory.
    pub fn evict<R: Wait>(&mut self, rt: &R, line: LineAddr) -> Evicted
        ensures past { M.setup.lines ≤ line.0 → result ≡ NotHeld }
        ensures same { self.new ≡ self.old }
    {
        if line.0 >= self.system.config().lines() as u64 {
            return Evicted::NotHeld;
        }
        let slice = self.system.slice_of(line);
        at_slice!(self, slice, |at, port| at.evict(rt, port, line))
    }

    /// Makes one delivery of the class in a slice, where one can be made.
    pub fn deliver_next<R: Wait>(&self, rt: &R, slice: SliceId, class: Class) -> DeliveredNext
        requires { slice.0 < M.setup.slices }
        ensures { IsNotBrokenNext result }
    {
        self.system.deliver_next(rt, slice, class)
    }

    /// Asks a question about a slice's state while its lock is held, and returns the answer.
    pub fn inspect<R: Wait, Q: Question<F>>(&self, rt: &R, slice: SliceId, question: Q) -> Q::Answer
        requires { slice.0 < M.setup.slices }
    {
        question.ask(self.look(rt, slice).state())
    }

    /// Takes a slice's lock for a look at its state, and keeps it until the look is dropped.
    pub fn look<'l, R: Wait>(&'l self, rt: &R, slice: SliceId) -> SystemLook<'l, F, M>
        requires { slice.0 < M.setup.slices }
        ensures { result ≡ slice }
    {
        self.system.look(rt, slice)
    }

    /// Takes the next reply, and then makes one delivery in each slice.
    pub fn turn<R: Wait>(&mut self, rt: &R) -> Option<Receipt>
        ensures { AfterCollect M.setup self.old result self.new }
    {
        let received = self.collect(rt);
        for slice in 0..self.system.slices() {
            let _ = self.deliver_next(rt, SliceId(slice as u8), Class::Any);
        }
        received
    }
}

// Takes the next reply of a slice, which is the port's.
fn receive_from<F: MissFile, N: SliceNames, R: Wait>(
    rt: &R,
    slice: &Slice<F, N>,
    port: &mut Port<N>,
) -> Option<Receipt>
    ensures port { AfterReply port.old result port.new }
    ensures slice { IfSome result (λ r. r.slice.0 ≡ N.number) }
{
    let _named = port.slice();
    slice.collect(rt, port)
}
