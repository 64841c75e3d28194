ghost use Rattle.std.specs.Prelude.{◌≡◌, ◌++◌, ◌<◌, ◌%◌, IfOk, IfSome, List, OnOk, Some, length, slice_get, slice_index_or};
ghost use Rattle.address_map.specs.declared.config.Config.{Config};
ghost use Rattle.address_map.specs.Place.{line_of as line_of_word};
ghost use Rattle.litmus_script.specs.Issued.{IsIssued};
ghost use Rattle.litmus_script.specs.Machine.{IsAnswered};
ghost use Rattle.litmus_text.specs.Command.{HasCore};
ghost use Rattle.slice_core.specs.declared.run.Call.TheVariants as slice_calls;
ghost use Rattle.slice_core.specs.declared.run.CallAnswer.TheVariants as call_answers;
ghost use Rattle.slice_core_spec.specs.Calls.{PartsView, core_of, next_pick};
ghost use Rattle.slice_queues.specs.Pick.{channel_of, line_of};
ghost use Rattle.slice_queues.specs.declared.channel.Class.TheVariants as classes;
ghost use Rattle.program_run.specs.Front.{AreIdle, HasIdleFront, LooksAgain, LooksBehind, delivery_if};
ghost use Rattle.program_run.specs.Kept.{AreDecided, KeepsOthers, Knows};
ghost use Rattle.program_run.specs.Run.{decision_on, delivery_of, waiting_in};

use super::front::{lines_before, list_waiting, next_delivery};
use super::moves::{Move, decide};
use address_map::{CoreId, LineAddr, Request, SliceId};
use litmus_script::{Issued, Machine};
use slice_core::{Decision, Delivered, Numbered, Pick};
use std::alloc::{AllocError, Global};

/// What the machine decides of a request.
#[derive(Clone, Copy)]
pub(crate) struct Decided {
    pub request: Request,
    pub decision: Decision,
}

/// What the machine decided of each core's next access, as long as that holds: until a call changes what the core has.
/// And which lines need no look for a next delivery.
#[derive(Drop)]
pub(crate) struct Kept {
    decided: Vec<Option<Decided>>,
    /// For each slice, how many lines at the front of its ring are idle.
    idle: Vec<usize>,
}

impl Kept {
    /// Nothing is known of `cores` cores and `slices` slices.
    pub fn new(alloc: Global, cores: usize, slices: usize) -> Result<Self, AllocError>
        ensures { IfOk result
            (λ kept. (config : Config) (slices : List PartsView) → Knows config slices kept) }
    {
        Ok(Kept {
            decided: vec![in alloc; None; cores]?,
            idle: vec![in alloc; 0; slices]?,
        })
    }

    /// Returns what the machine decides of an access.
    pub fn decide(&mut self, machine: &Machine, core: CoreId, request: Request) -> Decision
        requires core { HasCore machine.now.config core }
        requires kept { Knows machine.now.config machine.now.slices.items self.old }
        ensures decided { decision_on machine.now.config machine.now.slices.items core request ≡ Some result }
        ensures kept { Knows machine.now.config machine.now.slices.items self.new }
    {
        match self.known(core, request) {
            Some(decision) => decision,
            None => self.decide_anew(machine, core, request),
        }
    }

    fn known(&self, core: CoreId, request: Request) -> Option<Decision>
        ensures { IfSome result (λ decision. (config : Config) (slices : List PartsView)
            → Knows config slices self.now → decision_on config slices core request ≡ Some decision) }
    {
        let Some(Some(known)) = self.decided.get(core.0 as usize) else {
            return None;
        };
        if known.request != request {
            return None;
        }
        Some(known.decision)
    }

    fn decide_anew(&mut self, machine: &Machine, core: CoreId, request: Request) -> Decision
        requires core { HasCore machine.now.config core }
        requires kept { Knows machine.now.config machine.now.slices.items self.old }
        ensures decided { decision_on machine.now.config machine.now.slices.items core request ≡ Some result }
        ensures kept { Knows machine.now.config machine.now.slices.items self.new }
    {
        let decision = decide(machine, core, request);
        self.keep(core, Decided { request, decision });
        decision
    }

    fn keep(&mut self, core: CoreId, decided: Decided)
        ensures { (config : Config) (slices : List PartsView) → Knows config slices self.old
            → decision_on config slices core decided.request ≡ Some decided.decision
            → Knows config slices self.new }
    {
        let place = core.0 as usize;
        if place >= self.decided.len() {
            return;
        }
        self.decided[place] = Some(decided);
    }

    // Forgets what was decided of the core.
    fn forget(&mut self, core: CoreId)
        ensures decided { (config : Config) (old new : List PartsView) → AreDecided config old self.old.decided.items
            → KeepsOthers config core old new → AreDecided config new self.new.decided.items }
        ensures idle { self.new.idle ≡ self.old.idle }
    {
        let place = core.0 as usize;
        if place >= self.decided.len() {
            return;
        }
        self.decided[place] = None;
    }

    /// Forgets all that is known.
    pub fn forget_all(&mut self)
        ensures { (config : Config) (slices : List PartsView) → Knows config slices self.new }
    {
        self.forget_cores();
        self.forget_slices();
    }

    fn forget_cores(&mut self)
        ensures decided { (config : Config) (slices : List PartsView)
            → AreDecided config slices self.new.decided.items }
        ensures idle { self.new.idle ≡ self.old.idle }
    {
        for place in 0..self.decided.len() {
            self.decided[place] = None;
        }
    }

    fn forget_slices(&mut self)
        ensures idle { (slices : List PartsView) → AreIdle self.new.idle.items slices }
        ensures decided { self.new.decided ≡ self.old.decided }
    {
        for slice in 0..self.idle.len() {
            self.idle[slice] = 0;
        }
    }

    /// Returns the next delivery of a slice, if one can be made.
    pub fn next(&mut self, machine: &Machine, slice: usize) -> Option<Pick>
        requires slice { slice < length machine.now.slices.items }
        requires kept { Knows machine.now.config machine.now.slices.items self.old }
        ensures next { IfSome (slice_get machine.now.slices.items slice)
            (λ state. delivery_of (next_pick state classes.Any) ≡ delivery_if result) }
        ensures kept { Knows machine.now.config machine.now.slices.items self.new }
    {
        let mut idle = self.idle_of(slice);
        let next = next_delivery(&machine.slices[slice], &mut idle);
        self.keep_idle(slice, idle);
        next
    }

    /// Lists the deliveries that a slice can be asked for.
    pub fn list_waiting(
        &mut self,
        machine: &Machine,
        slice: usize,
        moves: &mut Vec<Move>,
    ) -> Result<(), AllocError>
        requires slice { slice < length machine.now.slices.items }
        requires kept { Knows machine.now.config machine.now.slices.items self.old }
        ensures moves { OnOk result (IfSome (slice_get machine.now.slices.items slice)
            (λ state. moves.new.items ≡ moves.old.items ++ waiting_in state)) }
        ensures kept { OnOk result (Knows machine.now.config machine.now.slices.items self.new) }
    {
        let mut idle = self.idle_of(slice);
        list_waiting(&machine.slices[slice], &mut idle, moves)?;
        self.keep_idle(slice, idle);
        Ok(())
    }

    // Returns how many lines at the front of the slice's ring are idle.
    fn idle_of(&self, slice: usize) -> usize
        ensures { result ≡ slice_index_or self.now.idle.items slice 0 }
    {
        match self.idle.get(slice) {
            Some(count) => *count,
            None => 0,
        }
    }

    fn keep_idle(&mut self, slice: usize, idle: usize)
        ensures decided { self.new.decided ≡ self.old.decided }
        ensures idle { (slices : List PartsView) (state : PartsView) → slice_get slices slice ≡ Some state
            → HasIdleFront idle state → AreIdle self.old.idle.items slices → AreIdle self.new.idle.items slices }
    {
        if slice >= self.idle.len() {
            return;
        }
        self.idle[slice] = idle;
    }

    // Lines to which an access may have sent something are looked at again.
    fn look_again(&mut self, machine: &Machine, core: CoreId, line: LineAddr, issued: Issued)
        requires { HasCore machine.now.config core }
        ensures decided { self.new.decided ≡ self.old.decided }
        ensures idle { LooksAgain machine.now.slices.items (line.0 % machine.now.config.slices) core line issued
            self.old.idle.items self.new.idle.items }
    {
        match issued {
            Issued::Pending(_) => self.look_behind(machine, core, line),
            Issued::Done { .. } | Issued::Stall(_) | Issued::Refused(_) => {}
        }
    }

    // Only the idle lines before this one, and before the one that was evicted last, still count.
    fn look_behind(&mut self, machine: &Machine, core: CoreId, line: LineAddr)
        requires { HasCore machine.now.config core }
        ensures decided { self.new.decided ≡ self.old.decided }
        ensures idle { LooksBehind machine.now.slices.items (line.0 % machine.now.config.slices) core line
            self.old.idle.items self.new.idle.items }
    {
        let slice = machine.slice_of(line);
        if slice >= self.idle.len() {
            return;
        }
        let left = machine.slices[slice].last_written_back(core);
        let count = lines_before(&machine.slices[slice], self.idle[slice], line, left);
        self.idle[slice] = count;
    }
}

/// The calls of the machine, and what holds after them.
impl Kept {
    pub fn issue(
        &mut self,
        machine: &mut Machine,
        core: CoreId,
        request: Request,
    ) -> Result<Issued, AllocError>
        requires core { HasCore machine.old.config core }
        requires kept { Knows machine.old.config machine.old.slices.items self.old }
        ensures config { machine.new.config ≡ machine.old.config }
        ensures issued { IfOk result (λ issued. IsIssued ((line_of_word request.word).0 % machine.old.config.slices)
            core request issued machine.old.slices.items machine.new.slices.items) }
        ensures kept { OnOk result (Knows machine.old.config machine.new.slices.items self.new) }
    {
        self.forget(core);
        match machine.issue(core, request) {
            Ok(issued) => {
                self.look_again(machine, core, request.word.line(), issued);
                Ok(issued)
            }
            Err(_) => Err(AllocError),
        }
    }

    pub fn deliver(&mut self, machine: &mut Machine, pick: Pick) -> Delivered
        requires { Knows machine.old.config machine.old.slices.items self.old }
        ensures config { machine.new.config ≡ machine.old.config }
        ensures answered { IsAnswered ((line_of pick).0 % machine.old.config.slices) (slice_calls.Deliver pick)
            (call_answers.Deliver result) machine.old.slices.items machine.new.slices.items }
        ensures kept { Knows machine.old.config machine.new.slices.items self.new }
    {
        self.forget(core_of(pick));
        machine.deliver(pick)
    }

    pub fn hand(&mut self, machine: &mut Machine, core: CoreId, slice: SliceId) -> Option<Numbered>
        requires core { HasCore machine.old.config core }
        requires slice { slice.0 < machine.old.config.slices }
        requires kept { Knows machine.old.config machine.old.slices.items self.old }
        ensures config { machine.new.config ≡ machine.old.config }
        ensures answered { IsAnswered slice.0 (slice_calls.Hand core) (call_answers.Hand result)
            machine.old.slices.items machine.new.slices.items }
        ensures kept { Knows machine.old.config machine.new.slices.items self.new }
    {
        self.forget(core);
        machine.hand(core, slice)
    }
}

// The core at the pick's channel. A block on its way home changes what no core has.
fn core_of(pick: Pick) -> CoreId
    ensures { result ≡ core_of (channel_of pick) }
{
    match pick {
        Pick::Req(_, core) | Pick::Fwd(_, core) | Pick::Data(_, core) => core,
        Pick::Ack { to, .. } => to,
        Pick::Home(_) => CoreId(0),
    }
}
