ghost use Rattle.std.specs.Prelude.{◌≡◌, ℕ, ◌<◌, ◌↔◌, [], ◌∷◌, length, slice_get, All, IfNone, IfOk, IfSome, IsTrue};
ghost use Rattle.std.specs.Prelude.{IsSome, None};
ghost use Rattle.address_map.specs.Locator.{local_at};
ghost use Rattle.address_map.specs.Place.{line_of};
ghost use Rattle.slice_core.specs.Facts.{copy_at, targets_at, AreWaitingAt, HasEachFrontOnce, Holds, IsInverted};
ghost use Rattle.slice_core.specs.Facts.{IsNotBroken, IsNotBrokenNext, IsSameSlice, LeavesVictim, NeedsNoRegister};
ghost use Rattle.slice_core.specs.Facts.{ShowsLast, ShowsLine, ShowsWord, front_at};
ghost use Rattle.slice_core.specs.NewLog.{AfterBeginLog, BeginsAnewIf};
ghost use Rattle.slice_core.specs.Run.{AfterCall, HasCore, HasCores, IsOneRun, IsUnbroken, Runs};
ghost use Rattle.slice_core_cache.specs.CoreCache.{tag_at};
ghost use Rattle.slice_core_theory.specs.SmallMachine.{IsSame, new_small_machine};
ghost use Rattle.slice_core_theory.specs.Shows.{Leads, Performs, hand_steps, issue_steps, next_of, small_machine_of};
ghost use Rattle.slice_core_spec.specs.Decision.{decision_of};
ghost use Rattle.slice_core_spec.specs.Calls.{PartsView, AfterDeliverNext, AfterDelivery, AfterEvict, AfterHand};
ghost use Rattle.slice_core_spec.specs.Calls.{AfterIssue, IsNew, IsNextPick, next_pick};
ghost use Rattle.slice_core_spec.specs.Plan.{planned_at};
ghost use Rattle.slice_core_spec.specs.Turn.{ServesInTurn};
ghost use Rattle.slice_core_spec.specs.Parts.{ring_lines};
ghost use Rattle.slice_core_spec.specs.View.{View, IsQuiet, cache_at};
ghost use Rattle.slice_core_exec.specs.CoreLines.{last_written_back, lines_of_core};
ghost use Rattle.slice_queues.specs.Waiting.{lines_waiting};
ghost use Rattle.slice_queues.specs.Pick.{channel_of, line_of as line_of_pick};

use super::run::{Call, CallAnswer};
use address_map::{Checked, CoreId, LineAddr, Request, SliceId, WordAddr};
use arrayvec::ArrayVec;
use mshr_file::{MissFile, Target};
use slice_answer::{Delivered, DeliveredNext, Evicted, Issue, Refused, Stats};
use slice_core_cache::{CacheCopy, TagState};
use slice_core_exec::{CoreLines, LineView, Parts};
use slice_core_spec::{Decision, Plan};
use slice_log::{Entry, Numbered};
use slice_queues::{Class, LineWaiting, Message, Pick, Picks};
use std::alloc::{AllocError, Global};
use std::marker::Model;

/// One slice: its directory, what each core has of its lines, the messages in flight and the log.
#[derive(Drop)]
pub struct SliceState<F: MissFile> {
    parts: Parts<F>,
}

impl<F: MissFile> Model for SliceState<F> {
    ghost use Rattle.slice_core_spec.specs.Calls.{PartsView};

    ghost Value = { PartsView };

    ghost use Rattle.slice_core.specs.Sound.{IsSound};

    ghost view = { λ s. s.parts };

    ghost invariant = { λ s. IsSound s.parts };
}

impl<F: MissFile> SliceState<F> {
    /// Returns a slice of the configured machine, with its initial values, in which nothing was requested yet.
    pub fn build(alloc: Global, config: &Checked, slice: SliceId) -> Result<Self, AllocError>
        requires { slice.0 < config.now.slices }
        ensures new { IfOk result (IsNew config.now (F.bound_by config.now) slice) }
        ensures machine { IfOk result (λ p. IsSame new_small_machine (small_machine_of p.view)) }
        ensures holds { IfOk result Holds }
    {
        let empty = F::make(alloc, config)?;
        Self::build_like(alloc, config, slice, &empty)
    }

    /// The same, but its cores keep their misses in files like this one, which is empty.
    pub fn build_like(
        alloc: Global,
        config: &Checked,
        slice: SliceId,
        empty: &F,
    ) -> Result<Self, AllocError>
        requires slice { slice.0 < config.now.slices }
        requires empty { F.misses empty.now ≡ [] }
        ensures new { IfOk result (IsNew config.now (F.bound empty.now) slice) }
        ensures machine { IfOk result (λ p. IsSame new_small_machine (small_machine_of p.view)) }
        ensures holds { IfOk result Holds }
    {
        Ok(SliceState {
            parts: Parts::new(alloc, config, slice, empty)?,
        })
    }

    /// Returns a copy of the slice, in memory of its own.
    pub fn try_clone(&self, alloc: Global) -> Result<Self, AllocError>
        ensures { IfOk result (λ copy. copy ≡ self.now) }
    {
        Ok(SliceState {
            parts: self.parts.try_clone(alloc)?,
        })
    }

    /// Accepts a request of a core, or says why not. A request that hits is performed and handed out by this call;
    /// one that misses becomes a target, and waits for messages to be delivered. The log grows first, so that no
    /// delivery, eviction or hand allocates.
    pub fn issue(&mut self, core: CoreId, request: Request) -> Result<Issue, Refused>
        requires { core.0 < length self.old.view.caches }
        ensures step { AfterIssue self.old core request result self.new }
        ensures machine { Leads (issue_steps (next_of self.old.view core request) result) self.old.view self.new.view }
        ensures unbounded { IsInverted self.old.view core → NeedsNoRegister result }
        ensures victim { LeavesVictim (decision_of self.old.view core request) self.old.view core result
            self.new.view }
        ensures same { IsSameSlice self.old self.new }
        ensures holds { Holds self.new }
    {
        self.parts.issue(core, request)
    }

    /// Evicts the core's copy of a line, or says why not.
    pub fn evict(&mut self, core: CoreId, line: LineAddr) -> Evicted
        requires { core.0 < length self.old.view.caches }
        ensures step { AfterEvict self.old core line result self.new }
        ensures machine { Leads [] self.old.view self.new.view }
        ensures same { IsSameSlice self.old self.new }
        ensures holds { Holds self.new }
    {
        self.parts.evict(core, line)
    }

    /// Takes the front message of a channel and does its row of the tables, where there is one.
    pub fn deliver(&mut self, pick: Pick) -> Delivered
        ensures step { AfterDelivery self.old pick result self.new }
        ensures machine { Performs self.old.view self.new.view }
        ensures unbroken { IsNotBroken result }
        ensures same { IsSameSlice self.old self.new }
        ensures holds { Holds self.new }
    {
        self.parts.deliver(pick)
    }

    /// Makes the delivery of the class that [`SliceState::next`] names, where one can be made. Lines are served in
    /// turn: one with messages that can be moved is passed over by no more such calls than lines are in front of it
    /// in the ring (`lines_are_served_in_turn` of `slice_core_spec`).
    pub fn deliver_next(&mut self, class: Class) -> DeliveredNext
        ensures step { AfterDeliverNext self.old class result self.new }
        ensures turn { ServesInTurn self.old class result self.new }
        ensures machine { Performs self.old.view self.new.view }
        ensures unbroken { IsNotBrokenNext result }
        ensures same { IsSameSlice self.old self.new }
        ensures holds { Holds self.new }
    {
        self.parts.deliver_next(class)
    }

    /// Hands out the core's performed entry of the least number that isn't handed out yet. Its tag is then free.
    pub fn hand(&mut self, core: CoreId) -> Option<Numbered>
        requires { core.0 < length self.old.view.caches }
        ensures step { AfterHand self.old core result self.new }
        ensures core { IfSome result (λ given. given.entry.core ≡ core) }
        ensures machine { Leads (hand_steps result) self.old.view self.new.view }
        ensures same { IsSameSlice self.old self.new }
        ensures holds { Holds self.new }
    {
        self.parts.hand(core)
    }

    /// Begins a new log where the slice is quiet, and changes nothing where it isn't, or where an allocation fails.
    /// Returns whether it is quiet. Each word begins with the value that it has, and requests, entries and all that is
    /// counted are numbered from 0 again; copies stay where they are. So the memory of a long run is bounded.
    pub fn begin_log(&mut self, alloc: Global) -> Result<bool, AllocError>
        ensures step { AfterBeginLog self.old result self.new }
        ensures anew { BeginsAnewIf self.old result self.new }
        ensures same { IsSameSlice (record self.old { view = record self.old.view { init = self.new.view.init } })
            self.new }
        ensures holds { Holds self.new }
    {
        if !self.parts.is_quiet() {
            return Ok(false);
        }
        self.parts.begin_log(alloc)?;
        Ok(true)
    }

    /// Makes the calls in order, and writes each one's answer at its place.
    pub fn run(&mut self, calls: &[Call], answers: &mut [CallAnswer])
        requires places { length answers.old ≡ length calls.now }
        requires known { HasCores (length self.old.view.caches) calls.now }
        ensures run { Runs self.old calls.now answers.new self.new }
        ensures machine { IsOneRun self.old calls.now answers.new self.new }
        ensures unbroken { All IsUnbroken answers.new }
        ensures same { IsSameSlice self.old self.new }
        ensures holds { Holds self.new }
    {
        for (place, call) in calls.iter().enumerate() {
            answers[place] = self.call(call);
        }
        // What holds after every call holds where none was made, by the invariant.
        let _ = &self.parts;
    }

    /// Makes one call.
    fn call(&mut self, call: &Call) -> CallAnswer
        requires { HasCore (length self.old.view.caches) call.now }
        ensures step { AfterCall self.old call.now result self.new }
        ensures machine { IsOneRun self.old (call.now ∷ []) (result ∷ []) self.new }
        ensures unbroken { IsUnbroken result }
        ensures same { IsSameSlice self.old self.new }
    {
        match *call {
            Call::Issue { core, request } => CallAnswer::Issue(self.issue(core, request)),
            Call::Evict { core, line } => CallAnswer::Evict(self.evict(core, line)),
            Call::Deliver(pick) => CallAnswer::Deliver(self.deliver(pick)),
            Call::DeliverNext(class) => CallAnswer::DeliverNext(self.deliver_next(class)),
            Call::Hand(core) => CallAnswer::Hand(self.hand(core)),
        }
    }

    /// Returns how many cores the slice knows.
    pub fn cores(&self) -> usize
        ensures { result ≡ length self.now.view.caches }
    {
        self.parts.caches().len()
    }

    /// Returns what was performed, in order.
    pub fn log(&self) -> &[Entry]
        ensures log { result.now ≡ self.now.view.log }
        ensures holds { Holds self.now }
    {
        self.parts.log()
    }

    /// Returns the configured initial values of the slice's words, ascending. Every other word began as 0.
    pub fn init(&self) -> &[(WordAddr, u64)]
        ensures { result.now ≡ self.now.view.init }
    {
        self.parts.init()
    }

    /// Returns what was counted.
    pub fn stats(&self) -> &Stats
        ensures stats { result.now ≡ self.now.stats }
        ensures cores { length result.now.cores ≡ length self.now.view.caches }
    {
        self.parts.stats()
    }

    /// Whether no message is in flight, no miss register is held, no write-back is pending and each reply is handed
    /// out.
    pub fn is_quiet(&self) -> bool
        ensures { IsTrue result ↔ IsQuiet self.now.view }
    {
        self.parts.is_quiet()
    }

    /// The value of a word of a quiet slice: the owner's copy has it where its line has an owner, else the home copy.
    pub fn word_now(&self, word: WordAddr) -> u64
        requires quiet { IsQuiet self.now.view }
        requires here { IsSome (local_at self.now.view.lines (line_of word).0) }
        ensures shown { ShowsWord self.now.view word (local_at self.now.view.lines (line_of word).0) result }
        ensures newest { ShowsLast self.now.view word (local_at self.now.view.lines (line_of word).0) result }
    {
        match self.parts.lines().local_of(word.line()) {
            Some(local) => self.parts.word_now(local, word.offset()),
            None => unreachable!(),
        }
    }

    /// Returns what the slice has of a line: none for a line that isn't the slice's.
    pub fn line_view(&self, line: LineAddr) -> Option<LineView>
        ensures { ShowsLine self.now.view (local_at self.now.view.lines line.0) result }
    {
        let local = self.parts.lines().local_of(line)?;
        Some(self.parts.line_view(local))
    }

    /// Returns a core's copy of a line, which is in its array, in its write-back buffer, or nowhere. None for
    /// a line that isn't the slice's.
    pub fn copy(&self, core: CoreId, line: LineAddr) -> Option<CacheCopy>
        requires { core.0 < length self.now.view.caches }
        ensures { result ≡ copy_at self.now.view core (local_at self.now.view.lines line.0) }
    {
        let local = self.parts.lines().local_of(line)?;
        Some(self.parts.caches()[core.0 as usize].copy(local))
    }

    /// Returns the accesses of a core that wait for a line, the oldest first: the targets of its miss register, where
    /// it has one.
    pub fn targets(&self, core: CoreId, line: LineAddr) -> ArrayVec<Target, 64>
        requires { core.0 < length self.now.view.caches }
        ensures { result.items ≡ targets_at self.now.view core (local_at self.now.view.lines line.0) }
    {
        match self.parts.lines().local_of(line) {
            Some(local) => self.parts.caches()[core.0 as usize].targets(local),
            None => ArrayVec::new(),
        }
    }

    /// Returns some of the lines that a core has a copy of, each once. It looks at the core's miss registers, its
    /// write-back buffer or the one set, and at no other line.
    pub fn core_lines(
        &self,
        alloc: Global,
        core: CoreId,
        which: CoreLines,
    ) -> Result<Vec<LineAddr>, AllocError>
        requires { core.0 < length self.now.view.caches }
        ensures { IfOk result (λ lines. lines.items ≡ lines_of_core self.now.view core which) }
    {
        self.parts.core_lines(alloc, core, which)
    }

    /// Returns the line that a core's write-back buffer took in last. Just after a miss for which a line had to leave
    /// that is the victim.
    pub fn last_written_back(&self, core: CoreId) -> Option<LineAddr>
        requires { core.0 < length self.now.view.caches }
        ensures { result ≡ last_written_back self.now.view core }
    {
        self.parts.last_written_back(core)
    }

    /// Returns what a tag of a core names.
    pub fn tag(&self, core: CoreId, tag: u8) -> TagState
        requires core { core.0 < length self.now.view.caches }
        requires tag { tag < 64 }
        ensures { result ≡ tag_at (cache_at self.now.view core) tag }
    {
        self.parts.caches()[core.0 as usize].tag(tag)
    }

    /// Returns the line at a place of the ring, the front at 0. [`SliceState::deliver_next`] looks at lines in this
    /// order; each line with a message is there once.
    pub fn ring_line(&self, place: usize) -> Option<LineAddr>
        ensures { result ≡ slice_get (ring_lines self.now) place }
    {
        self.parts.ring_line(place)
    }

    /// Returns what [`SliceState::issue`] would decide of the request: to refuse it, or what its access would be. That
    /// is a hit, a miss that joins the line's miss register, a miss that opens one, or a stall.
    pub fn decide(&self, core: CoreId, request: Request) -> Decision
        requires { core.0 < length self.now.view.caches }
        ensures { result ≡ decision_of self.now.view core request }
    {
        self.parts.decide(core, request)
    }

    /// Returns what [`SliceState::deliver`] would do at the pick: the row of its front message with the next states and
    /// what is sent, or why nothing is moved. Nothing for a line that isn't the slice's.
    pub fn plan(&self, pick: Pick) -> Plan
        ensures { result ≡ planned_at self.now.view pick }
    {
        self.parts.plan_at(pick)
    }

    /// Returns the pick of the class that [`SliceState::deliver_next`] would deliver, or why it would deliver none.
    pub fn next(&self, class: Class) -> DeliveredNext
        ensures next { result ≡ next_pick self.now class }
        ensures found { IsNextPick self.now.view class result }
    {
        self.parts.next(class)
    }

    /// Returns the picks with a message, each once and no other: from the first line to the last, within a line the
    /// block that comes home, the data, the acknowledgements, what is forwarded, and the requests.
    /// [`SliceState::front`] gives each one's message.
    pub fn waiting(&self) -> Picks<'_>
        ensures order { result ≡ lines_waiting self.now.view.lines.slice self.now.view.lines.slices 0
            self.now.view.channels }
        ensures once { HasEachFrontOnce self.now.view result }
    {
        self.parts.waiting()
    }

    /// Returns the channels of a line in which a message waits, each once and no other: the block that comes home, the
    /// data, the acknowledgements, what is forwarded, and the requests. None for a line that isn't the slice's.
    pub fn waiting_at(&self, line: LineAddr) -> Option<LineWaiting<'_>>
        ensures there { IfNone result (local_at self.now.view.lines line.0 ≡ None) }
        ensures waiting { IfSome result (AreWaitingAt self.now.view (local_at self.now.view.lines line.0)) }
    {
        let local = self.parts.lines().local_of(line)?;
        Some(self.parts.waiting_at(local))
    }

    /// Returns the message that a delivery at the pick would take: none for a line that isn't the slice's, nor for a
    /// core that isn't there.
    pub fn front(&self, pick: Pick) -> Option<Message>
        ensures { result ≡ front_at self.now.view (local_at self.now.view.lines (line_of_pick pick).0)
            (channel_of pick) }
    {
        let local = self.parts.lines().local_of(pick.line())?;
        self.parts.front(local, pick.channel())
    }
}
