ghost use Rattle.std.specs.Prelude.{◌≡◌, ◌+◌, ◌^◌, ◌<◌, ◌≤◌, length, true, false, None, OnOk, OnErr, IfErr};
ghost use Rattle.mshr_file.specs.Miss.{has_miss, can_open, can_join, AddsTarget, IsMissFile};
ghost use Rattle.slice_answer.specs.Stats.{after_hit as hit_counted, after_eviction, after_primary};
ghost use Rattle.slice_answer.specs.Stats.{after_secondary};
ghost use Rattle.slice_core_cache.specs.Access.{CanReplace, CanStand, IsWithin};
ghost use Rattle.slice_core_spec.specs.Decision.{decision_of};
ghost use Rattle.slice_core_spec.specs.Calls.{PartsView, AfterAccepting, AfterIssue, CanIssue, IsDecided, target_for};
ghost use Rattle.slice_core_spec.specs.Steps.{after_hit, after_join, after_opening, with_way};
ghost use Rattle.slice_core_spec.specs.View.{View, channels_at, cache_at, IsShaped};
ghost use Rattle.slice_core_spec.specs.Within.{StandsAt};
ghost use Rattle.slice_core_cache.specs.Steps.{victim_for};
ghost use Rattle.slice_queues.specs.Line.{core_at};
ghost use Rattle.slice_queues.specs.Ring.{with_listed};

use super::Parts;
use address_map::{CoreId, Local, Request};
use cache_table::CopyState;
use mshr_file::MissFile;
use slice_answer::{Issue, Refused};
use slice_core_cache::{AccessKind, Ask, Placement, TagState};
use slice_core_spec::{Decision, overwrites};
use slice_log::Entry;
use slice_queues::{Channel, Message, RequestMessage};

impl<F: MissFile> Parts<F> {
    /// Accepts a request, or says why not. The log grows before anything changes, so that nothing later allocates.
    pub fn issue(&mut self, core: CoreId, request: Request) -> Result<Issue, Refused>
        requires { CanIssue self.old core }
        ensures step { AfterIssue self.old core request result self.new }
        ensures bounded { self.new.room < 2 ^ 63 }
    {
        match self.decide(core, request) {
            Decision::Refuse(refused) => Err(refused),
            Decision::Access(_, AccessKind::Stall(stall)) => {
                self.stats.count_stall(core, stall);
                Ok(Issue::Stall(stall))
            }
            Decision::Access(local, access) => match self.reserve() {
                Ok(()) => Ok(self.accept(core, request, local, access)),
                Err(refused) => Err(refused),
            },
        }
    }

    /// Returns what is to be done with the request, in the order in which it is judged.
    pub fn decide(&self, core: CoreId, request: Request) -> Decision
        requires { core.0 < length self.now.view.caches }
        ensures decided { result ≡ decision_of self.now.view core request }
        ensures within { IsDecided self.now.view core request result }
    {
        if self.lines.is_past(request.word) {
            return Decision::Refuse(Refused::OutOfRange);
        }
        let Some(local) = self.lines.local_of(request.word.line()) else {
            return Decision::Refuse(Refused::WrongSlice);
        };
        if request.tag > 63 {
            return Decision::Refuse(Refused::TagRange);
        }
        let cache = &self.caches[core.0 as usize];
        if !matches!(cache.tag(request.tag), TagState::Free) {
            return Decision::Refuse(Refused::TagBusy);
        }
        if overwrites(request.op) && self.counters.contains(&request.word) {
            return Decision::Refuse(Refused::CounterStore);
        }
        Decision::Access(local, cache.decide(local, request.tag, request.op))
    }

    // Makes room in the log for all that waits and one entry more.
    fn reserve(&mut self) -> Result<(), Refused>
        requires pending { self.old.pending + 1 < 2 ^ 64 }
        requires bounded { self.old.room < 2 ^ 63 }
        ensures ok { OnOk result (self.new ≡ record self.old { room = self.new.room }) }
        ensures room { OnOk result (length self.old.view.log + self.old.pending + 1 ≤ self.new.room) }
        ensures err { OnErr result (self.new ≡ self.old) }
        ensures full { OnErr result (self.old.room < length self.old.view.log + self.old.pending + 1) }
        ensures refused { IfErr result (λ e. e ≡ Refused.Memory) }
        ensures bounded { self.new.room < 2 ^ 63 }
        ensures kept { self.old.room ≤ self.new.room }
    {
        match self.log.reserve(self.pending + 1) {
            Ok(()) => Ok(()),
            Err(_) => Err(Refused::Memory),
        }
    }

    // Does what was decided of an access, for which the log has room.
    fn accept(&mut self, core: CoreId, request: Request, local: Local, access: AccessKind) -> Issue
        requires can { CanIssue self.old core }
        requires line { local.0 < self.old.view.lines.lines }
        requires tag { request.tag < 64 }
        requires within { IsWithin (cache_at self.old.view core) local request.tag access }
        requires room { length self.old.view.log + self.old.pending + 1 ≤ self.old.room }
        ensures done { AfterAccepting access self.old core request local result self.new }
        ensures room { self.new.room ≡ self.old.room }
    {
        match access {
            AccessKind::Hit { way, next, silent } => Issue::Done(self.hit(
                core, request, local, way, next, silent,
            )),
            AccessKind::SecondaryMiss => Issue::Pending(self.join(core, request, local)),
            AccessKind::PrimaryMiss {
                next,
                ask,
                placement: Placement::Victim,
            } => {
                self.replace(core, local);
                Issue::Pending(self.open(core, request, local, false, next, ask))
            }
            AccessKind::PrimaryMiss {
                next,
                ask,
                placement,
            } => {
                let held = matches!(placement, Placement::Held);
                Issue::Pending(self.open(core, request, local, held, next, ask))
            }
            AccessKind::Stall(stall) => Issue::Stall(stall),
        }
    }

    // Performs the access on the core's copy, and logs it. Returns its number.
    fn hit(
        &mut self,
        core: CoreId,
        request: Request,
        local: Local,
        way: usize,
        next: CopyState,
        silent: bool,
    ) -> u64
        requires core { core.0 < length self.old.view.caches }
        requires stats { length self.old.stats.cores ≡ length self.old.view.caches }
        requires stands { StandsAt (cache_at self.old.view core) local way }
        requires counted { (cache_at self.old.view core).accepted + 1 < 2 ^ 64 }
        requires room { length self.old.view.log < self.old.room }
        ensures number { result ≡ length self.old.view.log }
        ensures after { self.new ≡ record self.old {
          view = after_hit self.old.view core request local next;
          stats =
              hit_counted self.old.stats core silent;
        } }
    {
        self.stats.count_hit(core, silent);
        let number = self.log.len() as u64;
        let cache = &mut self.caches[core.0 as usize];
        let seq = cache.accepted();
        let reply = cache.hit(local, way, request.word.offset(), request.op, next);
        self.log.push_reserved(Entry {
            op: request.op,
            word: request.word,
            seq,
            reply,
            since: number,
            core,
            tag: request.tag,
        });
        number
    }

    // Adds the access to the line's miss register. Returns its `seq`.
    fn join(&mut self, core: CoreId, request: Request, local: Local) -> u64
        requires can { CanIssue self.old core }
        requires tag { request.tag < 64 }
        requires found { has_miss (cache_at self.old.view core).misses local.0 ≡ true }
        requires room { can_join (cache_at self.old.view core).bound
            (cache_at self.old.view core).misses local.0 request.tag
            ≡ true }
        ensures seq { result ≡ (cache_at self.old.view core).accepted }
        ensures added { AddsTarget (cache_at self.old.view core).misses (cache_at self.new.view core).misses local.0
            (target_for self.old core request) }
        ensures sound { IsMissFile (cache_at self.new.view core).misses }
        ensures after { self.new
            ≡ record self.old {
              view = after_join self.old.view core request (cache_at self.new.view core).misses;
              stats = after_secondary self.old.stats core;
              pending = self.old.pending + 1;
            } }
    {
        let since = self.log.len() as u64;
        self.pending += 1;
        self.stats.count_secondary(core);
        let cache = &mut self.caches[core.0 as usize];
        cache.join(local, request.word.offset(), request, since)
    }

    // Evicts a victim of the line's set to make a way for it, and notifies the directory.
    fn replace(&mut self, core: CoreId, local: Local)
        requires can { CanIssue self.old core }
        requires line { local.0 < self.old.view.lines.lines }
        requires replaces { CanReplace (cache_at self.old.view core) local }
        ensures after { self.new ≡ record self.old {
          view = with_way self.old.view core local Placement.Victim;
          stats =
              after_eviction self.old.stats core;
          ring = with_listed self.old.ring (victim_for (cache_at self.old.view core) local).0;
        } }
        ensures stands { CanStand (cache_at self.new.view core) local false }
        ensures idle { (core_at (channels_at self.new.view local) core.0).request ≡ None }
    {
        self.stats.count_eviction(core);
        let cache = &mut self.caches[core.0 as usize];
        let (victim, put) = cache.replace(local);
        let channel = Channel::Req(core);
        self.queues.send_at(victim, channel, Message::Request(put));
    }

    // Opens a miss register for the access, whose copy is in the array (`held`) or has a way, and asks the
    // directory. Returns its `seq`.
    fn open(
        &mut self,
        core: CoreId,
        request: Request,
        local: Local,
        held: bool,
        next: CopyState,
        ask: Ask,
    ) -> u64
        requires core { core.0 < length self.old.view.caches }
        requires line { local.0 < self.old.view.lines.lines }
        requires shaped { IsShaped self.old.view }
        requires stats { length self.old.stats.cores ≡ length self.old.view.caches }
        requires tag { request.tag < 64 }
        requires free { has_miss (cache_at self.old.view core).misses local.0 ≡ false }
        requires room { can_open (cache_at self.old.view core).bound (cache_at self.old.view core).misses request.tag
            ≡ true }
        requires stands { CanStand (cache_at self.old.view core) local held }
        requires idle { (core_at (channels_at self.old.view local) core.0).request ≡ None }
        requires counted { (cache_at self.old.view core).accepted + 1 < 2 ^ 64 }
        requires pending { self.old.pending + 1 < 2 ^ 64 }
        ensures seq { result ≡ (cache_at self.old.view core).accepted }
        ensures added { AddsTarget (cache_at self.old.view core).misses (cache_at self.new.view core).misses local.0
            (target_for self.old core request) }
        ensures sound { IsMissFile (cache_at self.new.view core).misses }
        ensures after { self.new
            ≡ record self.old {
              view =
                  after_opening self.old.view core request local held next ask (cache_at self.new.view core).misses;
              stats =
                  after_primary self.old.stats core;
              pending = self.old.pending + 1;
              ring = with_listed self.old.ring local.0;
            } }
    {
        let since = self.log.len() as u64;
        self.pending += 1;
        self.stats.count_primary(core);
        let message = match ask {
            Ask::GetS => RequestMessage::GetS,
            Ask::GetM => RequestMessage::GetM,
        };
        let channel = Channel::Req(core);
        self.queues
            .send_at(local, channel, Message::Request(message));
        let cache = &mut self.caches[core.0 as usize];
        cache.open(local, held, next, request.word.offset(), request, since)
    }
}
