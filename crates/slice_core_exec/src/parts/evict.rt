ghost use Rattle.std.specs.Prelude.{◌≡◌, ◌<◌, length, None};
ghost use Rattle.slice_answer.specs.Stats.{after_eviction};
ghost use Rattle.slice_core_cache.specs.Access.{CanLeave};
ghost use Rattle.slice_core_spec.specs.Calls.{PartsView, AfterEvict, CanIssue};
ghost use Rattle.slice_core_spec.specs.Steps.{after_evict};
ghost use Rattle.slice_core_spec.specs.View.{View, channels_at, cache_at, IsShaped};
ghost use Rattle.slice_queues.specs.Line.{core_at};
ghost use Rattle.slice_queues.specs.Ring.{with_listed};

use super::Parts;
use address_map::{CoreId, LineAddr, Local};
use mshr_file::MissFile;
use slice_answer::Evicted;
use slice_queues::{Channel, Message};

impl<F: MissFile> Parts<F> {
    /// Moves the core's copy of a line to its write-back buffer and notifies the directory, or says why not.
    pub fn evict(&mut self, core: CoreId, line: LineAddr) -> Evicted
        requires { CanIssue self.old core }
        ensures { AfterEvict self.old core line result self.new }
    {
        let Some(local) = self.lines.local_of(line) else {
            return Evicted::NotHeld;
        };
        let answer = self.caches[core.0 as usize].decide_evict(local);
        if answer == Evicted::Evicting {
            self.leave(core, local);
        }
        answer
    }

    // Evicts the core's copy of a line, and notifies the directory.
    fn leave(&mut self, core: CoreId, local: Local)
        requires core { core.0 < length self.old.view.caches }
        requires line { local.0 < self.old.view.lines.lines }
        requires shaped { IsShaped self.old.view }
        requires stats { length self.old.stats.cores ≡ length self.old.view.caches }
        requires leaves { CanLeave (cache_at self.old.view core) local }
        requires idle { (core_at (channels_at self.old.view local) core.0).request ≡ None }
        ensures { self.new ≡ record self.old {
          view = after_evict self.old.view core local;
          stats =
              after_eviction self.old.stats core;
          ring = with_listed self.old.ring local.0;
        } }
    {
        self.stats.count_eviction(core);
        let put = self.caches[core.0 as usize].evict(local);
        let channel = Channel::Req(core);
        self.queues.send_at(local, channel, Message::Request(put));
    }
}
