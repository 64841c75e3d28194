ghost use Rattle.std.specs.Prelude.{◌≡◌, ◌<◌, length};
ghost use Rattle.slice_core_spec.specs.Plan.{plan_of, planned_at, request_plan, home_plan, forwarded_plan, data_plan};
ghost use Rattle.slice_core_spec.specs.Plan.{ack_plan};
ghost use Rattle.slice_answer.specs.Delivery.{delivery_map};
ghost use Rattle.slice_core_spec.specs.View.{View, IsShaped};
ghost use Rattle.slice_core_spec.specs.declared.transition.Transition.TheVariants as transitions;
ghost use Rattle.slice_core_exec.specs.Planned.{IsPlanned};
ghost use Rattle.slice_queues.specs.declared.channel.Channel.TheVariants as channels;

use super::Parts;
use crate::room::{cache_room, directory_room};
use address_map::{CoreId, Local};
use cache_table::{CacheEvent, Row, cache_row};
use directory_table::{DirEvent, DirRow, DirStep, dir_row};
use mshr_file::MissFile;
use slice_answer::{Cell, Delivery};
use slice_core_spec::{
    CopyStep, ForwardedStep, HomeStep, Plan, Transition, event_of_forwarded, event_of_request,
    is_put_ack, requester_of,
};
use slice_queues::{Channel, DataMessage, Pick};

impl<F: MissFile> Parts<F> {
    /// Returns what is to be done with the message in front of a pick: a delivery there does it.
    pub fn plan_at(&self, pick: Pick) -> Plan
        requires { IsShaped self.now.view }
        ensures { result ≡ planned_at self.now.view pick }
    {
        match self.lines.local_of(pick.line()) {
            Some(local) => self.plan(local, pick.channel()),
            None => Delivery::Nothing,
        }
    }

    /// Returns what is to be done at the front of a channel of a line.
    pub(super) fn plan(&self, local: Local, channel: Channel) -> Plan
        requires line { local.0 < self.now.view.lines.lines }
        requires shaped { IsShaped self.now.view }
        ensures planned { result ≡ plan_of self.now.view local channel }
    {
        if !self.queues.line(local).has_channel(channel) {
            return Delivery::Nothing;
        }
        match channel {
            Channel::Req(core) => self.plan_request(local, core).map(Transition::Directory),
            Channel::Fwd(core) => self.plan_forwarded(local, core).map(Transition::Forwarded),
            Channel::Data(core) => self.plan_data(local, core).map(Transition::Fill),
            Channel::Ack { to, from } => self
                .plan_ack(local, to, from)
                .map(Transition::Acknowledge),
            Channel::Home => self.plan_home(local).map(Transition::Home),
        }
    }

    // The directory's row for the core's request.
    #[inline(always)]
    pub(super) fn plan_request(&self, local: Local, core: CoreId) -> Delivery<DirStep>
        requires line { local.0 < self.now.view.lines.lines }
        requires core { core.0 < length self.now.view.caches }
        requires shaped { IsShaped self.now.view }
        ensures planned { delivery_map transitions.Directory result ≡ request_plan self.now.view local core }
        ensures within { IsPlanned self.now.view local (channels.Req core)
            (delivery_map transitions.Directory result) }
    {
        let line = self.queues.line(local);
        let Some(request) = line.front_request(core) else {
            return Delivery::Nothing;
        };
        let event = event_of_request(core, request);
        match dir_row(self.exclusive, &self.entries[local.0], event) {
            DirRow::NoEntry => Delivery::Broken(Cell::Entry),
            DirRow::Blocked => Delivery::Blocked,
            DirRow::Go(step) if !directory_room(&line, core, &step.sends) => {
                Delivery::Broken(Cell::Full)
            }
            DirRow::Go(step) => Delivery::Moved(step),
        }
    }

    // The directory's row for the block that comes home.
    #[inline(always)]
    pub(super) fn plan_home(&self, local: Local) -> Delivery<HomeStep>
        requires line { local.0 < self.now.view.lines.lines }
        requires shaped { IsShaped self.now.view }
        ensures planned { delivery_map transitions.Home result ≡ home_plan self.now.view local }
        ensures within { IsPlanned self.now.view local channels.Home
            (delivery_map transitions.Home result) }
    {
        if self.queues.line(local).front_home().is_none() {
            return Delivery::Nothing;
        }
        match dir_row(self.exclusive, &self.entries[local.0], DirEvent::DataHome) {
            DirRow::NoEntry => Delivery::Broken(Cell::Entry),
            DirRow::Blocked => Delivery::Blocked,
            DirRow::Go(step) => Delivery::Moved(HomeStep {
                state: step.state,
                owner: step.owner,
                sharers: step.sharers,
            }),
        }
    }

    // The cache's row for the forwarded message that waits for the core.
    #[inline(always)]
    pub(super) fn plan_forwarded(&self, local: Local, core: CoreId) -> Delivery<ForwardedStep>
        requires line { local.0 < self.now.view.lines.lines }
        requires core { core.0 < length self.now.view.caches }
        requires shaped { IsShaped self.now.view }
        ensures planned { delivery_map transitions.Forwarded result ≡ forwarded_plan self.now.view local core }
        ensures within { IsPlanned self.now.view local (channels.Fwd core)
            (delivery_map transitions.Forwarded result) }
    {
        let line = self.queues.line(local);
        let Some(message) = line.front_forwarded(core) else {
            return Delivery::Nothing;
        };
        let message = *message;
        let requester = requester_of(core, message);
        let look = self.caches[core.0 as usize].look(local);
        match cache_row(look.state, event_of_forwarded(message)) {
            Row::NoEntry => Delivery::Broken(Cell::Entry),
            Row::Blocked => Delivery::Blocked,
            Row::Go(_, sends) if !cache_room(&line, core, requester, sends) => {
                Delivery::Broken(Cell::Full)
            }
            Row::Go(_, _) if is_put_ack(message) && line.front_request(core).is_some() => {
                Delivery::Broken(Cell::Early)
            }
            Row::Go(next, sends) => Delivery::Moved(ForwardedStep {
                next,
                sends,
                requester,
            }),
        }
    }

    // The cache's row for the data that wait for the core.
    #[inline(always)]
    pub(super) fn plan_data(&self, local: Local, core: CoreId) -> Delivery<CopyStep>
        requires line { local.0 < self.now.view.lines.lines }
        requires core { core.0 < length self.now.view.caches }
        requires shaped { IsShaped self.now.view }
        ensures planned { delivery_map transitions.Fill result ≡ data_plan self.now.view local core }
        ensures within { IsPlanned self.now.view local (channels.Data core)
            (delivery_map transitions.Fill result) }
    {
        let line = self.queues.line(local);
        let Some(message) = line.front_data(core) else {
            return Delivery::Nothing;
        };
        let cache = &self.caches[core.0 as usize];
        let look = cache.look(local);
        let event = match message {
            DataMessage::Data { acks, .. } => CacheEvent::Data {
                n: *acks,
                k: look.counted,
            },
            DataMessage::DataE(_) => CacheEvent::DataE {
                all_loads: cache.all_loads(local),
            },
        };
        match cache_row(look.state, event) {
            Row::NoEntry => Delivery::Broken(Cell::Entry),
            Row::Blocked => Delivery::Blocked,
            Row::Go(_, _) if line.front_request(core).is_some() => Delivery::Broken(Cell::Early),
            Row::Go(next, _) => match look.way {
                Some(way) => Delivery::Moved(CopyStep { way, next }),
                None => Delivery::Broken(Cell::Entry),
            },
        }
    }

    // The cache's row for an acknowledgement that waits for the core.
    #[inline(always)]
    pub(super) fn plan_ack(&self, local: Local, to: CoreId, from: CoreId) -> Delivery<CopyStep>
        requires line { local.0 < self.now.view.lines.lines }
        requires to { to.0 < length self.now.view.caches }
        requires from { from.0 < length self.now.view.caches }
        requires shaped { IsShaped self.now.view }
        ensures planned { delivery_map transitions.Acknowledge result ≡ ack_plan self.now.view local to from }
        ensures within { IsPlanned self.now.view local (channels.Ack to from)
            (delivery_map transitions.Acknowledge result) }
    {
        if !self.queues.line(local).has_ack(to, from) {
            return Delivery::Nothing;
        }
        let look = self.caches[to.0 as usize].look(local);
        let event = CacheEvent::InvAck {
            n: look.wants,
            k: look.counted,
        };
        match cache_row(look.state, event) {
            Row::NoEntry => Delivery::Broken(Cell::Entry),
            Row::Blocked => Delivery::Blocked,
            Row::Go(next, _) => match look.way {
                Some(way) => Delivery::Moved(CopyStep { way, next }),
                None => Delivery::Broken(Cell::Entry),
            },
        }
    }
}
