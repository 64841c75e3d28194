ghost use Rattle.std.specs.Prelude.{◌≡◌, ◌+◌, ◌-◌, ◌^◌, ◌++◌, ◌<◌, ◌≤◌, All, vec_capacity, if◌then◌else◌, length, true};
ghost use Rattle.std.specs.Prelude.{false, IsSome, Some, None};
ghost use Rattle.mshr_file.specs.Miss.{targets_of, IsMissFile, TakesTargets};
ghost use Rattle.slice_core_cache.specs.Perform.{asks_to_write, entries_of, performed_in};
ghost use Rattle.slice_core_cache.specs.CoreCache.{array_copy};
ghost use Rattle.slice_core_cache.specs.Steps.{copy_after_ack, after_change, after_settle};
ghost use Rattle.slice_core_cache.specs.Targets.{IsPerformable};
ghost use Rattle.slice_core_spec.specs.Calls.{AfterDelivery, AfterPlan, CanDeliver, Moves, Settles, filled_by};
ghost use Rattle.slice_core_spec.specs.Plan.{ack_plan, data_plan, forwarded_plan, home_plan, plan_of, request_plan};
ghost use Rattle.slice_core_spec.specs.Sends.{cache_room, directory_room, directory_sent};
ghost use Rattle.slice_core_spec.specs.Steps.{after_directory, after_forwarded, after_home, asked_by, block_in};
ghost use Rattle.slice_core_spec.specs.View.{channels_at, cache_at, IsShaped};
ghost use Rattle.slice_core_spec.specs.Within.{HasCopy, StandsAt, is_shared};
ghost use Rattle.slice_queues.specs.Lending.{with_lent};
ghost use Rattle.slice_queues.specs.Line.{after_take, core_at};
ghost use Rattle.slice_queues.specs.Ring.{is_listed};
ghost use Rattle.slice_queues.specs.Slice.{at_local};
ghost use Rattle.slice_queues.specs.declared.channel.Channel.TheVariants as channels;

use super::Parts;
use crate::send::{send_from_core, send_from_directory};
use address_map::{Block, CoreId, Local, Offset};
use cache_table::CopyState;
use directory_table::DirStep;
use mshr_file::MissFile;
use slice_answer::{Delivered, Delivery};
use slice_core_cache::CoreCache;
use slice_core_spec::{CopyStep, ForwardedStep, HomeStep};
use slice_log::Entry;
use slice_queues::{Channel, DataMessage, Message, Pick, Queues, RequestMessage};

impl<F: MissFile> Parts<F> {
    /// Takes the front message of a channel and does its row, where the table has one.
    pub fn deliver(&mut self, pick: Pick) -> Delivered
        requires { CanDeliver self.old }
        ensures { AfterDelivery self.old pick result self.new }
    {
        match self.lines.local_of(pick.line()) {
            Some(local) => self.deliver_at(local, pick.channel()),
            None => Delivered::Nothing,
        }
    }

    /// The same at a channel of a line.
    pub(super) fn deliver_at(&mut self, local: Local, channel: Channel) -> Delivered
        requires line { local.0 < self.old.view.lines.lines }
        requires delivers { CanDeliver self.old }
        ensures { AfterPlan (plan_of self.old.view local channel) self.old local channel result self.new }
    {
        if !self.queues.line(local).has_channel(channel) {
            return Delivered::Nothing;
        }
        match channel {
            Channel::Req(core) => self.deliver_request(local, core),
            Channel::Fwd(core) => self.deliver_forwarded(local, core),
            Channel::Data(core) => self.deliver_data(local, core),
            Channel::Ack { to, from } => self.deliver_ack(local, to, from),
            Channel::Home => self.deliver_home(local),
        }
    }

    // Each of these does what is planned for its kind of channel. A plan is inlined where it is carried out: one for
    // all kinds would be written to memory and read back.

    // Does the directory's row for the core's request.
    fn deliver_request(&mut self, local: Local, core: CoreId) -> Delivered
        requires line { local.0 < self.old.view.lines.lines }
        requires core { core.0 < length self.old.view.caches }
        requires delivers { CanDeliver self.old }
        ensures { AfterPlan (request_plan self.old.view local core) self.old local (channels.Req core) result
            self.new }
    {
        match self.plan_request(local, core) {
            Delivery::Moved(step) => {
                self.serve(local, core, &step);
                Delivered::Moved
            }
            Delivery::Nothing => Delivered::Nothing,
            Delivery::Blocked => Delivered::Blocked,
            Delivery::Broken(cell) => Delivered::Broken(cell),
        }
    }

    // Does the directory's row for the block that comes home.
    fn deliver_home(&mut self, local: Local) -> Delivered
        requires line { local.0 < self.old.view.lines.lines }
        requires delivers { CanDeliver self.old }
        ensures { AfterPlan (home_plan self.old.view local) self.old local channels.Home result self.new }
    {
        match self.plan_home(local) {
            Delivery::Moved(step) => {
                self.take_home(local, step);
                Delivered::Moved
            }
            Delivery::Nothing => Delivered::Nothing,
            Delivery::Blocked => Delivered::Blocked,
            Delivery::Broken(cell) => Delivered::Broken(cell),
        }
    }

    // Does the cache's row for the forwarded message that waits for the core.
    fn deliver_forwarded(&mut self, local: Local, core: CoreId) -> Delivered
        requires line { local.0 < self.old.view.lines.lines }
        requires core { core.0 < length self.old.view.caches }
        requires delivers { CanDeliver self.old }
        ensures { AfterPlan (forwarded_plan self.old.view local core) self.old local (channels.Fwd core) result
            self.new }
    {
        match self.plan_forwarded(local, core) {
            Delivery::Moved(step) => {
                self.forward(local, core, step);
                Delivered::Moved
            }
            Delivery::Nothing => Delivered::Nothing,
            Delivery::Blocked => Delivered::Blocked,
            Delivery::Broken(cell) => Delivered::Broken(cell),
        }
    }

    // Does the cache's row for the data that wait for the core.
    fn deliver_data(&mut self, local: Local, core: CoreId) -> Delivered
        requires line { local.0 < self.old.view.lines.lines }
        requires core { core.0 < length self.old.view.caches }
        requires delivers { CanDeliver self.old }
        ensures { AfterPlan (data_plan self.old.view local core) self.old local (channels.Data core) result self.new }
    {
        match self.plan_data(local, core) {
            Delivery::Moved(step) => {
                self.fill(local, core, step);
                Delivered::Moved
            }
            Delivery::Nothing => Delivered::Nothing,
            Delivery::Blocked => Delivered::Blocked,
            Delivery::Broken(cell) => Delivered::Broken(cell),
        }
    }

    // Does the cache's row for an acknowledgement that waits for the core.
    fn deliver_ack(&mut self, local: Local, to: CoreId, from: CoreId) -> Delivered
        requires line { local.0 < self.old.view.lines.lines }
        requires to { to.0 < length self.old.view.caches }
        requires from { from.0 < length self.old.view.caches }
        requires delivers { CanDeliver self.old }
        ensures { AfterPlan (ack_plan self.old.view local to from) self.old local (channels.Ack to from) result
            self.new }
    {
        match self.plan_ack(local, to, from) {
            Delivery::Moved(step) => {
                self.acknowledge(local, to, from, step);
                Delivered::Moved
            }
            Delivery::Nothing => Delivered::Nothing,
            Delivery::Blocked => Delivered::Blocked,
            Delivery::Broken(cell) => Delivered::Broken(cell),
        }
    }

    // The directory takes a core's request, and does its row.
    fn serve(&mut self, local: Local, core: CoreId, step: &DirStep)
        requires line { local.0 < self.old.view.lines.lines }
        requires core { core.0 < length self.old.view.caches }
        requires shaped { IsShaped self.old.view }
        requires room { directory_room (channels_at self.old.view local) core step.now.sends ≡ true }
        ensures { Moves self.old local (channels.Req core)
            (after_directory self.old.view local core step.now) self.new }
    {
        self.stats.count_message(Channel::Req(core));
        let entry = &mut self.entries[local.0];
        entry.state = step.state;
        entry.owner = step.owner;
        entry.sharers = step.sharers;
        let home = &mut entry.home;
        serve_request(&mut self.queues, local, home, core, step);
    }

    // The directory takes the block that comes home.
    fn take_home(&mut self, local: Local, step: HomeStep)
        requires line { local.0 < self.old.view.lines.lines }
        requires shaped { IsShaped self.old.view }
        requires comes { IsSome (channels_at self.old.view local).home }
        ensures { Moves self.old local channels.Home
            (after_home self.old.view local step.state step.owner step.sharers) self.new }
    {
        self.stats.count_message(Channel::Home);
        let entry = &mut self.entries[local.0];
        if let Some(block) = self.queues.line(local).front_home() {
            entry.home = *block;
        }
        entry.state = step.state;
        entry.owner = step.owner;
        entry.sharers = step.sharers;
        self.queues.drop_at(local, Channel::Home);
    }

    // A core takes a forwarded message, and does its row for the requester.
    fn forward(&mut self, local: Local, core: CoreId, step: ForwardedStep)
        requires line { local.0 < self.old.view.lines.lines }
        requires core { core.0 < length self.old.view.caches }
        requires shaped { IsShaped self.old.view }
        requires stands { HasCopy (cache_at self.old.view core) local }
        requires room { cache_room (channels_at self.old.view local) core step.requester step.sends ≡ true }
        ensures { Moves self.old local (channels.Fwd core)
            (after_forwarded self.old.view local core step.next step.sends step.requester) self.new }
    {
        self.stats.count_message(Channel::Fwd(core));
        let cache = &mut self.caches[core.0 as usize];
        let queues = &mut self.queues;
        queues.drop_at(local, Channel::Fwd(core));
        send_from_core(
            queues,
            local,
            core,
            step.requester,
            cache.block(local),
            step.sends,
        );
        cache.advance(local, step.next);
    }

    // A core takes its data. What its copy then allows is performed.
    fn fill(&mut self, local: Local, core: CoreId, step: CopyStep)
        requires line { local.0 < self.old.view.lines.lines }
        requires core { core.0 < length self.old.view.caches }
        requires delivers { CanDeliver self.old }
        requires stands { StandsAt (cache_at self.old.view core) local step.way }
        requires comes { IsSome (core_at (channels_at self.old.view local) core.0).data }
        requires idle { (core_at (channels_at self.old.view local) core.0).request ≡ None }
        ensures { Settles self.old local core (channels.Data core)
            (filled_by (array_copy (cache_at self.old.view core) local)
            (core_at (channels_at self.old.view local) core.0).data step.next)
            self.new }
    {
        self.stats.count_message(Channel::Data(core));
        let cache = &mut self.caches[core.0 as usize];
        let queues = &mut self.queues;
        match queues.line(local).front_data(core) {
            Some(message) => fill_copy(cache, local, step.way, message, step.next),
            None => unreachable!(),
        }
        queues.drop_at(local, Channel::Data(core));
        let first = self.lines.word_at(local, Offset(0)).0;
        let log = &mut self.log;
        let asks = settle_copy(cache, log, &mut self.pending, core, local, step.way, first);
        ask_to_write(queues, local, core, asks);
    }

    // A core counts an acknowledgement. What its copy then allows is performed.
    fn acknowledge(&mut self, local: Local, to: CoreId, from: CoreId, step: CopyStep)
        requires line { local.0 < self.old.view.lines.lines }
        requires to { to.0 < length self.old.view.caches }
        requires from { from.0 < length self.old.view.caches }
        requires delivers { CanDeliver self.old }
        requires stands { StandsAt (cache_at self.old.view to) local step.way }
        requires waits { is_shared step.next ≡ false }
        ensures { Settles self.old local to (channels.Ack to from)
            (copy_after_ack (array_copy (cache_at self.old.view to) local) step.next) self.new }
    {
        self.stats.count_message(Channel::Ack { to, from });
        let cache = &mut self.caches[to.0 as usize];
        cache.acknowledge(local, step.way, step.next);
        self.queues.drop_at(local, Channel::Ack { to, from });
        let first = self.lines.word_at(local, Offset(0)).0;
        let log = &mut self.log;
        let _ = settle_copy(cache, log, &mut self.pending, to, local, step.way, first);
    }
}

// The directory takes a core's request. Its block becomes the home copy where the row writes that; what is sent carries
// the home copy as it was.
fn serve_request(queues: &mut Queues, local: Local, home: &mut Block, core: CoreId, step: &DirStep)
    requires line { local.0 < length queues.old.channels.lines }
    requires core { core.0 < length (at_local queues.old.channels local.0).cores }
    requires room { directory_room (at_local queues.old.channels local.0) core step.now.sends ≡ true }
    ensures line { queues.new ≡ with_lent queues.old local
        (directory_sent (after_take (at_local queues.old.channels local.0) (channels.Req core)) core home.old
        step.now.sends) }
    ensures home { home.new ≡ (if step.now.writes_home then
        block_in home.old (core_at (at_local queues.old.channels local.0) core.0).request else home.old) }
{
    if !step.writes_home {
        queues.drop_at(local, Channel::Req(core));
        send_from_directory(queues, local, core, home, step.sends);
        return;
    }
    let before = *home;
    if let Some(RequestMessage::PutM(block)) = queues.line(local).front_request(core) {
        *home = *block;
    }
    queues.drop_at(local, Channel::Req(core));
    send_from_directory(queues, local, core, &before, step.sends);
}

// The copy gets the data that came, and goes to the next state.
fn fill_copy<F: MissFile>(
    cache: &mut CoreCache<F>,
    local: Local,
    way: usize,
    message: &DataMessage,
    next: CopyState,
)
    requires { StandsAt cache.old local way }
    ensures { cache.new ≡ after_change cache.old local (filled_by (array_copy cache.old local) (Some message.now) next) }
{
    match message {
        DataMessage::Data { block, acks } => cache.fill(local, way, block, *acks, next),
        DataMessage::DataE(block) => cache.fill(local, way, block, 0, next),
    }
}

// The targets that the copy now allows are performed and logged, and wait no more. Returns whether a write is left, for
// which the right to write has to be asked.
fn settle_copy<F: MissFile>(
    cache: &mut CoreCache<F>,
    log: &mut Vec<Entry>,
    pending: &mut usize,
    core: CoreId,
    local: Local,
    way: usize,
    first: u64,
) -> bool
    requires held { StandsAt cache.old local way }
    requires performable { All IsPerformable (targets_of cache.old.misses local.0) }
    requires room { length log.old.items + length (targets_of cache.old.misses local.0) ≤ vec_capacity log.old }
    requires pending { length (targets_of cache.old.misses local.0) ≤ pending.old }
    requires first { first + 8 ≤ 2 ^ 64 }
    ensures asks { result ≡ asks_to_write (array_copy cache.old local).state (targets_of cache.old.misses local.0) }
    ensures taken { TakesTargets cache.old.misses cache.new.misses local.0
        (performed_in (array_copy cache.old local).state (targets_of cache.old.misses local.0)) }
    ensures sound { IsMissFile cache.old.misses → IsMissFile cache.new.misses }
    ensures after { cache.new ≡ after_settle cache.old local (length log.old.items) cache.new.misses }
    ensures log { log.new.items ≡ log.old.items ++ entries_of core first (array_copy cache.old local).block
        (performed_in (array_copy cache.old local).state (targets_of cache.old.misses local.0)) }
    ensures room { vec_capacity log.new ≡ vec_capacity log.old }
    ensures pending { pending.new ≡ pending.old
        - length (performed_in (array_copy cache.old local).state (targets_of cache.old.misses local.0)) }
{
    let before = log.len();
    let asks = cache.settle(core, local, way, first, log);
    *pending -= log.len() - before;
    asks
}

// The core asks for the right to write, where a write is left.
fn ask_to_write(queues: &mut Queues, local: Local, core: CoreId, asks: bool)
    requires line { local.0 < length queues.old.channels.lines }
    requires core { core.0 < length (at_local queues.old.channels local.0).cores }
    requires idle { asks ≡ true → (core_at (at_local queues.old.channels local.0) core.0).request ≡ None }
    requires listed { is_listed queues.old.ring local.0 ≡ true }
    ensures { queues.new ≡ with_lent queues.old local (asked_by asks (at_local queues.old.channels local.0) core) }
{
    if asks {
        let message = Message::Request(RequestMessage::GetM);
        queues.send_at(local, Channel::Req(core), message);
    }
}
