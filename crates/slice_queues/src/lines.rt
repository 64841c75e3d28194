ghost use Rattle.std.specs.Prelude.{◌≡◌, ◌↔◌, ℕ, ◌+◌, ◌^◌, ◌<◌, ◌≤◌, ◌++◌, ◌&&◌, length, replicate, true, false};
ghost use Rattle.std.specs.Prelude.{vec_capacity, slice_set, slice_index_or, slice_get, IfOk, IsTrue};
ghost use Rattle.slice_queues.specs.declared.channel.Channel.TheVariants as channels;
ghost use Rattle.slice_queues.specs.Line.{LineChannels, no_messages, core_at, with_core, after_send, after_take};
ghost use Rattle.slice_queues.specs.Line.{HasChannel, Carries, IsOfCore};
ghost use Rattle.slice_queues.specs.Mail.{IsLine};

use super::channel::Channel;
use super::core_queues::CoreQueues;
use super::line_queues::LineQueues;
use super::mail::{Mail, without_unless};
use super::message::{ForwardedMessage, Message};
use address_map::{Block, CoreId, CoreSet, Local};
use std::alloc::{AllocError, Global};
use std::boxed::BoxedSlice;
use std::marker::Model;

/// What a line has apart from its cores' channels.
#[derive(Clone, Copy)]
pub struct LineHead {
    // The fields that say whether and where messages wait come first.
    pub mail: Mail,
    /// Where the run of its cores' channels begins, 0 as long as it has none of its own.
    pub first: usize,
    /// Whether a message waits in a channel of the line.
    pub waits: bool,
    pub home: Option<Block>,
}

/// The channels of a slice's lines, by their places.
#[derive(Drop)]
pub struct Lines {
    heads: BoxedSlice<LineHead>,
    // Runs of `width` cores' channels. The first one is blank and stays so: it represents each line to which nothing
    // was ever sent. After it come the runs of the other lines, in the order in which they got them. There is room
    // for a run of each line, and what isn't used of it is never touched.
    cores: Vec<CoreQueues>,
    width: usize,
    // how many lines have a message
    waiting: usize,
}

impl Model for Lines {
    ghost use Rattle.std.specs.Prelude.{List, vec_capacity};
    ghost use Rattle.std.specs.Box.{boxed_slice_items};
    ghost use Rattle.slice_queues.specs.Line.{LineChannels};
    ghost use Rattle.slice_queues.specs.Runs.{lines_under, IsRuns};
    ghost use Rattle.slice_queues.specs.Count.{IsMailCounted};

    ghost Value = { List LineChannels };

    ghost view = { λ lines. lines_under lines.width lines.cores.items (boxed_slice_items lines.heads) };

    ghost invariant = { λ lines.
        IsRuns (boxed_slice_items lines.heads) lines.cores.items lines.width (vec_capacity lines.cores)
        × IsMailCounted (boxed_slice_items lines.heads)
        (lines_under lines.width lines.cores.items (boxed_slice_items lines.heads)) lines.waiting };
}

impl LineHead {
    ghost use Rattle.slice_queues.specs.Runs.{blank_head, opened_first, opened_cores, has_run};
    ghost use Rattle.slice_queues.specs.Count.{one_where, shows_mail};

    /// Returns the head of a line to which nothing was ever sent.
    fn blank() -> Self
        ensures { result ≡ blank_head }
    {
        LineHead {
            mail: Mail::none(),
            first: 0,
            waits: false,
            home: None,
        }
    }

    /// Returns where the core's channels are. The line has a run of its own from now on.
    #[inline(always)]
    fn place_of(&mut self, core: CoreId, cores: &mut Vec<CoreQueues>, width: usize) -> usize
        requires core { core.0 < width }
        requires within { self.old.first + width ≤ length cores.old.items }
        requires room { has_run self.old ≡ false → length cores.old.items + width ≤ vec_capacity cores.old }
        ensures place { result ≡ opened_first self.old cores.old.items + core.0 }
        ensures there { result < length cores.new.items }
        ensures head { self.new ≡ record self.old { first = opened_first self.old cores.old.items } }
        ensures cores { cores.new.items ≡ opened_cores width self.old cores.old.items }
        ensures capacity { vec_capacity cores.new ≡ vec_capacity cores.old }
    {
        if self.first == 0 {
            self.first = cores.len();
            push_blank(cores, width);
        }
        self.first + core.0 as usize
    }

    /// Whether the marks, or a block for the directory, say that a message waits.
    fn shows_mail(&self) -> bool
        ensures { result ≡ shows_mail self.now }
    {
        self.mail.cores().bits() > 0 || self.home.is_some()
    }

    /// Notes that a message was sent, and counts the line in `waiting` unless it had a message already.
    #[inline(always)]
    fn note_sent(&mut self, waiting: &mut usize)
        requires { self.old.waits ≡ false → waiting.old + 1 < 2 ^ 64 }
        ensures head { self.new ≡ record self.old { waits = true } }
        ensures count { waiting.new + one_where self.old.waits ≡ waiting.old + 1 }
    {
        if !self.waits {
            self.waits = true;
            *waiting += 1;
        }
    }

    /// Notes that a message may have been taken, and takes the line from the count if it has none left.
    #[inline(always)]
    fn note_taken(&mut self, waiting: &mut usize)
        requires { self.old.waits ≡ true → 0 < waiting.old }
        ensures head { self.new ≡ record self.old { waits = self.old.waits && shows_mail self.old } }
        ensures count { waiting.new + one_where self.old.waits ≡ waiting.old + one_where self.new.waits }
    {
        if self.waits && !self.shows_mail() {
            self.waits = false;
            *waiting -= 1;
        }
    }
}

// Adds a run of cores' channels in which nothing waits. Were it inlined, each later change of a line would cost more.
#[inline(never)]
fn push_blank(cores: &mut Vec<CoreQueues>, width: usize)
    requires { length cores.old.items + width ≤ vec_capacity cores.old }
    ensures items { cores.new.items ≡ cores.old.items ++ replicate width no_messages }
    ensures capacity { vec_capacity cores.new ≡ vec_capacity cores.old }
{
    for core in 0..width {
        cores.push_reserved(CoreQueues::new());
    }
}

// Adds the same cores' channels.
fn copy_runs(from: &[CoreQueues], to: &mut Vec<CoreQueues>)
    requires { length to.old.items + length from.now ≤ vec_capacity to.old }
    ensures items { to.new.items ≡ to.old.items ++ from.now }
    ensures capacity { vec_capacity to.new ≡ vec_capacity to.old }
{
    for place in 0..from.len() {
        to.push_reserved(from[place].copy());
    }
}

impl Lines {
    ghost use Rattle.slice_queues.specs.Line.{empty_line, has_mail, messages_at, HasRoom, SendsOnly, TakesOnly};
    ghost use Rattle.slice_queues.specs.Line.{TakesInvalidations, after_invalidating};

    /// Allocates `count` lines of `width` cores.
    pub fn build(alloc: Global, count: usize, width: usize) -> Result<Self, AllocError>
        requires lines { count ≤ 65536 }
        requires cores { width ≤ 64 }
        ensures { IfOk result (λ lines. lines ≡ replicate count (empty_line width)) }
    {
        let mut cores = Vec::with_capacity(alloc, (count + 1) * width)?;
        push_blank(&mut cores, width);
        let mut heads = Vec::with_capacity(alloc, count)?;
        for line in 0..count {
            heads.push(LineHead::blank())?;
        }
        Ok(Lines {
            heads: heads.into_boxed_slice(),
            cores,
            width,
            waiting: 0,
        })
    }

    /// Returns a copy of the messages, in memory of its own. Runs that no line has are not touched.
    pub fn try_clone(&self, alloc: Global) -> Result<Self, AllocError>
        ensures { IfOk result (λ copy. copy ≡ self.now) }
    {
        let heads = Vec::from_slice(alloc, self.heads.as_slice())?;
        let mut cores = Vec::with_capacity(alloc, self.cores.capacity())?;
        copy_runs(self.cores.as_slice(), &mut cores);
        Ok(Lines {
            heads: heads.into_boxed_slice(),
            cores,
            width: self.width,
            waiting: self.waiting,
        })
    }

    pub fn len(&self) -> usize
        ensures { result ≡ length self.now }
    {
        self.heads.len()
    }

    /// Whether no line has a message.
    pub fn is_quiet(&self) -> bool
        ensures { IsTrue result ↔ ((local : ℕ) → has_mail (slice_index_or self.now local (empty_line 0)) ≡ false) }
    {
        let _ = &self.heads;
        self.waiting == 0
    }

    /// Returns the channels of one line.
    pub fn line(&self, local: Local) -> LineQueues<'_>
        requires { local.0 < length self.now }
        ensures { result ≡ slice_index_or self.now local.0 (empty_line 0) }
    {
        let head = &self.heads[local.0];
        let run = &self.cores[head.first..head.first + self.width];
        LineQueues { head, cores: run }
    }

    /// Sends the message on a channel of the line, after those that wait there.
    #[inline(always)]
    pub fn send(&mut self, local: Local, channel: Channel, message: Message)
        requires line { local.0 < length self.old }
        requires there { HasChannel (slice_index_or self.old local.0 (empty_line 0)) channel }
        requires room { HasRoom (slice_index_or self.old local.0 (empty_line 0)) channel }
        requires kind { Carries channel message }
        ensures after { self.new
            ≡ slice_set self.old local.0 (after_send (slice_index_or self.old local.0 (empty_line 0)) channel message) }
        ensures sent { SendsOnly (slice_index_or self.old local.0 (empty_line 0))
            (after_send (slice_index_or self.old local.0 (empty_line 0)) channel message) channel message }
    {
        match channel {
            Channel::Req(core)
            | Channel::Fwd(core)
            | Channel::Data(core)
            | Channel::Ack { to: core, .. } => {
                let head = &mut self.heads[local.0];
                let place = head.place_of(core, &mut self.cores, self.width);
                let queues = &mut self.cores[place];
                send_to(queues, &mut head.mail, core, channel, message);
                head.note_sent(&mut self.waiting);
            }
            Channel::Home => self.send_home(local, message),
        }
    }

    // The same for the channel to the directory.
    #[inline(always)]
    fn send_home(&mut self, local: Local, message: Message)
        requires line { local.0 < length self.old }
        requires kind { Carries channels.Home message }
        requires room { HasRoom (slice_index_or self.old local.0 (empty_line 0)) channels.Home }
        ensures after { self.new ≡ slice_set self.old local.0
            (after_send (slice_index_or self.old local.0 (empty_line 0)) channels.Home message) }
        ensures sent { SendsOnly (slice_index_or self.old local.0 (empty_line 0))
            (after_send (slice_index_or self.old local.0 (empty_line 0)) channels.Home message) channels.Home message }
    {
        let head = &mut self.heads[local.0];
        match message {
            Message::Home(block) => head.home = Some(block),
            _ => unreachable!(),
        }
        head.note_sent(&mut self.waiting);
    }

    /// Takes the oldest message of a channel of the line without a look at it.
    #[inline(always)]
    pub fn drop_front(&mut self, local: Local, channel: Channel)
        requires line { local.0 < length self.old }
        requires there { HasChannel (slice_index_or self.old local.0 (empty_line 0)) channel }
        ensures { self.new
            ≡ slice_set self.old local.0 (after_take (slice_index_or self.old local.0 (empty_line 0)) channel) }
    {
        match channel {
            Channel::Req(core)
            | Channel::Fwd(core)
            | Channel::Data(core)
            | Channel::Ack { to: core, .. } => {
                let head = &mut self.heads[local.0];
                let place = head.place_of(core, &mut self.cores, self.width);
                let queues = &mut self.cores[place];
                drop_from(queues, &mut head.mail, core, channel);
                head.note_taken(&mut self.waiting);
            }
            Channel::Home => self.drop_home(local),
        }
    }

    // The same for the channel to the directory.
    #[inline(always)]
    fn drop_home(&mut self, local: Local)
        requires line { local.0 < length self.old }
        ensures { self.new
            ≡ slice_set self.old local.0 (after_take (slice_index_or self.old local.0 (empty_line 0)) channels.Home) }
    {
        let head = &mut self.heads[local.0];
        head.home = None;
        head.note_taken(&mut self.waiting);
    }

    /// Takes the oldest message of a channel of the line. Nothing changes where none waits, or the line has no such
    /// channel.
    pub fn take(&mut self, local: Local, channel: Channel) -> Option<Message>
        requires { local.0 < length self.old }
        ensures taken { result ≡ slice_get (messages_at (slice_index_or self.old local.0 (empty_line 0)) channel) 0 }
        ensures after { self.new
            ≡ slice_set self.old local.0 (after_take (slice_index_or self.old local.0 (empty_line 0)) channel) }
        ensures rest { TakesOnly (slice_index_or self.old local.0 (empty_line 0))
            (after_take (slice_index_or self.old local.0 (empty_line 0)) channel) channel }
    {
        let line = self.line(local);
        if !line.has_channel(channel) {
            return None;
        }
        let front = line.front(channel);
        self.drop_front(local, channel);
        front
    }

    /// Sends an invalidation for the requester to each of these cores, after what waits there.
    pub fn invalidate(&mut self, local: Local, cores: CoreSet, requester: CoreId)
        requires line { local.0 < length self.old }
        requires takes { TakesInvalidations (slice_index_or self.old local.0 (empty_line 0)) cores }
        ensures { self.new ≡ slice_set self.old local.0
            (after_invalidating (slice_index_or self.old local.0 (empty_line 0)) cores requester) }
    {
        let _ = &self.heads;
        let mut left = cores;
        while let Some(core) = left.pop_first() {
            let message = Message::Forwarded(ForwardedMessage::Inv(requester));
            self.send(local, Channel::Fwd(core), message);
        }
    }
}

// Sends the message to a channel of this core, and marks the core.
#[inline(always)]
fn send_to(
    queues: &mut CoreQueues,
    mail: &mut Mail,
    core: CoreId,
    channel: Channel,
    message: Message,
)
    requires core { IsOfCore channel core }
    requires kind { Carries channel message }
    requires room { (other : CoreId) → channel ≡ channels.Fwd other → length queues.old.forwarded < 2 }
    ensures line { (line : LineChannels) → core_at line core.0 ≡ queues.old →
        after_send line channel message ≡ with_core line core.0 queues.new }
    ensures marked { (line : LineChannels) → HasChannel line channel → core_at line core.0 ≡ queues.old →
        IsLine line.cores mail.old → IsLine (slice_set line.cores core.0 queues.new) mail.new }
{
    match (channel, message) {
        (Channel::Req(_), Message::Request(message)) => {
            queues.request = Some(message);
            mail.requests.insert(core);
        }
        (Channel::Fwd(_), Message::Forwarded(message)) => {
            queues.forwarded.push(message);
            mail.forwarded.insert(core);
        }
        (Channel::Data(_), Message::Data(message)) => {
            queues.data_message = Some(message);
            mail.data_messages.insert(core);
        }
        (Channel::Ack { from, .. }, Message::InvAck) => {
            queues.acks.insert(from);
            mail.acks.insert(core);
        }
        _ => unreachable!(),
    }
}

// Takes the oldest message of a channel of this core, and marks the core only where another waits.
#[inline(always)]
fn drop_from(queues: &mut CoreQueues, mail: &mut Mail, core: CoreId, channel: Channel)
    requires { IsOfCore channel core }
    ensures line { (line : LineChannels) → core_at line core.0 ≡ queues.old →
        after_take line channel ≡ with_core line core.0 queues.new }
    ensures marked { (line : LineChannels) → HasChannel line channel → core_at line core.0 ≡ queues.old →
        IsLine line.cores mail.old → IsLine (slice_set line.cores core.0 queues.new) mail.new }
{
    match channel {
        Channel::Req(_) => {
            queues.request = None;
            mail.requests.remove(core);
        }
        Channel::Fwd(_) => {
            let _ = queues.forwarded.pop();
            let waits = queues.forwarded.holds_any();
            mail.forwarded = without_unless(mail.forwarded, core, waits);
        }
        Channel::Data(_) => {
            queues.data_message = None;
            mail.data_messages.remove(core);
        }
        Channel::Ack { from, .. } => {
            queues.acks.remove(from);
            let waits = queues.acks.bits() > 0;
            mail.acks = without_unless(mail.acks, core, waits);
        }
        Channel::Home => unreachable!(),
    }
}
