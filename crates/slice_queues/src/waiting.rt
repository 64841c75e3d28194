ghost use Rattle.std.specs.Prelude.{◌≡◌, ◌<◌, [], length, drop, slice_get, slice_index_or};
ghost use Rattle.slice_queues.specs.Line.{no_messages};
ghost use Rattle.slice_queues.specs.Waiting.{AreCores, acks_from, channels_left, marked_waiting};

use super::channel::Channel;
use super::core_queues::CoreQueues;
use super::mail::Mail;
use address_map::{CoreId, CoreSet};
use std::marker::Model;

/// The acknowledgements of one line that are left, by their receivers, and those for one by their senders.
#[derive(Clone, Copy)]
pub(crate) struct AcksLeft {
    receivers: CoreSet,
    senders: CoreSet,
    to: CoreId,
}

impl AcksLeft {
    /// Returns the next acknowledgement that waits for one of these cores, `None` after the last.
    fn next(&mut self, cores: &[CoreQueues]) -> Option<Channel>
        requires { AreCores cores.now self.old.receivers }
        ensures first { result ≡ slice_get (acks_from self.old cores.now) 0 }
        ensures rest { acks_from self.new cores.now ≡ drop 1 (acks_from self.old cores.now) }
        ensures known { AreCores cores.now self.new.receivers }
    {
        loop {
            if let Some(from) = self.senders.pop_first() {
                return Some(Channel::Ack { to: self.to, from });
            }
            let to = self.receivers.pop_first()?;
            self.senders = senders_to(cores, to);
            self.to = to;
        }
    }
}

/// The channels of one line that are left, of those in which a message waited: home, the data, the acknowledgements,
/// what is forwarded, and the requests. It doesn't hold the line, so that this may be changed once a channel was given.
#[derive(Clone, Copy)]
pub struct ChannelsLeft {
    acks: AcksLeft,
    data_messages: CoreSet,
    forwarded: CoreSet,
    requests: CoreSet,
    home: bool,
}

impl ChannelsLeft {
    /// The channels of these cores for which the marks say that a message waits, and home where one waits there.
    #[tactic(auto, using(address_map::proofs::Members::members_none))]
    pub(crate) fn new(cores: &[CoreQueues], mail: Mail, home: bool) -> Self
        requires { AreCores cores.now mail.acks }
        ensures order { channels_left result cores.now ≡ marked_waiting home mail cores.now }
        ensures known { AreCores cores.now result.acks.receivers }
    {
        ChannelsLeft {
            acks: AcksLeft {
                receivers: mail.acks,
                senders: CoreSet::none(),
                to: CoreId(0),
            },
            data_messages: mail.data_messages,
            forwarded: mail.forwarded,
            requests: mail.requests,
            home,
        }
    }

    /// Returns the next channel of the line with these cores, `None` after the last.
    pub(crate) fn next(&mut self, cores: &[CoreQueues]) -> Option<Channel>
        requires { AreCores cores.now self.old.acks.receivers }
        ensures first { result ≡ slice_get (channels_left self.old cores.now) 0 }
        ensures rest { channels_left self.new cores.now ≡ drop 1 (channels_left self.old cores.now) }
        ensures known { AreCores cores.now self.new.acks.receivers }
    {
        if self.home {
            self.home = false;
            return Some(Channel::Home);
        }
        if let Some(core) = self.data_messages.pop_first() {
            return Some(Channel::Data(core));
        }
        if let Some(ack) = self.acks.next(cores) {
            return Some(ack);
        }
        if let Some(core) = self.forwarded.pop_first() {
            return Some(Channel::Fwd(core));
        }
        let core = self.requests.pop_first()?;
        Some(Channel::Req(core))
    }
}

/// The channels of one line in which a message waits, one after another: home, the data, the acknowledgements, what is
/// forwarded, and the requests.
#[derive(Drop)]
pub struct LineWaiting<'a> {
    cores: &'a [CoreQueues],
    left: ChannelsLeft,
}

impl<'a> Model for LineWaiting<'a> {
    ghost use Rattle.std.specs.Prelude.{List};
    ghost use Rattle.slice_queues.specs.declared.channel.Channel.{Channel};
    ghost use Rattle.slice_queues.specs.Waiting.{AreCores, channels_left};

    ghost Value = { List Channel };

    ghost view = { λ waiting. channels_left waiting.left waiting.cores.now };

    ghost invariant = { λ waiting. AreCores waiting.cores.now waiting.left.acks.receivers };
}

impl<'a> LineWaiting<'a> {
    pub(crate) fn new(cores: &'a [CoreQueues], left: ChannelsLeft) -> Self
        requires { AreCores cores.now left.acks.receivers }
        ensures { result ≡ channels_left left cores.now }
    {
        LineWaiting { cores, left }
    }

    /// No channel.
    #[tactic(auto, using(address_map::proofs::Members::members_none))]
    pub(crate) fn none() -> Self
        ensures { result ≡ [] }
    {
        let left = ChannelsLeft::new(&[], Mail::none(), false);
        LineWaiting::new(&[], left)
    }

    /// Returns the next channel, `None` after the last.
    pub fn next(&mut self) -> Option<Channel>
        ensures first { result ≡ slice_get self.old 0 }
        ensures rest { self.new ≡ drop 1 self.old }
    {
        self.left.next(self.cores)
    }
}

// The senders of the acknowledgements that wait for the core.
fn senders_to(cores: &[CoreQueues], core: CoreId) -> CoreSet
    requires { core.0 < length cores.now }
    ensures { result ≡ (slice_index_or cores.now core.0 no_messages).acks }
{
    let queues = &cores[core.0 as usize];
    queues.acks
}
