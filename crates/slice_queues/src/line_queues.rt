ghost use Rattle.std.specs.Prelude.{◌≡◌, ◌↔◌, [], drop, filter, length, not, ◌&&◌, slice_get, false, IsTrue};
ghost use Rattle.slice_queues.specs.Class.{is_of_class};
ghost use Rattle.std.specs.Option.{option_copied};
ghost use Rattle.slice_queues.specs.declared.channel.Channel.TheVariants as channels;

use super::channel::{Channel, Class};
use super::core_queues::CoreQueues;
use super::lines::LineHead;
use super::message::{DataMessage, ForwardedMessage, RequestMessage};
use super::waiting::{ChannelsLeft, LineWaiting};
use address_map::{Block, CoreId, CoreSet};
use std::marker::Model;

/// The channels of one line, to be looked at.
#[derive(Drop)]
pub struct LineQueues<'a> {
    pub(super) head: &'a LineHead,
    pub(super) cores: &'a [CoreQueues],
}

impl<'a> Model for LineQueues<'a> {
    ghost use Rattle.slice_queues.specs.Line.{LineChannels};
    ghost use Rattle.slice_queues.specs.Count.{IsHead};

    ghost Value = { LineChannels };

    ghost view = { λ line. record { cores = line.cores.now; home = line.head.now.home } };

    ghost invariant = { λ line. IsHead line.cores.now line.head.now };
}

/// The channels one kind at a time: nothing is copied to look at a message.
impl<'a> LineQueues<'a> {
    ghost use Rattle.address_map.specs.CoreSet.{has};
    ghost use Rattle.slice_queues.specs.Waiting.{AreCores, channels_left, line_waiting, HasEachOnce, HasEachOnceIn};
    ghost use Rattle.slice_queues.specs.Line.{core_at, messages_at, after_take, HasRoom, HasChannel, IsEmptyLine};
    ghost use Rattle.slice_queues.specs.Line.{has_mail, TakesInvalidations};

    /// Returns how many cores the line has.
    pub fn cores(&self) -> usize
        ensures { result ≡ length self.now.cores }
    {
        self.cores.len()
    }

    /// Whether the line has the channel: the cores that it names are there.
    pub fn has_channel(&self, channel: Channel) -> bool
        ensures there { IsTrue result ↔ HasChannel self.now channel }
        ensures absent { result ≡ false → messages_at self.now channel ≡ [] }
        ensures unchanged { result ≡ false → after_take self.now channel ≡ self.now }
    {
        let cores = self.cores.len();
        match channel {
            Channel::Req(core) | Channel::Fwd(core) | Channel::Data(core) => (core.0 as usize)
                < cores,
            Channel::Ack { to, from } => (to.0 as usize) < cores && (from.0 as usize) < cores,
            Channel::Home => true,
        }
    }

    /// Returns the channels in which a message waits, each once: home, the data, the acknowledgements, what is
    /// forwarded, and the requests, those of each kind in ascending order of their cores.
    pub fn waiting(&self) -> LineWaiting<'a>
        ensures order { result ≡ line_waiting self.now }
        ensures once { HasEachOnce self.now result }
    {
        self.waiting_in(Class::Any)
    }

    /// Those of them that are of this class, in the same order.
    pub fn waiting_in(&self, class: Class) -> LineWaiting<'a>
        ensures order { result ≡ filter (is_of_class class) (line_waiting self.now) }
        ensures once { HasEachOnceIn class self.now result }
    {
        LineWaiting::new(self.cores, self.left_in(class))
    }

    /// Returns the same channels; [`LineQueues::next_left`] takes one after another from them.
    pub fn left_in(&self, class: Class) -> ChannelsLeft
        ensures order { channels_left result self.now.cores ≡ filter (is_of_class class) (line_waiting self.now) }
        ensures once { HasEachOnceIn class self.now (channels_left result self.now.cores) }
        ensures known { AreCores self.now.cores result.acks.receivers }
    {
        let home = waits_at_home(class, self.head.home.is_some());
        ChannelsLeft::new(self.cores, self.head.mail.of_class(class), home)
    }

    /// Returns the next of the channels that are left, `None` after the last.
    pub fn next_left(&self, left: &mut ChannelsLeft) -> Option<Channel>
        requires { AreCores self.now.cores left.old.acks.receivers }
        ensures first { result ≡ slice_get (channels_left left.old self.now.cores) 0 }
        ensures rest { channels_left left.new self.now.cores ≡ drop 1 (channels_left left.old self.now.cores) }
        ensures known { AreCores self.now.cores left.new.acks.receivers }
    {
        left.next(self.cores)
    }

    /// Returns the request that waits for the directory.
    pub fn front_request(&self, core: CoreId) -> Option<&'a RequestMessage>
        requires { HasChannel self.now (channels.Req core) }
        ensures { option_copied result ≡ (core_at self.now core.0).request }
    {
        let queues = &self.cores[core.0 as usize];
        queues.request.as_ref()
    }

    /// Returns the oldest forwarded message that waits for the core.
    pub fn front_forwarded(&self, core: CoreId) -> Option<&'a ForwardedMessage>
        requires { HasChannel self.now (channels.Fwd core) }
        ensures { option_copied result ≡ slice_get (core_at self.now core.0).forwarded 0 }
    {
        let queues = &self.cores[core.0 as usize];
        queues.forwarded.front()
    }

    /// Whether the core's forwarded channel takes another message.
    pub fn takes_forwarded(&self, core: CoreId) -> bool
        requires { HasChannel self.now (channels.Fwd core) }
        ensures { IsTrue result ↔ HasRoom self.now (channels.Fwd core) }
    {
        let queues = &self.cores[core.0 as usize];
        !queues.forwarded.is_full()
    }

    /// Returns the data that wait for the core.
    pub fn front_data(&self, core: CoreId) -> Option<&'a DataMessage>
        requires { HasChannel self.now (channels.Data core) }
        ensures { option_copied result ≡ (core_at self.now core.0).data }
    {
        let queues = &self.cores[core.0 as usize];
        queues.data_message.as_ref()
    }

    /// Whether an acknowledgement from the one core waits for the other.
    pub fn has_ack(&self, to: CoreId, from: CoreId) -> bool
        requires { HasChannel self.now (channels.Ack to from) }
        ensures { result ≡ has (core_at self.now to.0).acks from.0 }
    {
        let queues = &self.cores[to.0 as usize];
        queues.acks.has(from)
    }

    /// Returns the block that waits for the directory.
    pub fn front_home(&self) -> Option<&'a Block>
        ensures { option_copied result ≡ self.now.home }
    {
        self.head.home.as_ref()
    }

    /// Whether no message waits in any channel of the line.
    pub fn is_empty(&self) -> bool
        ensures empty { IsTrue result ↔ IsEmptyLine self.now }
        ensures mail { result ≡ not (has_mail self.now) }
    {
        !self.has_mail()
    }

    /// Whether a message waits in some channel of the line.
    pub fn has_mail(&self) -> bool
        ensures { result ≡ has_mail self.now }
    {
        let _ = &self.cores;
        self.head.waits
    }

    /// Whether all of these are cores of the line, and each one's forwarded channel takes another message.
    pub fn takes_invalidations(&self, cores: CoreSet) -> bool
        ensures { IsTrue result ↔ TakesInvalidations self.now cores }
    {
        let _ = cores.bits();
        let mut left = cores;
        while let Some(core) = left.pop_first() {
            if !self.has_room(Channel::Fwd(core)) {
                return false;
            }
        }
        true
    }
}

// Whether a block waits at home that is of this class.
fn waits_at_home(class: Class, home: bool) -> bool
    ensures { result ≡ (is_of_class class channels.Home && home) }
{
    matches!(class, Class::Home | Class::Any) && home
}
