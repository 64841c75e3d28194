ghost use Rattle.std.specs.Prelude.{◌≡◌, ◌↔◌, slice_get, IsTrue};
ghost use Rattle.slice_queues.specs.Line.{messages_at, HasChannel, HasRoom};

use super::channel::Channel;
use super::line_queues::LineQueues;
use super::message::Message;

/// The channels by their names.
impl LineQueues<'_> {
    /// Whether the channel is there and takes another message.
    pub fn has_room(&self, channel: Channel) -> bool
        ensures { IsTrue result ↔ (HasChannel self.now channel × HasRoom self.now channel) }
    {
        self.has_channel(channel)
            && match channel {
                Channel::Req(core) => self.front_request(core).is_none(),
                Channel::Fwd(core) => self.takes_forwarded(core),
                Channel::Data(core) => self.front_data(core).is_none(),
                Channel::Ack { to, from } => !self.has_ack(to, from),
                Channel::Home => self.front_home().is_none(),
            }
    }

    /// Returns the oldest message of the channel. `None` too where the line has no such channel.
    pub fn front(&self, channel: Channel) -> Option<Message>
        ensures { result ≡ slice_get (messages_at self.now channel) 0 }
    {
        if !self.has_channel(channel) {
            return None;
        }
        match channel {
            Channel::Req(core) => self
                .front_request(core)
                .map(|message| Message::Request(*message)),
            Channel::Fwd(core) => self
                .front_forwarded(core)
                .map(|message| Message::Forwarded(*message)),
            Channel::Data(core) => self.front_data(core).map(|message| Message::Data(*message)),
            Channel::Ack { to, from } => self.has_ack(to, from).then_some(Message::InvAck),
            Channel::Home => self.front_home().map(|block| Message::Home(*block)),
        }
    }
}
