ghost use Rattle.std.specs.Prelude.{◌≡◌};

use super::forwarded_queue::ForwardedQueue;
use super::message::{DataMessage, RequestMessage};
use address_map::CoreSet;
use std::marker::Model;

/// One core's channels of a line: its request to the directory, and what waits for it.
#[derive(Drop)]
pub struct CoreQueues {
    // The small fields are together, so that a look for waiting messages reads two cache lines instead of three.
    /// The senders of the acknowledgements that wait.
    pub acks: CoreSet,
    pub forwarded: ForwardedQueue,
    pub request: Option<RequestMessage>,
    pub data_message: Option<DataMessage>,
}

impl Model for CoreQueues {
    ghost use Rattle.slice_queues.specs.Line.{CoreChannels};
    ghost use Rattle.slice_queues.specs.Forwarded.{queued_messages};

    ghost Value = { CoreChannels };

    ghost view = { λ core. record {
      request = core.request;
      forwarded = queued_messages core.forwarded;
      «data» = core.data_message;
      acks =
          core.acks;
    } };
}

impl CoreQueues {
    ghost use Rattle.slice_queues.specs.Line.{no_messages};

    pub fn new() -> Self
        ensures { result ≡ no_messages }
    {
        CoreQueues {
            request: None,
            data_message: None,
            acks: CoreSet::none(),
            forwarded: ForwardedQueue::Empty,
        }
    }

    /// Returns a copy of the messages.
    pub fn copy(&self) -> Self
        ensures { result ≡ self.now }
    {
        CoreQueues {
            acks: self.acks,
            forwarded: self.forwarded,
            request: self.request,
            data_message: self.data_message,
        }
    }
}
