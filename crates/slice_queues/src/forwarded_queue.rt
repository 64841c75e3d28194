ghost use Rattle.std.specs.Prelude.{◌≡◌, ◌<◌, ◌++◌, [], ◌∷◌, length, nat_lt, slice_get, drop, IsTrue, ◌↔◌};
ghost use Rattle.std.specs.Option.{option_copied};

use super::message::ForwardedMessage;

/// At most two forwarded messages, the oldest first.
#[derive(Clone, Copy, Debug, PartialEq, Eq)]
pub enum ForwardedQueue {
    Empty,
    One(ForwardedMessage),
    Two(ForwardedMessage, ForwardedMessage),
}

impl ForwardedQueue {
    ghost use Rattle.slice_queues.specs.Forwarded.{queued_messages};

    pub fn holds_any(&self) -> bool
        ensures { result ≡ nat_lt 0 (length (queued_messages self.now)) }
    {
        !matches!(self, ForwardedQueue::Empty)
    }

    pub fn is_full(&self) -> bool
        ensures { IsTrue result ↔ (length (queued_messages self.now) ≡ 2) }
    {
        matches!(self, ForwardedQueue::Two(..))
    }

    pub fn front(&self) -> Option<&ForwardedMessage>
        ensures { option_copied result ≡ slice_get (queued_messages self.now) 0 }
    {
        match self {
            ForwardedQueue::Empty => None,
            ForwardedQueue::One(first) | ForwardedQueue::Two(first, _) => Some(first),
        }
    }

    pub fn push(&mut self, message: ForwardedMessage)
        requires { length (queued_messages self.old) < 2 }
        ensures { queued_messages self.new ≡ queued_messages self.old ++ message ∷ [] }
    {
        *self = match *self {
            ForwardedQueue::Empty => ForwardedQueue::One(message),
            ForwardedQueue::One(first) => ForwardedQueue::Two(first, message),
            ForwardedQueue::Two(..) => unreachable!(),
        };
    }

    pub fn pop(&mut self) -> Option<ForwardedMessage>
        ensures front { result ≡ slice_get (queued_messages self.old) 0 }
        ensures rest { queued_messages self.new ≡ drop 1 (queued_messages self.old) }
    {
        match *self {
            ForwardedQueue::Empty => None,
            ForwardedQueue::One(first) => {
                *self = ForwardedQueue::Empty;
                Some(first)
            }
            ForwardedQueue::Two(first, second) => {
                *self = ForwardedQueue::One(second);
                Some(first)
            }
        }
    }
}
