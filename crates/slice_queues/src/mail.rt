ghost use Rattle.std.specs.Prelude.{◌≡◌, if◌then◌else◌};
ghost use Rattle.address_map.specs.CoreSet.{without};
ghost use Rattle.slice_queues.specs.Mail.{all_marked, marks_of, no_marks};

use super::channel::Class;
use address_map::{CoreId, CoreSet};

/// The cores of a line for which messages wait, by kind: of requests, those that sent them.
#[derive(Clone, Copy)]
pub struct Mail {
    pub requests: CoreSet,
    pub forwarded: CoreSet,
    pub data_messages: CoreSet,
    pub acks: CoreSet,
}

impl Mail {
    pub fn none() -> Self
        ensures { result ≡ no_marks }
    {
        Mail {
            requests: CoreSet::none(),
            forwarded: CoreSet::none(),
            data_messages: CoreSet::none(),
            acks: CoreSet::none(),
        }
    }

    /// Returns what waits in the channels of this class.
    pub fn of_class(self, class: Class) -> Self
        ensures { result ≡ marks_of class self }
    {
        let none = Mail::none();
        match class {
            Class::Any => self,
            Class::Req => Mail {
                requests: self.requests,
                ..none
            },
            Class::Fwd => Mail {
                forwarded: self.forwarded,
                ..none
            },
            Class::Data => Mail {
                data_messages: self.data_messages,
                ..none
            },
            Class::Ack => Mail {
                acks: self.acks,
                ..none
            },
            Class::Home => none,
        }
    }

    /// Returns the cores with any message.
    pub fn cores(&self) -> CoreSet
        ensures { result ≡ all_marked self.now }
    {
        CoreSet::from_bits(
            self.requests.bits()
                | self.forwarded.bits()
                | self.data_messages.bits()
                | self.acks.bits(),
        )
    }
}

/// Returns the set without the core, unless something still waits there.
pub fn without_unless(cores: CoreSet, core: CoreId, waits: bool) -> CoreSet
    ensures { result ≡ (if waits then cores else without cores core.0) }
{
    if waits { cores } else { cores.without(core) }
}
