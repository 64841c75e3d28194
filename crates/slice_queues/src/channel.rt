ghost use Rattle.std.specs.Prelude.{◌≡◌};

use address_map::{CoreId, LineAddr};

/// One channel of a line.
#[derive(Clone, Copy, Debug, PartialEq, Eq)]
pub enum Channel {
    /// From this core to the directory.
    Req(CoreId),
    /// From the directory to this core, first in first out.
    Fwd(CoreId),
    /// Data to this core, from the directory or from another core.
    Data(CoreId),
    /// Acknowledgements of invalidations, from one core to another.
    Ack { to: CoreId, from: CoreId },
    /// Data home to the directory.
    Home,
}

/// One channel of one line of the memory: what a delivery takes from.
#[derive(Clone, Copy, Debug, PartialEq, Eq)]
pub enum Pick {
    Req(LineAddr, CoreId),
    Fwd(LineAddr, CoreId),
    Data(LineAddr, CoreId),
    Ack {
        line: LineAddr,
        to: CoreId,
        from: CoreId,
    },
    Home(LineAddr),
}

/// The channels of one kind, or all of them.
#[derive(Clone, Copy, Debug, PartialEq, Eq)]
pub enum Class {
    Req,
    Fwd,
    Data,
    Ack,
    Home,
    Any,
}

impl Pick {
    ghost use Rattle.slice_queues.specs.Pick.{line_of, channel_of};

    pub const fn line(self) -> LineAddr
        ensures { result ≡ line_of self }
    {
        match self {
            Pick::Req(line, _) | Pick::Fwd(line, _) | Pick::Data(line, _) => line,
            Pick::Ack { line, .. } | Pick::Home(line) => line,
        }
    }

    pub const fn channel(self) -> Channel
        ensures { result ≡ channel_of self }
    {
        match self {
            Pick::Req(_, core) => Channel::Req(core),
            Pick::Fwd(_, core) => Channel::Fwd(core),
            Pick::Data(_, core) => Channel::Data(core),
            Pick::Ack { to, from, .. } => Channel::Ack { to, from },
            Pick::Home(_) => Channel::Home,
        }
    }
}

impl Channel {
    ghost use Rattle.slice_queues.specs.Pick.{pick_at};

    /// This channel of the given line.
    pub const fn at(self, line: LineAddr) -> Pick
        ensures { result ≡ pick_at line self }
    {
        match self {
            Channel::Req(core) => Pick::Req(line, core),
            Channel::Fwd(core) => Pick::Fwd(line, core),
            Channel::Data(core) => Pick::Data(line, core),
            Channel::Ack { to, from } => Pick::Ack { line, to, from },
            Channel::Home => Pick::Home(line),
        }
    }
}
