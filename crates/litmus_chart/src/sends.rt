//! What a step of the directory or of a core sends, and to whom.
use address_map::{CoreId, CoreSet, LineAddr};
use slice_core::{CacheSends, DirSends, Pick, Transition};

/// The messages that a step sends for one line: at most one of each kind except the forwarded ones.
#[derive(Clone, Copy)]
pub struct Sends {
    pub data: Option<CoreId>,
    /// The cores that get an Inv, a forwarded request or a Put-Ack.
    pub forwarded: CoreSet,
    /// The core that gets an acknowledgement.
    pub ack: Option<CoreId>,
    pub home: bool,
}

impl Sends {
    /// Returns what is sent if the message at the front of this channel is taken by this transition.
    pub fn of(pick: Pick, transition: Transition) -> Self {
        match transition {
            Transition::Directory(step) => Sends::of_directory(requester_at(pick), step.sends),
            Transition::Forwarded(step) => Sends::of_core(step.requester, step.sends),
            Transition::Home(_) | Transition::Fill(_) | Transition::Acknowledge(_) => {
                Sends::nothing()
            }
        }
    }

    fn nothing() -> Self {
        Sends {
            data: None,
            forwarded: CoreSet::none(),
            ack: None,
            home: false,
        }
    }

    fn of_directory(requester: CoreId, sends: DirSends) -> Self {
        let (data, forwarded) = match sends {
            DirSends::Nothing => (None, CoreSet::none()),
            DirSends::Data { .. } | DirSends::DataE => (Some(requester), CoreSet::none()),
            DirSends::DataAndInv { invalidated, .. } => (Some(requester), invalidated),
            DirSends::FwdGetS { owner } | DirSends::FwdGetM { owner } => {
                (None, CoreSet::only(owner))
            }
            DirSends::PutAck => (None, CoreSet::only(requester)),
        };
        Sends {
            data,
            forwarded,
            ..Sends::nothing()
        }
    }

    fn of_core(requester: CoreId, sends: CacheSends) -> Self {
        let (data, ack, home) = match sends {
            CacheSends::InvAckToRequester => (None, Some(requester), false),
            CacheSends::DataToRequester => (Some(requester), None, false),
            CacheSends::DataToRequesterAndHome => (Some(requester), None, true),
            // requests are sent by a core's own accesses and evictions
            _ => (None, None, false),
        };
        Sends {
            data,
            forwarded: CoreSet::none(),
            ack,
            home,
        }
    }

    /// Returns the next of the channels to which these messages go, by this core if a core sends them, or none once all
    /// were returned.
    pub fn next(&mut self, line: LineAddr, by: Option<CoreId>) -> Option<Pick> {
        if let Some(core) = self.data.take() {
            return Some(Pick::Data(line, core));
        }
        if let Some(core) = self.forwarded.pop_first() {
            return Some(Pick::Fwd(line, core));
        }
        if let (Some(to), Some(from)) = (self.ack.take(), by) {
            return Some(Pick::Ack { line, to, from });
        }
        if self.home {
            self.home = false;
            return Some(Pick::Home(line));
        }
        None
    }
}

// Returns the core whose request is there.
fn requester_at(pick: Pick) -> CoreId {
    match pick {
        Pick::Req(_, core) | Pick::Fwd(_, core) | Pick::Data(_, core) => core,
        Pick::Ack { from, .. } => from,
        Pick::Home(_) => CoreId(0),
    }
}
