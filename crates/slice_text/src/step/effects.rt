//! What is done at a case, effect by effect.
ghost use Rattle.std.specs.Prelude.{◌≡◌};
ghost use Rattle.slice_text.specs.Effects.{awaited_in_copy, awaited_in_entry, text_of_awaited, text_of_broken};
ghost use Rattle.slice_text.specs.Effects.{text_of_home};

use super::case::Who;
use super::cores::{Cores, Invalidations};
use super::message::MessageName;
use address_map::{CoreId, CoreSet};
use cache_table::{CacheSends, CopyState};
use directory_table::{DirSends, DirState};
use slice_answer::Cell;
use slice_queues::Message;
use std::fmt;

/// A directory's entry: its state with the owner, or with the sharers if it has any.
#[derive(Clone, Copy)]
pub(crate) struct Entry {
    pub(crate) state: DirState,
    pub(crate) owner: Option<CoreId>,
    pub(crate) sharers: CoreSet,
}

impl fmt::Display for Entry {
    ghost use Rattle.std.specs.Prelude.{Some};
    ghost use Rattle.slice_text.specs.Effects.{text_of_entry};

    ghost output = { λ entry. Some (text_of_entry entry.state entry.owner entry.sharers) };

    fn fmt<W: fmt::Write>(&self, f: &mut fmt::Formatter<W>) -> fmt::Result {
        let state = self.state;
        match self.owner {
            Some(CoreId(owner)) => write!(f, "{state}, owner {owner}"),
            None if self.sharers.is_empty() => write!(f, "{state}"),
            None => write!(f, "{state}, sharers {}", Cores(self.sharers)),
        }
    }
}

/// What the directory sends for a core's request.
#[derive(Clone, Copy)]
pub(crate) struct FromDirectory {
    pub(crate) core: CoreId,
    pub(crate) sends: DirSends,
}

impl fmt::Display for FromDirectory {
    ghost use Rattle.std.specs.Prelude.{Some};
    ghost use Rattle.slice_text.specs.Effects.{text_of_dir_sends};

    ghost output = { λ sent. Some (text_of_dir_sends sent.core sent.sends) };

    fn fmt<W: fmt::Write>(&self, f: &mut fmt::Formatter<W>) -> fmt::Result {
        let CoreId(core) = self.core;
        match self.sends {
            DirSends::Nothing => f.write_str(""),
            DirSends::Data { acks } => write!(f, "; sends Data({acks}) to core {core}"),
            DirSends::DataE => write!(f, "; sends Data-E to core {core}"),
            DirSends::DataAndInv { acks, invalidated } => {
                let further = Invalidations(invalidated);
                write!(f, "; sends Data({acks}) to core {core}{further}")
            }
            DirSends::FwdGetS {
                owner: CoreId(owner),
            } => write!(f, "; sends Fwd-GetS to core {owner}"),
            DirSends::FwdGetM {
                owner: CoreId(owner),
            } => write!(f, "; sends Fwd-GetM to core {owner}"),
            DirSends::PutAck => write!(f, "; sends Put-Ack to core {core}"),
        }
    }
}

/// What a core sends for the requester that a forwarded message names.
#[derive(Clone, Copy)]
pub(crate) struct FromCore {
    pub(crate) slice: usize,
    pub(crate) requester: CoreId,
    pub(crate) sends: CacheSends,
}

impl fmt::Display for FromCore {
    ghost use Rattle.std.specs.Prelude.{Some};
    ghost use Rattle.slice_text.specs.Effects.{text_of_cache_sends};

    ghost output = { λ sent. Some (text_of_cache_sends sent.slice sent.requester sent.sends) };

    fn fmt<W: fmt::Write>(&self, f: &mut fmt::Formatter<W>) -> fmt::Result {
        let CoreId(core) = self.requester;
        match self.sends {
            CacheSends::DataToRequester => write!(f, "; sends Data(0) to core {core}"),
            CacheSends::DataToRequesterAndHome => {
                let block = BlockHome(self.slice);
                write!(f, "; sends Data(0) to core {core}{block}")
            }
            CacheSends::InvAckToRequester => write!(f, "; sends Inv-Ack to core {core}"),
            CacheSends::Nothing
            | CacheSends::GetS
            | CacheSends::GetM
            | CacheSends::PutS
            | CacheSends::PutM => f.write_str(""),
        }
    }
}

/// A block on its way home to the directory of a slice, after another message.
#[derive(Clone, Copy)]
struct BlockHome(usize);

impl fmt::Display for BlockHome {
    ghost use Rattle.std.specs.Prelude.{Some};
    ghost use Rattle.slice_text.specs.Effects.{text_of_block};

    ghost output = { λ block. Some (text_of_block block.0) };

    fn fmt<W: fmt::Write>(&self, f: &mut fmt::Formatter<W>) -> fmt::Result {
        let slice = self.0;
        write!(f, ", Data home to dir {slice}")
    }
}

/// What else a core that takes data or an acknowledgement does: the accesses that it performs, which are those from
/// this number in the log up to the one before the end, and what it then requests from the directory.
#[derive(Clone, Copy)]
pub struct Done {
    pub first: usize,
    pub end: usize,
    pub asked: Option<Message>,
    /// The final state of its copy.
    pub state: CopyState,
}

#[derive(Clone, Copy)]
pub(crate) struct Numbers(pub(crate) Done);

impl fmt::Display for Numbers {
    ghost use Rattle.std.specs.Prelude.{Some};
    ghost use Rattle.slice_text.specs.Effects.{text_of_numbers};

    ghost output = { λ numbers. Some (text_of_numbers numbers.0.first numbers.0.end) };

    fn fmt<W: fmt::Write>(&self, f: &mut fmt::Formatter<W>) -> fmt::Result {
        let first = self.0.first;
        let end = self.0.end;
        if first >= end {
            return f.write_str("");
        }
        let last = end - 1;
        if first == last {
            write!(f, "; performs number {first}")
        } else {
            write!(f, "; performs numbers {first} to {last}")
        }
    }
}

#[derive(Clone, Copy)]
pub(crate) struct AskedOfDirectory {
    pub(crate) slice: usize,
    pub(crate) done: Done,
}

impl fmt::Display for AskedOfDirectory {
    ghost use Rattle.std.specs.Prelude.{Some};
    ghost use Rattle.slice_text.specs.Effects.{text_of_asked};

    ghost output = { λ asked. Some (text_of_asked asked.slice asked.done.asked asked.done.state) };

    fn fmt<W: fmt::Write>(&self, f: &mut fmt::Formatter<W>) -> fmt::Result {
        let slice = self.slice;
        let state = self.done.state;
        match self.done.asked {
            Some(message) => {
                let name = MessageName(message);
                write!(f, "; sends {name} to dir {slice}; to {state}")
            }
            None => f.write_str(""),
        }
    }
}

/// Returns the text for a block that is carried along and becomes the home copy.
pub(crate) const fn home(writes_home: bool) -> &'static str
    ensures { result.now ≡ text_of_home writes_home }
{
    if writes_home { "; block home" } else { "" }
}

/// Returns why a message can't be taken.
pub(crate) const fn broken(cell: Cell) -> &'static str
    ensures { result.now ≡ text_of_broken cell }
{
    match cell {
        Cell::Entry => "no row",
        Cell::Full => "no room for what it sends",
        Cell::Early => "its own request still waits",
    }
}

/// Returns what an entry or a copy in its state waits for.
pub(crate) const fn awaited(who: Who) -> &'static str
    ensures { result.now ≡ text_of_awaited who }
{
    match who {
        Who::Directory { state, .. } => awaited_in_entry(state),
        Who::Core { state, .. } => awaited_in_copy(state),
    }
}

const fn awaited_in_entry(state: DirState) -> &'static str
    ensures { result.now ≡ awaited_in_entry state }
{
    match state {
        DirState::S_D => "Data home",
        DirState::I | DirState::S | DirState::M => "nothing",
    }
}

const fn awaited_in_copy(state: CopyState) -> &'static str
    ensures { result.now ≡ awaited_in_copy state }
{
    match state {
        CopyState::IS_D => "Data",
        CopyState::IM_AD | CopyState::SM_AD => "Data and Inv-Ack",
        CopyState::IM_A | CopyState::SM_A => "Inv-Ack",
        CopyState::MI_A | CopyState::SI_A | CopyState::II_A => "Put-Ack",
        CopyState::I | CopyState::S | CopyState::M | CopyState::E => "nothing",
    }
}
