ghost use Rattle.std.specs.Prelude.{◌≡◌};
ghost use Rattle.address_map.specs.CoreSet.{count_of, without};
ghost use Rattle.directory_table.specs.Law.{AwaitsHome, AwaitsInvalidated, ForgetsNobody, GivesOnlyCopy, GrantsWriting};
ghost use Rattle.directory_table.specs.Law.{HasOwnerInM, IfGo, IsOnlyLawful, HasExactly, HasSharersInS, Invalidates};
ghost use Rattle.directory_table.specs.Law.{IsOfSet, KnowsRequester, Replies, SendsOneToEach, Serves, brings_home};
ghost use Rattle.directory_table.specs.Law.{can_come, has_entry, has_to_wait, is_blocked, is_sharer_after};
ghost use Rattle.directory_table.specs.Row.{cell, goes, goes_home, row_of, shared_by};

use super::state::{DirEntry, DirState};
use address_map::{CoreId, CoreSet};

/// What comes to the directory: a request of a core, or the block that the last owner sends home.
#[derive(Clone, Copy, Debug, PartialEq, Eq)]
pub enum DirEvent {
    GetS(CoreId),
    GetM(CoreId),
    PutS(CoreId),
    PutM(CoreId),
    DataHome,
}

/// What a row of the table sends. Data carry the home copy. The requester is the core of the event.
#[derive(Clone, Copy, Debug, PartialEq, Eq)]
pub enum DirSends {
    Nothing,
    /// Data to the requester.
    Data { acks: u8 },
    /// Data to the requester, as the only copy.
    DataE,
    /// Data to the requester, and to each of these cores an invalidation that names the requester.
    DataAndInv { acks: u8, invalidated: CoreSet },
    /// The request to the owner, in the requester's name.
    FwdGetS { owner: CoreId },
    FwdGetM { owner: CoreId },
    /// The acknowledgement of a Put to the requester.
    PutAck,
}

/// What the directory does by a row of the table.
#[derive(Clone, Copy, Debug, PartialEq, Eq)]
pub struct DirStep {
    // Small fields are together: each alone would bring seven bytes of padding that are copied with it.
    /// The entry's next state, and its next owner.
    pub state: DirState,
    pub owner: Option<CoreId>,
    /// Whether the block that comes along is the home copy then.
    pub writes_home: bool,
    /// The entry's next sharers.
    pub sharers: CoreSet,
    /// What is sent, and to whom.
    pub sends: DirSends,
}

/// One cell of the table.
#[derive(Clone, Copy, Debug, PartialEq, Eq)]
pub enum DirRow {
    /// The directory takes the event, and does this.
    Go(DirStep),
    /// The request stays at the front of its channel.
    Blocked,
    /// The protocol never brings this event to this state.
    NoEntry,
}

/// The cell of the table at an entry and an event. `exclusive` is the setting by which a request to read a line that
/// no core has is given the only copy.
#[inline(always)]
pub fn dir_row(exclusive: bool, entry: &DirEntry, event: DirEvent) -> DirRow
    ensures table { result ≡ row_of exclusive entry.now event }

    // What the coherence of a line rests on, whatever the cells are.
    ensures entry { HasOwnerInM entry.now.state entry.now.owner
        → has_entry result ≡ can_come entry.now.state entry.now.owner event }
    ensures owner { HasOwnerInM entry.now.state entry.now.owner
        → IfGo result (λ state owner _ _ _. HasOwnerInM state owner) }
    ensures home { IfGo result (λ _ _ _ _ writes. writes ≡ brings_home entry.now.state entry.now.owner event) }
    ensures served { IfGo result (λ _ _ _ sent _. Serves entry.now.state entry.now.owner event sent) }
    ensures replied { IfGo result (λ _ _ _ sent _. Replies event sent) }
    ensures known { IfGo result (λ _ owner sharers _ _. KnowsRequester event owner sharers) }
    ensures granted { IfGo result (λ _ owner _ _ _. GrantsWriting exclusive entry.now.state
        entry.now.owner event owner) }
    ensures invalidated { IfGo result (λ _ _ _ sent _. Invalidates entry.now.state entry.now.sharers event sent) }
    ensures acknowledgements { IfGo result (λ _ _ _ sent _. AwaitsInvalidated sent) }
    ensures sharers { let after = is_sharer_after exclusive entry.now.state entry.now.owner entry.now.sharers event
        in IfGo result (λ _ _ sharers _ _. HasExactly sharers after) }
    ensures sharers_in_s { IsOfSet event → HasSharersInS entry.now.state entry.now.sharers
        → IfGo result (λ state _ sharers _ _. HasSharersInS state sharers) }
    ensures messages { IfGo result (λ _ _ _ sent _. SendsOneToEach event sent) }
    ensures idle { IfGo result (λ state _ sharers _ _. ForgetsNobody entry.now.state state sharers) }
    ensures awaited { IfGo result (λ state _ _ sent _. AwaitsHome entry.now.state event sent state) }
    ensures blocked { is_blocked result ≡ has_to_wait entry.now.state event }
    ensures exclusive { IfGo result (λ _ _ _ sent _. GivesOnlyCopy exclusive entry.now.state event sent) }
    ensures only { IsOnlyLawful exclusive entry.now.state entry.now.owner entry.now.sharers event result }
{
    // brings into scope that the bits of a set are below 2^64
    let _ = entry.sharers.bits();
    cell(exclusive, entry.state, entry.owner, entry.sharers, event)
}

// The table itself, one cell one line.
#[inline(always)]
#[rattlefmt::skip]
fn cell(exclusive: bool, state: DirState, owner: Option<CoreId>, sharers: CoreSet, event: DirEvent) -> DirRow
    ensures { result ≡ cell exclusive state owner sharers event }
{
    use DirEvent::*;
    use DirRow::{Blocked, NoEntry};
    use DirSends::*;
    use DirState::*;
    match (state, owner, event) {
        (I, _, GetS(core)) if exclusive => go(M, Some(core), sharers, DataE),
        (I, _, GetS(core)) => go(S, owner, CoreSet::only(core), Data { acks: 0 }),
        (I, _, GetM(core)) => go(M, Some(core), sharers, Data { acks: 0 }),
        (S, _, GetS(core)) => go(S, owner, sharers.with(core), Data { acks: 0 }),
        (S, _, GetM(core)) => go(M, Some(core), CoreSet::none(), invalidate_others(sharers, core)),
        (M, Some(from), GetS(core)) if from != core =>
            go(S_D, None, CoreSet::only(from).with(core), FwdGetS { owner: from }),
        (M, Some(from), GetM(core)) if from != core => go(M, Some(core), sharers, FwdGetM { owner: from }),
        (M, Some(from), PutM(core)) if from == core => go_home(I, None, sharers, PutAck),
        (S_D, _, GetS(_) | GetM(_)) => Blocked,
        (S_D, _, DataHome) => go_home(shared_by(sharers), owner, sharers, Nothing),
        (I, _, PutS(_) | PutM(_)) => go(I, owner, sharers, PutAck),
        (M, Some(from), PutS(core) | PutM(core)) if from != core => go(M, owner, sharers, PutAck),
        (S, _, PutS(core) | PutM(core)) => go(shared_by(sharers.without(core)), owner, sharers.without(core), PutAck),
        (S_D, _, PutS(core) | PutM(core)) => go(S_D, owner, sharers.without(core), PutAck),
        _ => NoEntry,
    }
}

/// The row that leaves the home copy as it is.
const fn go(state: DirState, owner: Option<CoreId>, sharers: CoreSet, sends: DirSends) -> DirRow
    ensures { result ≡ goes state owner sharers sends }
{
    DirRow::Go(DirStep {
        state,
        owner,
        sharers,
        sends,
        writes_home: false,
    })
}

/// The row that copies the message's block home.
const fn go_home(
    state: DirState,
    owner: Option<CoreId>,
    sharers: CoreSet,
    sends: DirSends,
) -> DirRow
    ensures { result ≡ goes_home state owner sharers sends }
{
    DirRow::Go(DirStep {
        state,
        owner,
        sharers,
        sends,
        writes_home: true,
    })
}

/// S, or I where no sharer is left.
const fn shared_by(sharers: CoreSet) -> DirState
    ensures { result ≡ shared_by sharers }
{
    if sharers.is_empty() {
        DirState::I
    } else {
        DirState::S
    }
}

/// Data to the requester, and an invalidation to each other sharer, whose acknowledgement the data name.
const fn invalidate_others(sharers: CoreSet, requester: CoreId) -> DirSends
    ensures { result ≡ DirSends.DataAndInv (count_of (without sharers requester.0)) (without sharers requester.0) }
{
    let invalidated = sharers.without(requester);
    DirSends::DataAndInv {
        acks: invalidated.count(),
        invalidated,
    }
}
