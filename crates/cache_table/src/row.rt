ghost use Rattle.std.specs.Prelude.{◌≡◌};
ghost use Rattle.cache_table.specs.Law.{IsLawful, IsOnlyLawful};
ghost use Rattle.cache_table.specs.Row.{row_of};

use super::state::CopyState;

/// What happens to a copy: an access or an eviction of its own core, or a message that it takes.
#[derive(Clone, Copy, Debug, PartialEq, Eq)]
pub enum CacheEvent {
    Load,
    /// A store, an add or a compare-exchange, also one that won't match.
    Write,
    Eviction,
    FwdGetS,
    FwdGetM,
    Inv,
    PutAck,
    /// Data that name `n` acknowledgements, of which `k` have come.
    Data { n: u8, k: u8 },
    /// An acknowledgement of an invalidation, `k` having come before it. Only once the data have come is `n` known.
    InvAck { n: u8, k: u8 },
    /// Data as the only copy. `all_loads` says that the miss register holds loads alone.
    DataE { all_loads: bool },
}

/// What a row of the table sends. The requester is the core that a forwarded message or an invalidation names.
#[derive(Clone, Copy, Debug, PartialEq, Eq)]
pub enum CacheSends {
    Nothing,
    GetS,
    GetM,
    PutS,
    /// The block goes along.
    PutM,
    InvAckToRequester,
    /// Data that name no acknowledgement.
    DataToRequester,
    /// Data that name no acknowledgement, and the block to the directory.
    DataToRequesterAndHome,
}

/// One cell of the table.
#[derive(Clone, Copy, Debug, PartialEq, Eq)]
pub enum Row {
    /// The copy's next state, and what is sent.
    Go(CopyState, CacheSends),
    /// The message stays at the front of its channel.
    Blocked,
    /// The protocol never brings this event to this state.
    NoEntry,
}

/// The cell of the table at a state and an event.
///
/// A hit stays where it is and sends nothing, but in E a write goes to M. Accesses to a line that has a miss register
/// or is in the write-back buffer never come to the table.
#[inline(always)]
pub const fn cache_row(state: CopyState, event: CacheEvent) -> Row
    ensures table { result ≡ row_of state event }

    // What the coherence of a line rests on, whatever the cells are: no other row would do.
    ensures lawful { IsLawful state event result }
    ensures only { IsOnlyLawful state event result }
{
    cell(state, event)
}

// The table itself, one cell one line.
#[inline(always)]
#[rattlefmt::skip]
const fn cell(state: CopyState, event: CacheEvent) -> Row
    ensures { result ≡ row_of state event }
{
    use CacheEvent::*;
    use CacheSends::*;
    use CopyState::*;
    use Row::*;
    match (state, event) {
        (I, Load) => Go(IS_D, GetS),
        (I, Write) => Go(IM_AD, GetM),
        (S, Load) => Go(S, Nothing),
        (S, Write) => Go(SM_AD, GetM),
        (S, Eviction) => Go(SI_A, PutS),
        (S, Inv) => Go(I, InvAckToRequester),
        (M, Load | Write) => Go(M, Nothing),
        (M, Eviction) => Go(MI_A, PutM),
        (M, FwdGetS) => Go(S, DataToRequesterAndHome),
        (M, FwdGetM) => Go(I, DataToRequester),
        (IS_D, Data { .. }) => Go(S, Nothing),
        (IS_D, Inv) => Blocked,
        (IM_AD, InvAck { .. }) => Go(IM_AD, Nothing),
        (SM_AD, InvAck { .. }) => Go(SM_AD, Nothing),
        (IM_AD, Data { n, k }) if k == n => Go(M, Nothing),
        (IM_AD, Data { n, k }) if k < n => Go(IM_A, Nothing),
        (SM_AD, Data { n, k }) if k == n => Go(M, Nothing),
        (SM_AD, Data { n, k }) if k < n => Go(SM_A, Nothing),
        (SM_AD, Inv) => Go(IM_AD, InvAckToRequester),
        (IM_AD | IM_A | SM_AD | SM_A, FwdGetS | FwdGetM) => Blocked,
        (IM_A | SM_A, InvAck { n, k }) if k < n && k + 1 < n => Go(state, Nothing),
        (IM_A | SM_A, InvAck { n, k }) if k < n && k + 1 == n => Go(M, Nothing),
        (MI_A, FwdGetS) => Go(SI_A, DataToRequesterAndHome),
        (MI_A, FwdGetM) => Go(II_A, DataToRequester),
        (SI_A, Inv) => Go(II_A, InvAckToRequester),
        (MI_A | SI_A | II_A, PutAck) => Go(I, Nothing),
        (IS_D, DataE { all_loads: true }) => Go(E, Nothing),
        (IS_D, DataE { all_loads: false }) => Go(M, Nothing),
        (IS_D, FwdGetS | FwdGetM) => Blocked,
        (E, Load) => Go(E, Nothing),
        (E, Write) => Go(M, Nothing),
        (E, Eviction) => Go(MI_A, PutM),
        (E, FwdGetS) => Go(S, DataToRequesterAndHome),
        (E, FwdGetM) => Go(I, DataToRequester),
        _ => NoEntry,
    }
}
