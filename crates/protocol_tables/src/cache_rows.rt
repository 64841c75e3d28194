//! The rows of a private cache.

ghost use Rattle.std.specs.Prelude.{◌≡◌};
ghost use Rattle.cache_table.specs.Row.{row_of};
ghost use Rattle.cache_table.specs.declared.row.CacheEvent.{CacheEvent};
ghost use Rattle.protocol_tables.specs.CacheRows.{IsCase, accesses, messages_of, rule_of, sample_of, states_of};

use cache_table::{CacheEvent, CopyState, Row, cache_row};

/// How the acknowledgements that have come, k, compare with those that the data name, n.
#[derive(Clone, Copy, Debug, PartialEq, Eq)]
pub enum Counted {
    /// k = n
    Equal,
    /// k < n
    Less,
    /// k > n
    More,
}

/// An event, whatever its numbers are.
#[derive(Clone, Copy, Debug, PartialEq, Eq)]
pub enum CacheCase {
    Load,
    Write,
    Eviction,
    FwdGetS,
    FwdGetM,
    Inv,
    PutAck,
    /// Data, and how many acknowledgements have come before.
    Data(Counted),
    /// An acknowledgement, which is counted with those that came before.
    InvAck(Counted),
    /// Data as the only copy.
    DataE { all_loads: bool },
}

impl CacheCase {
    ghost use Rattle.std.specs.Prelude.{◌≡◌};
    ghost use Rattle.protocol_tables.specs.CacheRows.{name_of_case};

    /// Returns its name.
    pub const fn name(self) -> &'static str
        ensures { result.now ≡ name_of_case self }
    {
        match self {
            CacheCase::Load => "load",
            CacheCase::Write => "write",
            CacheCase::Eviction => "eviction",
            CacheCase::FwdGetS => "Fwd-GetS",
            CacheCase::FwdGetM => "Fwd-GetM",
            CacheCase::Inv => "Inv",
            CacheCase::PutAck => "Put-Ack",
            CacheCase::Data(Counted::Equal) => "Data, k = n",
            CacheCase::Data(Counted::Less) => "Data, k < n",
            CacheCase::Data(Counted::More) => "Data, k > n",
            CacheCase::InvAck(Counted::Equal) => "Inv-Ack, k + 1 = n",
            CacheCase::InvAck(Counted::Less) => "Inv-Ack, k + 1 < n",
            CacheCase::InvAck(Counted::More) => "Inv-Ack, k + 1 > n",
            CacheCase::DataE { all_loads: true } => "Data-E, loads alone",
            CacheCase::DataE { all_loads: false } => "Data-E, a write too",
        }
    }
}

/// The states of a copy. To the last, E, none comes without the exclusive state.
static STATES: [CopyState; 12] = [
    CopyState::I,
    CopyState::IS_D,
    CopyState::IM_AD,
    CopyState::IM_A,
    CopyState::S,
    CopyState::SM_AD,
    CopyState::SM_A,
    CopyState::M,
    CopyState::MI_A,
    CopyState::SI_A,
    CopyState::II_A,
    CopyState::E,
];

static ACCESSES: [CacheCase; 3] = [CacheCase::Load, CacheCase::Write, CacheCase::Eviction];

/// Each message. Only the exclusive state brings the last two.
static MESSAGES: [CacheCase; 12] = [
    CacheCase::FwdGetS,
    CacheCase::FwdGetM,
    CacheCase::Inv,
    CacheCase::PutAck,
    CacheCase::Data(Counted::Equal),
    CacheCase::Data(Counted::Less),
    CacheCase::Data(Counted::More),
    CacheCase::InvAck(Counted::Equal),
    CacheCase::InvAck(Counted::Less),
    CacheCase::InvAck(Counted::More),
    CacheCase::DataE { all_loads: true },
    CacheCase::DataE { all_loads: false },
];

/// The states to which a copy comes under the setting.
pub fn states(exclusive: bool) -> &'static [CopyState]
    ensures { result.now ≡ states_of exclusive }
{
    if exclusive { &STATES } else { &STATES[..11] }
}

/// What a core does by itself.
pub fn accesses() -> &'static [CacheCase]
    ensures { result.now ≡ accesses }
{
    &ACCESSES
}

/// What it is sent under the setting.
pub fn messages(exclusive: bool) -> &'static [CacheCase]
    ensures { result.now ≡ messages_of exclusive }
{
    if exclusive {
        &MESSAGES
    } else {
        &MESSAGES[..10]
    }
}

/// An event of a case.
pub const fn sample_of(case: CacheCase) -> CacheEvent
    ensures { result ≡ sample_of case }
{
    match case {
        CacheCase::Load => CacheEvent::Load,
        CacheCase::Write => CacheEvent::Write,
        CacheCase::Eviction => CacheEvent::Eviction,
        CacheCase::FwdGetS => CacheEvent::FwdGetS,
        CacheCase::FwdGetM => CacheEvent::FwdGetM,
        CacheCase::Inv => CacheEvent::Inv,
        CacheCase::PutAck => CacheEvent::PutAck,
        CacheCase::Data(Counted::Equal) => CacheEvent::Data { n: 1, k: 1 },
        CacheCase::Data(Counted::Less) => CacheEvent::Data { n: 1, k: 0 },
        CacheCase::Data(Counted::More) => CacheEvent::Data { n: 0, k: 1 },
        CacheCase::InvAck(Counted::Equal) => CacheEvent::InvAck { n: 1, k: 0 },
        CacheCase::InvAck(Counted::Less) => CacheEvent::InvAck { n: 2, k: 0 },
        CacheCase::InvAck(Counted::More) => CacheEvent::InvAck { n: 0, k: 0 },
        CacheCase::DataE { all_loads } => CacheEvent::DataE { all_loads },
    }
}

/// The row of a state at each event of a case.
pub const fn cache_rule(state: CopyState, case: CacheCase) -> Row
    ensures is { result ≡ rule_of state case }
    ensures each { (event : CacheEvent) → IsCase case event → row_of state event ≡ result }
{
    cache_row(state, sample_of(case))
}
