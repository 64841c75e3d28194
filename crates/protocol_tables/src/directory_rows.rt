//! The rows of a directory.

ghost use Rattle.std.specs.Prelude.{◌≡◌};
ghost use Rattle.address_map.specs.declared.address.CoreId.{CoreId};
ghost use Rattle.directory_table.specs.Row.{row_of};
ghost use Rattle.directory_table.specs.declared.state.DirEntry.{DirEntry};
ghost use Rattle.protocol_tables.specs.DirectoryRows.{IsEntry, all_cases, all_entries, event_of, goes, goes_home, meaning_of, rule_of, with_all, without_asker};

use directory_table::DirState;

/// Which cores share the line, as the core that asks sees it.
#[derive(Clone, Copy, Debug, PartialEq, Eq)]
pub enum Sharing {
    Nobody,
    /// The requester, and no other.
    Asker,
    /// Others, and not the requester.
    Others,
    /// Who asks, and others.
    Both,
}

/// What the core that asks sees of the entry.
#[allow(non_camel_case_types)]
#[derive(Clone, Copy, Debug, PartialEq, Eq)]
pub enum Entry {
    I,
    S(Sharing),
    /// Who asks is the owner.
    MOfAsker,
    /// Another is.
    MOfAnother,
    S_D(Sharing),
}

/// A request, from any core; or the block that comes home.
#[derive(Clone, Copy, Debug, PartialEq, Eq)]
pub enum DirCase {
    GetS,
    GetM,
    PutS,
    PutM,
    DataHome,
}

/// What a row sends.
#[derive(Clone, Copy, Debug, PartialEq, Eq)]
pub enum DirMessage {
    Nothing,
    /// Data that name no acknowledgement, to the requester.
    Data,
    /// Data as the only copy, to the requester.
    DataE,
    /// Data that name each other sharer, to the requester, and to each of these an Inv.
    DataAndInv,
    /// The request to the owner.
    FwdGetS,
    FwdGetM,
    /// To the requester.
    PutAck,
}

/// Who owns the line afterwards.
#[derive(Clone, Copy, Debug, PartialEq, Eq)]
pub enum Owns {
    Nobody,
    /// Who owned it.
    Same,
    /// Who asks.
    Asker,
}

/// Who shares the line afterwards.
#[derive(Clone, Copy, Debug, PartialEq, Eq)]
pub enum Shares {
    Nobody,
    /// Who shared it.
    Same,
    /// The requester alone.
    Asker,
    /// The old sharers, and the requester.
    AskerToo,
    /// The old sharers, but not the requester.
    AskerNot,
    /// The old owner, and the requester.
    OwnerAndAsker,
}

/// What the directory does by a row.
#[derive(Clone, Copy, Debug, PartialEq, Eq)]
pub struct DirEffect {
    pub sends: DirMessage,
    /// Whether the block that comes along is the home copy then.
    pub writes_home: bool,
    pub state: DirState,
    pub owns: Owns,
    pub shares: Shares,
}

/// A row.
#[derive(Clone, Copy, Debug, PartialEq, Eq)]
pub enum DirRule {
    /// The directory takes the event, and does this.
    Go(DirEffect),
    /// The request stays at the front of its channel.
    Blocked,
    /// The protocol never brings this event to this entry.
    NoEntry,
}

/// In S a line has a sharer.
static ENTRIES: [Entry; 10] = [
    Entry::I,
    Entry::S(Sharing::Others),
    Entry::S(Sharing::Both),
    Entry::S(Sharing::Asker),
    Entry::MOfAnother,
    Entry::MOfAsker,
    Entry::S_D(Sharing::Others),
    Entry::S_D(Sharing::Both),
    Entry::S_D(Sharing::Asker),
    Entry::S_D(Sharing::Nobody),
];

static EVENTS: [DirCase; 5] = [
    DirCase::GetS,
    DirCase::GetM,
    DirCase::PutS,
    DirCase::PutM,
    DirCase::DataHome,
];

/// What an entry can look like.
pub fn entries() -> &'static [Entry]
    ensures { result.now ≡ all_entries }
{
    &ENTRIES
}

/// What comes to a directory.
pub fn dir_cases() -> &'static [DirCase]
    ensures { result.now ≡ all_cases }
{
    &EVENTS
}

/// Returns the row at each entry that looks so, whichever core asks.
pub const fn directory_rule(exclusive: bool, entry: Entry, case: DirCase) -> DirRule
    ensures is { result ≡ rule_of exclusive entry case }
    ensures each { (at : DirEntry) (asker : CoreId) → IsEntry entry at.state at.owner at.sharers asker
        → row_of exclusive at (event_of case asker) ≡ meaning_of result at.owner at.sharers asker }
{
    rule(exclusive, entry, case)
}

// One cell one line, as in the table.
#[rattlefmt::skip]
const fn rule(exclusive: bool, entry: Entry, case: DirCase) -> DirRule
    ensures { result ≡ rule_of exclusive entry case }
{
    use DirCase::*;
    match (entry, case) {
        (Entry::I, GetS) if exclusive => goes(DirMessage::DataE, DirState::M, Owns::Asker, Shares::Same),
        (Entry::I, GetS) => goes(DirMessage::Data, DirState::S, Owns::Same, Shares::Asker),
        (Entry::I, GetM) => goes(DirMessage::Data, DirState::M, Owns::Asker, Shares::Same),
        (Entry::I, PutS | PutM) => goes(DirMessage::PutAck, DirState::I, Owns::Same, Shares::Same),
        (Entry::S(_), GetS) => goes(DirMessage::Data, DirState::S, Owns::Same, Shares::AskerToo),
        (Entry::S(_), GetM) => goes(DirMessage::DataAndInv, DirState::M, Owns::Asker, Shares::Nobody),
        (Entry::S(sharing), PutS | PutM) =>
            goes(DirMessage::PutAck, without_asker(sharing), Owns::Same, Shares::AskerNot),
        (Entry::MOfAnother, GetS) => goes(DirMessage::FwdGetS, DirState::S_D, Owns::Nobody, Shares::OwnerAndAsker),
        (Entry::MOfAnother, GetM) => goes(DirMessage::FwdGetM, DirState::M, Owns::Asker, Shares::Same),
        (Entry::MOfAnother, PutS | PutM) => goes(DirMessage::PutAck, DirState::M, Owns::Same, Shares::Same),
        (Entry::MOfAsker, PutM) => goes_home(DirMessage::PutAck, DirState::I, Owns::Nobody, Shares::Same),
        (Entry::S_D(_), GetS | GetM) => DirRule::Blocked,
        (Entry::S_D(_), PutS | PutM) => goes(DirMessage::PutAck, DirState::S_D, Owns::Same, Shares::AskerNot),
        (Entry::S_D(sharing), DataHome) =>
            goes_home(DirMessage::Nothing, with_all(sharing), Owns::Same, Shares::Same),
        _ => DirRule::NoEntry,
    }
}

/// The row that leaves the home copy as it is.
const fn goes(sends: DirMessage, state: DirState, owns: Owns, shares: Shares) -> DirRule
    ensures { result ≡ goes sends state owns shares }
{
    DirRule::Go(DirEffect {
        sends,
        writes_home: false,
        state,
        owns,
        shares,
    })
}

/// The row that writes it.
const fn goes_home(sends: DirMessage, state: DirState, owns: Owns, shares: Shares) -> DirRule
    ensures { result ≡ goes_home sends state owns shares }
{
    DirRule::Go(DirEffect {
        sends,
        writes_home: true,
        state,
        owns,
        shares,
    })
}

/// S, or I where no sharer but the asker is there.
const fn without_asker(sharing: Sharing) -> DirState
    ensures { result ≡ without_asker sharing }
{
    match sharing {
        Sharing::Nobody | Sharing::Asker => DirState::I,
        Sharing::Others | Sharing::Both => DirState::S,
    }
}

/// S, or I where no sharer is there.
const fn with_all(sharing: Sharing) -> DirState
    ensures { result ≡ with_all sharing }
{
    match sharing {
        Sharing::Nobody => DirState::I,
        Sharing::Asker | Sharing::Others | Sharing::Both => DirState::S,
    }
}
