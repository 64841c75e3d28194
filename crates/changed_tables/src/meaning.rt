//! What a directory's rule does at an entry, with its owner and its sharers.

ghost use Rattle.std.specs.Prelude.{◌≡◌};
ghost use Rattle.protocol_tables.specs.DirectoryRows.{meaning_of, owner_after, pair_of, sends_of, sharers_after};

use address_map::{CoreId, CoreSet};
use directory_table::{DirRow, DirSends, DirStep};
use protocol_tables::{DirMessage, DirRule, Owns, Shares};

/// Returns what the rule does where this core asks.
pub(crate) fn meaning_of(
    rule: DirRule,
    owner: Option<CoreId>,
    sharers: CoreSet,
    asker: CoreId,
) -> DirRow
    ensures { result ≡ meaning_of rule owner sharers asker }
{
    match rule {
        DirRule::Go(does) => DirRow::Go(DirStep {
            state: does.state,
            owner: owner_after(does.owns, owner, asker),
            writes_home: does.writes_home,
            sharers: sharers_after(does.shares, owner, sharers, asker),
            sends: sends_of(does.sends, owner, sharers, asker),
        }),
        DirRule::Blocked => DirRow::Blocked,
        DirRule::NoEntry => DirRow::NoEntry,
    }
}

const fn owner_after(owns: Owns, owner: Option<CoreId>, asker: CoreId) -> Option<CoreId>
    ensures { result ≡ owner_after owns owner asker }
{
    match owns {
        Owns::Nobody => None,
        Owns::Same => owner,
        Owns::Asker => Some(asker),
    }
}

const fn sharers_after(
    shares: Shares,
    owner: Option<CoreId>,
    sharers: CoreSet,
    asker: CoreId,
) -> CoreSet
    ensures { result ≡ sharers_after shares owner sharers asker }
{
    match shares {
        Shares::Nobody => CoreSet::none(),
        Shares::Same => sharers,
        Shares::Asker => CoreSet::only(asker),
        Shares::AskerToo => sharers.with(asker),
        Shares::AskerNot => sharers.without(asker),
        Shares::OwnerAndAsker => pair_of(owner, asker),
    }
}

/// The owner and the requester.
const fn pair_of(owner: Option<CoreId>, asker: CoreId) -> CoreSet
    ensures { result ≡ pair_of owner asker }
{
    match owner {
        Some(owner) => CoreSet::only(owner).with(asker),
        None => CoreSet::only(asker),
    }
}

const fn sends_of(
    sends: DirMessage,
    owner: Option<CoreId>,
    sharers: CoreSet,
    asker: CoreId,
) -> DirSends
    ensures { result ≡ sends_of sends owner sharers asker }
{
    match (sends, owner) {
        (DirMessage::Nothing, _) => DirSends::Nothing,
        (DirMessage::Data, _) => DirSends::Data { acks: 0 },
        (DirMessage::DataE, _) => DirSends::DataE,
        (DirMessage::DataAndInv, _) => {
            let invalidated = sharers.without(asker);
            DirSends::DataAndInv {
                acks: invalidated.count(),
                invalidated,
            }
        }
        (DirMessage::FwdGetS, Some(owner)) => DirSends::FwdGetS { owner },
        (DirMessage::FwdGetM, Some(owner)) => DirSends::FwdGetM { owner },
        (DirMessage::FwdGetS | DirMessage::FwdGetM, None) => DirSends::Nothing,
        (DirMessage::PutAck, _) => DirSends::PutAck,
    }
}
