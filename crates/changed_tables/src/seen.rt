//! What a core sees of a directory's entry.

ghost use Rattle.std.specs.Prelude.{◌≡◌, IfSome};
ghost use Rattle.protocol_tables.specs.DirectoryRows.{IsEntry};
ghost use Rattle.changed_tables.specs.Directory.{entry_seen, entry_unasked, owned_entry, shared_entry, sharing_of, sharing_of_others};

use address_map::{CoreId, CoreSet};
use directory_table::DirState;
use protocol_tables::{Entry, Sharing};

/// Returns what the core sees of the entry, or None where the table has no such entry: in S a line has sharers, in M it
/// has an owner, and elsewhere it has none.
pub(crate) const fn entry_seen(
    state: DirState,
    owner: Option<CoreId>,
    sharers: CoreSet,
    asker: CoreId,
) -> Option<Entry>
    ensures seen { result ≡ entry_seen state owner sharers asker }
    ensures entry { IfSome result (λ entry. IsEntry entry state owner sharers asker) }
{
    match (state, owner) {
        (DirState::I, None) => Some(Entry::I),
        (DirState::S, None) => shared_entry(sharing_of(sharers, asker)),
        (DirState::M, Some(owner)) => Some(owned_entry(owner, asker)),
        (DirState::S_D, None) => Some(Entry::S_D(sharing_of(sharers, asker))),
        _ => None,
    }
}

/// Returns the same for a core that neither shares nor owns the line.
pub(crate) const fn entry_unasked(
    state: DirState,
    owner: Option<CoreId>,
    sharers: CoreSet,
) -> Option<Entry>
    ensures { result ≡ entry_unasked state owner sharers }
{
    match (state, owner) {
        (DirState::I, None) => Some(Entry::I),
        (DirState::S, None) => shared_entry(sharing_of_others(sharers)),
        (DirState::M, Some(_)) => Some(Entry::MOfAnother),
        (DirState::S_D, None) => Some(Entry::S_D(sharing_of_others(sharers))),
        _ => None,
    }
}

const fn shared_entry(sharing: Sharing) -> Option<Entry>
    ensures { result ≡ shared_entry sharing }
{
    match sharing {
        Sharing::Nobody => None,
        seen => Some(Entry::S(seen)),
    }
}

const fn owned_entry(owner: CoreId, asker: CoreId) -> Entry
    ensures { result ≡ owned_entry owner asker }
{
    if owner.0 == asker.0 {
        Entry::MOfAsker
    } else {
        Entry::MOfAnother
    }
}

/// Who shares the line, as the core sees it.
const fn sharing_of(sharers: CoreSet, asker: CoreId) -> Sharing
    ensures { result ≡ sharing_of sharers asker.0 }
{
    if !sharers.has(asker) {
        return sharing_of_others(sharers);
    }
    if sharers.without(asker).bits() == 0 {
        Sharing::Asker
    } else {
        Sharing::Both
    }
}

const fn sharing_of_others(sharers: CoreSet) -> Sharing
    ensures { result ≡ sharing_of_others sharers }
{
    if sharers.bits() == 0 {
        Sharing::Nobody
    } else {
        Sharing::Others
    }
}
