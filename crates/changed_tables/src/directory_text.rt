//! What a printed table of a directory says, at sample entries: core r asks, o owns the line, x is another core.

ghost use Rattle.std.specs.Prelude.{◌≡◌, ◌↔◌, IfOk, IsTrue, string_bytes};
ghost use Rattle.protocol_tables.specs.Directory.{owned_entry, shared_entry};
ghost use Rattle.changed_tables.specs.DirectoryText.{holders_text, is_asked_at, is_of_others, is_rule_for, is_whole, names_asker};
ghost use Rattle.changed_tables.specs.DirectoryText.{row_at_sample, rule_text, sample_of, title_of};

use super::meaning::meaning_of;
use address_map::{CoreId, CoreSet};
use directory_table::{DirRow, DirState};
use protocol_tables::{
    DirCase, DirMessage, DirRule, Entry, Holders, Owns, RowText, Shares, Sharing,
};
use std::alloc::{AllocError, Global};

const O: CoreId = CoreId(0);

const R: CoreId = CoreId(1);

const X: CoreId = CoreId(2);

/// The sample of an entry.
pub(crate) const fn sample_of(entry: Entry) -> Holders
    ensures { result ≡ sample_of entry }
{
    let (o, r, x) = (CoreSet::only(O), CoreSet::only(R), CoreSet::only(X));
    match entry {
        Entry::I => shared(DirState::I, CoreSet::none()),
        Entry::S(Sharing::Nobody) => shared(DirState::S, CoreSet::none()),
        Entry::S(Sharing::Asker) => shared(DirState::S, r),
        Entry::S(Sharing::Others) => shared(DirState::S, x),
        Entry::S(Sharing::Both) => shared(DirState::S, x.with(R)),
        Entry::MOfAsker => owned(R),
        Entry::MOfAnother => owned(O),
        Entry::S_D(Sharing::Nobody) => shared(DirState::S_D, CoreSet::none()),
        Entry::S_D(Sharing::Asker) => shared(DirState::S_D, r),
        Entry::S_D(Sharing::Others) => shared(DirState::S_D, o.with(X)),
        Entry::S_D(Sharing::Both) => shared(DirState::S_D, o.with(R)),
    }
}

const fn shared(state: DirState, sharers: CoreSet) -> Holders
    ensures { result ≡ shared_entry state sharers }
{
    Holders {
        state,
        owner: None,
        sharers,
    }
}

const fn owned(owner: CoreId) -> Holders
    ensures { result ≡ owned_entry owner }
{
    Holders {
        state: DirState::M,
        owner: Some(owner),
        sharers: CoreSet::none(),
    }
}

/// The title of a column.
pub(crate) const fn title_of(case: DirCase) -> &'static str
    ensures { result.now ≡ title_of case }
{
    match case {
        DirCase::GetS => "GetS of r",
        DirCase::GetM => "GetM of r",
        DirCase::PutS => "PutS of r",
        DirCase::PutM => "PutM of r",
        DirCase::DataHome => "Data home",
    }
}

/// What a rule does at the sample of an entry.
pub(crate) fn row_at_sample(entry: Entry, rule: DirRule) -> DirRow
    ensures { result ≡ row_at_sample entry rule }
{
    let holders = sample_of(entry);
    meaning_of(rule, holders.owner, holders.sharers, R)
}

/// What a rule says at the sample of an entry.
fn rule_text(alloc: Global, entry: Entry, rule: DirRule) -> Result<String, AllocError>
    ensures { IfOk result (λ text. string_bytes text ≡ rule_text entry rule) }
{
    format!(in alloc; "{}", RowText(row_at_sample(entry, rule)))
}

/// Whether a rule says this word at the sample of an entry.
pub(crate) fn says(
    alloc: Global,
    entry: Entry,
    rule: DirRule,
    word: &[u8],
) -> Result<bool, AllocError>
    ensures { IfOk result (λ same. IsTrue same ↔ (rule_text entry rule ≡ word.now)) }
{
    let text = rule_text(alloc, entry, rule)?;
    Ok(text.as_bytes() == word)
}

/// Whether the name of a line is that of an entry.
pub(crate) fn is_name_of(alloc: Global, entry: Entry, name: &[u8]) -> Result<bool, AllocError>
    ensures { IfOk result (λ same. IsTrue same ↔ (holders_text (sample_of entry) ≡ name.now)) }
{
    let text = format!(in alloc; "{}", sample_of(entry))?;
    Ok(text.as_bytes() == name)
}

/// Whether what is printed is the whole entry: with an owner there is no sharer.
pub(crate) const fn is_whole(row: DirRow) -> bool
    ensures { result ≡ is_whole row }
{
    match row {
        DirRow::Go(step) => matches!(step.owner, None) || step.sharers.bits() == 0,
        DirRow::Blocked | DirRow::NoEntry => true,
    }
}

/// Whether a rule can occur in the column: at data that come home no core asks.
pub(crate) const fn is_rule_for(case: DirCase, rule: DirRule) -> bool
    ensures { result ≡ is_rule_for case rule }
{
    match case {
        DirCase::DataHome => !names_asker(rule),
        DirCase::GetS | DirCase::GetM | DirCase::PutS | DirCase::PutM => true,
    }
}

const fn names_asker(rule: DirRule) -> bool
    ensures { result ≡ names_asker rule }
{
    match rule {
        DirRule::Go(does) => {
            !matches!(does.sends, DirMessage::Nothing)
                || matches!(does.owns, Owns::Asker)
                || !matches!(does.shares, Shares::Nobody | Shares::Same)
        }
        DirRule::Blocked | DirRule::NoEntry => false,
    }
}

/// Whether the cell is looked up: at data that come home as a core sees the entry that has nothing to do with the line.
pub(crate) const fn is_asked_at(entry: Entry, case: DirCase) -> bool
    ensures { result ≡ is_asked_at entry case }
{
    match case {
        DirCase::DataHome => is_of_others(entry),
        DirCase::GetS | DirCase::GetM | DirCase::PutS | DirCase::PutM => true,
    }
}

const fn is_of_others(entry: Entry) -> bool
    ensures { result ≡ is_of_others entry }
{
    matches!(
        entry,
        Entry::I
            | Entry::S(Sharing::Others)
            | Entry::MOfAnother
            | Entry::S_D(Sharing::Nobody | Sharing::Others)
    )
}
