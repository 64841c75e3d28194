//! Reads a cell of a printed table of a private cache.

ghost use Rattle.std.specs.Prelude.{◌≡◌, ◌≢◌, IfErr, IfOk, IfSome};
ghost use Rattle.cache_table.specs.declared.row.CacheSends.{CacheSends};
ghost use Rattle.changed_tables.specs.CacheText.{IsReadAs, IsRefused, IsSaid, NoneSays, row_text, sends_at};

use super::cache_text::{before_the_table, is_ours, name_of, says};
use super::fault::CellFault;
use cache_table::{CacheSends, CopyState, Row};
use protocol_tables::{CacheCase, sample_of, states};

static SENDS: [CacheSends; 8] = [
    CacheSends::Nothing,
    CacheSends::GetS,
    CacheSends::GetM,
    CacheSends::PutS,
    CacheSends::PutM,
    CacheSends::InvAckToRequester,
    CacheSends::DataToRequester,
    CacheSends::DataToRequesterAndHome,
];

/// Reads a cell, and returns the row to which it is changed, or None where it says what our table says there.
pub(crate) fn read_cell(
    exclusive: bool,
    state: CopyState,
    case: CacheCase,
    word: &[u8],
) -> Result<Option<Row>, CellFault>
    ensures read { IfOk result (λ read. IsReadAs exclusive state case word.now read) }
    ensures refused { IfErr result (λ _. IsRefused exclusive state case word.now) }
{
    if is_ours(exclusive, state, case, word) {
        return Ok(None);
    }
    if before_the_table(state, sample_of(case)).is_some() {
        return Err(CellFault::NotOfTable);
    }
    match row_said(case, word) {
        Some(row) => Ok(Some(row)),
        None => Err(no_row(word)),
    }
}

/// The first row that says the word.
fn row_said(case: CacheCase, word: &[u8]) -> Option<Row>
    ensures some { IfSome result (IsSaid case word.now) }
    ensures none { result ≡ None → NoneSays case word.now }
{
    if says(case, Row::Blocked, word) {
        return Some(Row::Blocked);
    }
    if says(case, Row::NoEntry, word) {
        return Some(Row::NoEntry);
    }
    for next in states(true) {
        if let Some(row) = row_to(*next, case, word) {
            return Some(row);
        }
    }
    None
}

/// The first row with this next state that says the word.
fn row_to(next: CopyState, case: CacheCase, word: &[u8]) -> Option<Row>
    ensures some { IfSome result (IsSaid case word.now) }
    ensures none { result ≡ None → (sent : CacheSends) → row_text case (Row.Go next sent) ≢ word.now }
{
    for sends in sends_at(case) {
        let row = Row::Go(next, *sends);
        if says(case, row, word) {
            return Some(row);
        }
    }
    None
}

/// What a row can send that is read: nothing where acknowledgements are counted, since there each row prints alike.
fn sends_at(case: CacheCase) -> &'static [CacheSends]
    ensures { result.now ≡ sends_at case }
{
    match case {
        CacheCase::InvAck(_) => &SENDS[..1],
        _ => &SENDS,
    }
}

/// Why no row says the word: what is done isn't known, or else the next state.
fn no_row(word: &[u8]) -> CellFault {
    for next in states(true) {
        if word.ends_with(name_of(*next).as_bytes()) {
            return CellFault::UnknownEffect;
        }
    }
    CellFault::UnknownNextState
}
