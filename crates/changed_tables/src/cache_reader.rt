//! Reads a printed table of a private cache.

ghost use Rattle.std.specs.Prelude.{◌≡◌, ◌↔◌, [], codes, map, IfOk, IfSome, IsTrue, OnOk};
ghost use Rattle.std.specs.List.{All};
ghost use Rattle.changed_tables.specs.CacheText.{IsChange, IsLine, IsOfSome, IsPlace, IsRead, SaysOurs, text_in, title_of};
ghost use Rattle.changed_tables.specs.Layout.{cell_at, cells_in};

use super::cache_cell::read_cell;
use super::cache_text::{is_ours, name_of, says, title_of};
use super::fault::{CellFault, TableFault};
use super::layout::{Written, add, at, cells_in};
use super::tables::CacheChange;
use super::word::is_joined;
use cache_table::CopyState;
use protocol_tables::{CacheCase, accesses, messages, states};
use std::alloc::Global;

/// Reads what `lockup table cache` prints, with any change of its cells, and returns the changes. Lines and columns may
/// be left out or come in another order.
pub fn read_cache_table(
    alloc: Global,
    exclusive: bool,
    text: &[u8],
) -> Result<Vec<CacheChange>, TableFault>
    ensures back { IfOk result (λ changes. All (IsRead exclusive changes.items) (cells_in (codes "Cache") text.now)) }
    ensures only { IfOk result (λ changes. All (IsOfSome exclusive (cells_in (codes "Cache") text.now)) changes.items) }

    // What our tables print has no change.
    ensures ours { IfOk result (λ changes. All (SaysOurs exclusive) (cells_in (codes "Cache") text.now)
        → changes.items ≡ []) }
{
    let cells = cells_in(alloc, b"Cache", text)?;
    if cells.is_empty() {
        return Err(TableFault::NoTable);
    }
    let changes = changes_of(alloc, exclusive, &cells)?;
    check_cells(exclusive, &changes, &cells)?;
    Ok(changes)
}

/// What differs from our table.
fn changes_of(
    alloc: Global,
    exclusive: bool,
    cells: &[Written],
) -> Result<Vec<CacheChange>, TableFault>
    ensures { IfOk result (λ changes. All (IsOfSome exclusive (map cell_at cells.now)) changes.items) }
{
    let mut changes = Vec::new(alloc);
    for cell in cells {
        let found = change_of(exclusive, cell)?;
        add(found, &mut changes)?;
    }
    Ok(changes)
}

/// What a cell changes, if it doesn't say what our table says.
fn change_of(exclusive: bool, cell: &Written) -> Result<Option<CacheChange>, TableFault>
    ensures { IfOk result (λ found. IfSome found (λ change. IsChange exclusive change (cell_at cell.now))) }
{
    let (state, case) = place_of(cell)?;
    match read_cell(exclusive, state, case, cell.word) {
        Ok(None) => Ok(None),
        Ok(Some(row)) => Ok(Some(CacheChange { state, case, row })),
        Err(why) => Err(at(cell, why)),
    }
}

/// Checks that each cell says what the changed table says there: no cell occurs twice with different texts.
fn check_cells(
    exclusive: bool,
    changes: &[CacheChange],
    cells: &[Written],
) -> Result<(), TableFault>
    ensures { OnOk result (All (λ cell. IsRead exclusive changes.now (cell_at cell)) cells.now) }
{
    for cell in cells {
        check_cell(exclusive, changes, cell)?;
    }
    Ok(())
}

fn check_cell(exclusive: bool, changes: &[CacheChange], cell: &Written) -> Result<(), TableFault>
    ensures { OnOk result (IsRead exclusive changes.now (cell_at cell.now)) }
{
    let (state, case) = place_of(cell)?;
    if says_in(exclusive, changes, state, case, cell.word) {
        Ok(())
    } else {
        Err(at(cell, CellFault::Twice))
    }
}

/// Whether the changed table says this word at a cell.
fn says_in(
    exclusive: bool,
    changes: &[CacheChange],
    state: CopyState,
    case: CacheCase,
    word: &[u8],
) -> bool
    ensures { IsTrue result ↔ (text_in exclusive changes.now state case ≡ word.now) }
{
    for change in changes {
        if change.is_at(state, case) {
            return says(case, change.row, word);
        }
    }
    is_ours(exclusive, state, case, word)
}

/// The state and the case of a cell's line and column.
fn place_of(cell: &Written) -> Result<(CopyState, CacheCase), TableFault>
    ensures { IfOk result (λ place. IsPlace place.0 place.1 (cell_at cell.now)) }
{
    let Some(state) = state_named(cell.name) else {
        return Err(at(cell, CellFault::UnknownLine));
    };
    if let Some(case) = case_titled(accesses(), cell.title) {
        return Ok((state, case));
    }
    match case_titled(messages(true), cell.title) {
        Some(case) => Ok((state, case)),
        None => Err(at(cell, CellFault::UnknownColumn)),
    }
}

fn state_named(name: &[u8]) -> Option<CopyState>
    ensures { IfSome result (λ state. IsLine state name.now) }
{
    for state in states(true) {
        let known = name_of(*state);
        if name == known.as_bytes() || is_joined(name, known, " (exclusive on)") {
            return Some(*state);
        }
    }
    None
}

/// Which of these cases has the column with this title.
fn case_titled(cases: &[CacheCase], title: &[u8]) -> Option<CacheCase>
    ensures { IfSome result (λ case. title.now ≡ title_of case) }
{
    for case in cases {
        if title == title_of(*case).as_bytes() {
            return Some(*case);
        }
    }
    None
}
