//! Reads a printed table of a directory.

ghost use Rattle.std.specs.Prelude.{◌≡◌, ◌↔◌, [], codes, map, IfOk, IfSome, IsTrue, OnOk};
ghost use Rattle.std.specs.List.{All};
ghost use Rattle.changed_tables.specs.DirectoryText.{IsChange, IsLine, IsOfSome, IsOtherLine, IsPlace, IsRead, SaysOurs, setting_text, text_in, title_of};
ghost use Rattle.changed_tables.specs.Layout.{cell_at, cells_in};

use super::directory_cell::read_cell;
use super::directory_text::{is_name_of, says, title_of};
use super::fault::{CellFault, TableFault};
use super::layout::{Written, add, at, cells_in};
use super::tables::DirectoryChange;
use super::word::is_joined;
use protocol_tables::{DirCase, Entry, dir_cases, directory_rule, entries};
use std::alloc::{AllocError, Global};

/// Reads what `lockup table directory` prints, with any change of its cells, and returns the changes. Lines and columns
/// may be left out or come in another order.
pub fn read_directory_table(
    alloc: Global,
    exclusive: bool,
    text: &[u8],
) -> Result<Vec<DirectoryChange>, TableFault>
    ensures back { IfOk result (λ changes. All (IsRead exclusive changes.items) (cells_in (codes "Directory") text.now)) }
    ensures only { IfOk result (λ changes. All (IsOfSome exclusive (cells_in (codes "Directory") text.now)) changes.items) }

    // What our tables print has no change.
    ensures ours { IfOk result (λ changes. All (SaysOurs exclusive) (cells_in (codes "Directory") text.now)
        → changes.items ≡ []) }
{
    let cells = cells_in(alloc, b"Directory", text)?;
    if cells.is_empty() {
        return Err(TableFault::NoTable);
    }
    let changes = changes_of(alloc, exclusive, &cells)?;
    check_cells(alloc, exclusive, &changes, &cells)?;
    Ok(changes)
}

/// What differs from our table.
fn changes_of(
    alloc: Global,
    exclusive: bool,
    cells: &[Written],
) -> Result<Vec<DirectoryChange>, TableFault>
    ensures { IfOk result (λ changes. All (IsOfSome exclusive (map cell_at cells.now)) changes.items) }
{
    let mut changes = Vec::new(alloc);
    for cell in cells {
        let found = change_of(alloc, exclusive, cell)?;
        add(found, &mut changes)?;
    }
    Ok(changes)
}

/// What a cell changes, if it doesn't say what our table says.
fn change_of(
    alloc: Global,
    exclusive: bool,
    cell: &Written,
) -> Result<Option<DirectoryChange>, TableFault>
    ensures { IfOk result (λ found. IfSome found (λ change. IsChange exclusive change (cell_at cell.now))) }
{
    if is_other_line(exclusive, cell.name) {
        return Ok(None);
    }
    let (entry, case) = place_of(alloc, exclusive, cell)?;
    match read_cell(alloc, exclusive, entry, case, cell)? {
        Some(rule) => Ok(Some(DirectoryChange { entry, case, rule })),
        None => Ok(None),
    }
}

/// Checks that each cell says what the changed table says there: no cell occurs twice with different texts.
fn check_cells(
    alloc: Global,
    exclusive: bool,
    changes: &[DirectoryChange],
    cells: &[Written],
) -> Result<(), TableFault>
    ensures { OnOk result (All (λ cell. IsRead exclusive changes.now (cell_at cell)) cells.now) }
{
    for cell in cells {
        check_cell(alloc, exclusive, changes, cell)?;
    }
    Ok(())
}

fn check_cell(
    alloc: Global,
    exclusive: bool,
    changes: &[DirectoryChange],
    cell: &Written,
) -> Result<(), TableFault>
    ensures { OnOk result (IsRead exclusive changes.now (cell_at cell.now)) }
{
    if is_other_line(exclusive, cell.name) {
        return Ok(());
    }
    let (entry, case) = place_of(alloc, exclusive, cell)?;
    if says_in(alloc, exclusive, changes, entry, case, cell.word)? {
        Ok(())
    } else {
        Err(at(cell, CellFault::Twice))
    }
}

/// Whether the changed table says this word at a cell.
fn says_in(
    alloc: Global,
    exclusive: bool,
    changes: &[DirectoryChange],
    entry: Entry,
    case: DirCase,
    word: &[u8],
) -> Result<bool, AllocError>
    ensures { IfOk result (λ same. IsTrue same ↔ (text_in exclusive changes.now entry case ≡ word.now)) }
{
    for change in changes {
        if change.is_at(entry, case) {
            return says(alloc, entry, change.rule, word);
        }
    }
    says(alloc, entry, directory_rule(exclusive, entry, case), word)
}

/// The entry and the case of a cell's line and column.
fn place_of(alloc: Global, exclusive: bool, cell: &Written) -> Result<(Entry, DirCase), TableFault>
    ensures { IfOk result (λ place. IsPlace exclusive place.0 place.1 (cell_at cell.now)) }
{
    let Some(entry) = entry_named(alloc, exclusive, cell.name)? else {
        return Err(at(cell, CellFault::UnknownLine));
    };
    match case_titled(cell.title) {
        Some(case) => Ok((entry, case)),
        None => Err(at(cell, CellFault::UnknownColumn)),
    }
}

fn entry_named(alloc: Global, exclusive: bool, name: &[u8]) -> Result<Option<Entry>, AllocError>
    ensures { IfOk result (λ found. IfSome found (λ entry. IsLine exclusive entry name.now)) }
{
    if is_joined(name, "I", setting_text(exclusive)) {
        return Ok(Some(Entry::I));
    }
    for entry in entries() {
        if is_name_of(alloc, *entry, name)? {
            return Ok(Some(*entry));
        }
    }
    Ok(None)
}

/// Which case has the column with this title.
fn case_titled(title: &[u8]) -> Option<DirCase>
    ensures { IfSome result (λ case. title.now ≡ title_of case) }
{
    for case in dir_cases() {
        if title == title_of(*case).as_bytes() {
            return Some(*case);
        }
    }
    None
}

const fn setting_text(exclusive: bool) -> &'static str
    ensures { result.now ≡ setting_text exclusive }
{
    if exclusive {
        " (exclusive on)"
    } else {
        " (exclusive off)"
    }
}

/// Whether the line counts under the other setting alone.
fn is_other_line(exclusive: bool, name: &[u8]) -> bool
    ensures { IsTrue result ↔ IsOtherLine exclusive name.now }
{
    is_joined(name, "I", setting_text(!exclusive))
}
