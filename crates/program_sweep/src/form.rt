//! The text of rows.
ghost use Rattle.std.specs.Prelude.{◌≡◌, ◌++◌, OnOk, decimal};
ghost use Rattle.litmus_text.specs.JsonNumber.{number_of};
ghost use Rattle.program_sweep.specs.Cell.{all_cells};
ghost use Rattle.program_sweep.specs.Form.{
  cell_of,
  cells_of,
  csv_of,
  end_of,
  front_of,
  heading_if,
  heading_of,
  json_of,
  misses_of,
  plain_of,
  policy_of,
  switch_of,
  text_of_row,
};

use super::cell::{Cell, Value, cells};
use super::row::Row;
use address_map::PolicyKind;
use itoa::Buffer;
use litmus_text::is_exact;
use mshr_file::MissKind;
use std::alloc::AllocError;

/// How rows are written.
#[derive(Clone, Copy, Debug, PartialEq, Eq)]
pub enum RowForm {
    Csv,
    Json,
}

/// What a line has of each cell: its name, its value, or both as a member of an object.
#[derive(Clone, Copy)]
enum Layout {
    Names,
    Values,
    Members,
}

/// Adds the row of this number, with what is before it. The program's name is there as the form writes it.
pub(crate) fn push_row(
    out: &mut Vec<u8>,
    form: RowForm,
    program: &[u8],
    number: u64,
    row: &Row,
) -> Result<(), AllocError>
    ensures { OnOk result (out.new.items ≡ out.old.items ++ text_of_row form program.now number row.now) }
{
    match form {
        RowForm::Csv => push_csv(out, program, number == 0, row),
        RowForm::Json => {
            out.extend_from_slice(front_of(number))?;
            out.extend_from_slice(program)?;
            push_all(out, Layout::Members, row)?;
            out.extend_from_slice(b"}")
        }
    }
}

fn push_csv(out: &mut Vec<u8>, program: &[u8], is_first: bool, row: &Row) -> Result<(), AllocError>
    ensures { OnOk result (out.new.items ≡ out.old.items ++ csv_of program.now is_first row.now) }
{
    push_heading_if(out, is_first, row)?;
    push(out, program)?;
    push_all(out, Layout::Values, row)?;
    push(out, b"\n")
}

fn push(out: &mut Vec<u8>, bytes: &[u8]) -> Result<(), AllocError>
    ensures { OnOk result (out.new.items ≡ out.old.items ++ bytes.now) }
{
    out.extend_from_slice(bytes)
}

/// Returns what follows all rows.
pub(crate) fn end_of(form: RowForm) -> &'static [u8]
    ensures { result.now ≡ end_of form }
{
    match form {
        RowForm::Csv => b"",
        RowForm::Json => b"\n]\n",
    }
}

fn push_heading_if(out: &mut Vec<u8>, is_first: bool, row: &Row) -> Result<(), AllocError>
    ensures { OnOk result (out.new.items ≡ out.old.items ++ heading_if is_first row.now) }
{
    if !is_first {
        return Ok(());
    }
    push_heading(out, row)
}

fn push_heading(out: &mut Vec<u8>, row: &Row) -> Result<(), AllocError>
    ensures { OnOk result (out.new.items ≡ out.old.items ++ heading_of row.now) }
{
    push(out, b"program")?;
    push_all(out, Layout::Names, row)?;
    push(out, b"\n")
}

fn front_of(number: u64) -> &'static [u8]
    ensures { result.now ≡ front_of number }
{
    if number == 0 {
        b"[\n{\"program\":"
    } else {
        b",\n{\"program\":"
    }
}

fn push_all(out: &mut Vec<u8>, layout: Layout, row: &Row) -> Result<(), AllocError>
    ensures { OnOk result (out.new.items ≡ out.old.items ++ cells_of layout row.now all_cells) }
{
    push_cells(out, layout, cells(), row)
}

fn push_cells(
    out: &mut Vec<u8>,
    layout: Layout,
    cells: &[Cell],
    row: &Row,
) -> Result<(), AllocError>
    ensures { OnOk result (out.new.items ≡ out.old.items ++ cells_of layout row.now cells.now) }
{
    for cell in cells {
        push_cell(out, layout, *cell, row)?;
    }
    Ok(())
}

fn push_cell(out: &mut Vec<u8>, layout: Layout, cell: Cell, row: &Row) -> Result<(), AllocError>
    ensures { OnOk result (out.new.items ≡ out.old.items ++ cell_of layout row.now cell) }
{
    match layout {
        Layout::Names => {
            out.extend_from_slice(b",")?;
            out.extend_from_slice(cell.name().as_bytes())
        }
        Layout::Values => {
            out.extend_from_slice(b",")?;
            push_plain(out, cell.value(row))
        }
        Layout::Members => {
            out.extend_from_slice(b",\"")?;
            out.extend_from_slice(cell.name().as_bytes())?;
            out.extend_from_slice(b"\":")?;
            push_json(out, cell.value(row))
        }
    }
}

// Adds nothing where there is nothing.
fn push_plain(out: &mut Vec<u8>, value: Value) -> Result<(), AllocError>
    ensures { OnOk result (out.new.items ≡ out.old.items ++ plain_of value) }
{
    match value {
        Value::Number(number) => push_number(out, number),
        Value::Nothing => out.extend_from_slice(b""),
        Value::Policy(policy) => push_policy(out, policy),
        Value::Misses(misses) => out.extend_from_slice(misses_of(misses)),
        Value::Switch(is_on) => out.extend_from_slice(switch_of(is_on)),
    }
}

// Adds a number as it is, and any other value between quotes.
fn push_json(out: &mut Vec<u8>, value: Value) -> Result<(), AllocError>
    ensures { OnOk result (out.new.items ≡ out.old.items ++ json_of value) }
{
    match value {
        Value::Number(number) => push_json_number(out, number),
        Value::Nothing => out.extend_from_slice(b"null"),
        Value::Policy(_) | Value::Misses(_) | Value::Switch(_) => {
            out.extend_from_slice(b"\"")?;
            push_plain(out, value)?;
            out.extend_from_slice(b"\"")
        }
    }
}

fn push_policy(out: &mut Vec<u8>, policy: PolicyKind) -> Result<(), AllocError>
    ensures { OnOk result (out.new.items ≡ out.old.items ++ policy_of policy) }
{
    match policy {
        PolicyKind::Lru => out.extend_from_slice(b"lru"),
        PolicyKind::Fifo => out.extend_from_slice(b"fifo"),
        PolicyKind::Random(seed) => {
            out.extend_from_slice(b"random ")?;
            push_number(out, seed)
        }
    }
}

fn misses_of(misses: MissKind) -> &'static [u8]
    ensures { result.now ≡ misses_of misses }
{
    match misses {
        MissKind::Explicit => b"explicit",
        MissKind::Inverted => b"inverted",
    }
}

fn switch_of(is_on: bool) -> &'static [u8]
    ensures { result.now ≡ switch_of is_on }
{
    if is_on { b"on" } else { b"off" }
}

fn push_json_number(out: &mut Vec<u8>, number: u64) -> Result<(), AllocError>
    ensures { OnOk result (out.new.items ≡ out.old.items ++ number_of number) }
{
    if is_exact(number) {
        return push_number(out, number);
    }
    out.extend_from_slice(b"\"")?;
    push_number(out, number)?;
    out.extend_from_slice(b"\"")
}

fn push_number(out: &mut Vec<u8>, number: u64) -> Result<(), AllocError>
    ensures { OnOk result (out.new.items ≡ out.old.items ++ decimal number) }
{
    let mut buffer = Buffer::new();
    out.extend_from_slice(buffer.format(number).as_bytes())
}
