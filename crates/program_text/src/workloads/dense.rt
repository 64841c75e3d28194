//! Matrices and grids, stored row by row.
ghost use Rattle.std.specs.Prelude.{◌<◌, ◌≤◌};

use super::text::{WORDS, lines_of, push_line, push_loads, push_machine};
use std::alloc::AllocError;

/// How many rows and columns a block of a matrix has.
const BLOCK: u64 = 4;

/// A blocked product of two matrices: core `c` computes the rows of blocks `c`, `c + cores`, `c + 2 * cores`, ..
pub(crate) fn push_matmul(text: &mut Vec<u8>, cores: u64, size: u64) -> Result<(), AllocError>
    requires size { size ≤ 64 }
{
    let lines = lines_of(size * size);
    push_machine(text, cores, 3 * lines)?;
    for core in 0..cores {
        push_line(text, "core", &[core])?;
        push_products(text, cores, core, size)?;
    }
    Ok(())
}

// The products of a core: block by block, and cell by cell in a block.
fn push_products(text: &mut Vec<u8>, cores: u64, core: u64, size: u64) -> Result<(), AllocError>
    requires size { size ≤ 64 }
    requires core { core < cores }
{
    let blocks = size.div_ceil(BLOCK);
    let cells = BLOCK * BLOCK;
    if blocks == 0 {
        return Ok(());
    }
    for step in 0..blocks * blocks * blocks * cells {
        let block = step / cells;
        let row_of_blocks = block / blocks / blocks;
        if row_of_blocks % cores != core {
            continue;
        }
        let row = row_of_blocks * BLOCK + step % cells / BLOCK;
        let column = block / blocks % blocks * BLOCK + step % BLOCK;
        let inner = block % blocks * BLOCK;
        if row < size && column < size && inner < size {
            push_product(text, size, row, column, inner)?;
        }
    }
    Ok(())
}

// A part of a row times a part of a column, added to a cell.
fn push_product(
    text: &mut Vec<u8>,
    size: u64,
    row: u64,
    column: u64,
    inner: u64,
) -> Result<(), AllocError>
    requires size { size ≤ 64 }
    requires row { row < size }
    requires column { column < size }
    requires inner { inner < size }
{
    let left = 0;
    let right = lines_of(size * size) * WORDS;
    let product = 2 * right;
    let end = size.min(inner + BLOCK);
    push_loads(text, left + row * size + inner, left + row * size + end - 1)?;
    for place in inner..end {
        push_line(text, "load", &[right + place * size + column])?;
    }
    let cell = product + row * size + column;
    push_line(text, "load", &[cell])?;
    push_line(text, "store", &[cell, 1])
}

/// A stencil of five points over a grid, once from one copy to another and once back: each core has a band of rows.
pub(crate) fn push_stencil(text: &mut Vec<u8>, cores: u64, size: u64) -> Result<(), AllocError>
    requires size { size ≤ 64 }
    requires cores { cores ≤ 64 }
{
    let lines = lines_of(size * size);
    push_machine(text, cores, 2 * lines)?;
    let other = lines * WORDS;
    for core in 0..cores {
        push_line(text, "core", &[core])?;
        push_band(text, cores, core, size, 0, other)?;
        push_band(text, cores, core, size, other, 0)?;
    }
    Ok(())
}

// The points of a core's band, read in one copy of the grid and written in the other.
fn push_band(
    text: &mut Vec<u8>,
    cores: u64,
    core: u64,
    size: u64,
    from: u64,
    to: u64,
) -> Result<(), AllocError>
    requires size { size ≤ 64 }
    requires cores { cores ≤ 64 }
    requires from { from ≤ 65536 }
    requires to { to ≤ 65536 }
{
    for point in 0..size * size {
        let row = point / size;
        let column = point % size;
        let is_inside = 0 < row && row + 1 < size && 0 < column && column + 1 < size;
        if is_inside && row * cores / size == core {
            push_point(text, size, from + point, to + point)?;
        }
    }
    Ok(())
}

fn push_point(text: &mut Vec<u8>, size: u64, from: u64, to: u64) -> Result<(), AllocError>
    requires above { size ≤ from }
    requires size { 0 < size }
    requires from { from ≤ 131072 }
{
    push_line(text, "load", &[from - size])?;
    push_loads(text, from - 1, from + 1)?;
    push_line(text, "load", &[from.saturating_add(size)])?;
    push_line(text, "store", &[to, 1])
}
