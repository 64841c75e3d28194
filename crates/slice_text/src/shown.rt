//! All that isn't at rest in slices.
ghost use Rattle.std.specs.Prelude.{◌≡◌, ◌<◌, ◌≤◌, ◌&&◌, OnOk, length};
ghost use Rattle.std.specs.List.{list_all};
ghost use Rattle.std.specs.Fmt.{WritesInCalls};
ghost use Rattle.slice_core_cache.specs.Copy.{is_gone};
ghost use Rattle.slice_text.specs.Shown.{HaveCores, is_idle, text_at_line, text_of_listed, text_of_lines};
ghost use Rattle.slice_text.specs.Shown.{text_of_machine, text_of_number, text_of_ring, text_of_slice, text_at_place};

use super::copy::{is_gone, write_cores};
use super::line::write_line;
use super::reply::write_replies;
use address_map::{Checked, LineAddr};
use arrayvec::ArrayVec;
use mshr_file::MissFile;
use slice_core::{CopyState, DirState, LineView, SliceState};
use std::fmt;
use std::fmt::Write;

/// Writes all that isn't at rest in the slices of a machine, one slice after another.
pub fn write_slices<F: MissFile, W: Write>(
    config: &Checked,
    slices: &[SliceState<F>],
    out: &mut W,
) -> fmt::Result
    requires { HaveCores config.now.cores slices.now }
    ensures { OnOk result (WritesInCalls W.write_str_gives out.old (text_of_machine config.now slices.now) out.new) }
{
    let cores = core_count(config);
    let lines = config.lines();
    for (number, state) in slices.iter().enumerate() {
        write_slice(cores, lines, number, state, out)?;
    }
    Ok(())
}

fn core_count(config: &Checked) -> u8
    ensures cores { result ≡ config.now.cores }
    ensures few { result ≤ 64 }
{
    config.cores() as u8
}

fn write_slice<F: MissFile, W: Write>(
    cores: u8,
    lines: usize,
    number: usize,
    state: &SliceState<F>,
    out: &mut W,
) -> fmt::Result
    requires cores { cores ≡ length state.now.view.caches }
    requires few { cores ≤ 64 }
    requires lines { lines ≤ 65536 }
    ensures { OnOk result (WritesInCalls W.write_str_gives out.old
        (text_of_slice cores lines number state.now) out.new) }
{
    write_lines(state, lines, out)?;
    write_replies(state, cores, out)?;
    write_number(number, out)?;
    write_ring(state, lines, out)?;
    writeln!(out)
}

fn write_number<W: Write>(number: usize, out: &mut W) -> fmt::Result
    ensures { OnOk result (WritesInCalls W.write_str_gives out.old (text_of_number number) out.new) }
{
    write!(out, "slice {number} ring")
}

fn write_lines<F: MissFile, W: Write>(
    state: &SliceState<F>,
    lines: usize,
    out: &mut W,
) -> fmt::Result
    requires { lines ≤ 65536 }
    ensures { OnOk result (WritesInCalls W.write_str_gives out.old (text_of_lines state.now.view lines) out.new) }
{
    for line in 0..lines {
        write_if_held(state, LineAddr(line as u64), out)?;
    }
    Ok(())
}

/// Writes what the slice has of a line, unless it is at rest.
fn write_if_held<F: MissFile, W: Write>(
    state: &SliceState<F>,
    line: LineAddr,
    out: &mut W,
) -> fmt::Result
    requires { line.0 < 65536 }
    ensures { OnOk result (WritesInCalls W.write_str_gives out.old (text_at_line state.now.view line) out.new) }
{
    let Some(view) = state.line_view(line) else {
        return Ok(());
    };
    if is_at_rest(&view) {
        return Ok(());
    }
    write_line(line, &view, out)?;
    write_cores(state, line, count_of(&view.copies), out)
}

fn count_of(copies: &ArrayVec<CopyState, 64>) -> u8
    ensures count { result ≡ length copies.now.items }
    ensures few { result ≤ 64 }
{
    copies.len() as u8
}

/// Whether no core has a copy of the line, and the directory waits for none.
fn is_at_rest(view: &LineView) -> bool
    ensures { result ≡ (is_idle view.now.dir && list_all is_gone view.now.copies.items) }
{
    is_idle(view.dir) && are_gone(view.copies.as_slice())
}

fn is_idle(entry: DirState) -> bool
    ensures { result ≡ is_idle entry }
{
    matches!(entry, DirState::I)
}

fn are_gone(copies: &[CopyState]) -> bool
    ensures { result ≡ list_all is_gone copies.now }
{
    copies.iter().all(|copy| is_gone(*copy))
}

/// Writes the lines of the ring, the front first.
fn write_ring<F: MissFile, W: Write>(
    state: &SliceState<F>,
    lines: usize,
    out: &mut W,
) -> fmt::Result
    ensures { OnOk result (WritesInCalls W.write_str_gives out.old (text_of_ring state.now lines) out.new) }
{
    for place in 0..lines {
        write_place(state, place, out)?;
    }
    Ok(())
}

fn write_place<F: MissFile, W: Write>(
    state: &SliceState<F>,
    place: usize,
    out: &mut W,
) -> fmt::Result
    ensures { OnOk result (WritesInCalls W.write_str_gives out.old (text_at_place state.now place) out.new) }
{
    let listed = state.ring_line(place);
    write_listed(listed, out)
}

fn write_listed<W: Write>(line: Option<LineAddr>, out: &mut W) -> fmt::Result
    ensures { OnOk result (WritesInCalls W.write_str_gives out.old (text_of_listed line) out.new) }
{
    match line {
        Some(LineAddr(line)) => write!(out, " {line}"),
        None => Ok(()),
    }
}
