//! Lines of a machine as data.
ghost use Rattle.std.specs.Prelude.{◌≡◌, ◌%◌, ◌<◌, ◌≤◌, ◌&&◌, OnOk, is_some, length, slice_get};
ghost use Rattle.std.specs.Fmt.{WritesInCalls};
ghost use Rattle.std.specs.List.{list_all};
ghost use Rattle.address_map.specs.Locator.{local_at};
ghost use Rattle.script_json.specs.Held.{has_copy, has_message, is_chosen, is_chosen_in, is_moving, lines_from};
ghost use Rattle.script_json.specs.Held.{list_of_copies, text_in, text_of_held};
ghost use Rattle.slice_core_cache.specs.Copy.{is_gone};
ghost use Rattle.slice_text.specs.Shown.{is_idle};

use address_map::{CoreId, LineAddr};
use arrayvec::ArrayVec;
use litmus_script::Machine;
use litmus_text::write_comma;
use mshr_file::EitherFile;
use slice_core::{CopyState, DirState, LineView, LineWaiting, SliceState};
use slice_json::{write_copy_in, write_line_in};
use std::fmt;

/// Which lines are shown.
#[derive(Clone, Copy)]
pub(crate) enum Choice {
    /// Those with a message that waits.
    Waiting,
    /// Those that aren't at rest: a core has a copy, or the directory waits for one.
    Moving,
}

/// Writes the chosen lines of a machine as items of a list, which may have begun.
pub(crate) fn write_lines<W: fmt::Write>(
    machine: &Machine,
    choice: Choice,
    is_first: bool,
    out: &mut W,
) -> fmt::Result
    ensures { OnOk result (WritesInCalls W.write_str_gives out.old
        (lines_from is_first choice machine.now.config machine.now.slices.items) out.new) }
{
    let mut is_first = is_first;
    for number in 0..machine.config.lines() {
        let line = LineAddr(number as u64);
        if !is_chosen_at(machine, choice, line) {
            continue;
        }
        write_comma(is_first, out)?;
        is_first = false;
        write_at(machine, line, out)?;
    }
    Ok(())
}

fn is_chosen_at(machine: &Machine, choice: Choice, line: LineAddr) -> bool
    ensures { result ≡ is_chosen_in choice line
        (slice_get machine.now.slices.items (line.0 % machine.now.config.slices)) }
{
    match machine.slices.get(machine.slice_of(line)) {
        Some(state) => is_chosen(state, choice, line),
        None => false,
    }
}

/// Writes a line of a machine.
fn write_at<W: fmt::Write>(machine: &Machine, line: LineAddr, out: &mut W) -> fmt::Result
    ensures { OnOk result (WritesInCalls W.write_str_gives out.old
        (text_in line (slice_get machine.now.slices.items (line.0 % machine.now.config.slices))) out.new) }
{
    match machine.slices.get(machine.slice_of(line)) {
        Some(state) => write_held(state, line, out),
        None => Ok(()),
    }
}

fn is_chosen(state: &SliceState<EitherFile>, choice: Choice, line: LineAddr) -> bool
    ensures { result ≡ is_chosen choice state.now.view (local_at state.now.view.lines line.0) }
{
    match choice {
        Choice::Waiting => has_message(state, line),
        Choice::Moving => is_moving(state, line),
    }
}

fn has_message(state: &SliceState<EitherFile>, line: LineAddr) -> bool
    ensures { result ≡ has_message state.now.view (local_at state.now.view.lines line.0) }
{
    match state.waiting_at(line) {
        Some(waiting) => is_any(waiting),
        None => false,
    }
}

/// Whether there is a channel.
fn is_any(waiting: LineWaiting<'_>) -> bool
    ensures { result ≡ is_some (slice_get waiting.entry 0) }
{
    let mut left = waiting;
    left.next().is_some()
}

fn is_moving(state: &SliceState<EitherFile>, line: LineAddr) -> bool
    ensures { result ≡ is_moving state.now.view (local_at state.now.view.lines line.0) }
{
    match state.line_view(line) {
        Some(view) => !is_at_rest(&view),
        None => false,
    }
}

/// Whether no core has a copy of the line, and the directory waits for none.
fn is_at_rest(view: &LineView) -> bool
    ensures { result ≡ (is_idle view.now.dir && list_all is_gone view.now.copies.items) }
{
    is_idle(view.dir) && are_gone(view.copies.as_slice())
}

fn is_idle(entry: DirState) -> bool
    ensures { result ≡ is_idle entry }
{
    matches!(entry, DirState::I)
}

fn are_gone(copies: &[CopyState]) -> bool
    ensures { result ≡ list_all is_gone copies.now }
{
    copies.iter().all(|copy| is_gone(*copy))
}

/// Whether nothing is left of a copy in this state.
fn is_gone(state: CopyState) -> bool
    ensures { result ≡ is_gone state }
{
    matches!(state, CopyState::I)
}

/// Writes a line with its messages, and the copies of it.
fn write_held<W: fmt::Write>(
    state: &SliceState<EitherFile>,
    line: LineAddr,
    out: &mut W,
) -> fmt::Result
    ensures { OnOk result (WritesInCalls W.write_str_gives out.old (text_of_held state.now.view line) out.new) }
{
    write!(out, "{{\"line\":")?;
    write_line_in(state, Some(line), out)?;
    write!(out, ",\"copies\":[")?;
    write_copies(state, line, out)?;
    write!(out, "]}}")
}

/// Writes the copies of a line.
fn write_copies<W: fmt::Write>(
    state: &SliceState<EitherFile>,
    line: LineAddr,
    out: &mut W,
) -> fmt::Result
    ensures { OnOk result (WritesInCalls W.write_str_gives out.old (list_of_copies state.now.view line) out.new) }
{
    match state.line_view(line) {
        Some(view) => write_copies_of(state, line, count_of(&view.copies), out),
        None => Ok(()),
    }
}

fn count_of(copies: &ArrayVec<CopyState, 64>) -> u8
    ensures count { result ≡ length copies.now.items }
    ensures few { result ≤ 64 }
{
    copies.len() as u8
}

fn write_copies_of<W: fmt::Write>(
    state: &SliceState<EitherFile>,
    line: LineAddr,
    cores: u8,
    out: &mut W,
) -> fmt::Result
    requires { cores ≡ length state.now.view.caches }
    ensures { OnOk result (WritesInCalls W.write_str_gives out.old (list_of_copies state.now.view line) out.new) }
{
    let mut is_first = true;
    for core in 0..cores {
        if !has_copy(state, line, CoreId(core)) {
            continue;
        }
        write_comma(is_first, out)?;
        is_first = false;
        write_copy_in(state, CoreId(core), Some(line), out)?;
    }
    Ok(())
}

/// Whether something is left of a core's copy.
fn has_copy(state: &SliceState<EitherFile>, line: LineAddr, core: CoreId) -> bool
    requires { core.0 < length state.now.view.caches }
    ensures { result ≡ has_copy state.now.view line core }
{
    match state.copy(core, line) {
        Some(copy) => !is_gone(copy.state),
        None => false,
    }
}
