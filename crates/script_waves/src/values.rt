//! The values of a line's signals.
ghost use Rattle.std.specs.Prelude.{◌≡◌, ◌++◌, ◌%◌, [], IfNone, IfSome, OnOk, codes, slice_get};
ghost use Rattle.std.specs.Fmt.{WritesInCalls};
ghost use Rattle.address_map.specs.Locator.{local_at};
ghost use Rattle.script_waves.specs.Signals.{code_of};
ghost use Rattle.script_waves.specs.Values.{text_at, text_of_copy, text_of_entry, text_of_lines, text_of_mail};
ghost use Rattle.script_waves.specs.Values.{text_of_states, text_of_total, text_of_waiting, text_in, total_of, waiting_of};

use super::channel::write_names;
use super::signal::{Code, Signal};
use address_map::LineAddr;
use litmus_script::Machine;
use mshr_file::EitherFile;
use slice_core::{CopyState, DirState, LineWaiting, SliceState};
use std::fmt;
use std::fmt::Write;

/// Writes what a machine's slices have of these lines.
pub(crate) fn write_lines<W: Write>(
    machine: &Machine,
    lines: &[LineAddr],
    out: &mut W,
) -> fmt::Result
    ensures { OnOk result (WritesInCalls W.write_str_gives out.old
        (text_of_lines machine.now.config machine.now.slices.items lines.now) out.new) }
{
    for line in lines {
        write_in(machine, *line, out)?;
    }
    Ok(())
}

/// Writes what its slice has of a line.
fn write_in<W: Write>(machine: &Machine, line: LineAddr, out: &mut W) -> fmt::Result
    ensures { OnOk result (WritesInCalls W.write_str_gives out.old
        (text_in (slice_get machine.now.slices.items (line.0 % machine.now.config.slices)) line) out.new) }
{
    let slice = machine.slice_of(line);
    write_at(&machine.slices[slice], line, out)
}

/// Writes what a slice has of a line, if it is one of its own.
fn write_at<W: Write>(state: &SliceState<EitherFile>, line: LineAddr, out: &mut W) -> fmt::Result
    ensures { OnOk result (WritesInCalls W.write_str_gives out.old (text_at state.now.view line) out.new) }
{
    let Some(view) = state.line_view(line) else {
        return Ok(());
    };
    write_entry(line, view.dir, out)?;
    write_copies(line, view.copies.as_slice(), out)?;
    write_mail(state, line, out)
}

/// Writes what waits for a line, if it is one of the slice's own.
fn write_mail<W: Write>(state: &SliceState<EitherFile>, line: LineAddr, out: &mut W) -> fmt::Result
    ensures { OnOk result (WritesInCalls W.write_str_gives out.old
        (text_of_mail state.now.view line (local_at state.now.view.lines line.0)) out.new) }
{
    let total = total_at(state, line);
    match state.waiting_at(line) {
        Some(waiting) => write_channels(line, waiting, total, out),
        None => Ok(()),
    }
}

/// Returns how many channels of a line have a message.
fn total_at(state: &SliceState<EitherFile>, line: LineAddr) -> u64
    ensures { result ≡ total_of (waiting_of state.now.view (local_at state.now.view.lines line.0)) }
{
    match waiting_at(state, line) {
        Some(mut left) => count_left(&mut left),
        None => 0,
    }
}

/// Returns the channels of a line that have a message; none for a line that isn't the slice's.
fn waiting_at(state: &SliceState<EitherFile>, line: LineAddr) -> Option<LineWaiting<'_>>
    ensures none { IfNone result (waiting_of state.now.view (local_at state.now.view.lines line.0) ≡ []) }
    ensures some { IfSome result
        (λ left. left ≡ waiting_of state.now.view (local_at state.now.view.lines line.0)) }
{
    state.waiting_at(line)
}

/// Returns how many channels are left.
fn count_left(left: &mut LineWaiting<'_>) -> u64
    ensures { result ≡ total_of left.old }
{
    for count in 0..u64::MAX {
        if left.next().is_none() {
            return count;
        }
    }
    u64::MAX
}

fn write_channels<W: Write>(
    line: LineAddr,
    waiting: LineWaiting<'_>,
    total: u64,
    out: &mut W,
) -> fmt::Result
    ensures { OnOk result (WritesInCalls W.write_str_gives out.old
        (text_of_waiting line waiting.entry ++ text_of_total line total) out.new) }
{
    write_waiting(line, waiting, out)?;
    write_total(line, total, out)
}

fn write_total<W: Write>(line: LineAddr, total: u64, out: &mut W) -> fmt::Result
    ensures { OnOk result (WritesInCalls W.write_str_gives out.old (text_of_total line total) out.new) }
{
    let signal = Signal::Total;
    let code = Code { line, signal };
    writeln!(out, "b{total:b} {code}")
}

fn write_entry<W: Write>(line: LineAddr, state: DirState, out: &mut W) -> fmt::Result
    ensures { OnOk result (WritesInCalls W.write_str_gives out.old (text_of_entry line state) out.new) }
{
    let signal = Signal::Directory;
    let code = Code { line, signal };
    writeln!(out, "s{state} {code}")
}

fn write_copies<W: Write>(line: LineAddr, copies: &[CopyState], out: &mut W) -> fmt::Result
    ensures { OnOk result (WritesInCalls W.write_str_gives out.old (text_of_states line 0 copies.now) out.new) }
{
    for (core, state) in copies.iter().enumerate() {
        write_copy(line, core, *state, out)?;
    }
    Ok(())
}

fn write_copy<W: Write>(line: LineAddr, core: usize, state: CopyState, out: &mut W) -> fmt::Result
    ensures { OnOk result (WritesInCalls W.write_str_gives out.old (text_of_copy line core state) out.new) }
{
    let signal = Signal::Copy(core);
    let code = Code { line, signal };
    writeln!(out, "s{state} {code}")
}

fn write_waiting<W: Write>(line: LineAddr, waiting: LineWaiting<'_>, out: &mut W) -> fmt::Result
    ensures { OnOk result (WritesInCalls W.write_str_gives out.old (text_of_waiting line waiting.entry) out.new) }
{
    write!(out, "s")?;
    write_names(waiting, out)?;
    write_code(line, Signal::Channels, out)
}

fn write_code<W: Write>(line: LineAddr, signal: Signal, out: &mut W) -> fmt::Result
    ensures { OnOk result (WritesInCalls W.write_str_gives out.old
        (codes " " ++ code_of line signal ++ codes "\n") out.new) }
{
    let code = Code { line, signal };
    writeln!(out, " {code}")
}
