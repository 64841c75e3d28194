//! Which lines a core waits for, writes back, or has in a set.
ghost use Rattle.std.specs.Prelude.{◌≡◌, Some, slice_get};
ghost use Rattle.lockup_c.specs.Answer.{code_of, shown_of};
ghost use Rattle.lockup_c.specs.Calls.{SaysFound};
ghost use Rattle.lockup_c.specs.Lines.{CountsLines, CountsWays, ShowsLine, ShowsWay};
ghost use Rattle.slice_core_exec.specs.declared.core_lines.CoreLines.TheVariants as core_lines;

use super::answer::{Fault, show};
use super::handle::{Handle, put, take};
use super::held::Held;
use super::names::{copy_named, file_named};
use address_map::LineAddr;
use slice_core::CoreLines;
use std::alloc::Global;

/// How many miss registers a core holds in a slice.
#[unsafe(no_mangle)]
pub extern "C" fn lockup_registers(
    alloc: Global,
    handle: &mut Handle,
    core: u64,
    slice: u64,
    count: &mut u64,
) -> u32
    ensures seen { CountsLines core_lines.Waiting core slice result count.new handle.old.value }
    ensures kept { handle.new.value ≡ handle.old.value }
{
    count_lines(handle, alloc, core, slice, CoreLines::Waiting, count)
}

/// How many lines a core is writing back in a slice.
#[unsafe(no_mangle)]
pub extern "C" fn lockup_writebacks(
    alloc: Global,
    handle: &mut Handle,
    core: u64,
    slice: u64,
    count: &mut u64,
) -> u32
    ensures seen { CountsLines core_lines.Leaving core slice result count.new handle.old.value }
    ensures kept { handle.new.value ≡ handle.old.value }
{
    count_lines(handle, alloc, core, slice, CoreLines::Leaving, count)
}

fn count_lines(
    handle: &mut Handle,
    alloc: Global,
    core: u64,
    slice: u64,
    which: CoreLines,
    count: &mut u64,
) -> u32
    ensures seen { CountsLines which core slice result count.new handle.old.value }
    ensures kept { handle.new.value ≡ handle.old.value }
{
    let Some(held) = take(handle, alloc) else {
        return show(Err(Fault::NoMachine), 0, count);
    };
    let shown = lines(&held, alloc, core, slice, which);
    put(handle, held);
    show(shown, 0, count)
}

fn lines(held: &Held, alloc: Global, core: u64, slice: u64, which: CoreLines) -> Result<u64, Fault>
    ensures { CountsLines which core slice (code_of result) (shown_of 0 result) (Some held.now) }
{
    let simulator = held.machine()?;
    let (core, slice) = file_named(simulator.config(), core, slice).ok_or(Fault::OutOfRange)?;
    let lines = simulator.core_lines(alloc, core, slice, which)?;
    Ok(lines.len() as u64)
}

/// Shows one of the lines that a core is writing back in a slice.
#[unsafe(no_mangle)]
pub extern "C" fn lockup_writeback_at(
    alloc: Global,
    handle: &mut Handle,
    core: u64,
    slice: u64,
    nth: u64,
    line: &mut u64,
) -> u32
    ensures seen { ShowsLine core_lines.Leaving core slice nth result line.new handle.old.value }
    ensures kept { handle.new.value ≡ handle.old.value }
{
    let Some(held) = take(handle, alloc) else {
        return show(Err(Fault::NoMachine), 0, line);
    };
    let shown = line_at(&held, alloc, core, slice, CoreLines::Leaving, nth);
    put(handle, held);
    show(shown, 0, line)
}

fn line_at(
    held: &Held,
    alloc: Global,
    core: u64,
    slice: u64,
    which: CoreLines,
    nth: u64,
) -> Result<u64, Fault>
    ensures { ShowsLine which core slice nth (code_of result) (shown_of 0 result) (Some held.now) }
{
    let simulator = held.machine()?;
    let (core, slice) = file_named(simulator.config(), core, slice).ok_or(Fault::OutOfRange)?;
    let lines = simulator.core_lines(alloc, core, slice, which)?;
    line_of(&lines, nth)
}

fn line_of(lines: &[LineAddr], nth: u64) -> Result<u64, Fault>
    ensures { SaysFound (slice_get lines.now nth) (λ found. found.0) 0
        (code_of result) (shown_of 0 result) }
{
    match lines.get(nth as usize) {
        Some(line) => Ok(line.0),
        None => Err(Fault::OutOfRange),
    }
}

/// How many lines a core has in the set of a line.
#[unsafe(no_mangle)]
pub extern "C" fn lockup_ways(
    alloc: Global,
    handle: &mut Handle,
    core: u64,
    line: u64,
    count: &mut u64,
) -> u32
    ensures seen { CountsWays core line result count.new handle.old.value }
    ensures kept { handle.new.value ≡ handle.old.value }
{
    let Some(held) = take(handle, alloc) else {
        return show(Err(Fault::NoMachine), 0, count);
    };
    let shown = ways(&held, alloc, core, line);
    put(handle, held);
    show(shown, 0, count)
}

fn ways(held: &Held, alloc: Global, core: u64, line: u64) -> Result<u64, Fault>
    ensures { CountsWays core line (code_of result) (shown_of 0 result) (Some held.now) }
{
    let simulator = held.machine()?;
    let (core, line) = copy_named(simulator.config(), core, line).ok_or(Fault::OutOfRange)?;
    let lines = simulator.set_lines(alloc, core, line)?;
    Ok(lines.len() as u64)
}

/// Shows one of the lines that a core has in the set of a line.
#[unsafe(no_mangle)]
pub extern "C" fn lockup_way_at(
    alloc: Global,
    handle: &mut Handle,
    core: u64,
    line: u64,
    nth: u64,
    found: &mut u64,
) -> u32
    ensures seen { ShowsWay core line nth result found.new handle.old.value }
    ensures kept { handle.new.value ≡ handle.old.value }
{
    let Some(held) = take(handle, alloc) else {
        return show(Err(Fault::NoMachine), 0, found);
    };
    let shown = way_at(&held, alloc, core, line, nth);
    put(handle, held);
    show(shown, 0, found)
}

fn way_at(held: &Held, alloc: Global, core: u64, line: u64, nth: u64) -> Result<u64, Fault>
    ensures { ShowsWay core line nth (code_of result) (shown_of 0 result) (Some held.now) }
{
    let simulator = held.machine()?;
    let (core, line) = copy_named(simulator.config(), core, line).ok_or(Fault::OutOfRange)?;
    let lines = simulator.set_lines(alloc, core, line)?;
    line_of(&lines, nth)
}
