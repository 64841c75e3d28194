//! Which cell of the protocol's tables a call would meet.
ghost use Rattle.std.specs.Prelude.{◌≡◌, IfSome, Option, Some, unwrap_or};
ghost use Rattle.lockup_c.specs.Answer.{code_of, shown_of};
ghost use Rattle.lockup_c.specs.Cells.{ShowsCell, command_named, no_cell};
ghost use Rattle.lockup_c.specs.declared.cells.Asked.TheVariants as askeds;
ghost use Rattle.simulator.specs.Cells.{HasItsCore};

use super::answer::{Fault, show};
use super::handle::{Handle, put, take};
use super::held::Held;
use super::names::{copy_named, pick_named, request_named};
use address_map::Checked;
use litmus_text::Command;
use script_coverage::number_of;
use std::alloc::Global;

/// The number of cells.
const NO_CELL: u64 = 94;

/// A call, by its numbers.
#[derive(Clone, Copy)]
enum Asked {
    Issue {
        core: u64,
        tag: u64,
        op: u64,
        word: u64,
        operand: u64,
        replacement: u64,
    },
    Evict {
        core: u64,
        line: u64,
    },
    Deliver {
        channel: u64,
        line: u64,
        core: u64,
        from: u64,
    },
}

/// The cell that `lockup_issue` would meet.
#[unsafe(no_mangle)]
pub extern "C" fn lockup_cell_of_issue(
    alloc: Global,
    handle: &mut Handle,
    core: u64,
    tag: u64,
    op: u64,
    word: u64,
    operand: u64,
    replacement: u64,
    cell: &mut u64,
) -> u32
    ensures seen { ShowsCell (askeds.Issue core tag op word operand replacement) result cell.new handle.old.value }
    ensures kept { handle.new.value ≡ handle.old.value }
{
    let asked = Asked::Issue {
        core,
        tag,
        op,
        word,
        operand,
        replacement,
    };
    show_cell(handle, alloc, asked, cell)
}

/// The cell that `lockup_evict` would meet, where the write-back buffer has room.
#[unsafe(no_mangle)]
pub extern "C" fn lockup_cell_of_evict(
    alloc: Global,
    handle: &mut Handle,
    core: u64,
    line: u64,
    cell: &mut u64,
) -> u32
    ensures seen { ShowsCell (askeds.Evict core line) result cell.new handle.old.value }
    ensures kept { handle.new.value ≡ handle.old.value }
{
    show_cell(handle, alloc, Asked::Evict { core, line }, cell)
}

/// The cell that `lockup_deliver` would meet.
#[unsafe(no_mangle)]
pub extern "C" fn lockup_cell_of_deliver(
    alloc: Global,
    handle: &mut Handle,
    channel: u64,
    line: u64,
    core: u64,
    from: u64,
    cell: &mut u64,
) -> u32
    ensures seen { ShowsCell (askeds.Deliver channel line core from) result cell.new handle.old.value }
    ensures kept { handle.new.value ≡ handle.old.value }
{
    let asked = Asked::Deliver {
        channel,
        line,
        core,
        from,
    };
    show_cell(handle, alloc, asked, cell)
}

fn show_cell(handle: &mut Handle, alloc: Global, asked: Asked, cell: &mut u64) -> u32
    ensures seen { ShowsCell asked result cell.new handle.old.value }
    ensures kept { handle.new.value ≡ handle.old.value }
{
    let Some(held) = take(handle, alloc) else {
        return show(Err(Fault::NoMachine), NO_CELL, cell);
    };
    let shown = cell_met(&held, asked);
    put(handle, held);
    show(shown, NO_CELL, cell)
}

fn cell_met(held: &Held, asked: Asked) -> Result<u64, Fault>
    ensures { ShowsCell asked (code_of result) (shown_of no_cell result) (Some held.now) }
{
    let simulator = held.machine()?;
    let command = command_named(simulator.config(), asked).ok_or(Fault::OutOfRange)?;
    Ok(shown_number(number_of(simulator.cell(command))))
}

fn shown_number(number: Option<u8>) -> u64
    ensures { result ≡ unwrap_or number no_cell }
{
    match number {
        Some(number) => number as u64,
        None => NO_CELL,
    }
}

/// Returns the command that the numbers of a call name.
fn command_named(config: &Checked, asked: Asked) -> Option<Command>
    ensures named { result ≡ command_named config.now asked }
    ensures known { IfSome result (HasItsCore config.now) }
{
    match asked {
        Asked::Issue {
            core,
            tag,
            op,
            word,
            operand,
            replacement,
        } => {
            let (core, request) = request_named(config, core, tag, op, word, operand, replacement)?;
            Some(Command::Issue { core, request })
        }
        Asked::Evict { core, line } => {
            let (core, line) = copy_named(config, core, line)?;
            Some(Command::Evict { core, line })
        }
        Asked::Deliver {
            channel,
            line,
            core,
            from,
        } => {
            let pick = pick_named(config, channel, line, core, from)?;
            Some(Command::Deliver(pick))
        }
    }
}
