//! The steps of a machine.
ghost use Rattle.std.specs.Prelude.{Some};
ghost use Rattle.lockup_c.specs.Answer.{code_of, shown_of};
ghost use Rattle.lockup_c.specs.Calls.{BeginsLogOf, Delivers, DeliversNext, Evicts, Hands, Issues};
ghost use Rattle.lockup_c.specs.Numbers.{no_issue, no_next, no_receipt};

use super::answer::{Fault, show};
use super::handle::{Handle, put, take};
use super::held::Held;
use super::looks::flag;
use super::names::{copy_named, file_named, pick_named, request_named, slice_named, turn_named};
use super::numbers::{
    NO_ISSUE, NO_NEXT, NO_RECEIPT, delivered_number, evicted_number, issued_numbers, next_numbers,
    receipt_numbers,
};
use super::structs::{IssuedNumbers, NextNumbers, ReceiptNumbers};
use std::alloc::Global;

/// The core asks for a word.
#[unsafe(no_mangle)]
pub extern "C" fn lockup_issue(
    alloc: Global,
    handle: &mut Handle,
    core: u64,
    tag: u64,
    op: u64,
    word: u64,
    operand: u64,
    replacement: u64,
    issued: &mut IssuedNumbers,
) -> u32
    ensures { Issues core tag op word operand replacement result issued.new handle.old.value handle.new.value }
{
    let Some(mut held) = take(handle, alloc) else {
        return show(Err(Fault::NoMachine), NO_ISSUE, issued);
    };
    let shown = issue(&mut held, core, tag, op, word, operand, replacement);
    put(handle, held);
    show(shown, NO_ISSUE, issued)
}

fn issue(
    held: &mut Held,
    core: u64,
    tag: u64,
    op: u64,
    word: u64,
    operand: u64,
    replacement: u64,
) -> Result<IssuedNumbers, Fault>
    ensures { Issues core tag op word operand replacement
        (code_of result) (shown_of no_issue result) (Some held.old) (Some held.new) }
{
    let Held::Machine(simulator) = held else {
        return Err(Fault::NoMachine);
    };
    let (core, request) = request_named(
        simulator.config(),
        core,
        tag,
        op,
        word,
        operand,
        replacement,
    )
    .ok_or(Fault::OutOfRange)?;
    match simulator.issue(core, request) {
        Ok(became) => Ok(issued_numbers(became)),
        Err(_) => Err(Fault::NoMemory),
    }
}

/// The core evicts its copy of a line.
#[unsafe(no_mangle)]
pub extern "C" fn lockup_evict(
    alloc: Global,
    handle: &mut Handle,
    core: u64,
    line: u64,
    answer: &mut u64,
) -> u32
    ensures { Evicts core line result answer.new handle.old.value handle.new.value }
{
    let Some(mut held) = take(handle, alloc) else {
        return show(Err(Fault::NoMachine), 0, answer);
    };
    let shown = evict(&mut held, core, line);
    put(handle, held);
    show(shown, 0, answer)
}

fn evict(held: &mut Held, core: u64, line: u64) -> Result<u64, Fault>
    ensures { Evicts core line (code_of result) (shown_of 0 result) (Some held.old) (Some held.new) }
{
    let Held::Machine(simulator) = held else {
        return Err(Fault::NoMachine);
    };
    let (core, line) = copy_named(simulator.config(), core, line).ok_or(Fault::OutOfRange)?;
    Ok(evicted_number(simulator.evict(core, line)))
}

/// Delivers the message in front of a channel.
#[unsafe(no_mangle)]
pub extern "C" fn lockup_deliver(
    alloc: Global,
    handle: &mut Handle,
    channel: u64,
    line: u64,
    core: u64,
    from: u64,
    answer: &mut u64,
) -> u32
    ensures { Delivers channel line core from result answer.new handle.old.value handle.new.value }
{
    let Some(mut held) = take(handle, alloc) else {
        return show(Err(Fault::NoMachine), 0, answer);
    };
    let shown = deliver(&mut held, channel, line, core, from);
    put(handle, held);
    show(shown, 0, answer)
}

fn deliver(held: &mut Held, channel: u64, line: u64, core: u64, from: u64) -> Result<u64, Fault>
    ensures { Delivers channel line core from
        (code_of result) (shown_of 0 result) (Some held.old) (Some held.new) }
{
    let Held::Machine(simulator) = held else {
        return Err(Fault::NoMachine);
    };
    let pick = pick_named(simulator.config(), channel, line, core, from).ok_or(Fault::OutOfRange)?;
    Ok(delivered_number(simulator.deliver(pick)))
}

/// Delivers the next message of a slice that can be moved.
#[unsafe(no_mangle)]
pub extern "C" fn lockup_deliver_next(
    alloc: Global,
    handle: &mut Handle,
    slice: u64,
    channel: u64,
    next: &mut NextNumbers,
) -> u32
    ensures { DeliversNext slice channel result next.new handle.old.value handle.new.value }
{
    let Some(mut held) = take(handle, alloc) else {
        return show(Err(Fault::NoMachine), NO_NEXT, next);
    };
    let shown = deliver_next(&mut held, slice, channel);
    put(handle, held);
    show(shown, NO_NEXT, next)
}

fn deliver_next(held: &mut Held, slice: u64, channel: u64) -> Result<NextNumbers, Fault>
    ensures { DeliversNext slice channel
        (code_of result) (shown_of no_next result) (Some held.old) (Some held.new) }
{
    let Held::Machine(simulator) = held else {
        return Err(Fault::NoMachine);
    };
    let (slice, class) = turn_named(simulator.config(), slice, channel).ok_or(Fault::OutOfRange)?;
    Ok(next_numbers(simulator.deliver_next(slice, class)))
}

/// Hands out the core's next reply of a slice.
#[unsafe(no_mangle)]
pub extern "C" fn lockup_hand(
    alloc: Global,
    handle: &mut Handle,
    core: u64,
    slice: u64,
    receipt: &mut ReceiptNumbers,
) -> u32
    ensures { Hands core slice result receipt.new handle.old.value handle.new.value }
{
    let Some(mut held) = take(handle, alloc) else {
        return show(Err(Fault::NoMachine), NO_RECEIPT, receipt);
    };
    let shown = hand(&mut held, core, slice);
    put(handle, held);
    show(shown, NO_RECEIPT, receipt)
}

fn hand(held: &mut Held, core: u64, slice: u64) -> Result<ReceiptNumbers, Fault>
    ensures { Hands core slice
        (code_of result) (shown_of no_receipt result) (Some held.old) (Some held.new) }
{
    let Held::Machine(simulator) = held else {
        return Err(Fault::NoMachine);
    };
    let (core, slice) = file_named(simulator.config(), core, slice).ok_or(Fault::OutOfRange)?;
    Ok(receipt_numbers(simulator.hand(core, slice)))
}

/// Begins a new log of a slice, where it is quiet.
#[unsafe(no_mangle)]
pub extern "C" fn lockup_begin_log(
    alloc: Global,
    handle: &mut Handle,
    slice: u64,
    begun: &mut u64,
) -> u32
    ensures { BeginsLogOf slice result begun.new handle.old.value handle.new.value }
{
    let Some(mut held) = take(handle, alloc) else {
        return show(Err(Fault::NoMachine), 0, begun);
    };
    let shown = begin_log(alloc, &mut held, slice);
    put(handle, held);
    show(shown, 0, begun)
}

fn begin_log(alloc: Global, held: &mut Held, slice: u64) -> Result<u64, Fault>
    ensures { BeginsLogOf slice (code_of result) (shown_of 0 result) (Some held.old) (Some held.new) }
{
    let Held::Machine(simulator) = held else {
        return Err(Fault::NoMachine);
    };
    let slice = slice_named(simulator.config(), slice).ok_or(Fault::OutOfRange)?;
    match simulator.begin_log(alloc, slice) {
        Ok(is_quiet) => Ok(flag(is_quiet)),
        Err(_) => Err(Fault::NoMemory),
    }
}
