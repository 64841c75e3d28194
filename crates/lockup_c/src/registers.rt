//! What waits in a core's miss registers.
ghost use Rattle.std.specs.Prelude.{◌≡◌, ◌<◌, Some, slice_get};
ghost use Rattle.lockup_c.specs.Answer.{code_of, shown_of};
ghost use Rattle.lockup_c.specs.Calls.{SaysFound};
ghost use Rattle.lockup_c.specs.Registers.{ShowsRegister, ShowsTarget, ShowsTargets, needed_number, no_register};
ghost use Rattle.lockup_c.specs.Registers.{no_target, register_numbers, request_number, target_numbers};

use super::answer::{Fault, show};
use super::handle::{Handle, put, take};
use super::held::Held;
use super::looks::{op_number, operand_of, replacement_of};
use super::names::{copy_named, file_named};
use super::structs::{RegisterNumbers, TargetNumbers};
use address_map::LineAddr;
use cache_table::CopyState;
use mshr_file::Target;
use simulator::MissRegister;
use slice_core::CacheCopy;
use std::alloc::Global;

const NO_REGISTER: RegisterNumbers = RegisterNumbers {
    line: 0,
    kind: 0,
    needed: 0,
    counted: 0,
    targets: 0,
};

const NO_TARGET: TargetNumbers = TargetNumbers {
    tag: 0,
    op: 0,
    word: 0,
    operand: 0,
    replacement: 0,
    seq: 0,
    since: 0,
};

/// Shows one of the miss registers of a core in a slice.
#[unsafe(no_mangle)]
pub extern "C" fn lockup_register_at(
    alloc: Global,
    handle: &mut Handle,
    core: u64,
    slice: u64,
    nth: u64,
    register: &mut RegisterNumbers,
) -> u32
    ensures seen { ShowsRegister core slice nth result register.new handle.old.value }
    ensures kept { handle.new.value ≡ handle.old.value }
{
    let Some(held) = take(handle, alloc) else {
        return show(Err(Fault::NoMachine), NO_REGISTER, register);
    };
    let shown = register_at(&held, alloc, core, slice, nth);
    put(handle, held);
    show(shown, NO_REGISTER, register)
}

fn register_at(
    held: &Held,
    alloc: Global,
    core: u64,
    slice: u64,
    nth: u64,
) -> Result<RegisterNumbers, Fault>
    ensures { ShowsRegister core slice nth
        (code_of result) (shown_of no_register result) (Some held.now) }
{
    let simulator = held.machine()?;
    let (core, slice) = file_named(simulator.config(), core, slice).ok_or(Fault::OutOfRange)?;
    match simulator.register_at(alloc, core, slice, nth as usize)? {
        Some(found) => Ok(register_numbers(found)),
        None => Err(Fault::OutOfRange),
    }
}

fn register_numbers(register: MissRegister) -> RegisterNumbers
    ensures { result ≡ register_numbers register }
{
    let copy = register.copy;
    RegisterNumbers {
        line: register.line.0,
        kind: request_number(copy.state),
        needed: needed_number(&copy),
        counted: copy.counted as u64,
        targets: register.targets as u64,
    }
}

/// Returns the request that a copy waits for, as messages are numbered: a GetS in `IS_D`, else a GetM.
const fn request_number(state: CopyState) -> u64
    ensures { result ≡ request_number state }
{
    match state {
        CopyState::IS_D => 0,
        _ => 1,
    }
}

/// Returns how many acknowledgements a copy needs, or 64 if its data haven't said so yet.
fn needed_number(copy: &CacheCopy) -> u64
    ensures { result ≡ needed_number copy.now }
{
    let wants = copy.wants;
    match copy.state {
        CopyState::IM_AD => 64,
        CopyState::SM_AD => 64,
        _ => wants as u64,
    }
}

/// How many accesses of a core wait for a line.
#[unsafe(no_mangle)]
pub extern "C" fn lockup_targets(
    alloc: Global,
    handle: &mut Handle,
    core: u64,
    line: u64,
    count: &mut u64,
) -> u32
    ensures seen { ShowsTargets core line result count.new handle.old.value }
    ensures kept { handle.new.value ≡ handle.old.value }
{
    let Some(held) = take(handle, alloc) else {
        return show(Err(Fault::NoMachine), 0, count);
    };
    let shown = targets(&held, core, line);
    put(handle, held);
    show(shown, 0, count)
}

fn targets(held: &Held, core: u64, line: u64) -> Result<u64, Fault>
    ensures { ShowsTargets core line (code_of result) (shown_of 0 result) (Some held.now) }
{
    let simulator = held.machine()?;
    let (core, line) = copy_named(simulator.config(), core, line).ok_or(Fault::OutOfRange)?;
    Ok(simulator.targets(core, line).len() as u64)
}

/// Shows one of the accesses of a core that wait for a line.
#[unsafe(no_mangle)]
pub extern "C" fn lockup_target_at(
    alloc: Global,
    handle: &mut Handle,
    core: u64,
    line: u64,
    nth: u64,
    target: &mut TargetNumbers,
) -> u32
    ensures seen { ShowsTarget core line nth result target.new handle.old.value }
    ensures kept { handle.new.value ≡ handle.old.value }
{
    let Some(held) = take(handle, alloc) else {
        return show(Err(Fault::NoMachine), NO_TARGET, target);
    };
    let shown = target_at(&held, core, line, nth);
    put(handle, held);
    show(shown, NO_TARGET, target)
}

fn target_at(held: &Held, core: u64, line: u64, nth: u64) -> Result<TargetNumbers, Fault>
    ensures { ShowsTarget core line nth (code_of result) (shown_of no_target result) (Some held.now) }
{
    let simulator = held.machine()?;
    let (core, line) = copy_named(simulator.config(), core, line).ok_or(Fault::OutOfRange)?;
    target_of(line, simulator.targets(core, line).as_slice(), nth)
}

fn target_of(line: LineAddr, targets: &[Target], nth: u64) -> Result<TargetNumbers, Fault>
    requires { line.0 < 65536 }
    ensures { SaysFound (slice_get targets.now nth) (target_numbers line) no_target
        (code_of result) (shown_of no_target result) }
{
    match targets.get(nth as usize) {
        Some(target) => Ok(target_numbers(line, target)),
        None => Err(Fault::OutOfRange),
    }
}

fn target_numbers(line: LineAddr, target: &Target) -> TargetNumbers
    requires { line.0 < 65536 }
    ensures { result ≡ target_numbers line target.now }
{
    TargetNumbers {
        tag: target.tag as u64,
        op: op_number(target.op),
        word: 8 * line.0 + target.offset.0 as u64,
        operand: operand_of(target.op),
        replacement: replacement_of(target.op),
        seq: target.seq,
        since: target.since,
    }
}
