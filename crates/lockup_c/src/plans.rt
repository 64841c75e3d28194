//! What a step would do.
ghost use Rattle.std.specs.Prelude.{◌≡◌, Some};
ghost use Rattle.lockup_c.specs.Answer.{code_of, shown_of};
ghost use Rattle.lockup_c.specs.Calls.{Decides, NamesNext, Plans};
ghost use Rattle.lockup_c.specs.Numbers.{no_decision, no_next, no_plan};

use super::answer::{Fault, show};
use super::handle::{Handle, put, take};
use super::held::Held;
use super::names::{pick_named, request_named, turn_named};
use super::numbers::{
    NO_DECISION, NO_NEXT, NO_PLAN, decision_numbers, next_numbers, planned_numbers,
};
use super::structs::{DecisionNumbers, NextNumbers, PlannedNumbers};
use std::alloc::Global;

/// What `lockup_issue` would do.
#[unsafe(no_mangle)]
pub extern "C" fn lockup_decide(
    alloc: Global,
    handle: &mut Handle,
    core: u64,
    tag: u64,
    op: u64,
    word: u64,
    operand: u64,
    replacement: u64,
    decision: &mut DecisionNumbers,
) -> u32
    ensures seen { Decides core tag op word operand replacement result decision.new handle.old.value }
    ensures kept { handle.new.value ≡ handle.old.value }
{
    let Some(held) = take(handle, alloc) else {
        return show(Err(Fault::NoMachine), NO_DECISION, decision);
    };
    let shown = decide(&held, core, tag, op, word, operand, replacement);
    put(handle, held);
    show(shown, NO_DECISION, decision)
}

fn decide(
    held: &Held,
    core: u64,
    tag: u64,
    op: u64,
    word: u64,
    operand: u64,
    replacement: u64,
) -> Result<DecisionNumbers, Fault>
    ensures { Decides core tag op word operand replacement
        (code_of result) (shown_of no_decision result) (Some held.now) }
{
    let simulator = held.machine()?;
    let (core, request) = request_named(
        simulator.config(),
        core,
        tag,
        op,
        word,
        operand,
        replacement,
    )
    .ok_or(Fault::OutOfRange)?;
    Ok(decision_numbers(simulator.decide(core, request)))
}

/// What `lockup_deliver` would do.
#[unsafe(no_mangle)]
pub extern "C" fn lockup_plan(
    alloc: Global,
    handle: &mut Handle,
    channel: u64,
    line: u64,
    core: u64,
    from: u64,
    planned: &mut PlannedNumbers,
) -> u32
    ensures seen { Plans channel line core from result planned.new handle.old.value }
    ensures kept { handle.new.value ≡ handle.old.value }
{
    let Some(held) = take(handle, alloc) else {
        return show(Err(Fault::NoMachine), NO_PLAN, planned);
    };
    let shown = plan(&held, channel, line, core, from);
    put(handle, held);
    show(shown, NO_PLAN, planned)
}

fn plan(held: &Held, channel: u64, line: u64, core: u64, from: u64) -> Result<PlannedNumbers, Fault>
    ensures { Plans channel line core from (code_of result) (shown_of no_plan result) (Some held.now) }
{
    let simulator = held.machine()?;
    let pick = pick_named(simulator.config(), channel, line, core, from).ok_or(Fault::OutOfRange)?;
    Ok(planned_numbers(simulator.plan(pick)))
}

/// What `lockup_deliver_next` would deliver.
#[unsafe(no_mangle)]
pub extern "C" fn lockup_next(
    alloc: Global,
    handle: &mut Handle,
    slice: u64,
    channel: u64,
    next: &mut NextNumbers,
) -> u32
    ensures seen { NamesNext slice channel result next.new handle.old.value }
    ensures kept { handle.new.value ≡ handle.old.value }
{
    let Some(held) = take(handle, alloc) else {
        return show(Err(Fault::NoMachine), NO_NEXT, next);
    };
    let shown = name_next(&held, slice, channel);
    put(handle, held);
    show(shown, NO_NEXT, next)
}

fn name_next(held: &Held, slice: u64, channel: u64) -> Result<NextNumbers, Fault>
    ensures { NamesNext slice channel (code_of result) (shown_of no_next result) (Some held.now) }
{
    let simulator = held.machine()?;
    let (slice, class) = turn_named(simulator.config(), slice, channel).ok_or(Fault::OutOfRange)?;
    Ok(next_numbers(simulator.next(slice, class)))
}
