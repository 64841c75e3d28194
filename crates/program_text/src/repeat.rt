ghost use Rattle.std.specs.Prelude.{◌≡◌, [], ◌∷◌, ◌++◌, ◌≤◌, OnOk, slice_range, vec_len};
ghost use Rattle.program_text.specs.Text.{spread, written_out};
ghost use Rattle.program_text.specs.declared.programs.Step.TheVariants as step_kinds;

use super::programs::{Access, Step};
use super::range::Range;
use address_map::{Op, WordAddr};
use std::alloc::AllocError;

/// Adds an access to each word of a range.
pub(super) fn push_accesses(steps: &mut Vec<Step>, range: Range, op: Op) -> Result<(), AllocError>
    ensures { range.first ≤ range.last
        → OnOk result (steps.new.items ≡ steps.old.items ++ spread range.first range.last op) }
{
    let last = range.last;
    for word in range.first..=last {
        let word = WordAddr(word);
        steps.push(Step::Access(Access { word, op }))?;
    }
    Ok(())
}

/// Adds a step that waits.
pub(super) fn push_settle(steps: &mut Vec<Step>) -> Result<(), AllocError>
    ensures { OnOk result (steps.new.items ≡ steps.old.items ++ step_kinds.Settle ∷ []) }
{
    steps.push(Step::Settle)?;
    Ok(())
}

/// Repeats the steps from `start` on, so that they are there `times` times.
pub(super) fn repeat(steps: &mut Vec<Step>, start: usize, times: u64) -> Result<(), AllocError>
    ensures { OnOk result (steps.new.items ≡ written_out start times steps.old.items) }
{
    if times == 0 {
        steps.truncate(start);
        return Ok(());
    }
    let end = steps.len();
    if end <= start {
        return Ok(());
    }
    for _round in 1..times {
        push_again(steps, start, end)?;
    }
    Ok(())
}

/// Adds the steps from the start to the end once more.
fn push_again(steps: &mut Vec<Step>, start: usize, end: usize) -> Result<(), AllocError>
    requires within { end ≤ vec_len steps.old }
    requires order { start ≤ end }
    ensures { OnOk result (steps.new.items ≡ steps.old.items ++ slice_range steps.old.items start end) }
{
    for place in start..end {
        let step = steps[place];
        steps.push(step)?;
    }
    Ok(())
}
