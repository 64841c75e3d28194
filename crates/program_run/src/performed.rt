ghost use Rattle.std.specs.Prelude.{◌≡◌, ◌<◌, OnOk, drop, true};
ghost use Rattle.litmus_script.specs.Machine.{log_at};
ghost use Rattle.program_run.specs.Kept.{Knows};
ghost use Rattle.program_run.specs.Run.{Leads, PerformsAll};

use super::kept::Kept;
use super::runner::Runner;
use address_map::SliceId;
use litmus_script::Machine;
use program_text::Programs;
use slice_core::Entry;
use std::alloc::AllocError;

/// Lists what the slice performed after its first `before` entries.
pub(crate) fn list_performed(
    machine: &Machine,
    slice: SliceId,
    before: usize,
    performed: &mut Vec<Entry>,
) -> Result<(), AllocError>
    ensures { OnOk result (performed.new.items ≡ drop before (log_at machine.now.slices.items slice.0)) }
{
    performed.clear();
    performed.extend_from_slice(behind(machine.log_of(slice), before))?;
    Ok(())
}

// Returns the entries after the first `before`.
fn behind(log: &[Entry], before: usize) -> &[Entry]
    ensures { result.now ≡ drop before log.now }
{
    match log.get(before..) {
        Some(entries) => entries,
        None => &[],
    }
}

/// Accesses that waited are performed by one delivery: each reply is handed out.
pub(crate) fn hand_out_all(
    runner: &mut Runner,
    programs: &Programs,
    slice: SliceId,
    kept: &mut Kept,
    entries: &[Entry],
) -> Result<(), AllocError>
    requires slice { slice.0 < runner.old.config.slices }
    requires kept { Knows runner.old.config runner.old.slices kept.old }
    ensures leads { OnOk result
        (Leads (PerformsAll runner.old.config programs.now slice.0 true entries.now) runner.old runner.new) }
    ensures kept { OnOk result (Knows runner.old.config runner.new.slices kept.new) }
{
    let mut is_first = true;
    for entry in entries {
        runner.hand_out(programs, slice, *entry, is_first, kept)?;
        is_first = false;
    }
    Ok(())
}
