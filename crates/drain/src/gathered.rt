ghost use Rattle.std.specs.Prelude.{◌≡◌, ◌≤◌, ◌++◌, IfOk, OnOk};
ghost use Rattle.drain.specs.Owned.{AreOwnAt, AreOwnBelow, HasItsOwn};
ghost use Rattle.drain.specs.Receipts.{receipts_at, receipts_by_core, receipts_of_core};

use super::whole::number_of;
use address_map::SliceId;
use core_thread_system::{Core, SystemNames};
use mshr_file::MissFile;
use receipt_ledger::Receipt;
use std::alloc::{AllocError, Global};

/// The receipts of all cores in one list: by core, then slice, then in the order in which they were handed out.
pub(crate) fn gather<F: MissFile, M: SystemNames>(
    alloc: Global,
    configured: usize,
    slices: usize,
    cores: &[Core<'_, F, M>],
) -> Result<Vec<Receipt>, AllocError>
    requires configured { configured ≡ M.setup.cores }
    requires slices { slices ≡ M.setup.slices }
    requires few { slices ≤ 4 }
    ensures receipts { IfOk result (λ receipts. receipts.items ≡ receipts_by_core M.setup cores.now) }
    ensures own { OnOk result (AreOwnBelow M.setup cores.now M.setup.cores) }
{
    let mut receipts = Vec::new(alloc);
    for number in 0..configured {
        append_at(&mut receipts, number, slices, cores)?;
    }
    Ok(receipts)
}

// Appends those of the core of this number.
fn append_at<F: MissFile, M: SystemNames>(
    receipts: &mut Vec<Receipt>,
    number: usize,
    slices: usize,
    cores: &[Core<'_, F, M>],
) -> Result<(), AllocError>
    requires slices { slices ≡ M.setup.slices }
    requires few { slices ≤ 4 }
    ensures receipts { OnOk result (receipts.new.items ≡ receipts.old.items ++ receipts_at M.setup cores.now number) }
    ensures own { OnOk result (AreOwnAt M.setup cores.now number) }
{
    for core in cores {
        if number_of(core) == number {
            append_core(receipts, slices, core)?;
        }
    }
    Ok(())
}

// Appends those of a core.
fn append_core<F: MissFile, M: SystemNames>(
    receipts: &mut Vec<Receipt>,
    slices: usize,
    core: &Core<'_, F, M>,
) -> Result<(), AllocError>
    requires slices { slices ≡ M.setup.slices }
    requires few { slices ≤ 4 }
    ensures receipts { OnOk result (receipts.new.items ≡ receipts.old.items ++ receipts_of_core M.setup core.now) }
    ensures own { OnOk result (HasItsOwn M.setup M.setup.slices core.now) }
{
    for slice in 0..slices {
        receipts.extend_from_slice(core.receipts(SliceId(slice as u8)))?;
    }
    Ok(())
}
