ghost use Rattle.std.specs.Prelude.{◌≡◌, ◌≤◌, ◌<◌, ℕ, length, slice_index, IfErr, OnOk};
ghost use Rattle.drain.specs.Fault.{IsFaultOf};
ghost use Rattle.drain.specs.Whole.{AreConfigured, AreWhole, numbers_of};
ghost use Rattle.receipt_ledger.specs.History.{times};

use super::fault::AuditError;
use address_map::CoreId;
use core_thread_system::{Core, SystemNames};
use mshr_file::MissFile;

/// Whether each of the machine's cores is there once.
pub(crate) fn check_whole<F: MissFile, M: SystemNames>(
    configured: usize,
    cores: &[Core<'_, F, M>],
) -> Result<(), AuditError>
    requires configured { configured ≡ M.setup.cores }
    requires few { configured ≤ 64 }
    ensures whole { OnOk result (AreWhole M.setup cores.now) }
    ensures known { OnOk result (AreConfigured M.setup cores.now) }
    ensures fault { IfErr result (IsFaultOf M.setup cores.now) }
{
    let counts = counts_of(configured, cores);
    for number in 0..configured {
        match counts[number] {
            0 => return Err(AuditError::Missing(CoreId(number as u8))),
            1 => {}
            _ => return Err(AuditError::Repeated(CoreId(number as u8))),
        }
    }
    Ok(())
}

// How many cores there are of each number.
fn counts_of<F: MissFile, M: SystemNames>(
    configured: usize,
    cores: &[Core<'_, F, M>],
) -> [usize; 64]
    requires configured { configured ≡ M.setup.cores }
    requires few { configured ≤ 64 }
    ensures counts { (core : ℕ) → core < configured → slice_index result core ≡ times core (numbers_of cores.now) }
    ensures known { AreConfigured M.setup cores.now }
{
    let _all = cores.len();
    let mut counts = [0; 64];
    for core in cores {
        counts[number_of(core)] += 1;
    }
    counts
}

/// A core's number.
pub(crate) fn number_of<F: MissFile, M: SystemNames>(core: &Core<'_, F, M>) -> usize
    ensures number { result ≡ core.now.core.0 }
    ensures known { core.now.core.0 < M.setup.cores }
{
    usize::from(core.core().0)
}
