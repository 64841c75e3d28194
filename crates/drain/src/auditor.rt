ghost use Rattle.std.specs.Prelude.{◌≡◌, IfErr, IfOk};
ghost use Rattle.drain.specs.Audited.{IsAudited};
ghost use Rattle.drain.specs.Fault.{IsFaultOf};

use super::counted::{listed, unsettled};
use super::fault::{AuditError, AuditFault};
use super::gathered::gather;
use super::report::Audit;
use super::settled::settle_all;
use super::whole::check_whole;
use core_thread_system::{Core, System, SystemNames};
use mshr_file::MissFile;
use std::alloc::Global;
use std::sync::Wait;

/// Audits a machine with all its cores, in any order: each of the configured cores once. Each slice has to be quiet,
/// and what the cores asked it for and got is to be just what its log has. Where the audit fails the cores are given
/// back as they were.
pub fn audit<'a, F: MissFile, M: SystemNames, R: Wait>(
    rt: &R,
    alloc: Global,
    system: &System<F, M>,
    cores: Vec<Core<'a, F, M>>,
) -> Result<Audit, AuditFault<'a, F, M>>
    ensures audited { IfOk result (λ a. IsAudited M.setup cores.entry.items a.receipts.items a.counters.items) }
    ensures fault { IfErr result (λ f. IsFaultOf M.setup cores.entry.items f.error) }
    ensures cores { IfErr result (λ f. f.cores.items ≡ cores.entry.items) }
{
    let mut cores = cores;
    match audit_cores(rt, alloc, system, &mut cores) {
        Ok(audit) => Ok(audit),
        Err(error) => Err(AuditFault { error, cores }),
    }
}

// The same with borrowed cores, which stay as they were.
fn audit_cores<'a, F: MissFile, M: SystemNames, R: Wait>(
    rt: &R,
    alloc: Global,
    system: &System<F, M>,
    cores: &mut [Core<'a, F, M>],
) -> Result<Audit, AuditError>
    ensures audited { IfOk result (λ a. IsAudited M.setup cores.old a.receipts.items a.counters.items) }
    ensures fault { IfErr result (IsFaultOf M.setup cores.old) }
    ensures cores { cores.new ≡ cores.old }
{
    let config = system.config();
    check_whole(config.cores(), cores)?;
    let mut counters = unsettled(config);
    settle_all(rt, system, cores, &mut counters)?;
    let Ok(receipts) = gather(alloc, config.cores(), config.slices(), cores) else {
        return Err(AuditError::Memory);
    };
    let Ok(counters) = listed(alloc, &counters) else {
        return Err(AuditError::Memory);
    };
    Ok(Audit { receipts, counters })
}
