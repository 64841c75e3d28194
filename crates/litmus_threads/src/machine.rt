ghost use Rattle.std.specs.Prelude.{◌≡◌, IfOk, IfSome};
ghost use Rattle.litmus_threads.specs.Round.{IsRoundOf};
ghost use Rattle.receipt_ledger.specs.Names.{AreLedgersOf};

use super::crew::Crew;
use super::made::have_made_all;
use super::plan::Plan;
use address_map::Checked;
use core_thread::{RunError, run_all};
use core_thread_system::{All, Core, Open, PortSet, System, SystemBlanks, SystemKeys};
use drain::{Audit, AuditError, AuditFault, Drain, audit, drain};
use litmus_test::LitmusTest;
use mshr_file::{ExplicitFile, InvertedFile, MissFile, MissKind};
use std::alloc::AllocError;
use std::marker::Brand;
use std::sync::Wait;
use std::thread::Threads;

/// Plays a round of a test on a new machine. Returns what its audit found, or none if the round is stuck.
pub(crate) fn play<R: Threads + Wait + Sync>(
    rt: &R,
    test: &LitmusTest<'_>,
    plan: &Plan,
    round: u64,
) -> Result<Option<Audit>, AllocError>
    ensures { IfOk result (λ played. IfSome played (λ audit.
        IsRoundOf test.now.config test.now.threads.items audit.receipts.items audit.counters.items)) }
{
    match test.misses {
        MissKind::Explicit => on_machine::<ExplicitFile, R>(rt, test, plan, round),
        MissKind::Inverted => on_machine::<InvertedFile, R>(rt, test, plan, round),
    }
}

// Builds the machine.
fn on_machine<F: MissFile + Send, R: Threads + Wait + Sync>(
    rt: &R,
    test: &LitmusTest<'_>,
    plan: &Plan,
    round: u64,
) -> Result<Option<Audit>, AllocError>
    ensures { IfOk result (λ played. IfSome played (λ audit.
        IsRoundOf test.now.config test.now.threads.items audit.receipts.items audit.counters.items)) }
{
    let config = test.config.try_clone(plan.alloc)?;
    let blanks = SystemBlanks::new(config.cores() as u64);
    on_named::<F, Brand, R>(rt, config, blanks, test, plan, round)
}

fn on_named<F: MissFile + Send, M: SystemKeys + Send + Sync, R: Threads + Wait + Sync>(
    rt: &R,
    config: Checked,
    blanks: SystemBlanks,
    test: &LitmusTest<'_>,
    plan: &Plan,
    round: u64,
) -> Result<Option<Audit>, AllocError>
    requires setup { config ≡ M.setup }
    requires ledgers0 { AreLedgersOf M.setup (M.names 0) blanks.slice0 }
    requires ledgers1 { AreLedgersOf M.setup (M.names 1) blanks.slice1 }
    requires ledgers2 { AreLedgersOf M.setup (M.names 2) blanks.slice2 }
    requires ledgers3 { AreLedgersOf M.setup (M.names 3) blanks.slice3 }
    ensures { IfOk result (λ played. IfSome played (λ audit.
        IsRoundOf M.setup test.now.threads.items audit.receipts.items audit.counters.items)) }
{
    let (system, sets) = System::<F, All<M>>::build_checked(plan.alloc, config, blanks)?;
    let played = on_system(rt, &system, sets, test, plan, round);
    // In one call: else it would be dropped part by part, each with a proof of its own.
    drop(system);
    played
}

// Runs the threads, and checks what they did.
fn on_system<F: MissFile + Send, M: SystemKeys + Send + Sync, R: Threads + Wait + Sync>(
    rt: &R,
    system: &System<F, All<M>>,
    sets: Vec<PortSet<All<M>>>,
    test: &LitmusTest<'_>,
    plan: &Plan,
    round: u64,
) -> Result<Option<Audit>, AllocError>
    ensures { IfOk result (λ played. IfSome played (λ audit.
        IsRoundOf M.setup test.now.threads.items audit.receipts.items audit.counters.items)) }
{
    let mut crew = Crew::deal(plan.alloc, system, sets, &test.threads, plan.seed, round)?;
    let started = run_all(rt, system, &mut crew.jobs, plan.movers, &Open, plan.limit);
    let ended = crew.has_ended();
    let cores = crew.cores()?;
    match started {
        Ok(()) if ended? => end(rt, system, cores, test, plan),
        Ok(()) => Ok(None),
        Err(RunError::Start) => Err(AllocError),
    }
}

// Drains the cores and audits them. Checks what no contract says of threads: each core has made exactly its thread's
// requests.
fn end<F: MissFile, M: SystemKeys, R: Wait>(
    rt: &R,
    system: &System<F, All<M>>,
    cores: Vec<Core<'_, F, All<M>>>,
    test: &LitmusTest<'_>,
    plan: &Plan,
) -> Result<Option<Audit>, AllocError>
    ensures { IfOk result (λ played. IfSome played (λ audit.
        IsRoundOf M.setup test.now.threads.items audit.receipts.items audit.counters.items)) }
{
    let mut cores = cores;
    if drain(rt, system, &mut cores, plan.limit) == Drain::Stuck
        || !have_made_all(system.config(), &test.threads, &cores)
    {
        return Ok(None);
    }
    match audit(rt, plan.alloc, system, cores) {
        Ok(audit) => Ok(Some(audit)),
        Err(
            AuditFault {
                error: AuditError::Memory,
                ..
            },
        ) => Err(AllocError),
        Err(_) => Ok(None),
    }
}
