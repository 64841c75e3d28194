//! The logs of a round.
ghost use Rattle.std.specs.Prelude.{◌≡◌, ℕ, IfErr, IfOk, List, OnOk};
ghost use Rattle.std.specs.Fmt.{WritesInCalls};
ghost use Rattle.std.specs.Io.KnownBytes.{Appends};
ghost use Rattle.address_map.specs.Place.{init_of};
ghost use Rattle.core_thread_system.specs.Core.{CoreView};
ghost use Rattle.drain.specs.Audited.{IsAudited};
ghost use Rattle.litmus_test.specs.Form.{text_of_stuck};
ghost use Rattle.litmus_test.specs.declared.outcomes.form.OutcomeForm.TheVariants as forms;
ghost use Rattle.litmus_script.specs.Play.{IsOfRun};
ghost use Rattle.litmus_threads.specs.Log.{AreEntriesOf};
ghost use Rattle.litmus_threads.specs.Made.{AreOwners};
ghost use Rattle.litmus_threads.specs.Trace.{AreTracesBelow, IsTraceEnd, text_of_slice};
ghost use Rattle.slice_log.specs.declared.entry.Entry.{Entry};

use super::log::log_of;
use super::machine::play;
use super::notes::{write_cores, write_counters, write_heading};
use super::plan::Plan;
use address_map::{Checked, SliceId, WordAddr, init_of};
use drain::{Audit, CounterValue};
use litmus_script::{TextWriter, write_trace, written};
use litmus_test::{LitmusTest, OutcomeForm, write_stuck};
use litmus_text::TextFault;
use slice_log::Entry;
use std::alloc::Global;
use std::fmt;
use std::io::Write;
use std::sync::Wait;
use std::thread::Threads;

/// Plays the round of this number, even if a run of the test doesn't reach it, and writes the log of each slice as a
/// trace, followed by comment lines with what the audit found; or that the round was stuck. Returns the exit status,
/// which is 1 if it was. The time to build the logs grows with the square of the accesses.
pub fn trace_test<R: Threads + Wait + Sync, W: Write>(
    alloc: Global,
    rt: &R,
    test: &LitmusTest<'_>,
    seed: u64,
    limit: u64,
    round: u64,
    out: &mut W,
) -> Result<u8, TextFault>
    ensures traced { IfOk result (IsTraceEnd test.now round
        (λ text. Appends (W.contents out.old) (W.contents out.new) text)) }
    ensures fault { IfErr result IsOfRun }
{
    let plan = Plan::new(alloc, test, seed, limit)?;
    match play(rt, test, &plan, round)? {
        Some(audit) => {
            write_traces(alloc, &test.config, &audit, out)?;
            Ok(0)
        }
        None => {
            tell_stuck(round, out)?;
            Ok(1)
        }
    }
}

// Writes that the round was stuck.
fn tell_stuck<W: Write>(round: u64, out: &mut W) -> Result<(), TextFault>
    ensures told { OnOk result
        (Appends (W.contents out.old) (W.contents out.new) (text_of_stuck forms.Table round)) }
    ensures fault { IfErr result IsOfRun }
{
    let mut answers = TextWriter { out };
    written(write_stuck(round, OutcomeForm::Table, &mut answers))
}

// Writes the trace of each slice, one after another.
fn write_traces<W: Write>(
    alloc: Global,
    config: &Checked,
    audit: &Audit,
    out: &mut W,
) -> Result<(), TextFault>
    ensures traces { OnOk result ((cores : List CoreView) → AreOwners config.now cores
        → IsAudited config.now cores audit.now.receipts.items audit.now.counters.items
        → (text : List ℕ) × AreTracesBelow config.now cores audit.now.counters.items config.now.slices text
        × Appends (W.contents out.old) (W.contents out.new) text) }
    ensures fault { IfErr result IsOfRun }
{
    for slice in 0..config.slices() {
        write_slice(alloc, config, audit, SliceId(slice as u8), out)?;
    }
    Ok(())
}

// Writes the trace of a slice.
fn write_slice<W: Write>(
    alloc: Global,
    config: &Checked,
    audit: &Audit,
    slice: SliceId,
    out: &mut W,
) -> Result<(), TextFault>
    ensures trace { OnOk result ((log : List Entry) → AreEntriesOf slice audit.now.receipts.items log
        → Appends (W.contents out.old) (W.contents out.new)
        (text_of_slice config.now audit.now.counters.items slice.0 log)) }
    ensures fault { IfErr result IsOfRun }
{
    let init = init_of(alloc, config, slice)?;
    let log = log_of(alloc, &audit.receipts, slice)?;
    let mut lines = TextWriter { out };
    written(write_log(
        config,
        slice,
        init.as_slice(),
        &log,
        &audit.counters,
        &mut lines,
    ))
}

// Writes a slice's log as a trace, and after it what the audit found.
fn write_log<W: fmt::Write>(
    config: &Checked,
    slice: SliceId,
    init: &[(WordAddr, u64)],
    log: &[Entry],
    counters: &[CounterValue],
    out: &mut W,
) -> fmt::Result
    requires { init.now ≡ init_of config.now slice.0 }
    ensures { OnOk result (WritesInCalls W.write_str_gives out.old
        (text_of_slice config.now counters.now slice.0 log.now) out.new) }
{
    write_heading(config, slice, out)?;
    write_trace(config, init, log, out)?;
    write_cores(config, log, out)?;
    write_counters(config, slice, log, counters, out)
}
