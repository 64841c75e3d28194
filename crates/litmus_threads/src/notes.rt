//! The comment lines of a trace.
ghost use Rattle.std.specs.Prelude.{◌≡◌, ◌%◌, ◌^◌, OnOk};
ghost use Rattle.std.specs.Fmt.{WritesInCalls};
ghost use Rattle.litmus_threads.specs.Trace.{accesses_by, heading_of, text_of_core, text_of_cores, text_of_counter};
ghost use Rattle.litmus_threads.specs.Trace.{text_of_counters};
ghost use Rattle.slice_log.specs.Log.{added_to, named};

use address_map::{Checked, CoreId, Op, SliceId, WordAddr, is_of_slice};
use drain::CounterValue;
use slice_log::Entry;
use std::fmt;
use std::fmt::Write;

/// Writes the line before a slice's trace, if the machine has several slices.
pub fn write_heading<W: Write>(config: &Checked, slice: SliceId, out: &mut W) -> fmt::Result
    ensures { OnOk result (WritesInCalls W.write_str_gives out.old (heading_of config.now slice.0) out.new) }
{
    if config.slices() > 1 {
        writeln!(out, "# slice {}", slice.0)
    } else {
        Ok(())
    }
}

/// Writes how many of a log's accesses each core has.
pub(crate) fn write_cores<W: Write>(config: &Checked, log: &[Entry], out: &mut W) -> fmt::Result
    ensures { OnOk result (WritesInCalls W.write_str_gives out.old (text_of_cores config.now.cores log.now) out.new) }
{
    for core in 0..config.cores() {
        write_core(CoreId(core as u8), log, out)?;
    }
    Ok(())
}

fn write_core<W: Write>(core: CoreId, log: &[Entry], out: &mut W) -> fmt::Result
    ensures { OnOk result (WritesInCalls W.write_str_gives out.old (text_of_core log.now core.0) out.new) }
{
    let accesses = accesses_by(core, log);
    writeln!(
        out,
        "# core {}: {accesses} of these accesses, each once",
        core.0
    )
}

fn accesses_by(core: CoreId, log: &[Entry]) -> usize
    ensures { result ≡ accesses_by core.0 log.now }
{
    log.iter().filter(|entry| entry.core == core).count()
}

/// Writes for each counter of a slice its initial value, what was added, and its value.
pub(crate) fn write_counters<W: Write>(
    config: &Checked,
    slice: SliceId,
    log: &[Entry],
    counters: &[CounterValue],
    out: &mut W,
) -> fmt::Result
    ensures { OnOk result (WritesInCalls W.write_str_gives out.old
        (text_of_counters config.now slice.0 log.now counters.now) out.new) }
{
    for counter in counters {
        if is_of_slice(config, slice, counter.word) {
            write_counter(config, log, *counter, out)?;
        }
    }
    Ok(())
}

fn write_counter<W: Write>(
    config: &Checked,
    log: &[Entry],
    counter: CounterValue,
    out: &mut W,
) -> fmt::Result
    ensures { OnOk result (WritesInCalls W.write_str_gives out.old
        (text_of_counter config.now log.now counter) out.new) }
{
    let word = counter.word;
    let initial = config.initial_word(word);
    let added = added_to(word, log);
    writeln!(
        out,
        "# counter {}: {initial} at first, {added} added, {} now",
        word.0, counter.value
    )
}

// Returns what the accesses add to a word, modulo 2^64.
fn added_to(word: WordAddr, log: &[Entry]) -> u64
    ensures { result ≡ named log.now word.0 % 2 ^ 64 }
{
    let mut sum = 0u64;
    for entry in log {
        sum = sum.wrapping_add(added_by(entry, word));
    }
    sum
}

// Returns what an access adds to a word.
fn added_by(entry: &Entry, word: WordAddr) -> u64
    ensures { result ≡ added_to word.0 entry.now }
{
    match entry.op {
        Op::Add(delta) if entry.word == word => delta,
        _ => 0,
    }
}
