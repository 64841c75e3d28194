//! What slices have counted.
ghost use Rattle.std.specs.Prelude.{◌≡◌, Some, slice_get};
ghost use Rattle.lockup_c.specs.Answer.{code_of, shown_of};
ghost use Rattle.lockup_c.specs.Counts.{ShowsCoreCounts, ShowsSliceCounts, core_counts, no_core_counts};
ghost use Rattle.lockup_c.specs.Counts.{no_slice_counts, slice_counts};

use super::answer::{Fault, show};
use super::handle::{Handle, put, take};
use super::held::Held;
use super::names::{file_named, slice_named};
use super::structs::{CoreCounts, SliceCounts};
use address_map::CoreId;
use slice_answer::{MessageCounts, Stats};
use std::alloc::Global;

const NO_CORE_COUNTS: CoreCounts = CoreCounts {
    hits: 0,
    primary: 0,
    secondary: 0,
    stalls: [0; 5],
    evictions: 0,
    silent: 0,
};

const NO_SLICE_COUNTS: SliceCounts = SliceCounts {
    req: 0,
    fwd: 0,
    data_replies: 0,
    ack: 0,
    home: 0,
};

/// Shows what a core has counted in a slice.
#[unsafe(no_mangle)]
pub extern "C" fn lockup_counts_of_core(
    alloc: Global,
    handle: &mut Handle,
    core: u64,
    slice: u64,
    counts: &mut CoreCounts,
) -> u32
    ensures seen { ShowsCoreCounts core slice result counts.new handle.old.value }
    ensures kept { handle.new.value ≡ handle.old.value }
{
    let Some(held) = take(handle, alloc) else {
        return show(Err(Fault::NoMachine), NO_CORE_COUNTS, counts);
    };
    let shown = counts_of_core(&held, core, slice);
    put(handle, held);
    show(shown, NO_CORE_COUNTS, counts)
}

fn counts_of_core(held: &Held, core: u64, slice: u64) -> Result<CoreCounts, Fault>
    ensures { ShowsCoreCounts core slice
        (code_of result) (shown_of no_core_counts result) (Some held.now) }
{
    let simulator = held.machine()?;
    let (core, slice) = file_named(simulator.config(), core, slice).ok_or(Fault::OutOfRange)?;
    Ok(core_counts(simulator.stats(slice), core))
}

fn core_counts(stats: &Stats, core: CoreId) -> CoreCounts
    ensures { result ≡ core_counts (slice_get stats.now.cores core.0) }
{
    match stats.cores().get(core.0 as usize) {
        Some(counts) => {
            let stalls = counts.stalls;
            CoreCounts {
                hits: counts.hits,
                primary: counts.primary,
                secondary: counts.secondary,
                stalls,
                evictions: counts.evictions,
                silent: counts.silent,
            }
        }
        None => NO_CORE_COUNTS,
    }
}

/// Shows the messages that a slice has delivered.
#[unsafe(no_mangle)]
pub extern "C" fn lockup_counts_of_messages(
    alloc: Global,
    handle: &mut Handle,
    slice: u64,
    counts: &mut SliceCounts,
) -> u32
    ensures seen { ShowsSliceCounts slice result counts.new handle.old.value }
    ensures kept { handle.new.value ≡ handle.old.value }
{
    let Some(held) = take(handle, alloc) else {
        return show(Err(Fault::NoMachine), NO_SLICE_COUNTS, counts);
    };
    let shown = counts_of_messages(&held, slice);
    put(handle, held);
    show(shown, NO_SLICE_COUNTS, counts)
}

fn counts_of_messages(held: &Held, slice: u64) -> Result<SliceCounts, Fault>
    ensures { ShowsSliceCounts slice (code_of result) (shown_of no_slice_counts result) (Some held.now) }
{
    let simulator = held.machine()?;
    let slice = slice_named(simulator.config(), slice).ok_or(Fault::OutOfRange)?;
    Ok(slice_counts(simulator.stats(slice).messages()))
}

fn slice_counts(counts: &MessageCounts) -> SliceCounts
    ensures { result ≡ slice_counts counts.now }
{
    SliceCounts {
        req: counts.requests,
        fwd: counts.forwarded,
        data_replies: counts.data_replies,
        ack: counts.acknowledgements,
        home: counts.home,
    }
}
