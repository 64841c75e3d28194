//! Cores that share counters, buffers and locks.
ghost use Rattle.std.specs.Prelude.{◌<◌, ◌≤◌};

use super::text::{WORDS, lines_of, push_line, push_machine};
use rand_core::SeedableRng;
use rand_core::utils::NextWord;
use rand_xoshiro::Xoshiro256PlusPlus;
use std::alloc::AllocError;

/// How many bins a histogram has.
const BINS: u64 = 64;

/// How many items a ring buffer holds.
const SLOTS: u64 = 8;

/// How many words a ring buffer takes: its slots, and a line each for the places of its two ends.
const RING: u64 = 3 * WORDS;

/// Each core loads items of its own, one after another, and counts each in a bin that is drawn, of bins that all share.
pub(crate) fn push_histogram(
    text: &mut Vec<u8>,
    cores: u64,
    size: u64,
    seed: u64,
) -> Result<(), AllocError>
    requires cores { cores ≤ 64 }
    requires size { size ≤ 4096 }
{
    let lines = lines_of(size);
    push_machine(text, cores, BINS / WORDS + cores * lines)?;
    let mut generator = Xoshiro256PlusPlus::seed_from_u64(seed);
    for core in 0..cores {
        push_line(text, "core", &[core])?;
        push_items(text, &mut generator, BINS + core * lines * WORDS, size)?;
    }
    Ok(())
}

fn push_items(
    text: &mut Vec<u8>,
    generator: &mut Xoshiro256PlusPlus,
    first: u64,
    size: u64,
) -> Result<(), AllocError> {
    for item in 0..size {
        push_line(text, "load", &[first.saturating_add(item)])?;
        push_line(text, "add", &[generator.next_word() % BINS, 1])?;
    }
    Ok(())
}

/// Each core of an even number hands items to the next one in a ring buffer of their own.
pub(crate) fn push_ring(text: &mut Vec<u8>, cores: u64, size: u64) -> Result<(), AllocError>
    requires cores { cores ≤ 64 }
{
    push_machine(text, cores, cores.div_ceil(2) * RING / WORDS)?;
    for core in 0..cores {
        push_line(text, "core", &[core])?;
        let ring = core / 2 * RING;
        if core % 2 == 0 {
            push_puts(text, ring, size)?;
        } else {
            push_takes(text, ring, size)?;
        }
    }
    Ok(())
}

fn push_puts(text: &mut Vec<u8>, ring: u64, size: u64) -> Result<(), AllocError>
    requires { ring ≤ 65536 }
{
    for item in 0..size {
        push_line(text, "load", &[ring + SLOTS + WORDS])?;
        push_line(text, "store", &[ring + item % SLOTS, item])?;
        push_line(text, "store", &[ring + SLOTS, item + 1])?;
    }
    Ok(())
}

fn push_takes(text: &mut Vec<u8>, ring: u64, size: u64) -> Result<(), AllocError>
    requires { ring ≤ 65536 }
{
    for item in 0..size {
        push_line(text, "load", &[ring + SLOTS])?;
        push_line(text, "load", &[ring + item % SLOTS])?;
        push_line(text, "store", &[ring + SLOTS + WORDS, item + 1])?;
    }
    Ok(())
}

/// Each core takes a lock by compare-exchange, writes what the lock guards, and gives the lock back.
pub(crate) fn push_lock(text: &mut Vec<u8>, cores: u64, size: u64) -> Result<(), AllocError> {
    push_machine(text, cores, 2)?;
    for core in 0..cores {
        push_line(text, "core", &[core])?;
        push_line(text, "repeat", &[size])?;
        push_line(text, "  cas", &[0, 0, 1])?;
        push_line(text, "  load", &[WORDS])?;
        push_line(text, "  store", &[WORDS, core])?;
        push_line(text, "  store", &[0, 0])?;
        push_line(text, "end", &[])?;
    }
    Ok(())
}
