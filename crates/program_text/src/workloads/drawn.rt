//! Accesses in an order that is drawn at random.
ghost use Rattle.std.specs.Prelude.{◌<◌, ◌≤◌, IfOk, length, OnOk, vec_len, ◌≡◌};

use super::text::{WORDS, push_line, push_machine};
use rand_core::SeedableRng;
use rand_core::utils::NextWord;
use rand_xoshiro::Xoshiro256PlusPlus;
use std::alloc::{AllocError, Global};

/// How many lines are drawn from.
const LINES: u64 = 256;

/// The weight of the line that is drawn most often.
const MOST: u64 = 1 << 32;

/// Each core loads a word of each line once, in one order that is drawn, from a place of its own on.
pub(crate) fn push_chase(
    alloc: Global,
    text: &mut Vec<u8>,
    cores: u64,
    size: u64,
    seed: u64,
) -> Result<(), AllocError>
    requires cores { cores ≤ 64 }
    requires size { size ≤ 65536 }
{
    push_machine(text, cores, size)?;
    let order = shuffled(alloc, size, seed)?;
    for core in 0..cores {
        push_line(text, "core", &[core])?;
        push_visits(text, order.as_slice(), core * size / cores)?;
    }
    Ok(())
}

// Returns the numbers below `size`, in an order that is drawn.
fn shuffled(alloc: Global, size: u64, seed: u64) -> Result<Vec<u64>, AllocError> {
    let mut order = Vec::new(alloc);
    for line in 0..size {
        order.push(line)?;
    }
    let mut generator = Xoshiro256PlusPlus::seed_from_u64(seed);
    let count = order.len();
    for left in 0..count {
        let other = left + (generator.next_word() % (count - left) as u64) as usize;
        order.as_mut_slice().swap(left, other);
    }
    Ok(order)
}

fn push_visits(text: &mut Vec<u8>, order: &[u64], start: u64) -> Result<(), AllocError> {
    for step in 0..order.len() {
        let place = (start.wrapping_add(step as u64) % order.len() as u64) as usize;
        push_line(text, "load", &[order[place].saturating_mul(WORDS)])?;
    }
    Ok(())
}

/// Each core loads words that are drawn, each as likely as the others, and stores to every fourth.
pub(crate) fn push_uniform(
    text: &mut Vec<u8>,
    cores: u64,
    size: u64,
    seed: u64,
) -> Result<(), AllocError> {
    push_machine(text, cores, LINES)?;
    let mut generator = Xoshiro256PlusPlus::seed_from_u64(seed);
    for core in 0..cores {
        push_line(text, "core", &[core])?;
        push_draws(text, &mut generator, &[], size)?;
    }
    Ok(())
}

/// Each core loads words of drawn lines, line n as often as 1 / (n + 1) says, and stores to every fourth.
pub(crate) fn push_zipf(
    alloc: Global,
    text: &mut Vec<u8>,
    cores: u64,
    size: u64,
    seed: u64,
) -> Result<(), AllocError> {
    push_machine(text, cores, LINES)?;
    let ends = zipf_ends(alloc)?;
    let mut generator = Xoshiro256PlusPlus::seed_from_u64(seed);
    for core in 0..cores {
        push_line(text, "core", &[core])?;
        push_draws(text, &mut generator, ends.as_slice(), size)?;
    }
    Ok(())
}

// Adds accesses to lines whose weights end there, or to any line where no weights are given.
fn push_draws(
    text: &mut Vec<u8>,
    generator: &mut Xoshiro256PlusPlus,
    ends: &[u64],
    size: u64,
) -> Result<(), AllocError> {
    for access in 0..size {
        let line = drawn_line(generator.next_word(), ends);
        let word = line
            .saturating_mul(WORDS)
            .saturating_add(generator.next_word() % WORDS);
        if access % 4 == 3 {
            push_line(text, "store", &[word, 1])?;
        } else {
            push_line(text, "load", &[word])?;
        }
    }
    Ok(())
}

// Returns the line that a word of the generator draws.
fn drawn_line(word: u64, ends: &[u64]) -> u64 {
    let Some(all) = ends.last() else {
        return word % LINES;
    };
    let at = word % (*all).max(1);
    match ends.iter().position(|end| at < *end) {
        Some(line) => line as u64,
        None => 0,
    }
}

// Returns where the weight of each line ends, if they are laid end to end.
fn zipf_ends(alloc: Global) -> Result<Vec<u64>, AllocError> {
    let mut ends = Vec::new(alloc);
    let mut end: u64 = 0;
    for line in 0..LINES {
        end = end.saturating_add(MOST / (line + 1));
        ends.push(end)?;
    }
    Ok(ends)
}
