//! A walk in parts, each printed as soon as its rounds are over.
ghost use Rattle.std.specs.Prelude.{◌≡◌, ◌<◌, ◌^◌, [], All, IfErr, IfOk, IfSome, IsTrue, None, OnOk};
ghost use Rattle.std.specs.Io.KnownBytes.{Appends, Keeps};
ghost use Rattle.litmus_rounds.specs.PartForm.{text_of_part};
ghost use Rattle.litmus_rounds.specs.Parts.{IsPartOf, IsPartWith, IsPrintedPart, PrintsParts};
ghost use Rattle.mshr_file.specs.Miss.{bound_of};
ghost use Rattle.litmus_script.specs.Play.{IsOfRun};

use super::batch::walk_batches;
use super::part::Part;
use super::part_form::push_part;
use litmus_test::{Ended, LitmusTest, Outcomes, Progress, Silent};
use litmus_text::TextFault;
use stats_report::write_text;
use std::alloc::{AllocError, Global};
use std::io::Write;
use std::thread::Threads;

/// The number of rounds of a part: at most about a minute of work, which is lost if a walk is cut off.
pub const PART_ROUNDS: u64 = 100_000;

/// Walks through a litmus test `rounds` times, and prints the outcomes in parts, each of [`PART_ROUNDS`] rounds or
/// those that remain, as soon as its rounds are over. The part with a round that is stuck or is given up is the last.
/// Parts that are already known, in their order from the first on, are printed and not walked.
pub fn print_parts<R: Threads + Sync, W: Write, P: Progress>(
    alloc: Global,
    rt: &R,
    jobs: usize,
    test: &LitmusTest<'_>,
    known: &[Part],
    sum: u64,
    rounds: u64,
    seed: u64,
    most: u64,
    progress: &mut P,
    out: &mut W,
) -> Result<(), TextFault>
    ensures printed { All (IsPartOf test.now (bound_of test.now.misses test.now.config)) known.now
        → OnOk result (PrintsParts test.now (bound_of test.now.misses test.now.config) sum rounds seed most
        (W.contents out.old) (W.contents out.new)) }
    ensures fault { IfErr result IsOfRun }
{
    let mut done = 0;
    while done < rounds {
        let count = (rounds - done).min(PART_ROUNDS);
        let from = seed.wrapping_add(done);
        let known = known.get((done / PART_ROUNDS) as usize);
        let ended = print_next(alloc, rt, jobs, test, known, sum, count, from, most, out)?;
        if !ended.is_done() {
            return Ok(());
        }
        done += count;
        progress.done(done, rounds);
    }
    Ok(())
}

/// Returns the seed of the first known part that isn't the next part of a walk of these rounds, or none if the walk
/// can go on after them.
pub fn first_other(known: &[Part], sum: u64, rounds: u64, seed: u64, most: u64) -> Option<u64>
    ensures none { known.now ≡ [] → result ≡ None }
{
    for (place, part) in known.iter().enumerate() {
        let done = (place as u64).saturating_mul(PART_ROUNDS);
        let count = rounds.saturating_sub(done).min(PART_ROUNDS);
        if count == 0 || !is_with(part, sum, most, seed.wrapping_add(done), count) {
            return Some(part.seed);
        }
    }
    None
}

// Whether a part is one of `count` rounds from this seed on.
fn is_with(part: &Part, sum: u64, most: u64, seed: u64, count: u64) -> bool
    ensures { IsTrue result → IsPartWith sum most seed count part.now }
{
    part.sum == sum && part.most == most && part.seed == seed && part.count == count
}

// Prints the part of these rounds, which are walked unless the part is known. Returns how they ended.
fn print_next<R: Threads + Sync, W: Write>(
    alloc: Global,
    rt: &R,
    jobs: usize,
    test: &LitmusTest<'_>,
    known: Option<&Part>,
    sum: u64,
    count: u64,
    seed: u64,
    most: u64,
    out: &mut W,
) -> Result<Ended, TextFault>
    ensures printed { IfSome known.entry (λ part. IsPartOf test.now (bound_of test.now.misses test.now.config) part.now)
        → IfOk result (IsPrintedPart test.now (bound_of test.now.misses test.now.config) sum count seed most
        (W.contents out.old) (W.contents out.new)) }
    ensures fault { IfErr result IsOfRun }
{
    match known {
        Some(part) if is_with(part, sum, most, seed, count) => {
            print_part(alloc, part, out)?;
            Ok(part.ended)
        }
        _ => {
            let part = walk_part(alloc, rt, jobs, test, sum, count, seed, most)?;
            print_part(alloc, &part, out)?;
            Ok(part.ended)
        }
    }
}

fn walk_part<R: Threads + Sync>(
    alloc: Global,
    rt: &R,
    jobs: usize,
    test: &LitmusTest<'_>,
    sum: u64,
    count: u64,
    seed: u64,
    most: u64,
) -> Result<Part, AllocError>
    ensures walked { IfOk result (IsPartOf test.now (bound_of test.now.misses test.now.config)) }
    ensures with { IfOk result (IsPartWith sum most seed count) }
{
    let mut outcomes = Outcomes::new(alloc);
    let ended = walk_batches(
        alloc,
        rt,
        jobs,
        test,
        count,
        seed,
        most,
        &mut Silent,
        &mut outcomes,
    )?;
    Ok(Part {
        sum,
        most,
        seed,
        count,
        outcomes,
        ended,
    })
}

fn print_part<W: Write>(alloc: Global, part: &Part, out: &mut W) -> Result<(), TextFault>
    ensures printed { OnOk result (Appends (W.contents out.old) (W.contents out.new) (text_of_part part.now)) }
    ensures fault { IfErr result IsOfRun }
{
    let mut text = Vec::new(alloc);
    push_part(&mut text, part)?;
    write(out, text.as_slice())?;
    flush(out)
}

fn write<W: Write>(out: &mut W, text: &[u8]) -> Result<(), TextFault>
    ensures printed { OnOk result (Appends (W.contents out.old) (W.contents out.new) text.now) }
    ensures fault { IfErr result IsOfRun }
{
    match write_text(out, text) {
        Ok(()) => Ok(()),
        Err(_) => Err(TextFault::CannotWrite),
    }
}

fn flush<W: Write>(out: &mut W) -> Result<(), TextFault>
    ensures kept { OnOk result (Keeps (W.contents out.old) (W.contents out.new)) }
    ensures fault { IfErr result IsOfRun }
{
    match out.flush() {
        Ok(()) => Ok(()),
        Err(_) => Err(TextFault::CannotWrite),
    }
}
