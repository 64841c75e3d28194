//! Joins parts: the table of all their rounds, each counted once.
ghost use Rattle.std.specs.Prelude.{◌≡◌, ◌+◌, ◌≤◌, ◌<◌, ◌^◌, List, [], ◌∷◌, ◌++◌, All, IfErr, IfOk, IsTrue, OnOk};
ghost use Rattle.std.specs.Prelude.{IsPermutation, map};
ghost use Rattle.litmus_test.specs.Ended.{round_of};
ghost use Rattle.litmus_rounds.specs.Merge.{AddsRounds, IsMergeOf, MayFollow, MissesTo};
ghost use Rattle.litmus_rounds.specs.Parts.{IsPartOf};
ghost use Rattle.litmus_rounds.specs.Run.{HaveEnded, PrintsWalks};
ghost use Rattle.litmus_rounds.specs.declared.part.Part.{Part};
ghost use Rattle.litmus_script.specs.Play.{IsOfRun};
ghost use Rattle.litmus_test.specs.declared.test.LitmusTest.{LitmusTest};
ghost use Rattle.mshr_file.specs.Miss.{Bound};

use super::part::{Gap, Part};
use super::part_fault::PartFault;
use super::part_read::{Found, read_parts};
use super::run::print_ended;
use litmus_test::{Ended, LitmusTest, OutcomeForm, Outcomes};
use litmus_text::TextFault;
use std::alloc::{AllocError, Global};
use std::io::Write;

/// A part, and the number of its file.
#[derive(Debug, Drop)]
struct Filed {
    file: usize,
    part: Part,
}

/// The parts read so far.
#[derive(Debug, Drop)]
pub struct Parts {
    alloc: Global,
    sum: u64,
    filed: Vec<Filed>,
    /// The rounds of parts that are cut off.
    cut: Vec<Gap>,
}

impl Parts {
    /// Creates an empty set of parts, of the test of this sum.
    pub fn new(alloc: Global, sum: u64) -> Self {
        Parts {
            alloc,
            sum,
            filed: Vec::new(alloc),
            cut: Vec::new(alloc),
        }
    }

    /// Adds the parts of the text of the file of this number.
    pub fn read(&mut self, file: usize, text: &[u8]) -> Result<(), PartFault> {
        let found = read_parts(self.alloc, self.sum, file, text)?;
        let Found { parts, cut, .. } = found;
        if let Some(cut) = cut {
            self.cut.push(cut)?;
        }
        for part in parts {
            self.filed.push(Filed { file, part })?;
        }
        Ok(())
    }

    /// Joins all parts, in the order of their seeds. They are refused if one has another limit than the first, or if a
    /// round is counted twice.
    pub fn merge(&mut self) -> Result<Merged, PartFault>
        // If no round is missing this equals one walk of all rounds.
        ensures { IfOk result (λ merged. merged.gaps.items ≡ [] → (test : LitmusTest) (bound : Bound)
            → All (λ filed. IsPartOf test bound filed.part) self.old.filed.items
            → HaveEnded test bound merged.seed merged.most merged.count merged.outcomes merged.ended) }
    {
        sort(self.alloc, &mut self.filed)?;
        let mut merged = merge_sorted(self.alloc, self.filed.as_slice())?;
        merged.miss_behind(self.cut.as_slice())?;
        Ok(merged)
    }
}

/// The rounds of all parts together.
#[derive(Debug, Drop)]
pub struct Merged {
    seed: u64,
    most: u64,
    /// The number of rounds from the first to the last, including those that are missing.
    count: u64,
    outcomes: Outcomes,
    ended: Ended,
    gaps: Vec<Gap>,
}

impl Merged {
    // Creates the join of no parts.
    fn new(alloc: Global, seed: u64, most: u64) -> Self
        ensures { IsMergeOf [] result }
    {
        Merged {
            seed,
            most,
            count: 0,
            outcomes: Outcomes::new(alloc),
            ended: Ended::Done,
            gaps: Vec::new(alloc),
        }
    }

    /// Returns the rounds that are missing.
    pub fn gaps(&self) -> &[Gap]
        ensures { result.now ≡ self.now.gaps.items }
    {
        self.gaps.as_slice()
    }

    // Adds a part. The one before it is of the other file.
    fn add(&mut self, filed: &Filed, other: usize) -> Result<(), PartFault>
        ensures { (parts : List Part) → IsMergeOf parts self.old
            → OnOk result (IsMergeOf (parts ++ filed.now.part ∷ []) self.new) }
    {
        let from = self.place_of(filed, other)?;
        self.miss_to(from)?;
        self.add_rounds(from, &filed.part)?;
        Ok(())
    }

    // Returns the first round of a part, if it may come next.
    fn place_of(&self, filed: &Filed, other: usize) -> Result<u64, PartFault>
        ensures { IfOk result (MayFollow self.now filed.now.part) }
    {
        let file = filed.file;
        let part = &filed.part;
        let seed = part.seed;
        if !self.may_count(part) {
            return Err(PartFault::Changed { file });
        }
        let from = seed - self.seed;
        if part.most != self.most {
            return Err(PartFault::OtherLimit {
                file,
                other,
                seed,
                first: self.seed,
            });
        }
        if from < self.count {
            return Err(PartFault::Twice { file, other, seed });
        }
        Ok(from)
    }

    // Whether a part has all the outcomes that it claims, and its rounds can be counted.
    fn may_count(&self, part: &Part) -> bool
        ensures { IsTrue result → (self.now.seed ≤ part.now.seed) × (part.now.seed + part.now.count < 2 ^ 64)
            × (self.now.outcomes.rounds + part.now.outcomes.rounds < 2 ^ 64)
            × (round_of part.now.ended ≤ part.now.count) }
    {
        part.is_whole()
            && self.seed <= part.seed
            && part.count <= u64::MAX - part.seed
            && part.outcomes.rounds() <= u64::MAX - self.outcomes.rounds()
            && part.ended.round() <= part.count
    }

    // Notes the rounds before this one that are missing.
    fn miss_to(&mut self, from: u64) -> Result<(), AllocError>
        requires { self.old.count ≤ from }
        ensures { OnOk result (MissesTo from self.old self.new) }
    {
        if from > self.count {
            let gap = Gap {
                seed: self.seed.wrapping_add(self.count),
                rounds: from - self.count,
            };
            self.gaps.push(gap)?;
        }
        Ok(())
    }

    // Adds the rounds of a part, if each round before them has an outcome.
    fn add_rounds(&mut self, from: u64, part: &Part) -> Result<(), AllocError>
        requires fits { from + part.now.count < 2 ^ 64 }
        requires rounds { self.old.outcomes.rounds + part.now.outcomes.rounds < 2 ^ 64 }
        requires round { round_of part.now.ended ≤ part.now.count }
        ensures { OnOk result (AddsRounds from part.now self.old self.new) }
    {
        if self.ended.is_done() {
            self.outcomes.append(from, &part.outcomes)?;
            self.ended = part.ended.behind(from);
        }
        self.count = from + part.count;
        Ok(())
    }

    // Notes as missing the rounds of cut-off parts after the last round that was added.
    fn miss_behind(&mut self, cut: &[Gap]) -> Result<(), AllocError>
        ensures { OnOk result ((parts : List Part) → IsMergeOf parts self.old → IsMergeOf parts self.new) }
    {
        let end = end_of(self.seed, self.count, cut);
        self.miss_to(end)
    }
}

// Returns the number of rounds from `seed` to the last of the gaps, or `count` if that is more.
fn end_of(seed: u64, count: u64, cut: &[Gap]) -> u64
    ensures { count ≤ result }
{
    let mut end = count;
    for gap in cut {
        if gap.seed >= seed {
            end = end.max((gap.seed - seed).saturating_add(gap.rounds));
        }
    }
    end
}

// Sorts parts by their seeds.
fn sort(alloc: Global, filed: &mut Vec<Filed>) -> Result<(), AllocError>
    ensures { OnOk result (IsPermutation filed.old.items filed.new.items) }
{
    filed
        .as_mut_slice()
        .sort_by_key(alloc, |filed: &Filed| filed.part.seed)
}

// Joins parts that are in order.
fn merge_sorted(alloc: Global, filed: &[Filed]) -> Result<Merged, PartFault>
    ensures { IfOk result (IsMergeOf (map (λ filed. filed.part) filed.now)) }
{
    let Some(first) = filed.first() else {
        return Err(PartFault::NoPart);
    };
    let mut merged = Merged::new(alloc, first.part.seed, first.part.most);
    add_all(&mut merged, first.file, filed)?;
    Ok(merged)
}

// Adds parts that are in order. The first of them is of this file.
fn add_all(merged: &mut Merged, file: usize, filed: &[Filed]) -> Result<(), PartFault>
    requires { IsMergeOf [] merged.old }
    ensures { OnOk result (IsMergeOf (map (λ filed. filed.part) filed.now) merged.new) }
{
    let mut other = file;
    for next in filed {
        merged.add(next, other)?;
        other = next.file;
    }
    Ok(())
}

/// Prints what one walk of all the rounds prints. Returns its exit status.
pub fn print_merged<W: Write>(
    test: &LitmusTest<'_>,
    merged: &Merged,
    form: OutcomeForm,
    out: &mut W,
) -> Result<u8, TextFault>
    ensures printed { (bound : Bound) → HaveEnded test.now bound merged.now.seed merged.now.most merged.now.count
        merged.now.outcomes merged.now.ended
        → IfOk result (λ status. PrintsWalks test.now bound form merged.now.count merged.now.seed merged.now.most status
        (W.contents out.old) (W.contents out.new)) }
    ensures fault { IfErr result IsOfRun }
{
    let outcomes = &merged.outcomes;
    print_ended(
        test,
        outcomes,
        merged.ended,
        merged.seed,
        merged.most,
        form,
        out,
    )
}
