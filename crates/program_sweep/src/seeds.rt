ghost use Rattle.std.specs.Prelude.{◌≡◌, ◌+◌, ◌-◌, ◌<◌, ◌≤◌, ◌^◌, IfErr, IfOk, Some};

use super::fault::SweepFault;
use litmus_text::parse_number;

/// Seeds, each one more than the one before it.
#[derive(Clone, Copy, Debug, PartialEq, Eq)]
pub struct Seeds {
    pub first: u64,
    pub count: u64,
    ghost some: { 0 < count },
    ghost fits: { first + count ≤ 2 ^ 64 },
}

impl Seeds {
    ghost use Rattle.program_sweep.specs.Read.{IsBoundsFault, IsSeeds, IsSeedsFault};

    /// This seed alone.
    pub fn one(seed: u64) -> Seeds
        ensures first { result.first ≡ seed }
        ensures count { result.count ≡ 1 }
    {
        Seeds {
            first: seed,
            count: 1,
        }
    }

    /// Reads FIRST..LAST, or one seed.
    pub fn read<'a>(text: &'a str) -> Result<Seeds, SweepFault<'a>>
        ensures seeds { IfOk result (IsSeeds text.entry.now) }
        ensures fault { IfErr result (IsSeedsFault text.entry.now) }
    {
        match text.split_once("..") {
            Some((first, last)) => {
                let first = parse_number(first.as_bytes());
                let last = parse_number(last.as_bytes());
                Seeds::between(text, first, last)
            }
            None => {
                let seed = parse_number(text.as_bytes());
                Seeds::between(text, seed, seed)
            }
        }
    }

    // Returns the seeds from `first` to `last`, as they were read from the text.
    fn between<'a>(
        text: &'a str,
        first: Option<u64>,
        last: Option<u64>,
    ) -> Result<Seeds, SweepFault<'a>>
        ensures seeds { IfOk result
            (λ seeds. (first ≡ Some seeds.first) × (last ≡ Some (seeds.first + (seeds.count - 1)))) }
        ensures fault { IfErr result (IsBoundsFault text.entry.now first last) }
    {
        let Some(from) = first else {
            return Err(SweepFault::BadSeeds(text));
        };
        let Some(to) = last else {
            return Err(SweepFault::BadSeeds(text));
        };
        if to < from {
            return Err(SweepFault::Backwards(text));
        }
        if to - from == u64::MAX {
            return Err(SweepFault::TooManyRows);
        }
        Ok(Seeds {
            first: from,
            count: to - from + 1,
        })
    }
}
