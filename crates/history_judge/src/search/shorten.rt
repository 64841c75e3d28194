//! Drops accesses that a contradiction doesn't need.

use super::super::access::Access;
use super::super::refutation::{Chain, Contradiction, Link, Step, is_refuted};
use super::super::writers::Tables;
use super::contradicted;
use super::lists::at;
use super::sources::Sources;
use address_map::WordAddr;
use std::alloc::{AllocError, Global};

/// Contradictions of more accesses aren't shortened.
const MOST: usize = 1000;

/// The maximum number of attempts to drop accesses, some at a time.
const TRIES: usize = 4 * MOST;

/// Returns a contradiction of as few of its accesses as still contradict one another.
pub fn shortened(
    alloc: Global,
    initial: &[(WordAddr, u64)],
    history: &[Access],
    reason: Contradiction,
) -> Result<Contradiction, AllocError> {
    let mut places = places_of(alloc, &reason)?;
    if places.len() > MOST {
        return Ok(reason);
    }
    let mut shortest = None;
    let mut dropped = Part {
        first: 0,
        count: places.len().div_ceil(2),
    };
    for _ in 0..TRIES {
        if dropped.first >= places.len() {
            if dropped.count <= 1 {
                break;
            }
            dropped = dropped.smaller();
        }
        match without(alloc, initial, history, &places, dropped)? {
            Some(shorter) => {
                places = places_of(alloc, &shorter)?;
                shortest = Some(shorter);
            }
            None => dropped = dropped.next(),
        }
    }
    checked(alloc, initial, history, reason, shortest)
}

/// Some accesses one after another, by their numbers.
#[derive(Clone, Copy)]
struct Part {
    first: usize,
    count: usize,
}

impl Part {
    fn has(self, number: usize) -> bool {
        number >= self.first && number - self.first < self.count
    }

    fn next(self) -> Self {
        Part {
            first: self.first.saturating_add(self.count),
            ..self
        }
    }

    // The first part of half the size.
    fn smaller(self) -> Self {
        Part {
            first: 0,
            count: self.count.div_ceil(2),
        }
    }
}

/// Returns the contradiction that names fewer accesses.
pub fn shorter(
    alloc: Global,
    one: Option<Contradiction>,
    other: Contradiction,
) -> Result<Contradiction, AllocError> {
    let Some(one) = one else {
        return Ok(other);
    };
    if places_of(alloc, &one)?.len() <= places_of(alloc, &other)?.len() {
        Ok(one)
    } else {
        Ok(other)
    }
}

// The shorter contradiction, where it is one of the whole history too.
fn checked(
    alloc: Global,
    initial: &[(WordAddr, u64)],
    history: &[Access],
    reason: Contradiction,
    shorter: Option<Contradiction>,
) -> Result<Contradiction, AllocError> {
    match shorter {
        Some(shorter) => {
            if is_refuted(alloc, initial, history, &shorter)? {
                Ok(shorter)
            } else {
                Ok(reason)
            }
        }
        None => Ok(reason),
    }
}

// The accesses that a contradiction names, each once.
fn places_of(alloc: Global, reason: &Contradiction) -> Result<Vec<usize>, AllocError> {
    let mut places = Vec::new(alloc);
    if let Contradiction::Circle(chains) = reason {
        for chain in chains {
            push_places(chain, &mut places)?;
        }
    }
    places.sort_unstable();
    places.dedup();
    Ok(places)
}

fn push_places(chain: &Chain, places: &mut Vec<usize>) -> Result<(), AllocError> {
    places.push(chain.start.first)?;
    places.push(chain.start.last)?;
    for step in &chain.steps {
        places.push(place_of(*step))?;
    }
    Ok(())
}

const fn place_of(step: Step) -> usize {
    match step {
        Step::Next(place, _) | Step::Raise(place) | Step::Lower(place) => place,
    }
}

// A contradiction of these accesses but some.
fn without(
    alloc: Global,
    initial: &[(WordAddr, u64)],
    history: &[Access],
    places: &[usize],
    dropped: Part,
) -> Result<Option<Contradiction>, AllocError> {
    let mut kept = Vec::new(alloc);
    let mut few = Vec::new(alloc);
    for (number, place) in places.iter().enumerate() {
        if let Some(access) = history.get(*place) {
            if !dropped.has(number) {
                kept.push(*place)?;
                few.push(*access)?;
            }
        }
    }
    match circle_of(alloc, initial, &few)? {
        Some(chains) => Ok(Some(Contradiction::Circle(among(alloc, &kept, &chains)?))),
        None => Ok(None),
    }
}

// A circle of these accesses. If one found what none of them left, the source of that is ignored.
fn circle_of(
    alloc: Global,
    initial: &[(WordAddr, u64)],
    few: &[Access],
) -> Result<Option<Vec<Chain>>, AllocError> {
    let sources = Sources::of(alloc, initial, few, &Tables::of(alloc, few)?)?;
    Ok(match contradicted(alloc, few, &sources)? {
        Some(Contradiction::Circle(chains)) => Some(chains),
        Some(Contradiction::Unwritten(_place)) => None,
        None => None,
    })
}

// The circle of accesses of the whole history that are at these places.
fn among(alloc: Global, kept: &[usize], chains: &[Chain]) -> Result<Vec<Chain>, AllocError> {
    let mut whole = Vec::new(alloc);
    for chain in chains {
        whole.push(chain_among(alloc, kept, chain)?)?;
    }
    Ok(whole)
}

fn chain_among(alloc: Global, kept: &[usize], chain: &Chain) -> Result<Chain, AllocError> {
    let Link { first, last, why } = chain.start;
    let mut steps = Vec::new(alloc);
    for step in &chain.steps {
        steps.push(match *step {
            Step::Next(place, why) => Step::Next(at(kept, place, place), why),
            Step::Raise(place) => Step::Raise(at(kept, place, place)),
            Step::Lower(place) => Step::Lower(at(kept, place, place)),
        })?;
    }
    Ok(Chain {
        start: Link {
            first: at(kept, first, first),
            last: at(kept, last, last),
            why,
        },
        steps,
    })
}
