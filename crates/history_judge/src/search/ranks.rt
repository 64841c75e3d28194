//! The order that cores and intervals alone require.

use super::super::access::Access;
use super::super::refutation::{Contradiction, Link, Step, Why};
use super::chains;
use super::lists::{NONE, at, put};
use std::alloc::{AllocError, Global};

const CORES: usize = 256;

/// Two accesses of an order. The later one has to come before the earlier one.
#[derive(Clone, Copy)]
pub struct Pair {
    pub earlier: usize,
    pub later: usize,
    pub why: Why,
}

/// Ranks the accesses so that each core's own order and the intervals are kept, or returns why that is impossible.
pub fn ranked(
    alloc: Global,
    history: &[Access],
) -> Result<Result<Vec<usize>, Contradiction>, AllocError> {
    // the latest begin so far of each core, and which access began then
    let mut begun = vec![in alloc; (0, NONE); CORES]?;
    let mut keys = Vec::new(alloc);
    for (place, access) in history.iter().enumerate() {
        let core = access.core.0 as usize;
        let (begin, before) = at(&begun, core, (0, NONE));
        if access.end < begin {
            return Ok(Err(backwards(alloc, before, place)?));
        }
        if access.begin >= begin {
            put(&mut begun, core, (access.begin, place));
        }
        keys.push((access.begin.max(begin), place))?;
    }
    keys.sort_unstable();
    let mut ranks = vec![in alloc; 0; history.len()]?;
    for (rank, (_, place)) in keys.iter().enumerate() {
        put(&mut ranks, *place, rank);
    }
    Ok(Ok(ranks))
}

// A core requested the one before the other, which ended before the one began.
fn backwards(alloc: Global, one: usize, other: usize) -> Result<Contradiction, AllocError> {
    let mut steps = Vec::new(alloc);
    steps.push(Step::Next(one, Why::Interval))?;
    let start = Link {
        first: one,
        last: other,
        why: Why::Core,
    };
    chains::around(alloc, start, steps)
}

/// Returns the first access of an order that comes before an earlier one.
pub fn first_out_of_order(
    alloc: Global,
    history: &[Access],
    order: &[usize],
) -> Result<Option<Pair>, AllocError> {
    let mut latest = vec![in alloc; NONE; CORES]?;
    let (mut begin, mut begun) = (0, NONE);
    for later in order {
        let later = *later;
        let Some(access) = history.get(later) else {
            return Ok(None);
        };
        let core = access.core.0 as usize;
        let earlier = at(&latest, core, NONE);
        if earlier != NONE && later < earlier {
            return Ok(Some(Pair {
                earlier,
                later,
                why: Why::Core,
            }));
        }
        if access.end < begin {
            return Ok(Some(Pair {
                earlier: begun,
                later,
                why: Why::Interval,
            }));
        }
        put(&mut latest, core, later);
        if access.begin > begin {
            begin = access.begin;
            begun = later;
        }
    }
    Ok(None)
}
