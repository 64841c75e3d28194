//! A contradiction as its reader sees it: if it names many accesses, those that only pass a value on are left out.

use history_text::{Claim, Reason};
use std::alloc::{AllocError, Global};

/// The number of accesses that a contradiction names before some are left out.
const MOST: usize = 6;

/// A claim, and the number of unnamed accesses through which its value came.
#[derive(Clone, Copy)]
pub(super) struct Shown {
    pub claim: Claim,
    pub through: usize,
}

/// Returns the claims of a contradiction as they are shown.
pub(super) fn shown_claims(alloc: Global, claims: &[Claim]) -> Result<Vec<Shown>, AllocError> {
    let mut early = Vec::from_slice(alloc, claims)?;
    if count_named(alloc, claims)? <= MOST {
        return merged(alloc, &early, false);
    }
    for place in 1..early.len() {
        overwrite_early(&mut early, place);
    }
    merged(alloc, &early, true)
}

fn count_named(alloc: Global, claims: &[Claim]) -> Result<usize, AllocError> {
    let mut lines = Vec::new(alloc);
    for claim in claims {
        match *claim {
            Claim::Unwritten { line, .. } => lines.push(line)?,
            Claim::Follows { first, last } => {
                lines.push(first)?;
                lines.push(last)?;
            }
            Claim::Before {
                first,
                last,
                reason,
            } => {
                lines.push(first)?;
                lines.push(last)?;
                lines.push(third_of(reason, last))?;
            }
        }
    }
    lines.sort_unstable();
    lines.dedup();
    Ok(lines.len())
}

/// Returns the third access that a reason names, or else the last.
const fn third_of(reason: Reason, last: usize) -> usize {
    match reason {
        Reason::Overwritten { source, .. } => source,
        Reason::NotBetween { reader, .. } => reader,
        _ => last,
    }
}

/// Has the claim at this place say that its value was overwritten as early as it was: by the first of those whose value
/// was passed on to the one that it names.
fn overwrite_early(claims: &mut [Claim], place: usize) {
    for later in (1..=place).rev() {
        let earlier = later.saturating_sub(1);
        let (Some(before), Some(claim)) = (claims.get(earlier).copied(), claims.get(later).copied())
        else {
            return;
        };
        let Some(sooner) = overwritten_before(before, claim) else {
            return;
        };
        put(claims, earlier, sooner);
        put(claims, later, before);
    }
}

fn put(claims: &mut [Claim], place: usize, claim: Claim) {
    if place < claims.len() {
        claims[place] = claim;
    }
}

/// The claim that its value was overwritten by the access whose value the one that overwrites it found.
fn overwritten_before(before: Claim, claim: Claim) -> Option<Claim> {
    match (before, claim) {
        (
            Claim::Before {
                first: writer,
                last: finder,
                reason: Reason::Source(_),
            },
            Claim::Before {
                first,
                last,
                reason: Reason::Overwritten { value, source },
            },
        ) if finder == last && writer != source && writer != first => Some(Claim::Before {
            first,
            last: writer,
            reason: Reason::Overwritten { value, source },
        }),
        _ => None,
    }
}

/// Returns the claims, with each chain of values that are passed on as one if `are_merged`.
fn merged(alloc: Global, claims: &[Claim], are_merged: bool) -> Result<Vec<Shown>, AllocError> {
    let mut all: Vec<Shown> = Vec::new(alloc);
    for claim in claims {
        let longer = match all.last() {
            Some(last) if are_merged => handed_on(*last, *claim),
            _ => None,
        };
        match longer {
            Some(longer) => {
                let _part = all.pop();
                all.push(longer)?;
            }
            None => all.push(Shown {
                claim: *claim,
                through: 0,
            })?,
        }
    }
    Ok(all)
}

/// Returns both claims as one, if the first one's value is passed on in the second.
fn handed_on(shown: Shown, claim: Claim) -> Option<Shown> {
    let Claim::Before {
        first: one,
        last: other,
        reason: handed,
    } = shown.claim
    else {
        return None;
    };
    let Claim::Before {
        first,
        last,
        reason,
    } = claim
    else {
        return None;
    };
    let claim = match (handed, reason) {
        (Reason::Source(_), Reason::Source(value)) if other == first => Claim::Before {
            first: one,
            last,
            reason: Reason::Source(value),
        },
        (
            Reason::Overwritten { source, .. },
            Reason::Overwritten {
                value,
                source: before,
            },
        ) if before == one && other == last => Claim::Before {
            first,
            last,
            reason: Reason::Overwritten { value, source },
        },
        (Reason::NotBetween { value, reader }, Reason::NotBetween { reader: before, .. })
            if first == one && before == other => Claim::Before {
            first,
            last,
            reason: Reason::NotBetween { value, reader },
        },
        _ => return None,
    };
    Some(Shown {
        claim,
        through: shown.through.saturating_add(1),
    })
}
