//! Why a word's accesses have no order, in numbers: each access by its place among all that were given.

use super::structs::ReasonNumbers;
use history_text::{Claim, Histories, Reason, Verdict, claims_of};
use std::alloc::{AllocError, Global};

/// Returns the reasons of a verdict that a word is incoherent, one after another. Any other verdict has none.
pub(crate) fn reasons_of(
    alloc: Global,
    histories: &Histories,
    verdict: &Verdict,
) -> Result<Vec<ReasonNumbers>, AllocError> {
    match verdict {
        Verdict::Incoherent(word, contradiction) => match histories.history(*word) {
            Some(history) => numbered(alloc, &claims_of(alloc, history, contradiction)?),
            None => Ok(Vec::new(alloc)),
        },
        _ => Ok(Vec::new(alloc)),
    }
}

fn numbered(alloc: Global, claims: &[Claim]) -> Result<Vec<ReasonNumbers>, AllocError> {
    let mut reasons = Vec::new(alloc);
    for claim in claims {
        reasons.push(reason_of(*claim))?;
    }
    Ok(reasons)
}

fn reason_of(claim: Claim) -> ReasonNumbers {
    match claim {
        Claim::Unwritten { line, .. } => reason(0, line, line, line),
        Claim::Before {
            first,
            last,
            reason: why,
        } => {
            let (number, other) = number_of(why, last);
            reason(number, first, last, other)
        }
        // a word's contradiction is one chain
        Claim::Follows { first, last } => reason(7, first, last, last),
    }
}

/// Returns the number of a reason, and the third access that it names, or else the last.
const fn number_of(reason: Reason, last: usize) -> (u64, usize) {
    match reason {
        Reason::Core(_) => (1, last),
        Reason::Interval => (2, last),
        Reason::Source(_) => (3, last),
        Reason::Initial(_) => (4, last),
        Reason::Overwritten { source, .. } => (5, source),
        Reason::NotBetween { reader, .. } => (6, reader),
        Reason::Shown => (7, last),
    }
}

const fn reason(why: u64, first: usize, last: usize, other: usize) -> ReasonNumbers {
    ReasonNumbers {
        why,
        first: first as u64,
        last: last as u64,
        other: other as u64,
    }
}
