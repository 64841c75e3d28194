//! Why accesses have no order, with the numbers under which they are reported.

use super::histories::History;
use history_judge::{Chain, Contradiction, Link, Step, Why};
use std::alloc::{AllocError, Global};

/// An access that contradicts all orders, or what comes before what. Accesses are named by the numbers under which
/// they are reported, which for a text are those of its lines.
#[derive(Clone, Copy, Debug, PartialEq, Eq)]
pub enum Claim {
    /// The access in this line got this value, which no access left.
    Unwritten {
        line: usize,
        value: u64,
    },
    /// The access in the first of these lines comes before that in the last, for this reason.
    Before {
        first: usize,
        last: usize,
        reason: Reason,
    },
    /// So the one comes before the other.
    Follows {
        first: usize,
        last: usize,
    },
}

/// Why one access comes before another.
#[derive(Clone, Copy, Debug, PartialEq, Eq)]
pub enum Reason {
    /// This core requested both.
    Core(u8),
    /// The one had ended when the other began.
    Interval,
    /// The last got this value, which the first alone left.
    Source(u64),
    /// The first got this value, which the word began with, and the last changed it.
    Initial(u64),
    /// That follows from claims before.
    Shown,
    /// The first got this value, which the access in this line left and the last overwrote.
    Overwritten { value: u64, source: usize },
    /// The access in this line got this value, which the last left, and the first was not between.
    NotBetween { value: u64, reader: usize },
}

/// Returns what a contradiction of this history says, one claim after another.
pub fn claims_of(
    alloc: Global,
    history: &History,
    contradiction: &Contradiction,
) -> Result<Vec<Claim>, AllocError> {
    let mut claims = Vec::new(alloc);
    match contradiction {
        Contradiction::Unwritten(place) => {
            let line = line_of(history, *place);
            let value = reply_of(history, *place);
            claims.push(Claim::Unwritten { line, value })?;
        }
        Contradiction::Circle(chains) => {
            for chain in chains {
                push_chain(history, chain, &mut claims)?;
            }
        }
    }
    Ok(claims)
}

// A chain that doesn't lead back to its start ends in what follows from it.
fn push_chain(history: &History, chain: &Chain, claims: &mut Vec<Claim>) -> Result<(), AllocError> {
    let Link { first, last, why } = chain.start;
    claims.push(linked(history, first, last, why))?;
    let (mut first, mut last) = (first, last);
    for step in &chain.steps {
        claims.push(followed(history, first, last, *step))?;
        let (next_first, next_last) = after(first, last, *step);
        first = next_first;
        last = next_last;
    }
    if first != last {
        let (first, last) = (line_of(history, first), line_of(history, last));
        claims.push(Claim::Follows { first, last })?;
    }
    Ok(())
}

/// Returns the two accesses after a step.
const fn after(first: usize, last: usize, step: Step) -> (usize, usize) {
    match step {
        Step::Next(access, _) | Step::Lower(access) => (first, access),
        Step::Raise(access) => (access, last),
    }
}

/// Returns the claim that one access comes before another, and why.
fn linked(history: &History, first: usize, last: usize, why: Why) -> Claim {
    let reason = match why {
        Why::Core => Reason::Core(core_of(history, first)),
        Why::Interval => Reason::Interval,
        Why::Source => Reason::Source(reply_of(history, last)),
        Why::Initial => Reason::Initial(reply_of(history, first)),
        Why::Shown(_) => Reason::Shown,
    };
    Claim::Before {
        first: line_of(history, first),
        last: line_of(history, last),
        reason,
    }
}

/// Returns what follows if the first access comes before the last.
fn followed(history: &History, first: usize, last: usize, step: Step) -> Claim {
    match step {
        Step::Next(access, why) => linked(history, last, access, why),
        Step::Raise(access) => Claim::Before {
            first: line_of(history, access),
            last: line_of(history, last),
            reason: Reason::Overwritten {
                value: reply_of(history, access),
                source: line_of(history, first),
            },
        },
        Step::Lower(access) => Claim::Before {
            first: line_of(history, first),
            last: line_of(history, access),
            reason: Reason::NotBetween {
                value: reply_of(history, last),
                reader: line_of(history, last),
            },
        },
    }
}

// A contradiction names accesses of the history alone, so there is one at each place.

fn line_of(history: &History, place: usize) -> usize {
    match history.numbers.get(place) {
        Some(line) => *line,
        None => 0,
    }
}

fn core_of(history: &History, place: usize) -> u8 {
    match history.accesses.get(place) {
        Some(access) => access.core.0,
        None => 0,
    }
}

fn reply_of(history: &History, place: usize) -> u64 {
    match history.accesses.get(place) {
        Some(access) => access.reply,
        None => 0,
    }
}
