ghost use Rattle.std.specs.Prelude.{◌≡◌, ◌≢◌, ◌<◌, ℕ, All, IsTrue, IfOk, IfSome, length, slice_get, Some};
ghost use Rattle.slice_log.specs.Log.{initially};
ghost use Rattle.history_judge.specs.Order.{HasNoOrder};
ghost use Rattle.history_judge.specs.Before.{IsBeforeIn, IsInitialAlone, IsSourceOf, IsWrite, found_at};
ghost use Rattle.history_judge.specs.Writers.{AreTablesOf};

use super::access::{Access, access_at};
use super::initial::initial_of;
use super::writers::{Tables, Writer};
use address_map::WordAddr;
use std::alloc::{AllocError, Global};

/// Why no order explains a history.
#[derive(Debug, Drop)]
pub enum Contradiction {
    /// This access found a value that isn't the initial one and that no access left.
    Unwritten(usize),
    /// An access would have to be performed before itself: the last chain leads back to its start. Links of a chain may
    /// be the results of those before it.
    Circle(Vec<Chain>),
}

/// Steps from one access before another to what follows.
#[derive(Debug, Drop)]
pub struct Chain {
    pub start: Link,
    pub steps: Vec<Step>,
}

/// One access that comes before another, and why.
#[derive(Clone, Copy, Debug, PartialEq, Eq)]
pub struct Link {
    pub first: usize,
    pub last: usize,
    pub why: Why,
}

#[derive(Clone, Copy, Debug, PartialEq, Eq)]
pub enum Why {
    /// Their core requested them in this order.
    Core,
    /// The one ended before the other began.
    Interval,
    /// The other found the value that the one alone left.
    Source,
    /// The one found the initial value, which no access leaves, and the other changes the word.
    Initial,
    /// It is the result of the chain of this number, from 0.
    Shown(usize),
}

/// What follows if a first access comes before a last one.
#[derive(Clone, Copy, Debug, PartialEq, Eq)]
pub enum Step {
    /// The last one comes before this one, so the first does.
    Next(usize, Why),
    /// This one found what the first left, which the last overwrites. So this one comes before the last.
    Raise(usize),
    /// The last found what this one left, which the first can't have overwritten. So the first comes before this one.
    Lower(usize),
}

/// Whether the contradiction shows that no order explains the history, if words begin with these values, and others
/// with 0.
pub fn is_refuted(
    alloc: Global,
    initial: &[(WordAddr, u64)],
    history: &[Access],
    reason: &Contradiction,
) -> Result<bool, AllocError>
    ensures { IfOk result (λ yes. IsTrue yes → HasNoOrder (initially initial.now) history.now) }
{
    let tables = Tables::of(alloc, history)?;
    match reason {
        Contradiction::Unwritten(access) => Ok(is_unwritten(initial, history, &tables, *access)),
        Contradiction::Circle(chains) => is_circle(alloc, initial, history, &tables, chains),
    }
}

// Whether the access found a value that isn't the initial one and that no access left.
fn is_unwritten(
    initial: &[(WordAddr, u64)],
    history: &[Access],
    tables: &Tables,
    place: usize,
) -> bool
    requires { AreTablesOf tables.now history.now }
    ensures { IsTrue result → HasNoOrder (initially initial.now) history.now }
{
    let Some(access) = access_at(history, place) else {
        return false;
    };
    let word = access.word;
    match (found_at(word, history, place), tables.of_word(word)) {
        (Some(value), Some(writers)) => {
            value != initial_of(initial, word) && writers.get(value).is_none()
        }
        _ => false,
    }
}

// Whether one of the chains leads from an access back to itself.
fn is_circle(
    alloc: Global,
    initial: &[(WordAddr, u64)],
    history: &[Access],
    tables: &Tables,
    chains: &[Chain],
) -> Result<bool, AllocError>
    requires { AreTablesOf tables.now history.now }
    ensures { IfOk result (λ yes. IsTrue yes → HasNoOrder (initially initial.now) history.now) }
{
    let mut shown = Vec::new(alloc);
    for chain in chains {
        let Some(pair) = shown_by(initial, history, tables, &shown, chain) else {
            return Ok(false);
        };
        if pair.0 == pair.1 {
            return Ok(true);
        }
        shown.push(pair)?;
    }
    Ok(false)
}

// Returns the two accesses that the chain shows to come in this order.
fn shown_by(
    initial: &[(WordAddr, u64)],
    history: &[Access],
    tables: &Tables,
    shown: &[(usize, usize)],
    chain: &Chain,
) -> Option<(usize, usize)>
    requires tables { AreTablesOf tables.now history.now }
    requires shown { All (λ pair. IsBeforeIn (initially initial.now) history.now pair.0 pair.1) shown.now }
    ensures { IfSome result (λ pair. IsBeforeIn (initially initial.now) history.now pair.0 pair.1) }
{
    let Link { first, last, why } = chain.start;
    if !comes_first(initial, history, tables, shown, first, last, why) {
        return None;
    }
    let (mut first, mut last) = (first, last);
    for step in &chain.steps {
        let (next_first, next_last) = followed(
            initial, history, tables, shown, first, last, *step,
        )?;
        first = next_first;
        last = next_last;
    }
    Some((first, last))
}

// Returns the two accesses after a step.
fn followed(
    initial: &[(WordAddr, u64)],
    history: &[Access],
    tables: &Tables,
    shown: &[(usize, usize)],
    first: usize,
    last: usize,
    step: Step,
) -> Option<(usize, usize)>
    requires tables { AreTablesOf tables.now history.now }
    requires shown { All (λ pair. IsBeforeIn (initially initial.now) history.now pair.0 pair.1) shown.now }
    requires known { IsBeforeIn (initially initial.now) history.now first last }
    ensures { IfSome result (λ pair. IsBeforeIn (initially initial.now) history.now pair.0 pair.1) }
{
    match step {
        Step::Next(access, why) => {
            if comes_first(initial, history, tables, shown, last, access, why) {
                Some((first, access))
            } else {
                None
            }
        }
        Step::Raise(access) => {
            if is_raised(initial, history, tables, first, last, access) {
                Some((access, last))
            } else {
                None
            }
        }
        Step::Lower(access) => {
            if is_lowered(initial, history, tables, first, last, access) {
                Some((first, access))
            } else {
                None
            }
        }
    }
}

// Whether the access found what the first left, which the last overwrites.
fn is_raised(
    initial: &[(WordAddr, u64)],
    history: &[Access],
    tables: &Tables,
    first: usize,
    last: usize,
    access: usize,
) -> bool
    requires { AreTablesOf tables.now history.now }
    ensures { IsTrue result → IsBeforeIn (initially initial.now) history.now first last
        → IsBeforeIn (initially initial.now) history.now access last }
{
    let Some(reader) = access_at(history, access) else {
        return false;
    };
    if !is_write(reader.word, history, last) {
        return false;
    }
    if !is_source(initial, reader.word, history, tables, first, access) {
        return false;
    }
    access != last
}

// Whether the last found what the access left, which the first can't have overwritten.
fn is_lowered(
    initial: &[(WordAddr, u64)],
    history: &[Access],
    tables: &Tables,
    first: usize,
    last: usize,
    access: usize,
) -> bool
    requires { AreTablesOf tables.now history.now }
    ensures { IsTrue result → IsBeforeIn (initially initial.now) history.now first last
        → IsBeforeIn (initially initial.now) history.now first access }
{
    let Some(reader) = access_at(history, last) else {
        return false;
    };
    if !is_write(reader.word, history, first) {
        return false;
    }
    if !is_source(initial, reader.word, history, tables, access, last) {
        return false;
    }
    access != first
}

// Whether the one access comes before the other for this reason.
fn comes_first(
    initial: &[(WordAddr, u64)],
    history: &[Access],
    tables: &Tables,
    shown: &[(usize, usize)],
    first: usize,
    last: usize,
    why: Why,
) -> bool
    requires tables { AreTablesOf tables.now history.now }
    requires shown { All (λ pair. IsBeforeIn (initially initial.now) history.now pair.0 pair.1) shown.now }
    ensures { IsTrue result → IsBeforeIn (initially initial.now) history.now first last }
{
    match why {
        Why::Core => is_asked_first(history, first, last),
        Why::Interval => is_ended_first(history, first, last),
        Why::Source => is_found_first(initial, history, tables, first, last),
        Why::Initial => is_initial_first(initial, history, tables, first, last),
        Why::Shown(number) => is_shown(shown, number, first, last),
    }
}

// Whether this is the result of the chain of this number.
fn is_shown(shown: &[(usize, usize)], number: usize, first: usize, last: usize) -> bool
    ensures { IsTrue result → slice_get shown.now number ≡ Some (first, last) }
{
    match shown.get(number) {
        Some(pair) => pair.0 == first && pair.1 == last,
        None => false,
    }
}

// Whether the other found the value that the one alone left.
fn is_found_first(
    initial: &[(WordAddr, u64)],
    history: &[Access],
    tables: &Tables,
    first: usize,
    last: usize,
) -> bool
    requires { AreTablesOf tables.now history.now }
    ensures { IsTrue result → IsBeforeIn (initially initial.now) history.now first last }
{
    match access_at(history, last) {
        Some(reader) => is_source(initial, reader.word, history, tables, first, last),
        None => false,
    }
}

// Whether the one found the initial value, which no access leaves, and the other changes the word.
fn is_initial_first(
    initial: &[(WordAddr, u64)],
    history: &[Access],
    tables: &Tables,
    first: usize,
    last: usize,
) -> bool
    requires { AreTablesOf tables.now history.now }
    ensures { IsTrue result → IsBeforeIn (initially initial.now) history.now first last }
{
    let Some(reader) = access_at(history, first) else {
        return false;
    };
    if !is_write(reader.word, history, last) {
        return false;
    }
    if !is_initial(initial, reader.word, history, tables, first) {
        return false;
    }
    first != last
}

// Whether both are of one core, in this order.
fn is_asked_first(history: &[Access], first: usize, last: usize) -> bool
    ensures { (initial : ℕ → ℕ) → IsTrue result → IsBeforeIn initial history.now first last }
{
    match (access_at(history, first), access_at(history, last)) {
        (Some(one), Some(other)) => one.core.0 == other.core.0 && first < last,
        _ => false,
    }
}

// Whether the one ended before the other began.
fn is_ended_first(history: &[Access], first: usize, last: usize) -> bool
    ensures { (initial : ℕ → ℕ) → IsTrue result → IsBeforeIn initial history.now first last }
{
    match (access_at(history, first), access_at(history, last)) {
        (Some(one), Some(other)) => one.end < other.begin && first != last,
        _ => false,
    }
}

// Whether the reader found the value of the word that the source alone left, which isn't the initial one.
fn is_source(
    initial: &[(WordAddr, u64)],
    word: WordAddr,
    history: &[Access],
    tables: &Tables,
    source: usize,
    reader: usize,
) -> bool
    requires { AreTablesOf tables.now history.now }
    ensures { IsTrue result → IsSourceOf (initially initial.now) word.0 history.now source reader }
{
    let Some(value) = found_at(word, history, reader) else {
        return false;
    };
    let Some(writers) = tables.of_word(word) else {
        return false;
    };
    match writers.get(value) {
        Some(Writer::One(writer)) => writer == source && value != initial_of(initial, word),
        _ => false,
    }
}

// Whether the access found the word's initial value, and no access leaves that.
fn is_initial(
    initial: &[(WordAddr, u64)],
    word: WordAddr,
    history: &[Access],
    tables: &Tables,
    place: usize,
) -> bool
    requires { AreTablesOf tables.now history.now }
    ensures { IsTrue result → IsInitialAlone (initially initial.now) word.0 history.now place }
{
    let Some(value) = found_at(word, history, place) else {
        return false;
    };
    let Some(writers) = tables.of_word(word) else {
        return false;
    };
    value == initial_of(initial, word) && writers.get(value).is_none()
}

// Whether the access changes the word.
fn is_write(word: WordAddr, history: &[Access], place: usize) -> bool
    ensures { IsTrue result → IsWrite word.0 history.now place }
{
    match access_at(history, place) {
        Some(access) => access.left_in(word).is_some(),
        None => false,
    }
}

fn found_at(word: WordAddr, history: &[Access], place: usize) -> Option<u64>
    ensures { result ≡ found_at word.0 history.now place }
{
    match access_at(history, place) {
        Some(access) => access.found_in(word),
        None => None,
    }
}
