ghost use Rattle.std.specs.Prelude.{◌≡◌, ◌<◌, ◌↔◌, ℕ, IfOk, IsTrue, All, is_some, length, nat_eq, slice_get, unwrap_or};
ghost use Rattle.std.specs.HashMap.{get};
ghost use Rattle.slice_log.specs.Log.{IsLegal, initially};
ghost use Rattle.history_judge.specs.Order.{HasEachOnce, IsOrderOf, KeepsCores, KeepsIntervals, trace_of};

use super::access::{Access, access_at};
use super::initial::initial_of;
use address_map::WordAddr;
use slice_log::{Entry, performed, reply_to};
use std::alloc::{AllocError, Global};
use std::collections::HashMap;

/// The number of cores that can be named.
const CORES: usize = 256;

/// Returns the trace that performs the accesses in this order.
pub fn trace(alloc: Global, history: &[Access], order: &[usize]) -> Result<Vec<Entry>, AllocError>
    requires { All (λ i. i < length history.now) order.now }
    ensures { IfOk result (λ it. it.items ≡ trace_of history.now order.now) }
{
    let mut entries = Vec::new(alloc);
    for place in order {
        entries.push(history[*place].entry(*place))?;
    }
    Ok(entries)
}

/// Whether the accesses may have been performed in this order, if words begin with these values, and others with 0.
pub fn is_order(
    alloc: Global,
    initial: &[(WordAddr, u64)],
    history: &[Access],
    order: &[usize],
) -> Result<bool, AllocError>
    ensures { IfOk result (λ yes. IsTrue yes ↔ IsOrderOf (initially initial.now) history.now order.now) }
{
    if !has_each_once(alloc, history.len(), order)? {
        return Ok(false);
    }
    if !keeps_cores(alloc, history, order)? {
        return Ok(false);
    }
    if !keeps_intervals(history, order) {
        return Ok(false);
    }
    explains_replies(alloc, initial, history, order)
}

// Whether the order has each of `count` accesses once.
fn has_each_once(alloc: Global, count: usize, order: &[usize]) -> Result<bool, AllocError>
    ensures { IfOk result (λ yes. IsTrue yes ↔ HasEachOnce count order.now) }
{
    let mut places = vec![in alloc; None; count]?;
    for (place, access) in order.iter().enumerate() {
        let Some(noted) = place_at(&places, *access) else {
            return Ok(false);
        };
        if let Some(_) = noted {
            return Ok(false);
        }
        places[*access] = Some(place);
    }
    Ok(has_all(&places))
}

fn place_at(places: &[Option<usize>], access: usize) -> Option<Option<usize>>
    ensures { result ≡ slice_get places.now access }
{
    places.get(access).copied()
}

fn has_all(places: &[Option<usize>]) -> bool
    ensures { IsTrue result ↔ All (λ place. IsTrue (is_some place)) places.now }
{
    places.iter().all(|place| place.is_some())
}

// Whether each reply is the one that its word's value gives.
fn explains_replies(
    alloc: Global,
    initial: &[(WordAddr, u64)],
    history: &[Access],
    order: &[usize],
) -> Result<bool, AllocError>
    ensures { IfOk result (λ yes. HasEachOnce (length history.now) order.now
        → (IsTrue yes ↔ IsLegal (initially initial.now) (trace_of history.now order.now))) }
{
    // the value of each word that was accessed so far
    let mut values = HashMap::new(alloc);
    for place in order {
        let Some(access) = access_at(history, *place) else {
            return Ok(false);
        };
        let value = value_of(&values, initial, access.word);
        if access.reply != reply_to(access.op, value) {
            return Ok(false);
        }
        values.insert(access.word.0, performed(access.op, value))?;
    }
    Ok(true)
}

// Returns the current value of a word.
fn value_of(values: &HashMap<u64, u64>, initial: &[(WordAddr, u64)], word: WordAddr) -> u64
    ensures { result ≡ unwrap_or (get nat_eq values.now word.0) (initially initial.now word.0) }
{
    match values.get(&word.0).copied() {
        Some(value) => value,
        None => initial_of(initial, word),
    }
}

// Whether each core's accesses are in its order.
fn keeps_cores(alloc: Global, history: &[Access], order: &[usize]) -> Result<bool, AllocError>
    ensures { IfOk result (λ yes. HasEachOnce (length history.now) order.now
        → (IsTrue yes ↔ KeepsCores history.now order.now)) }
{
    // each access of a core so far is before its bound
    let mut bounds = vec![in alloc; 0; CORES]?;
    for place in order {
        let Some(access) = access_at(history, *place) else {
            return Ok(false);
        };
        let core = access.core.0 as usize;
        if *place < bounds[core] {
            return Ok(false);
        }
        bounds[core] = *place + 1;
    }
    Ok(true)
}

// Whether no access follows one that began after it had ended.
fn keeps_intervals(history: &[Access], order: &[usize]) -> bool
    ensures { HasEachOnce (length history.now) order.now
        → (IsTrue result ↔ KeepsIntervals history.now order.now) }
{
    let mut latest = 0;
    for place in order {
        let Some(access) = access_at(history, *place) else {
            return false;
        };
        if access.end < latest {
            return false;
        }
        latest = latest.max(access.begin);
    }
    true
}
