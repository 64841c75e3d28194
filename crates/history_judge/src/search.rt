//! Proposes an order or a contradiction. Nothing is proved about it here: `judge` checks it.

use super::access::Access;
use super::refutation::Contradiction;
use super::verdict::Judgement;
use super::writers::Tables;
use address_map::WordAddr;
use closure::Closure;
use clusters::{Chained, Clusters};
use graph::Graph;
use plan::Plan;
use sources::Sources;
use std::alloc::{AllocError, Global};
use turns::Turns;

mod chains;
mod circle;
mod closure;
mod clusters;
mod explore;
mod graph;
mod lists;
mod plan;
mod ranks;
mod rows;
mod shorten;
mod sources;
mod telling;
mod turns;
mod walk;

/// Proposes a judgement of a history.
pub fn proposed(
    alloc: Global,
    initial: &[(WordAddr, u64)],
    history: &[Access],
    limit: usize,
) -> Result<Judgement, AllocError> {
    let sources = Sources::of(alloc, initial, history, &Tables::of(alloc, history)?)?;
    if let Some(access) = sources.unwritten {
        return Ok(Judgement::Incoherent(Contradiction::Unwritten(access)));
    }
    if !is_of_one_word(history) {
        return of_words(alloc, initial, history, &sources, limit);
    }
    match clustered(alloc, history, &sources)? {
        Judgement::Coherent(order) => {
            if sources.are_known {
                return Ok(Judgement::Coherent(order));
            }
        }
        Judgement::Incoherent(reason) => {
            let shorter = shorten::shortened(alloc, initial, history, reason)?;
            return Ok(Judgement::Incoherent(shorter));
        }
        Judgement::Undecided => {}
    }
    explore::explored(alloc, initial, history, None, limit)
}

fn is_of_one_word(history: &[Access]) -> bool {
    match history.first() {
        Some(first) => history.iter().all(|access| access.word.0 == first.word.0),
        None => true,
    }
}

// Orders the accesses of several words, if a contradiction or an order is found.
fn of_words(
    alloc: Global,
    initial: &[(WordAddr, u64)],
    history: &[Access],
    sources: &Sources,
    limit: usize,
) -> Result<Judgement, AllocError> {
    let plan = Plan::of(alloc, history, sources)?;
    let closure = Closure::of(alloc, history, sources, &plan)?;
    if closure.circles.is_empty() {
        let known = explore::Known {
            plan: &plan,
            closure: &closure,
            sources,
        };
        return explore::explored(alloc, initial, history, Some(known), limit);
    }
    let mut shortest = None;
    for circle in &closure.circles {
        if let Some(reason) = telling::told(alloc, &plan, &closure, *circle)? {
            let reason = shorten::shortened(alloc, initial, history, reason)?;
            shortest = Some(shorten::shorter(alloc, shortest, reason)?);
        }
    }
    Ok(match shortest {
        Some(reason) => Judgement::Incoherent(reason),
        None => Judgement::Undecided,
    })
}

// A contradiction of accesses of one word or of several, if one is found.
fn contradicted(
    alloc: Global,
    history: &[Access],
    sources: &Sources,
) -> Result<Option<Contradiction>, AllocError> {
    if is_of_one_word(history) {
        return Ok(match clustered(alloc, history, sources)? {
            Judgement::Incoherent(reason) => Some(reason),
            Judgement::Coherent(_order) => None,
            Judgement::Undecided => None,
        });
    }
    let plan = Plan::of(alloc, history, sources)?;
    let closure = Closure::of(alloc, history, sources, &plan)?;
    let mut shortest = None;
    for circle in &closure.circles {
        if let Some(reason) = telling::told(alloc, &plan, &closure, *circle)? {
            shortest = Some(shorten::shorter(alloc, shortest, reason)?);
        }
    }
    Ok(shortest)
}

// Orders the clusters of a history: a value that is left, and all accesses that found it.
fn clustered(
    alloc: Global,
    history: &[Access],
    sources: &Sources,
) -> Result<Judgement, AllocError> {
    let ranks = match ranks::ranked(alloc, history)? {
        Ok(ranks) => ranks,
        Err(reason) => return Ok(Judgement::Incoherent(reason)),
    };
    let clusters = match clusters::gathered(alloc, history, sources)? {
        Chained::Clusters(clusters) => clusters,
        Chained::Never(reason) => return Ok(Judgement::Incoherent(reason)),
    };
    let graph = Graph::of(alloc, history, &clusters)?;
    if let Some(pair) = graph.before_first() {
        let reason = walk::against(alloc, history, sources, &clusters, pair)?;
        return Ok(Judgement::Incoherent(reason));
    }
    match turns::taken(alloc, &graph)? {
        Turns::All(turns) => spread(alloc, history, sources, &clusters, &turns, &ranks),
        Turns::Never(ways) => {
            let reason = walk::around(alloc, history, sources, &clusters, &ways)?;
            Ok(Judgement::Incoherent(reason))
        }
    }
}

// Orders the accesses, where the clusters have their turns.
fn spread(
    alloc: Global,
    history: &[Access],
    sources: &Sources,
    clusters: &Clusters,
    turns: &[usize],
    ranks: &[usize],
) -> Result<Judgement, AllocError> {
    let order = clusters.spread(alloc, history, turns, ranks)?;
    match ranks::first_out_of_order(alloc, history, &order)? {
        None => Ok(Judgement::Coherent(order)),
        Some(pair) => {
            let reason = walk::against(alloc, history, sources, clusters, pair)?;
            Ok(Judgement::Incoherent(reason))
        }
    }
}
