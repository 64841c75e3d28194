use super::super::access::Access;
use super::super::refutation::{Contradiction, Link, Step, Why};
use super::chains;
use super::lists::{NONE, at, put};
use super::sources::{Source, Sources};
use std::alloc::{AllocError, Global};

/// Accesses that are together in each order: a value that is left, the accesses that found it, and if one of these
/// changed it, the next value with those that found that. Cluster 0 begins with the initial value.
#[derive(Drop)]
pub struct Clusters {
    /// The cluster of each access, if it is in one.
    pub of: Vec<usize>,
    /// Which of its cluster's values an access left or else found, from 0.
    pub value: Vec<usize>,
    /// The access that changed what this one left.
    pub next: Vec<usize>,
    /// The access that changed the initial value.
    pub first: usize,
    pub count: usize,
}

/// The clusters, or why there are none.
pub enum Chained {
    Clusters(Clusters),
    Never(Contradiction),
}

/// Puts the accesses into clusters.
pub fn gathered(
    alloc: Global,
    history: &[Access],
    sources: &Sources,
) -> Result<Chained, AllocError> {
    let mut clusters = Clusters {
        of: vec![in alloc; NONE; history.len()]?,
        value: vec![in alloc; 0; history.len()]?,
        next: vec![in alloc; NONE; history.len()]?,
        first: NONE,
        count: 1,
    };
    if let Some(reason) = clusters.link(alloc, history, sources)? {
        return Ok(Chained::Never(reason));
    }
    clusters.number(history, sources);
    if let Some(reason) = clusters.gather(alloc, history, sources)? {
        return Ok(Chained::Never(reason));
    }
    Ok(Chained::Clusters(clusters))
}

impl Clusters {
    // Notes which access changed what another left. Two can't have changed the same.
    fn link(
        &mut self,
        alloc: Global,
        history: &[Access],
        sources: &Sources,
    ) -> Result<Option<Contradiction>, AllocError> {
        for (place, access) in history.iter().enumerate() {
            if access.left().is_none() {
                continue;
            }
            match sources.at(place) {
                Source::Unknown => {}
                Source::Initial if self.first == NONE => self.first = place,
                Source::Initial => {
                    return Ok(Some(both_changed_first(alloc, self.first, place)?));
                }
                Source::Access(source) => {
                    let other = at(&self.next, source, NONE);
                    if other != NONE {
                        return Ok(Some(both_changed(alloc, source, other, place)?));
                    }
                    put(&mut self.next, source, place);
                }
            }
        }
        Ok(None)
    }

    // Numbers the clusters, and goes along each one's values.
    fn number(&mut self, history: &[Access], sources: &Sources) {
        let first = self.first;
        self.go_along(first, 0, 1);
        for (place, access) in history.iter().enumerate() {
            if access.left().is_some() && sources.at(place) == Source::Unknown {
                let cluster = self.count;
                self.count = self.count.saturating_add(1);
                self.go_along(place, cluster, 0);
            }
        }
    }

    fn go_along(&mut self, from: usize, cluster: usize, value: usize) {
        let (mut place, mut value) = (from, value);
        for _ in 0..self.next.len() {
            if place == NONE {
                return;
            }
            put(&mut self.of, place, cluster);
            put(&mut self.value, place, value);
            place = at(&self.next, place, NONE);
            value = value.saturating_add(1);
        }
    }

    // Adds the accesses that only found a value. One that changed the word is in a cluster by now, unless each of
    // several found what another of them left.
    fn gather(
        &mut self,
        alloc: Global,
        history: &[Access],
        sources: &Sources,
    ) -> Result<Option<Contradiction>, AllocError> {
        for (place, access) in history.iter().enumerate() {
            if access.left().is_some() {
                if at(&self.of, place, NONE) == NONE {
                    return Ok(Some(self.ring(alloc, place)?));
                }
                continue;
            }
            match sources.at(place) {
                Source::Unknown => {}
                Source::Initial => {
                    put(&mut self.of, place, 0);
                }
                Source::Access(source) => {
                    let (cluster, value) = (at(&self.of, source, NONE), at(&self.value, source, 0));
                    put(&mut self.of, place, cluster);
                    put(&mut self.value, place, value);
                }
            }
        }
        Ok(None)
    }

    // Each of these found what the one before left, around.
    fn ring(&self, alloc: Global, from: usize) -> Result<Contradiction, AllocError> {
        let mut last = at(&self.next, from, NONE);
        let start = Link {
            first: from,
            last,
            why: Why::Source,
        };
        let mut steps = Vec::new(alloc);
        for _ in 0..self.next.len() {
            if last == from || last == NONE {
                break;
            }
            last = at(&self.next, last, NONE);
            steps.push(Step::Next(last, Why::Source))?;
        }
        chains::around(alloc, start, steps)
    }

    /// Orders the accesses that are in clusters, which come in these turns.
    pub fn spread(
        &self,
        alloc: Global,
        history: &[Access],
        turns: &[usize],
        ranks: &[usize],
    ) -> Result<Vec<usize>, AllocError> {
        let mut turn_of = vec![in alloc; 0; turns.len()]?;
        for (turn, cluster) in turns.iter().enumerate() {
            put(&mut turn_of, *cluster, turn);
        }
        let mut keys = Vec::new(alloc);
        for (place, access) in history.iter().enumerate() {
            let cluster = at(&self.of, place, NONE);
            if cluster == NONE {
                continue;
            }
            let turn = at(&turn_of, cluster, NONE);
            let value = at(&self.value, place, 0);
            let rank = at(ranks, place, 0);
            keys.push(((turn, value), (access.left().is_none(), rank), place))?;
        }
        keys.sort_unstable();
        let mut order = Vec::new(alloc);
        for (_, _, place) in &keys {
            order.push(*place)?;
        }
        Ok(order)
    }
}

// Both changed what the source left, and only one can have found it.
fn both_changed(
    alloc: Global,
    source: usize,
    one: usize,
    other: usize,
) -> Result<Contradiction, AllocError> {
    let start = Link {
        first: source,
        last: one,
        why: Why::Source,
    };
    let mut steps = Vec::new(alloc);
    steps.push(Step::Raise(other))?;
    steps.push(Step::Lower(source))?;
    steps.push(Step::Next(other, Why::Source))?;
    chains::around(alloc, start, steps)
}

// Both changed the initial value.
fn both_changed_first(
    alloc: Global,
    one: usize,
    other: usize,
) -> Result<Contradiction, AllocError> {
    let start = Link {
        first: one,
        last: other,
        why: Why::Initial,
    };
    let mut steps = Vec::new(alloc);
    steps.push(Step::Next(one, Why::Initial))?;
    chains::around(alloc, start, steps)
}
