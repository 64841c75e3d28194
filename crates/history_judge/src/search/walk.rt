//! Steps from an access around to itself.

use super::super::access::Access;
use super::super::refutation::{Contradiction, Link, Step, Why};
use super::chains;
use super::clusters::Clusters;
use super::lists::{NONE, at};
use super::ranks::Pair;
use super::sources::{Source, Sources};
use std::alloc::{AllocError, Global};

/// A history with its clusters.
#[derive(Clone, Copy)]
struct Map<'a> {
    history: &'a [Access],
    sources: &'a Sources,
    clusters: &'a Clusters,
}

impl Map<'_> {
    // The access that left the value which this one left or else found.
    fn writer(&self, access: usize) -> usize {
        match self.history.get(access) {
            Some(it) if it.left().is_some() => access,
            _ => self.source(access),
        }
    }

    fn source(&self, access: usize) -> usize {
        match self.sources.at(access) {
            Source::Access(source) => source,
            _ => NONE,
        }
    }

    fn value(&self, access: usize) -> usize {
        at(&self.clusters.value, access, 0)
    }

    fn next(&self, access: usize) -> usize {
        if access == NONE {
            self.clusters.first
        } else {
            at(&self.clusters.next, access, NONE)
        }
    }
}

/// The steps so far.
#[derive(Drop)]
struct Walk {
    start: Option<Link>,
    first: usize,
    last: usize,
    steps: Vec<Step>,
}

impl Walk {
    fn starting(alloc: Global, access: usize) -> Self {
        Walk {
            start: None,
            first: access,
            last: access,
            steps: Vec::new(alloc),
        }
    }

    fn next(&mut self, access: usize, why: Why) -> Result<(), AllocError> {
        if self.start.is_none() {
            self.start = Some(Link {
                first: self.first,
                last: access,
                why,
            });
        } else {
            self.steps.push(Step::Next(access, why))?;
        }
        self.last = access;
        Ok(())
    }

    // To an access that found what the last one left, unless it is that one.
    fn found_by(&mut self, access: usize) -> Result<(), AllocError> {
        if self.last == access {
            Ok(())
        } else {
            self.next(access, Why::Source)
        }
    }

    fn raise(&mut self, access: usize) -> Result<(), AllocError> {
        if self.first == access {
            return Ok(());
        }
        self.first = access;
        self.steps.push(Step::Raise(access))?;
        Ok(())
    }

    fn lower(&mut self, access: usize) -> Result<(), AllocError> {
        if self.last == access {
            return Ok(());
        }
        self.last = access;
        self.steps.push(Step::Lower(access))?;
        Ok(())
    }

    // From a writer along the values of its cluster up to another.
    fn go_on(&mut self, map: &Map<'_>, to: usize) -> Result<(), AllocError> {
        for _ in 0..map.history.len() {
            let next = map.next(self.last);
            if self.last == to || next == NONE {
                return Ok(());
            }
            self.next(next, Why::Source)?;
        }
        Ok(())
    }

    // From a writer back along the values of its cluster.
    fn go_back(&mut self, map: &Map<'_>, to: usize) -> Result<(), AllocError> {
        for _ in 0..map.history.len() {
            let source = map.source(self.last);
            if self.last == to || source == NONE {
                return Ok(());
            }
            self.lower(source)?;
        }
        Ok(())
    }

    // The same from the first access on.
    fn go_up(&mut self, map: &Map<'_>, to: usize) -> Result<(), AllocError> {
        for _ in 0..map.history.len() {
            let next = map.next(self.first);
            if self.first == to || next == NONE {
                return Ok(());
            }
            self.raise(next)?;
        }
        Ok(())
    }

    // From an access of a cluster to the writer from whose value the passage leads on.
    fn cross(&mut self, map: &Map<'_>, passage: Link) -> Result<(), AllocError> {
        let (from, to) = (map.writer(self.last), map.writer(passage.first));
        self.lower(from)?;
        if map.value(from) > map.value(to) {
            self.go_back(map, to)
        } else {
            self.go_on(map, to)
        }
    }

    fn ended(self, alloc: Global) -> Result<Contradiction, AllocError> {
        let Walk {
            start,
            first,
            last,
            steps,
        } = self;
        let start = start.unwrap_or(Link {
            first,
            last,
            why: Why::Core,
        });
        chains::around(alloc, start, steps)
    }
}

/// Returns the steps around clusters that come before each other, from the first cluster's earlier value on.
pub fn around<'a>(
    alloc: Global,
    history: &'a [Access],
    sources: &'a Sources,
    clusters: &'a Clusters,
    passages: &[Link],
) -> Result<Contradiction, AllocError> {
    let map = Map {
        history,
        sources,
        clusters,
    };
    let (Some(begin), Some(end)) = (passages.first().copied(), passages.last().copied()) else {
        return Walk::starting(alloc, 0).ended(alloc);
    };
    let (origin, target) = (map.writer(begin.first), map.writer(end.last));
    let is_earlier = map.value(target) < map.value(origin);
    let mut walk = Walk::starting(alloc, if is_earlier { target } else { origin });
    walk.go_on(&map, origin)?;
    walk.found_by(begin.first)?;
    walk.next(begin.last, begin.why)?;
    for passage in passages.iter().skip(1) {
        walk.cross(&map, *passage)?;
        if *passage == end {
            if !is_earlier {
                walk.go_up(&map, target)?;
            }
            walk.raise(end.last)?;
        }
        walk.found_by(passage.first)?;
        walk.next(passage.last, passage.why)?;
    }
    walk.ended(alloc)
}

/// Returns the steps around from two accesses in an order of the clusters, of which the later comes first.
pub fn against<'a>(
    alloc: Global,
    history: &'a [Access],
    sources: &'a Sources,
    clusters: &'a Clusters,
    pair: Pair,
) -> Result<Contradiction, AllocError> {
    let map = Map {
        history,
        sources,
        clusters,
    };
    let Pair {
        earlier,
        later,
        why,
    } = pair;
    let is_apart = at(&clusters.of, earlier, NONE) != at(&clusters.of, later, NONE);
    let mut walk = if is_apart {
        from_the_first(alloc, &map, earlier, later)?
    } else {
        along(alloc, &map, earlier, later)?
    };
    walk.found_by(later)?;
    walk.next(earlier, why)?;
    walk.ended(alloc)
}

// From an access of the first cluster to the writer of a later cluster's.
fn from_the_first(
    alloc: Global,
    map: &Map<'_>,
    earlier: usize,
    later: usize,
) -> Result<Walk, AllocError> {
    let writer = map.writer(earlier);
    let mut walk = Walk::starting(
        alloc,
        if writer == NONE {
            earlier
        } else {
            map.next(NONE)
        },
    );
    walk.next(map.writer(later), Why::Initial)?;
    if writer != NONE {
        walk.go_up(map, writer)?;
    }
    walk.raise(earlier)?;
    Ok(walk)
}

// From an access to the writer of a later one of its cluster.
fn along(alloc: Global, map: &Map<'_>, earlier: usize, later: usize) -> Result<Walk, AllocError> {
    let (from, to) = (map.writer(earlier), map.writer(later));
    if from == earlier {
        let mut walk = Walk::starting(alloc, earlier);
        walk.go_on(map, to)?;
        return Ok(walk);
    }
    let next = map.next(from);
    let mut walk = Walk::starting(alloc, if from == NONE { earlier } else { from });
    walk.next(
        next,
        if from == NONE {
            Why::Initial
        } else {
            Why::Source
        },
    )?;
    walk.raise(earlier)?;
    walk.go_on(map, to)?;
    Ok(walk)
}
