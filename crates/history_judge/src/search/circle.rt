//! Circles from a cluster back to itself.

use super::super::refutation::{Link, Why};
use super::graph::{Graph, Zone};
use super::lists::{NONE, at, put};
use std::alloc::{AllocError, Global};

const CORES: usize = 256;

/// The number of clusters tried as the first of a circle; among at most `FEW` clusters each is tried.
const TRIES: usize = 8;

const FEW: usize = 1000;

/// Returns the links of a short circle of clusters, if a circle leads through this cluster.
pub fn shortest(alloc: Global, graph: &Graph, root: usize) -> Result<Vec<Link>, AllocError> {
    let mut best = found(alloc, graph, root)?;
    for turn in 0..TRIES {
        let Some(link) = best.get(turn) else {
            break;
        };
        let other = found(alloc, graph, at(&graph.cluster, link.first, NONE))?;
        if !other.is_empty() && other.len() < best.len() {
            best = other;
        }
    }
    if graph.count > FEW {
        return Ok(best);
    }
    for cluster in 1..graph.count {
        let other = found(alloc, graph, cluster)?;
        if !other.is_empty() && other.len() < best.len() {
            best = other;
        }
    }
    Ok(best)
}

// Returns the shortest circle from a cluster.
fn found(alloc: Global, graph: &Graph, root: usize) -> Result<Vec<Link>, AllocError> {
    let mut paths = Paths::of(alloc, graph, root)?;
    for turn in 0..graph.count {
        let cluster = at(&paths.reached, turn, NONE);
        if cluster == NONE {
            break;
        }
        if let Some(link) = paths.back(graph, cluster) {
            return paths.around(alloc, graph, link);
        }
        paths.go_on(graph, cluster)?;
    }
    Ok(Vec::new(alloc))
}

/// The shortest paths from a cluster to others.
#[derive(Drop)]
struct Paths {
    root: usize,
    /// The last access of the root by each core.
    last: Vec<usize>,
    /// The clusters that were reached, in that order, and the link to each.
    reached: Vec<usize>,
    ways: Vec<Option<Link>>,
    /// The accesses after which all of their core were reached.
    is_passed: Vec<bool>,
    /// How many of `by_begin` were reached.
    begun: usize,
}

impl Paths {
    fn of(alloc: Global, graph: &Graph, root: usize) -> Result<Self, AllocError> {
        let mut last = vec![in alloc; NONE; CORES]?;
        for (_, place) in graph.members.row(root) {
            put(&mut last, at(&graph.core, *place, NONE), *place);
        }
        let mut reached = Vec::new(alloc);
        reached.push(root)?;
        Ok(Paths {
            root,
            last,
            reached,
            ways: vec![in alloc; None; graph.count]?,
            is_passed: vec![in alloc; false; graph.core.len()]?,
            begun: 0,
        })
    }

    // Returns the link from another cluster to the root, if there is one.
    fn back(&self, graph: &Graph, cluster: usize) -> Option<Link> {
        if cluster == self.root {
            return None;
        }
        let (zone, root) = (graph.zone(cluster), graph.zone(self.root));
        if zone.end < root.begin {
            return Some(Link {
                first: zone.ended,
                last: root.begun,
                why: Why::Interval,
            });
        }
        for (_, first) in graph.members.row(cluster) {
            let last = at(&self.last, at(&graph.core, *first, NONE), NONE);
            if last != NONE && *first < last {
                return Some(Link {
                    first: *first,
                    last,
                    why: Why::Core,
                });
            }
        }
        None
    }

    // To all clusters that this one comes before.
    fn go_on(&mut self, graph: &Graph, cluster: usize) -> Result<(), AllocError> {
        for (_, first) in graph.members.row(cluster) {
            self.go_along_core(graph, *first)?;
        }
        self.go_along_times(graph, cluster)
    }

    fn go_along_core(&mut self, graph: &Graph, first: usize) -> Result<(), AllocError> {
        let mut last = at(&graph.next, first, NONE);
        for _ in 0..graph.next.len() {
            if at(&self.is_passed, last, true) {
                return Ok(());
            }
            put(&mut self.is_passed, last, true);
            self.reach(
                graph,
                Link {
                    first,
                    last,
                    why: Why::Core,
                },
            )?;
            last = at(&graph.next, last, NONE);
        }
        Ok(())
    }

    // To all clusters with an access that began after one of this cluster's had ended.
    fn go_along_times(&mut self, graph: &Graph, cluster: usize) -> Result<(), AllocError> {
        let Zone { end, ended, .. } = graph.zone(cluster);
        for place in self.begun..graph.by_begin.len() {
            let (key, other) = at(&graph.by_begin, place, (u64::MAX, NONE));
            if u64::MAX - key <= end {
                return Ok(());
            }
            self.begun = place.saturating_add(1);
            let last = graph.zone(other).begun;
            self.reach(
                graph,
                Link {
                    first: ended,
                    last,
                    why: Why::Interval,
                },
            )?;
        }
        Ok(())
    }

    fn reach(&mut self, graph: &Graph, way: Link) -> Result<(), AllocError> {
        let cluster = at(&graph.cluster, way.last, NONE);
        let is_new = matches!(self.ways.get(cluster), Some(None));
        if is_new && cluster != self.root && cluster != 0 {
            put(&mut self.ways, cluster, Some(way));
            self.reached.push(cluster)?;
        }
        Ok(())
    }

    // Returns the links from the root to the last one, and that one.
    fn around(&self, alloc: Global, graph: &Graph, last: Link) -> Result<Vec<Link>, AllocError> {
        let mut ways = Vec::new(alloc);
        ways.push(last)?;
        let mut way = last;
        for _ in 0..self.ways.len() {
            let cluster = at(&graph.cluster, way.first, NONE);
            let Some(before) = at(&self.ways, cluster, None) else {
                break;
            };
            ways.push(before)?;
            way = before;
        }
        ways.reverse();
        Ok(ways)
    }
}
