use super::super::refutation::Link;
use super::circle;
use super::graph::Graph;
use super::lists::{NONE, at, count, put};
use std::alloc::{AllocError, Global};
use std::collections::BinaryHeap;

/// An order of the clusters, or a circle of some that come before each other.
pub enum Turns {
    All(Vec<usize>),
    Never(Vec<Link>),
}

/// Gives each cluster its turn.
pub fn taken(alloc: Global, graph: &Graph) -> Result<Turns, AllocError> {
    let mut turns = Taking::of(alloc, graph)?;
    turns.take(graph, 0)?;
    for _ in 0..graph.count {
        match turns.next_ready(graph)? {
            Some(cluster) => turns.take(graph, cluster)?,
            None => break,
        }
    }
    if turns.order.len() >= graph.count {
        return Ok(Turns::All(turns.order));
    }
    let root = turns.root(alloc, graph)?;
    Ok(Turns::Never(circle::shortest(alloc, graph, root)?))
}

/// The clusters that had their turn, and what the others wait for.
#[derive(Drop)]
struct Taking {
    order: Vec<usize>,
    is_taken: Vec<bool>,
    /// How many edges lead to each cluster from those that didn't have their turn.
    waits: Vec<usize>,
    /// The clusters to which no edge leads, those with the first last begin on top.
    ready: BinaryHeap<(u64, usize)>,
    /// The places in `by_end` of the first two clusters that didn't have their turn.
    ends: (usize, usize),
}

impl Taking {
    fn of(alloc: Global, graph: &Graph) -> Result<Self, AllocError> {
        let mut waits = vec![in alloc; 0; graph.count]?;
        for cluster in 0..graph.count {
            for (_, to) in graph.edges.row(cluster) {
                count(&mut waits, *to);
            }
        }
        let mut ready = BinaryHeap::new(alloc);
        for (cluster, waits) in waits.iter().enumerate().skip(1) {
            if *waits == 0 {
                ready.push(key(graph, cluster))?;
            }
        }
        Ok(Taking {
            order: Vec::new(alloc),
            is_taken: vec![in alloc; false; graph.count]?,
            waits,
            ready,
            ends: (0, 1),
        })
    }

    fn take(&mut self, graph: &Graph, cluster: usize) -> Result<(), AllocError> {
        self.order.push(cluster)?;
        put(&mut self.is_taken, cluster, true);
        for (_, to) in graph.edges.row(cluster) {
            let left = at(&self.waits, *to, 0).saturating_sub(1);
            put(&mut self.waits, *to, left);
            if left == 0 {
                self.ready.push(key(graph, *to))?;
            }
        }
        Ok(())
    }

    // A cluster that none of the others must come before.
    fn next_ready(&mut self, graph: &Graph) -> Result<Option<usize>, AllocError> {
        self.find_ends(graph);
        self.drop_taken();
        let Some((begin, cluster)) = self.ready.pop() else {
            return Ok(None);
        };
        if self.is_first(graph, cluster) {
            return Ok(Some(cluster));
        }
        self.ready.push((begin, cluster))?;
        let (_, cluster) = at(&graph.by_end, self.ends.0, (0, NONE));
        let is_ready = at(&self.waits, cluster, 1) == 0;
        Ok((is_ready && self.is_first(graph, cluster)).then_some(cluster))
    }

    // Whether no access of another cluster ended before this one's last access began.
    fn is_first(&self, graph: &Graph, cluster: usize) -> bool {
        let other = self.first_end(graph, cluster);
        other == NONE || graph.zone(cluster).begin <= graph.zone(other).end
    }

    // The other cluster with the first end.
    fn first_end(&self, graph: &Graph, cluster: usize) -> usize {
        let (_, first) = at(&graph.by_end, self.ends.0, (0, NONE));
        let (_, second) = at(&graph.by_end, self.ends.1, (0, NONE));
        if first == cluster { second } else { first }
    }

    fn find_ends(&mut self, graph: &Graph) {
        let first = self.untaken(graph, self.ends.0);
        let second = self.untaken(graph, self.ends.1.max(first.saturating_add(1)));
        self.ends = (first, second);
    }

    fn untaken(&self, graph: &Graph, from: usize) -> usize {
        for place in from..graph.by_end.len() {
            let (_, cluster) = at(&graph.by_end, place, (0, NONE));
            if !at(&self.is_taken, cluster, true) {
                return place;
            }
        }
        graph.by_end.len()
    }

    fn drop_taken(&mut self) {
        for _ in 0..self.ready.len() {
            match self.ready.peek() {
                Some((_, cluster)) if at(&self.is_taken, *cluster, true) => {}
                _ => return,
            }
            let _taken = self.ready.pop();
        }
    }

    // A cluster that comes before itself: one goes back from cluster to cluster, as often as there are clusters.
    fn root(&self, alloc: Global, graph: &Graph) -> Result<usize, AllocError> {
        let mut before = vec![in alloc; NONE; graph.count]?;
        for cluster in 1..graph.count {
            if !at(&self.is_taken, cluster, true) {
                for (_, to) in graph.edges.row(cluster) {
                    put(&mut before, *to, cluster);
                }
            }
        }
        for cluster in 1..graph.count {
            if !self.is_first(graph, cluster) {
                put(&mut before, cluster, self.first_end(graph, cluster));
            }
        }
        let (_, mut root) = at(&graph.by_end, self.ends.0, (0, NONE));
        for _ in 0..graph.count {
            root = at(&before, root, NONE);
        }
        Ok(root)
    }
}

fn key(graph: &Graph, cluster: usize) -> (u64, usize) {
    (u64::MAX - graph.zone(cluster).begin, cluster)
}
