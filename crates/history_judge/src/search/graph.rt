use super::super::access::Access;
use super::super::refutation::Why;
use super::clusters::Clusters;
use super::lists::{NONE, at, put};
use super::ranks::Pair;
use super::rows::Rows;
use std::alloc::{AllocError, Global};

const CORES: usize = 256;

/// The first end and the last begin of a cluster's accesses, and the accesses that have them. A cluster comes before
/// each other one whose last begin is after its first end.
#[derive(Clone, Copy)]
pub struct Zone {
    pub end: u64,
    pub ended: usize,
    pub begin: u64,
    pub begun: usize,
}

/// Which clusters come before which.
#[derive(Drop)]
pub struct Graph {
    pub count: usize,
    /// The cluster and the core of each access, and the next of its core.
    pub cluster: Vec<usize>,
    pub core: Vec<usize>,
    pub next: Vec<usize>,
    /// The accesses of each cluster, and the clusters of the accesses that come next.
    pub members: Rows,
    pub edges: Rows,
    pub zones: Vec<Zone>,
    /// The clusters except the first: by their ends, and by their begins from the last on.
    pub by_end: Vec<(u64, usize)>,
    pub by_begin: Vec<(u64, usize)>,
}

impl Graph {
    pub fn of(alloc: Global, history: &[Access], clusters: &Clusters) -> Result<Self, AllocError> {
        let cluster = Vec::from_slice(alloc, &clusters.of)?;
        let next = next_of(alloc, history, &cluster)?;
        let zones = zones_of(alloc, history, clusters)?;
        let (by_end, by_begin) = sorted(alloc, &zones)?;
        let count = clusters.count;
        Ok(Graph {
            count,
            core: history
                .iter()
                .map(|access| access.core.0 as usize)
                .collect(alloc)?,
            members: Rows::of(alloc, members_of(alloc, &cluster)?, count)?,
            edges: Rows::of(alloc, edges_of(alloc, &cluster, &next)?, count)?,
            cluster,
            next,
            zones,
            by_end,
            by_begin,
        })
    }

    /// Returns an access of the first cluster, and one of another that comes before it.
    pub fn before_first(&self) -> Option<Pair> {
        for (later, earlier) in self.next.iter().enumerate() {
            let is_other = !matches!(at(&self.cluster, later, 0), 0 | NONE);
            if is_other && at(&self.cluster, *earlier, NONE) == 0 {
                return Some(Pair {
                    earlier: *earlier,
                    later,
                    why: Why::Core,
                });
            }
        }
        let (end, other) = at(&self.by_end, 0, (u64::MAX, NONE));
        let first = self.zone(0);
        (end < first.begin).then_some(Pair {
            earlier: first.begun,
            later: self.zone(other).ended,
            why: Why::Interval,
        })
    }

    /// Returns the zone of a cluster.
    pub fn zone(&self, cluster: usize) -> Zone {
        at(&self.zones, cluster, Zone::none())
    }
}

impl Zone {
    const fn none() -> Self {
        Zone {
            end: u64::MAX,
            ended: NONE,
            begin: 0,
            begun: NONE,
        }
    }

    fn with(self, place: usize, access: &Access) -> Self {
        let mut zone = self;
        if zone.ended == NONE || access.end < zone.end {
            zone.end = access.end;
            zone.ended = place;
        }
        if zone.begun == NONE || access.begin > zone.begin {
            zone.begin = access.begin;
            zone.begun = place;
        }
        zone
    }
}

// The next access of each one's core that is in a cluster.
fn next_of(alloc: Global, history: &[Access], cluster: &[usize]) -> Result<Vec<usize>, AllocError> {
    let mut latest = vec![in alloc; NONE; CORES]?;
    let mut next = vec![in alloc; NONE; history.len()]?;
    for (place, access) in history.iter().enumerate() {
        if at(cluster, place, NONE) != NONE {
            let core = access.core.0 as usize;
            put(&mut next, at(&latest, core, NONE), place);
            put(&mut latest, core, place);
        }
    }
    Ok(next)
}

fn members_of(alloc: Global, cluster: &[usize]) -> Result<Vec<(usize, usize)>, AllocError> {
    let mut members = Vec::new(alloc);
    for (place, cluster) in cluster.iter().enumerate() {
        if *cluster != NONE {
            members.push((*cluster, place))?;
        }
    }
    Ok(members)
}

// From each access's cluster to the next one's, but not to the first cluster.
fn edges_of(
    alloc: Global,
    cluster: &[usize],
    next: &[usize],
) -> Result<Vec<(usize, usize)>, AllocError> {
    let mut edges = Vec::new(alloc);
    for (from, next) in cluster.iter().zip(next) {
        let to = at(cluster, *next, NONE);
        if to != NONE && to != 0 && to != *from {
            edges.push((*from, to))?;
        }
    }
    Ok(edges)
}

fn zones_of(
    alloc: Global,
    history: &[Access],
    clusters: &Clusters,
) -> Result<Vec<Zone>, AllocError> {
    let mut zones = vec![in alloc; Zone::none(); clusters.count]?;
    for (place, access) in history.iter().enumerate() {
        let cluster = at(&clusters.of, place, NONE);
        let zone = at(&zones, cluster, Zone::none()).with(place, access);
        put(&mut zones, cluster, zone);
    }
    Ok(zones)
}

/// Clusters with the numbers by which they are sorted.
type Sorted = Vec<(u64, usize)>;

fn sorted(alloc: Global, zones: &[Zone]) -> Result<(Sorted, Sorted), AllocError> {
    let mut by_end = Vec::new(alloc);
    let mut by_begin = Vec::new(alloc);
    for (cluster, zone) in zones.iter().enumerate().skip(1) {
        by_end.push((zone.end, cluster))?;
        by_begin.push((u64::MAX - zone.begin, cluster))?;
    }
    by_end.sort_unstable();
    by_begin.sort_unstable();
    Ok((by_end, by_begin))
}
