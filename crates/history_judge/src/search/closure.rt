//! What comes before what in each order of a history of several words: what cores, times and sources say, and what
//! follows from it for the accesses of a word.

use super::super::access::Access;
use super::super::refutation::Why;
use super::lists::{NONE, at, put};
use super::plan::Plan;
use super::sources::{Source, Sources};
use std::alloc::{AllocError, Global};

/// The maximum number of passes over all accesses.
const PASSES: usize = 64;

/// The maximum number of circles noted.
const CIRCLES: usize = 16;

/// No edge.
const NO_EDGE: u32 = u32::MAX;

/// One access that comes before another, and how that is known.
#[derive(Clone, Copy)]
pub struct Edge {
    pub first: usize,
    pub last: usize,
    pub by: By,
}

#[derive(Clone, Copy)]
pub enum By {
    Link(Why),
    /// The first found what this writer left, which comes before the last, and the last overwrites it.
    Raise(usize),
    /// This reader found what the last left, and the first comes before the reader.
    Lower(usize),
}

/// What comes before each access.
#[derive(Drop)]
pub struct Closure {
    cores: usize,
    /// The number of accesses of each core that come before each access, and the edge by which the last of them does.
    clocks: Vec<u32>,
    causes: Vec<u32>,
    pub edges: Vec<Edge>,
    /// Edges from accesses that come after the edge's end.
    pub circles: Vec<Edge>,
    is_changed: bool,
}

impl Closure {
    pub fn of(
        alloc: Global,
        history: &[Access],
        sources: &Sources,
        plan: &Plan,
    ) -> Result<Self, AllocError> {
        let size = history.len().saturating_mul(plan.cores);
        let mut closure = Closure {
            cores: plan.cores,
            clocks: vec![in alloc; 0; size]?,
            causes: vec![in alloc; NO_EDGE; size]?,
            edges: Vec::new(alloc),
            circles: Vec::new(alloc),
            is_changed: false,
        };
        for _ in 0..PASSES {
            closure.is_changed = false;
            closure.go_over(alloc, history, sources, plan)?;
            if !closure.circles.is_empty() || !closure.is_changed {
                break;
            }
        }
        Ok(closure)
    }

    // Goes over all accesses, by when they began.
    fn go_over(
        &mut self,
        alloc: Global,
        history: &[Access],
        sources: &Sources,
        plan: &Plan,
    ) -> Result<(), AllocError> {
        let mut ended = Ended {
            last: vec![in alloc; NONE; plan.cores]?,
            count: 0,
        };
        for (begin, place) in &plan.by_begin {
            ended.end_before(plan, *begin);
            self.follow(plan, *place, &ended.last)?;
            match sources.at(*place) {
                Source::Access(source) => self.find(plan, source, *place)?,
                Source::Initial | Source::Unknown => {}
            }
            let is_write = match history.get(*place) {
                Some(access) => access.left().is_some(),
                None => false,
            };
            if is_write {
                self.change(plan, *place)?;
            }
        }
        Ok(())
    }

    // An access comes after the one that its core requested before it, and those that had ended when it began.
    fn follow(&mut self, plan: &Plan, place: usize, ended: &[usize]) -> Result<(), AllocError> {
        let before = plan.before(place);
        if before != NONE {
            self.note(plan, linked(before, place, Why::Core))?;
        }
        for first in ended {
            if *first != NONE && *first != place {
                self.note(plan, linked(*first, place, Why::Interval))?;
            }
        }
        Ok(())
    }

    // An access that found what the source left comes after it, and after the source no other that changed the word.
    fn find(&mut self, plan: &Plan, source: usize, place: usize) -> Result<(), AllocError> {
        if source != place {
            self.note(plan, linked(source, place, Why::Source))?;
        }
        let word = at(&plan.word, place, 0);
        for core in 0..plan.cores {
            let first = plan.last_write(word, core, self.before(place, core));
            if first != NONE && first != source && first != place {
                self.note(
                    plan,
                    Edge {
                        first,
                        last: source,
                        by: By::Lower(place),
                    },
                )?;
            }
        }
        Ok(())
    }

    // An access that changes the word comes after those that found what it overwrites.
    fn change(&mut self, plan: &Plan, place: usize) -> Result<(), AllocError> {
        let word = at(&plan.word, place, 0);
        for core in 0..plan.cores {
            let first = plan.last_first(word, core);
            if first != NONE && first != place {
                self.note(plan, linked(first, place, Why::Initial))?;
            }
            let writer = plan.last_write(word, core, self.before(place, core));
            if writer != NONE && writer != place {
                self.overwrite(plan, writer, place)?;
            }
        }
        Ok(())
    }

    fn overwrite(&mut self, plan: &Plan, writer: usize, place: usize) -> Result<(), AllocError> {
        for (_, first) in plan.readers.row(writer) {
            if *first != place {
                self.note(
                    plan,
                    Edge {
                        first: *first,
                        last: place,
                        by: By::Raise(writer),
                    },
                )?;
            }
        }
        Ok(())
    }

    /// Returns the number of accesses of a core that come before this one.
    pub fn before(&self, place: usize, core: usize) -> usize {
        at(&self.clocks, self.cell(place, core), 0) as usize
    }

    /// Returns the edge by which the last of them does.
    pub fn cause(&self, place: usize, core: usize) -> Option<usize> {
        match at(&self.causes, self.cell(place, core), NO_EDGE) {
            NO_EDGE => None,
            edge => Some(edge as usize),
        }
    }

    fn cell(&self, place: usize, core: usize) -> usize {
        place.saturating_mul(self.cores).saturating_add(core)
    }

    // Returns the number of accesses of a core that come before anything after this one.
    fn behind(&self, plan: &Plan, place: usize, core: usize) -> usize {
        if at(&plan.core, place, NONE) == core {
            at(&plan.rank, place, 0).saturating_add(1)
        } else {
            self.before(place, core)
        }
    }

    // Notes that one access comes before another, and all that come before it.
    fn note(&mut self, plan: &Plan, edge: Edge) -> Result<(), AllocError> {
        let core = at(&plan.core, edge.last, NONE);
        if self.circles.len() >= CIRCLES || self.edges.len() >= NO_EDGE as usize {
            return Ok(());
        }
        if self.behind(plan, edge.first, core) > at(&plan.rank, edge.last, 0) {
            self.circles.push(edge)?;
            return Ok(());
        }
        if self.join(plan, edge) {
            self.edges.push(edge)?;
            self.is_changed = true;
        }
        Ok(())
    }

    // Whether more comes before the edge's end than was known.
    fn join(&mut self, plan: &Plan, edge: Edge) -> bool {
        let number = u32::try_from(self.edges.len()).unwrap_or(NO_EDGE);
        let mut is_new = false;
        for core in 0..self.cores {
            let count = self.behind(plan, edge.first, core);
            let cell = self.cell(edge.last, core);
            if count > at(&self.clocks, cell, 0) as usize {
                put(
                    &mut self.clocks,
                    cell,
                    u32::try_from(count).unwrap_or(u32::MAX),
                );
                put(&mut self.causes, cell, number);
                is_new = true;
            }
        }
        is_new
    }
}

const fn linked(first: usize, last: usize, why: Why) -> Edge {
    Edge {
        first,
        last,
        by: By::Link(why),
    }
}

/// The last access of each core that has ended.
#[derive(Drop)]
struct Ended {
    last: Vec<usize>,
    /// The number of accesses of `by_end` that have.
    count: usize,
}

impl Ended {
    fn end_before(&mut self, plan: &Plan, begin: u64) {
        for number in self.count..plan.by_end.len() {
            let (end, place) = at(&plan.by_end, number, (u64::MAX, NONE));
            if end >= begin {
                return;
            }
            self.count = number.saturating_add(1);
            let core = at(&plan.core, place, NONE);
            let last = at(&self.last, core, NONE);
            if last == NONE || last < place {
                put(&mut self.last, core, place);
            }
        }
    }
}
