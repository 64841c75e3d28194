//! A history of several words, sorted by cores and by words.

use super::super::access::Access;
use super::lists::{NONE, at, put};
use super::rows::Rows;
use super::sources::{Source, Sources};
use std::alloc::{AllocError, Global};

const CORES: usize = 256;

/// The accesses of a history, and which of them a rule needs.
#[derive(Drop)]
pub struct Plan {
    /// The number of cores.
    pub cores: usize,
    /// The core of each access, and its number among the core's.
    pub core: Vec<usize>,
    pub rank: Vec<usize>,
    /// The word of each access, from 0, and how many there are.
    pub word: Vec<usize>,
    pub words: usize,
    /// The accesses by core.
    pub of_core: Rows,
    /// By word and core: those that change the word, and those that found its initial value, which no access leaves.
    pub writes: Rows,
    pub firsts: Rows,
    /// By the access that left a value: the last one of each core that found it.
    pub readers: Rows,
    /// The accesses by when they began, and by when they ended.
    pub by_begin: Vec<(u64, usize)>,
    pub by_end: Vec<(u64, usize)>,
}

impl Plan {
    pub fn of(alloc: Global, history: &[Access], sources: &Sources) -> Result<Self, AllocError> {
        let (core, rank, cores) = numbered(alloc, history)?;
        let (word, words) = words_of(alloc, history)?;
        let rows = words.saturating_mul(cores);
        let count = history.len();
        let mut plan = Plan {
            cores,
            of_core: Rows::of(alloc, paired(alloc, &core)?, cores)?,
            core,
            rank,
            word,
            words,
            writes: Rows::of(alloc, Vec::new(alloc), 0)?,
            firsts: Rows::of(alloc, Vec::new(alloc), 0)?,
            readers: Rows::of(alloc, Vec::new(alloc), 0)?,
            by_begin: sorted(alloc, history, false)?,
            by_end: sorted(alloc, history, true)?,
        };
        plan.writes = Rows::of(alloc, plan.writing(alloc, history)?, rows)?;
        plan.firsts = Rows::of(alloc, plan.finding_first(alloc, sources)?, rows)?;
        plan.readers = Rows::of(alloc, plan.reading(alloc, sources)?, count)?;
        Ok(plan)
    }

    fn row(&self, place: usize) -> usize {
        let word = at(&self.word, place, 0);
        self.row_of(word, at(&self.core, place, 0))
    }

    fn row_of(&self, word: usize, core: usize) -> usize {
        word.saturating_mul(self.cores).saturating_add(core)
    }

    fn writing(
        &self,
        alloc: Global,
        history: &[Access],
    ) -> Result<Vec<(usize, usize)>, AllocError> {
        let mut items = Vec::new(alloc);
        for (place, access) in history.iter().enumerate() {
            if access.left().is_some() {
                items.push((self.row(place), place))?;
            }
        }
        Ok(items)
    }

    fn finding_first(
        &self,
        alloc: Global,
        sources: &Sources,
    ) -> Result<Vec<(usize, usize)>, AllocError> {
        let mut items = Vec::new(alloc);
        for (place, source) in sources.all.iter().enumerate() {
            if *source == Source::Initial {
                items.push((self.row(place), place))?;
            }
        }
        Ok(items)
    }

    // Returns, of accesses of one core that found the same, only the last: the others come before it.
    fn reading(&self, alloc: Global, sources: &Sources) -> Result<Vec<(usize, usize)>, AllocError> {
        let mut found = Vec::new(alloc);
        for (place, source) in sources.all.iter().enumerate() {
            if let Source::Access(writer) = *source {
                found.push(((writer, at(&self.core, place, 0)), place))?;
            }
        }
        found.sort_unstable();
        let mut items = Vec::new(alloc);
        for (number, (key, place)) in found.iter().enumerate() {
            let is_last = match found.get(number.saturating_add(1)) {
                Some((next, _)) => *next != *key,
                None => true,
            };
            if is_last {
                items.push((key.0, *place))?;
            }
        }
        Ok(items)
    }

    /// Returns the last access of a core that changes the word, among its first `before` accesses.
    pub fn last_write(&self, word: usize, core: usize, before: usize) -> usize {
        let Some(last) = before.checked_sub(1) else {
            return NONE;
        };
        let Some((_, bound)) = self.of_core.row(core).get(last).copied() else {
            return NONE;
        };
        let writes = self.writes.row(self.row_of(word, core));
        let count = writes.partition_point(|it| it.1 <= bound);
        match count.checked_sub(1) {
            Some(number) => match writes.get(number) {
                Some((_, place)) => *place,
                None => NONE,
            },
            None => NONE,
        }
    }

    /// Returns the last access of a core that found the word's initial value.
    pub fn last_first(&self, word: usize, core: usize) -> usize {
        match self.firsts.row(self.row_of(word, core)).last() {
            Some((_, place)) => *place,
            None => NONE,
        }
    }

    /// Returns the access that its core requested before this one.
    pub fn before(&self, place: usize) -> usize {
        let Some(rank) = at(&self.rank, place, 0).checked_sub(1) else {
            return NONE;
        };
        match self.of_core.row(at(&self.core, place, 0)).get(rank) {
            Some((_, before)) => *before,
            None => NONE,
        }
    }
}

// The core of each access, its number among the core's, and how many cores there are.
fn numbered(
    alloc: Global,
    history: &[Access],
) -> Result<(Vec<usize>, Vec<usize>, usize), AllocError> {
    let mut numbers = vec![in alloc; NONE; CORES]?;
    let mut counts = vec![in alloc; 0usize; CORES]?;
    let (mut core, mut rank, mut cores) = (Vec::new(alloc), Vec::new(alloc), 0usize);
    for access in history {
        let named = access.core.0 as usize;
        if at(&numbers, named, NONE) == NONE {
            put(&mut numbers, named, cores);
            cores = cores.saturating_add(1);
        }
        let number = at(&numbers, named, 0);
        let count = at(&counts, number, 0);
        core.push(number)?;
        rank.push(count)?;
        put(&mut counts, number, count.saturating_add(1));
    }
    Ok((core, rank, cores))
}

// The word of each access, from 0 in the order of their numbers, and how many there are.
fn words_of(alloc: Global, history: &[Access]) -> Result<(Vec<usize>, usize), AllocError> {
    let mut all = Vec::new(alloc);
    for access in history {
        all.push(access.word.0)?;
    }
    all.sort_unstable();
    all.dedup();
    let mut word = Vec::new(alloc);
    for access in history {
        word.push(all.partition_point(|it| *it < access.word.0))?;
    }
    Ok((word, all.len()))
}

fn paired(alloc: Global, core: &[usize]) -> Result<Vec<(usize, usize)>, AllocError> {
    let mut items = Vec::new(alloc);
    for (place, core) in core.iter().enumerate() {
        items.push((*core, place))?;
    }
    Ok(items)
}

fn sorted(
    alloc: Global,
    history: &[Access],
    by_end: bool,
) -> Result<Vec<(u64, usize)>, AllocError> {
    let mut items = Vec::new(alloc);
    for (place, access) in history.iter().enumerate() {
        let key = if by_end { access.end } else { access.begin };
        items.push((key, place))?;
    }
    items.sort_unstable();
    Ok(items)
}
