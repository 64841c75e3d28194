use super::lists::{at, count};
use std::alloc::{AllocError, Global};

/// Numbers, sorted into rows.
#[derive(Drop)]
pub struct Rows {
    items: Vec<(usize, usize)>,
    starts: Vec<usize>,
}

impl Rows {
    /// Sorts numbers, which are paired with their rows, into `rows` rows.
    pub fn of(
        alloc: Global,
        mut items: Vec<(usize, usize)>,
        rows: usize,
    ) -> Result<Self, AllocError> {
        items.sort_unstable();
        let mut counts = vec![in alloc; 0; rows]?;
        for (row, _) in &items {
            count(&mut counts, *row);
        }
        let mut starts = Vec::new(alloc);
        let mut start = 0usize;
        for more in &counts {
            starts.push(start)?;
            start = start.saturating_add(*more);
        }
        starts.push(start)?;
        Ok(Rows { items, starts })
    }

    /// Returns a row's numbers, each with the row.
    pub fn row(&self, row: usize) -> &[(usize, usize)] {
        let start = at(&self.starts, row, 0);
        let end = at(&self.starts, row.saturating_add(1), 0);
        match self.items.get(start..end) {
            Some(items) => items,
            None => &[],
        }
    }
}
