//! How often each cell was met.
ghost use Rattle.std.specs.Prelude.{◌≡◌, ℕ, ◌+◌, ◌≤◌, ◌<◌, ◌^◌, List, Option, IfOk, OnErr, OnOk, map};
ghost use Rattle.script_coverage.specs.Counts.{IsTooOften, counted, counted_all, had, listed, sums};
ghost use Rattle.script_coverage.specs.declared.cells.TheConstants.{CELLS};

use super::cells::CELLS;
use super::table_cell::{Cell, Outcome, TableEvent, TableState};
use cache_table::CopyState;
use directory_table::DirState;
use std::alloc::{AllocError, Global};
use std::fmt;
use std::marker::Model;

/// How often each cell was met, as far as it is listed.
#[derive(Debug, Drop)]
pub struct Coverage {
    /// In the order of [`CELLS`].
    pub(crate) counts: Vec<Option<u64>>,
}

/// A sum that a count can't be: 2^64 or more.
#[derive(Clone, Copy, Debug, PartialEq, Eq)]
pub struct TooOften;

impl Model for Coverage {
    ghost Value = { List (Option ℕ) };

    ghost view = { λ coverage. coverage.counts.items };
}

impl Coverage {
    /// Of no step: lists each cell that can be met under a setting of the exclusive state, or none.
    pub fn new(alloc: Global, exclusive: Option<bool>) -> Result<Self, AllocError>
        ensures { IfOk result (λ coverage. coverage ≡ map (listed exclusive) CELLS) }
    {
        let mut counts = Vec::new(alloc);
        for cell in &CELLS {
            counts.push(cell.listed(exclusive))?;
        }
        Ok(Coverage { counts })
    }

    /// Adds `times` to the count of the cell with this number.
    pub fn add(&mut self, cell: usize, times: u64) -> Result<(), TooOften>
        ensures added { OnOk result (self.new ≡ counted self.old cell times) }
        ensures fits { OnOk result (had self.old cell + times < 2 ^ 64) }
        ensures full { OnErr result (2 ^ 64 ≤ had self.old cell + times) }
        ensures same { OnErr result (self.new ≡ self.old) }
    {
        if cell >= self.counts.len() {
            return Ok(());
        }
        match self.counts[cell].unwrap_or(0).checked_add(times) {
            Some(sum) => {
                self.counts[cell] = Some(sum);
                Ok(())
            }
            None => Err(TooOften),
        }
    }

    /// Adds one for each of these numbers of cells.
    pub fn add_each(&mut self, cells: &[u8]) -> Result<(), TooOften>
        ensures { OnOk result (self.new ≡ counted_all self.old cells.now) }
    {
        for cell in cells {
            self.add(*cell as usize, 1)?;
        }
        Ok(())
    }

    /// Adds the counts of another. At Err those of the cells before the one whose sum is too much are added.
    pub fn add_all(&mut self, other: &Coverage) -> Result<(), TooOften>
        ensures added { OnOk result (self.new ≡ sums self.old other.now) }
        ensures full { OnErr result (IsTooOften self.old other.now self.new) }
    {
        let counts = other.counts.as_slice();
        for cell in 0..counts.len() {
            match counts[cell] {
                Some(times) => self.add(cell, times)?,
                None => {}
            }
        }
        Ok(())
    }

    /// Writes the counts, a line for each cell that is listed.
    pub fn write<W: fmt::Write>(&self, out: &mut W) -> fmt::Result {
        writeln!(out, "lockup-coverage 1")?;
        for (cell, count) in CELLS.iter().zip(self.counts.as_slice()) {
            if let Some(count) = *count {
                let (table, state) = (cell.state.table(), cell.state.name());
                let (event, outcome) = (cell.event.name(), cell.outcome.name());
                writeln!(out, "{table} {state} {event} {outcome} {count}")?;
            }
        }
        Ok(())
    }
}

impl Cell {
    ghost use Rattle.script_coverage.specs.Counts.{is_met};

    /// Returns what is listed of it before the first step.
    const fn listed(&self, exclusive: Option<bool>) -> Option<u64>
        ensures { result ≡ listed exclusive self.now }
    {
        match exclusive {
            Some(exclusive) if self.is_met(exclusive) => Some(0),
            _ => None,
        }
    }

    /// Whether it can be met under this setting of the exclusive state.
    pub const fn is_met(&self, exclusive: bool) -> bool
        ensures { result ≡ is_met exclusive self.now }
    {
        match (self.state, self.event, self.outcome) {
            (TableState::Cache(CopyState::E), _, _)
            | (_, TableEvent::DataE, _)
            | (TableState::Cache(CopyState::IS_D), TableEvent::FwdGetS | TableEvent::FwdGetM, _)
            | (
                TableState::Directory(DirState::I),
                TableEvent::GetS,
                Outcome::To(TableState::Directory(DirState::M)),
            ) => exclusive,
            (TableState::Directory(DirState::I), TableEvent::GetS, _) => !exclusive,
            _ => true,
        }
    }
}
