//! What is said of a step besides its row: whether the row is ours, what a write does that has joined, and which
//! messages a changed cell doesn't take.

use super::line::Line;
use super::step::{Met, Step};
use address_map::{Block, CoreId};
use cache_table::{CopyState, Row};
use changed_tables::Tables;
use directory_table::{DirEntry, DirEvent, DirRow, dir_row};
use protocol_tables::{CacheCase, cache_rule};

/// Whether our table has another row at the cell.
pub fn is_changed(tables: &Tables, line: &Line, met: &Met) -> bool {
    match met {
        Met::Cache {
            state,
            case,
            row,
            ..
        } => *row != cache_rule(*state, *case),
        Met::Directory { event, row } => *row != our_row(tables.exclusive, line, *event),
        Met::Joins(_) => false,
    }
}

fn our_row(exclusive: bool, line: &Line, event: DirEvent) -> DirRow {
    let entry = DirEntry {
        home: Block::zero(),
        sharers: line.sharers,
        owner: line.owner,
        state: line.state,
    };
    dir_row(exclusive, &entry, event)
}

/// The row of a write that has joined a load's miss and continues with its data, and whether our table has another.
pub(crate) fn joined_row(tables: &Tables, line: &Line, met: &Met) -> Option<(Row, bool)> {
    match met {
        Met::Cache {
            core,
            state: CopyState::IS_D,
            case: CacheCase::Data(_),
            row: Row::Go(CopyState::S, _),
        } if line.side(*core).joined => {
            let row = tables.row(CopyState::S, CacheCase::Write);
            Some((row, row != cache_rule(CopyState::S, CacheCase::Write)))
        }
        _ => None,
    }
}

/// Returns the steps by which messages of the core, or to it, are taken first in first out.
pub(crate) const fn deliveries_to(core: CoreId) -> [Step; 3] {
    [
        Step::TakeRequest(core),
        Step::TakeForwarded(core),
        Step::TakeData(core),
    ]
}

/// The cell, with its row, where a message waits that would be taken under our tables.
pub(crate) fn blocked_by_change(
    ours: &Tables,
    tables: &Tables,
    line: &Line,
    step: Step,
) -> Option<Met> {
    let by_ours = line.meets(ours, step)?;
    match line.meets(tables, step) {
        Some(_) => None,
        None => Some(blocked(by_ours)),
    }
}

fn blocked(met: Met) -> Met {
    match met {
        Met::Cache {
            core,
            state,
            case,
            ..
        } => Met::Cache {
            core,
            state,
            case,
            row: Row::Blocked,
        },
        Met::Directory { event, .. } => Met::Directory {
            event,
            row: DirRow::Blocked,
        },
        Met::Joins(core) => Met::Joins(core),
    }
}
