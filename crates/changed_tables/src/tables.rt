//! Cells that differ from ours.

ghost use Rattle.std.specs.Prelude.{◌≡◌, [], IfSome};
ghost use Rattle.changed_tables.specs.Cache.{is_at as is_cache_at, row_in};
ghost use Rattle.changed_tables.specs.Directory.{is_at as is_directory_at, row_at, rule_in};
ghost use Rattle.directory_table.specs.Row.{cell};

use super::meaning::meaning_of;
use super::numbers::{case_number, dir_case_number, entry_number, state_number};
use super::seen::{entry_seen, entry_unasked};
use address_map::{CoreId, CoreSet};
use cache_table::{CopyState, Row};
use directory_table::{DirEvent, DirRow, DirState};
use protocol_tables::{CacheCase, DirCase, DirRule, Entry, cache_rule, directory_rule};
use std::alloc::Global;

/// A cell of the cache's table, with the row that is there instead of ours.
#[derive(Clone, Copy, Debug, PartialEq, Eq)]
pub struct CacheChange {
    pub state: CopyState,
    pub case: CacheCase,
    pub row: Row,
}

/// A cell of the directory's table, with the rule that is there instead of ours.
#[derive(Clone, Copy, Debug, PartialEq, Eq)]
pub struct DirectoryChange {
    pub entry: Entry,
    pub case: DirCase,
    pub rule: DirRule,
}

/// Both tables: ours under a setting of the exclusive state, but for some cells. Of two changes of one cell the first in
/// the list counts.
#[derive(Clone, Debug, Drop)]
pub struct Tables {
    pub exclusive: bool,
    pub cache: Vec<CacheChange>,
    pub directory: Vec<DirectoryChange>,
}

impl CacheChange {
    /// Whether it is of this cell.
    pub const fn is_at(self, state: CopyState, case: CacheCase) -> bool
        ensures { result ≡ is_cache_at self state case }
    {
        state_number(self.state) == state_number(state)
            && case_number(self.case) == case_number(case)
    }
}

impl DirectoryChange {
    /// Whether it is of this cell.
    pub const fn is_at(self, entry: Entry, case: DirCase) -> bool
        ensures { result ≡ is_directory_at self entry case }
    {
        entry_number(self.entry) == entry_number(entry)
            && dir_case_number(self.case) == dir_case_number(case)
    }
}

impl Tables {
    /// Our tables, with no cell changed.
    pub fn ours(alloc: Global, exclusive: bool) -> Self
        ensures exclusive { result.exclusive ≡ exclusive }
        ensures cache { result.cache.items ≡ [] }
        ensures directory { result.directory.items ≡ [] }
    {
        Tables {
            exclusive,
            cache: Vec::new(alloc),
            directory: Vec::new(alloc),
        }
    }

    /// The row of a cell: that of the first change of it, and ours where there is none.
    pub fn row(&self, state: CopyState, case: CacheCase) -> Row
        ensures { result ≡ row_in self.now.cache.items state case }
    {
        for change in &self.cache {
            if change.is_at(state, case) {
                return change.row;
            }
        }
        cache_rule(state, case)
    }

    /// The rule of a cell: that of the first change of it, and ours where there is none.
    pub fn rule(&self, entry: Entry, case: DirCase) -> DirRule
        ensures { result ≡ rule_in self.now.exclusive self.now.directory.items entry case }
    {
        for change in &self.directory {
            if change.is_at(entry, case) {
                return change.rule;
            }
        }
        directory_rule(self.exclusive, entry, case)
    }

    /// What the directory does at an entry. It is None where the table has no such entry: in S a line has sharers, in M
    /// it has an owner, and elsewhere it has none.
    pub fn directory_row(
        &self,
        state: DirState,
        owner: Option<CoreId>,
        sharers: CoreSet,
        event: DirEvent,
    ) -> Option<DirRow>
        ensures row { result ≡ row_at self.now.exclusive self.now.directory.items state owner sharers event }
        ensures ours { self.now.directory.items ≡ []
            → IfSome result (λ row. row ≡ cell self.now.exclusive state owner sharers event) }
    {
        self.row_at(state, owner, sharers, event)
    }

    fn row_at(
        &self,
        state: DirState,
        owner: Option<CoreId>,
        sharers: CoreSet,
        event: DirEvent,
    ) -> Option<DirRow>
        ensures { result ≡ row_at self.now.exclusive self.now.directory.items state owner sharers event }
    {
        let (case, asker, seen) = match event {
            DirEvent::GetS(asker) => (
                DirCase::GetS,
                asker,
                entry_seen(state, owner, sharers, asker),
            ),
            DirEvent::GetM(asker) => (
                DirCase::GetM,
                asker,
                entry_seen(state, owner, sharers, asker),
            ),
            DirEvent::PutS(asker) => (
                DirCase::PutS,
                asker,
                entry_seen(state, owner, sharers, asker),
            ),
            DirEvent::PutM(asker) => (
                DirCase::PutM,
                asker,
                entry_seen(state, owner, sharers, asker),
            ),
            DirEvent::DataHome => (
                DirCase::DataHome,
                CoreId(0),
                entry_unasked(state, owner, sharers),
            ),
        };
        let entry = seen?;
        Some(meaning_of(self.rule(entry, case), owner, sharers, asker))
    }
}
