//! The protocol's two tables with some of their cells changed, and what `lockup table` prints of them read back.
//!
//! [`Tables`] holds ours under a setting of the exclusive state, and the cells that differ: [`Tables::row`] is the row of
//! a private cache's cell, [`Tables::directory_row`] what the directory does at an entry. A cell is ours unless it is
//! changed (`row_in` of specs/Cache.antt, `rule_in` and `row_at` of specs/Directory.antt). `tables` has the changes,
//! `seen` what a core sees of a directory's entry, and `meaning` what a rule does there.
//!
//! [`read_cache_table`] and [`read_directory_table`] read a printed table with any change of its cells. At Ok the
//! changed table says at each cell of the text what the text says there, and each change is of a cell that says
//! something else than ours (`IsRead` and `IsOfSome` of specs/CacheText.antt and specs/DirectoryText.antt). Which cells a
//! text has is `cells_in` of specs/Layout.antt. A cell's word is refused only where no row says it (`IsRefused`); which
//! invalid cell is named, and how the fault is worded, isn't proved. `layout` finds the cells, `cache_text` and
//! `directory_text` say what a row prints as, `cache_cell` and `directory_cell` find the row, and `cache_reader` and
//! `directory_reader` go over the cells. Reading allocates the cells, and tries each effect of a rule for each
//! changed cell of a directory's table.
#![tactic(auto)]

pub use cache_reader::read_cache_table;
pub use directory_reader::read_directory_table;
pub use fault::{CellFault, TableFault};
pub use numbers::state_number;
pub use tables::{CacheChange, DirectoryChange, Tables};

mod cache_cell;
mod cache_reader;
mod cache_text;
mod change_text;
mod directory_cell;
mod directory_reader;
mod directory_text;
mod fault;
mod layout;
mod meaning;
mod numbers;
mod seen;
mod tables;
mod word;
