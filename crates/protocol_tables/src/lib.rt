//! The protocol's tables, asked of the code: as text, as `docs/PROTOCOL.md` shows them, row by row as values, and cell by
//! cell as JSON.
//!
//! [`write_cache_table`] asks the table of a private cache for each of its cells, [`write_directory_table`] that of a
//! directory, at sample entries. With the exclusive setting a table is whole, and says what only that setting reaches.
//! Without it that is left out. The contracts say what is written byte for byte (`table_of` of specs/Cache.antt and
//! specs/Directory.antt).
//!
//! The functions of `cache_table` and `directory_table` take numbers and sets of cores, and most of these make no
//! difference. [`cache_rule`] and [`directory_rule`] take only what makes one, for any number of cores: how the
//! acknowledgements that have come compare with those that are needed; and who owns and who shares the line, as the
//! core that asks sees it. Their contracts say that this is the row at every event and every entry that look
//! so (`IsCase` of specs/CacheRows.antt, `IsEntry` of specs/DirectoryRows.antt).
//!
//! [`write_cache_cells`] and [`write_directory_cells`] ask for each of these rows, and write an object a line: what is at
//! hand, what is done, and the next state, each as data (`cells_of` of specs/CacheJson.antt and specs/DirectoryJson.antt).
//! So a row is said for any number of cores, and can be read by a program.
//!
//! A call allocates nothing, and one that writes fails only where its writer does.
#![tactic(auto)]

pub use cache::{text_of_effect, write_cache_table};
pub use cache_json::write_cache_cells;
pub use cache_rows::{CacheCase, Counted, accesses, cache_rule, messages, sample_of, states};
pub use directory::{Holders, RowText, text_of_home, write_directory_table};
pub use directory_json::write_directory_cells;
pub use directory_rows::{
    DirCase, DirEffect, DirMessage, DirRule, Entry, Owns, Shares, Sharing, dir_cases,
    directory_rule, entries,
};

mod cache;
mod cache_json;
mod cache_rows;
mod directory;
mod directory_json;
mod directory_rows;
