//! What a change says, in the words of the printed tables.

use super::cache_text::{row_text, title_of as cache_title};
use super::directory_text::{row_at_sample, sample_of, title_of as directory_title};
use super::tables::{CacheChange, DirectoryChange};
use protocol_tables::RowText;
use std::fmt;

impl fmt::Display for CacheChange {
    /// As `cache S, Inv: Inv-Ack; S`.
    fn fmt<W: fmt::Write>(&self, f: &mut fmt::Formatter<W>) -> fmt::Result {
        let title = cache_title(self.case);
        let (effect, next) = row_text(self.case, self.row);
        write!(f, "cache {}, {title}: {effect}{next}", self.state)
    }
}

impl fmt::Display for DirectoryChange {
    /// As `directory S, sharers x, GetM of r: Data(0); M, owner r`.
    fn fmt<W: fmt::Write>(&self, f: &mut fmt::Formatter<W>) -> fmt::Result {
        let (entry, title) = (sample_of(self.entry), directory_title(self.case));
        let row = RowText(row_at_sample(self.entry, self.rule));
        write!(f, "directory {entry}, {title}: {row}")
    }
}
