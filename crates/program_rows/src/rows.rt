//! The rows of all files, each held once.
ghost use Rattle.std.specs.Prelude.{OnOk, nat_eq};
ghost use Rattle.std.specs.Ordering.{nat_cmp};
ghost use Rattle.std.specs.BTreeMap.{IsOrdered};
ghost use Rattle.std.specs.Cmp.Lexicographic.{pointwise};
ghost use Rattle.std.proofs.Props.{props};
ghost use Rattle.indexmap.specs.IndexMap.{IsUnique};

use super::fault::RowsFault;
use super::heading::{Columns, Heading};
use super::line::{Line, Place, read_line, whole_line};
use indexmap::IndexMap;
use std::alloc::Global;
use std::collections::BTreeMap;

/// The rows that were read so far.
#[derive(Debug, Drop)]
pub struct Rows {
    pub(crate) alloc: Global,
    /// That of the first file.
    pub(crate) heading: Option<Heading>,
    /// The rows of each combination, by its settings. They are in the order in which they first came.
    pub(crate) combinations: IndexMap<Vec<u8>, Combination>,
    // No two have the same settings.
    ghost unique: { IsUnique (λ x y. pointwise nat_eq x.items y.items) combinations } by { Prim.hlevel props },
}

/// The rows of a combination of settings, by their seeds.
#[derive(Debug, Drop)]
pub(crate) struct Combination {
    pub rows: BTreeMap<u64, Row>,
    // No two have the same seed.
    ghost ordered: { IsOrdered nat_cmp rows } by { Prim.hlevel props },
}

/// The counts of a row.
#[derive(Debug, Drop)]
pub(crate) struct Row {
    /// The file that had it first.
    pub file: usize,
    /// None: the field is empty.
    pub counts: Vec<Option<u64>>,
}

impl Rows {
    ghost use Rattle.program_rows.specs.Held.{HoldsRow};

    /// No rows yet.
    pub fn new(alloc: Global) -> Self {
        Rows {
            alloc,
            heading: None,
            combinations: IndexMap::new(alloc),
        }
    }

    /// Adds the rows of the file of this number. At Err those above the line at fault are in.
    pub fn read(&mut self, file: usize, text: &[u8]) -> Result<(), RowsFault> {
        if text.is_empty() {
            return Err(RowsFault::NoRows { file });
        }
        let place = Place { file, line: 1 };
        let Some((line, rest)) = whole_line(text) else {
            return Err(place.cut_off());
        };
        let columns = self.read_heading(file, line)?;
        self.read_rows(file, columns, rest)
    }

    // Reads the first line of a file, which is that of the first file.
    fn read_heading(&mut self, file: usize, line: &[u8]) -> Result<Columns, RowsFault> {
        match &self.heading {
            Some(heading) if heading.text.as_slice() == line => Ok(heading.columns),
            Some(heading) => Err(RowsFault::OtherColumns {
                file,
                other: heading.file,
            }),
            None => {
                let heading = Heading::read(self.alloc, file, line)?;
                let columns = heading.columns;
                self.heading = Some(heading);
                Ok(columns)
            }
        }
    }

    // Adds the rows of the text below a heading.
    fn read_rows(&mut self, file: usize, columns: Columns, text: &[u8]) -> Result<(), RowsFault> {
        let mut rest = text;
        for line in 2..u64::MAX {
            if rest.is_empty() {
                break;
            }
            let place = Place { file, line };
            let Some((text, behind)) = whole_line(rest) else {
                return Err(place.cut_off());
            };
            self.add(file, read_line(self.alloc, place, columns, text)?)?;
            rest = behind;
        }
        Ok(())
    }

    // Adds a row, if it isn't held.
    fn add(&mut self, file: usize, line: Line<'_>) -> Result<(), RowsFault>
        ensures { OnOk result (HoldsRow line.entry.settings.now line.entry.seed line.entry.counts.items self.new) }
    {
        let Line {
            settings,
            seed,
            counts,
        } = line;
        let row = Row { file, counts };
        match self.combinations.get_mut(settings) {
            Some(combination) => combination.add(seed, row),
            None => {
                let mut combination = Combination::new(self.alloc);
                combination.add(seed, row)?;
                let settings = Vec::from_slice(self.alloc, settings)?;
                self.combinations.insert(settings, combination)?;
                Ok(())
            }
        }
    }
}

impl Combination {
    ghost use Rattle.program_rows.specs.Held.{IsHeld};

    fn new(alloc: Global) -> Self {
        Combination {
            rows: BTreeMap::new(alloc),
        }
    }

    // Adds a row, if it isn't held.
    fn add(&mut self, seed: u64, row: Row) -> Result<(), RowsFault>
        ensures { OnOk result (IsHeld seed row.counts.items self.old.rows self.new.rows) }
    {
        let Some(held) = self.rows.get(&seed) else {
            self.rows.insert(seed, row)?;
            return Ok(());
        };
        if held.counts.as_slice() != row.counts.as_slice() {
            return Err(RowsFault::OtherFigures {
                file: row.file,
                other: held.file,
                seed,
            });
        }
        Ok(())
    }
}
