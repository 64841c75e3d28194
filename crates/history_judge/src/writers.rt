ghost use Rattle.std.specs.Prelude.{◌≡◌, IfOk, IfSome, List, nat_eq};
ghost use Rattle.std.specs.HashMap.{get};
ghost use Rattle.history_judge.specs.Writers.{AreTablesOf, IsTableOf, writer_with};

use super::access::Access;
use address_map::WordAddr;
use std::alloc::{AllocError, Global};
use std::collections::HashMap;

/// Which accesses left a value.
#[derive(Clone, Copy)]
pub enum Writer {
    /// This one alone.
    One(usize),
    /// More than one.
    Several,
}

/// The writer of each value that a history leaves in a word.
#[derive(Drop)]
pub struct Writers {
    map: HashMap<u64, Writer>,
}

impl Writers {
    pub fn of(alloc: Global, word: WordAddr, history: &[Access]) -> Result<Self, AllocError>
        ensures { IfOk result (λ it. IsTableOf it word.0 history.now) }
    {
        let mut map = HashMap::new(alloc);
        for (place, access) in history.iter().enumerate() {
            if let Some(value) = access.left_in(word) {
                let writer = with(map.get(&value).copied(), place);
                map.insert(value, writer)?;
            }
        }
        Ok(Writers { map })
    }

    pub fn get(&self, value: u64) -> Option<Writer>
        ensures { result ≡ get nat_eq self.now.map value }
    {
        self.map.get(&value).copied()
    }
}

/// The writers of each word of a history.
#[derive(Drop)]
pub struct Tables {
    rows: Vec<Row>,
}

#[derive(Drop)]
struct Row {
    word: WordAddr,
    writers: Writers,
}

impl Tables {
    pub fn of(alloc: Global, history: &[Access]) -> Result<Self, AllocError>
        ensures { IfOk result (λ it. AreTablesOf it history.now) }
    {
        let mut tables = Tables {
            rows: Vec::new(alloc),
        };
        for access in history {
            let word = access.word;
            if tables.of_word(word).is_none() {
                let writers = Writers::of(alloc, word, history)?;
                tables.rows.push(Row { word, writers })?;
            }
        }
        Ok(tables)
    }

    pub fn of_word(&self, word: WordAddr) -> Option<&Writers>
        ensures { (history : List Access) → AreTablesOf self.now history
            → IfSome result (λ it. IsTableOf it.now word.0 history) }
    {
        match self.rows.iter().find(|row| row.word.0 == word.0) {
            Some(row) => Some(&row.writers),
            None => None,
        }
    }
}

// Returns the writer of a value that this access left too.
fn with(before: Option<Writer>, place: usize) -> Writer
    ensures { result ≡ writer_with before place }
{
    match before {
        None => Writer::One(place),
        Some(_) => Writer::Several,
    }
}
