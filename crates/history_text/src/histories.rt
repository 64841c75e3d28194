//! The histories of words or of lines, an access at a time.
ghost use Rattle.std.specs.Prelude.{◌≡◌, ℕ, ◌==◌, ◌++◌, ◌∷◌, [], ◌<◌, List, OnOk, if◌then◌else◌, length};
ghost use Rattle.std.specs.Option.{option_map};
ghost use Rattle.history_text.specs.Histories.{AreTold, accesses_at, accesses_of, given_at, inits_at, inits_of, row_of, value_in};
ghost use Rattle.history_text.specs.declared.history_line.HistoryLine.{HistoryLine};

use super::extent::Extent;
use super::history_line::HistoryLine;
use address_map::WordAddr;
use history_judge::Access;
use std::alloc::{AllocError, Global};

/// The history of a word, or of the words of a line.
#[derive(Debug, Drop)]
pub struct History {
    /// The initial values of words that were given one: others begin with 0.
    pub given: Vec<(WordAddr, u64)>,
    /// The accesses, each core's in its order.
    pub accesses: Vec<Access>,
    /// The number under which each of them is reported: that of its line, if they are read from a text.
    pub numbers: Vec<usize>,
}

/// The histories of words or of lines.
#[derive(Debug, Drop)]
pub struct Histories {
    /// By word or by line, up to the last with a history.
    pub(super) rows: Vec<History>,
    pub(super) extent: Extent,
    pub(super) alloc: Global,
}

impl Histories {
    /// Creates empty histories.
    pub fn new(alloc: Global, extent: Extent) -> Self
        ensures told { AreTold result [] }
        ensures extent { result.extent ≡ extent }
    {
        Histories {
            rows: Vec::new(alloc),
            extent,
            alloc,
        }
    }

    /// Returns which words are judged together.
    pub fn extent(&self) -> Extent
        ensures { result ≡ self.now.extent }
    {
        self.extent
    }

    /// Returns the history of the word or the line with this number, if it has one.
    pub fn history(&self, row: u64) -> Option<&History>
        ensures given { inits_of (option_map (λ it. it.now) result) ≡ inits_at self.now row }
        ensures accesses { accesses_of (option_map (λ it. it.now) result) ≡ accesses_at self.now row }
    {
        self.rows.get(row as usize)
    }

    /// Returns the initial value that a word was given.
    pub fn given(&self, word: WordAddr) -> Option<u64>
        ensures { result ≡ given_at self.now word.0 }
    {
        match self.rows.get(self.extent.row_of(word) as usize) {
            Some(history) => value_in(&history.given, word),
            None => None,
        }
    }

    /// Gives a word its initial value. If it was given one, that stays its value.
    pub fn begin(&mut self, word: WordAddr, value: u64) -> Result<(), AllocError>
        ensures inits { OnOk result ((r : ℕ) → inits_at self.new r ≡ (if row_of self.old.extent word.0 == r
            then inits_at self.old r ++ (word, value) ∷ [] else inits_at self.old r)) }
        ensures accesses { OnOk result ((r : ℕ) → accesses_at self.new r ≡ accesses_at self.old r) }
        ensures extent { self.new.extent ≡ self.old.extent }
    {
        let row = self.extent.row_of(word) as usize;
        self.make_room(row)?;
        self.rows[row].given.push((word, value))?;
        Ok(())
    }

    /// Takes the next access, which is reported under this number.
    pub fn take(&mut self, access: Access, number: usize) -> Result<(), AllocError>
        ensures inits { OnOk result ((r : ℕ) → inits_at self.new r ≡ inits_at self.old r) }
        ensures accesses { OnOk result ((r : ℕ) → accesses_at self.new r
            ≡ (if row_of self.old.extent access.word.0 == r then accesses_at self.old r ++ access ∷ []
            else accesses_at self.old r)) }
        ensures extent { self.new.extent ≡ self.old.extent }
    {
        let row = self.extent.row_of(access.word) as usize;
        self.make_room(row)?;
        self.rows[row].accesses.push(access)?;
        self.rows[row].numbers.push(number)?;
        Ok(())
    }

    /// Takes one more line.
    #[tactic(auto, using(crate::proofs::Rows::told_access, crate::proofs::Rows::told_init))]
    pub(super) fn tell(&mut self, line: HistoryLine, number: usize) -> Result<(), AllocError>
        ensures told { OnOk result ((told : List HistoryLine) → AreTold self.old told
            → AreTold self.new (told ++ line ∷ [])) }
        ensures extent { self.new.extent ≡ self.old.extent }
    {
        match line {
            HistoryLine::Init(word, value) => self.begin(word, value)?,
            HistoryLine::Access(access) => self.take(access, number)?,
        }
        Ok(())
    }

    // Makes room for the row.
    fn make_room(&mut self, row: usize) -> Result<(), AllocError>
        ensures there { OnOk result (row < length self.new.rows.items) }
        ensures inits { (r : ℕ) → inits_at self.new r ≡ inits_at self.old r }
        ensures accesses { (r : ℕ) → accesses_at self.new r ≡ accesses_at self.old r }
        ensures extent { self.new.extent ≡ self.old.extent }
    {
        'room: while self.rows.len() <= row {
            let history = History {
                given: Vec::new(self.alloc),
                accesses: Vec::new(self.alloc),
                numbers: Vec::new(self.alloc),
            };
            self.rows.push(history)?;
        }
        Ok(())
    }
}

// Returns the first value that the word has among these.
fn value_in(given: &[(WordAddr, u64)], word: WordAddr) -> Option<u64>
    ensures { result ≡ value_in given.now word.0 }
{
    given
        .iter()
        .find(|pair| pair.0.0 == word.0)
        .map(|pair| pair.1)
}
