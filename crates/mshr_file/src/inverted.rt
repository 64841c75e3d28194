use super::admission::Admission;
use super::entry_table::EntryTable;
use super::miss_file::MissFile;
use super::waiting::Waiting;
use address_map::{Checked, Local};
use arrayvec::ArrayVec;
use std::alloc::{AllocError, Global};
use std::marker::Model;
use target_list::Target;

/// An entry for each tag of the core, 0 to 63, with the access that waits under it. A look goes over the entries that
/// are in use, in the order in which they came.
#[derive(Drop)]
pub struct InvertedFile {
    table: EntryTable,
    /// How many lines are waited for.
    lines: usize,
}

impl Model for InvertedFile {
    ghost use Rattle.std.specs.Prelude.{◌≡◌, List, length};
    ghost use Rattle.mshr_file.specs.declared.waiting.Waiting.{Waiting};
    ghost use Rattle.mshr_file.specs.Waiting.{IsEntryTable, waiting_in, by_line};

    ghost Value = { List Waiting };

    ghost view = { λ file. waiting_in file.table };

    ghost invariant = { λ file. IsEntryTable file.table × (file.lines ≡ length (by_line (waiting_in file.table))) };
}

impl InvertedFile {
    ghost use Rattle.std.specs.Prelude.{◌≡◌, ◌<◌, find};
    ghost use Rattle.std.specs.Option.{option_copied};
    ghost use Rattle.mshr_file.specs.Miss.{has_tag, HasEachTagOnce};
    ghost use Rattle.mshr_file.specs.Waiting.{by_line};

    /// What waits under a tag.
    pub fn entry(&self, tag: u8) -> Option<&Waiting>
        ensures held { option_copied result ≡ find (λ entry. has_tag tag entry.target) self.now }
        ensures once { HasEachTagOnce (by_line self.now) }
    {
        self.table.entry(tag)
    }
}

impl MissFile for InvertedFile {
    ghost use Rattle.mshr_file.specs.Miss.{tags};
    ghost use Rattle.mshr_file.specs.Waiting.{by_line};

    ghost misses = { by_line };

    ghost bound = { λ _. tags };

    ghost bound_by = { λ _. tags };

    fn make(_alloc: Global, _config: &Checked) -> Result<Self, AllocError> {
        let table = EntryTable::new();
        Ok(InvertedFile { table, lines: 0 })
    }

    fn try_clone(&self, _alloc: Global) -> Result<Self, AllocError> {
        let table = self.table.copy();
        Ok(InvertedFile {
            table,
            lines: self.lines,
        })
    }

    fn find(&self, line: Local) -> bool {
        self.table.waits(line)
    }

    fn room_open(&self, tag: u8) -> bool {
        self.table.has_free(tag)
    }

    fn room_join(&self, _line: Local, tag: u8) -> bool {
        self.table.has_free(tag)
    }

    fn waiting(&self, line: Local) -> usize {
        self.table.count_at_line(line)
    }

    fn front_loads(&self, line: Local) -> usize {
        self.table.count_front_loads(line)
    }

    fn targets(&self, line: Local) -> ArrayVec<Target, 64> {
        self.table.targets(line)
    }

    fn lines(&self, alloc: Global) -> Result<Vec<Local>, AllocError> {
        self.table.lines(alloc)
    }

    fn admit(&self, line: Local, tag: u8) -> Admission {
        let free = self.room_open(tag);
        match (self.find(line), free) {
            (true, true) => Admission::Join,
            (true, false) => Admission::NoTarget,
            (false, true) => Admission::Open,
            (false, false) => Admission::NoRegister,
        }
    }

    fn open(&mut self, line: Local, target: Target) {
        self.table.push(line, target);
        self.lines += 1;
    }

    fn join(&mut self, line: Local, target: Target) {
        self.table.push(line, target);
    }

    fn take_first(&mut self, line: Local) -> Target {
        let first = self.table.take_first(line);
        if !self.table.waits(line) {
            self.lines -= 1;
        }
        first
    }

    fn take_loads(&mut self, line: Local) -> ArrayVec<Target, 64> {
        let count = self.table.count_front_loads(line);
        let loads = self.table.take(line, count);
        if !self.table.waits(line) {
            self.lines -= 1;
        }
        loads
    }

    fn close(&mut self, line: Local) -> ArrayVec<Target, 64> {
        let count = self.table.count_at_line(line);
        let all = self.table.take(line, count);
        self.lines -= 1;
        all
    }

    fn registers(&self) -> usize {
        self.lines
    }
}
