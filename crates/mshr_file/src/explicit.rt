ghost use Rattle.std.specs.Prelude.{length};
ghost use Rattle.mshr_file.specs.Register.{misses_of};

use super::admission::Admission;
use super::miss_file::MissFile;
use super::registers::RegisterTable;
use address_map::{Checked, Local};
use arrayvec::ArrayVec;
use std::alloc::{AllocError, Global};
use std::marker::Model;
use target_list::Target;

/// Miss registers with explicitly addressed targets: `mshrs` of them, with `targets` fields each.
#[derive(Drop)]
pub struct ExplicitFile {
    table: RegisterTable,
    fields: usize,
}

impl Model for ExplicitFile {
    ghost use Rattle.mshr_file.specs.Register.{Table, IsTable, IsKept, registers_in};

    ghost Value = { Table };

    ghost view = { λ file. record { registers = registers_in file.table; fields = file.fields } };

    ghost invariant = { λ file. IsTable (record { registers = registers_in file.table; fields = file.fields })
        × IsKept file.table };
}

impl MissFile for ExplicitFile {
    ghost use Rattle.mshr_file.specs.Miss.{registers, registers_of};

    ghost misses = { λ file. misses_of file.registers };

    ghost bound = { λ file. registers (length file.registers) file.fields };

    ghost bound_by = { registers_of };

    fn make(alloc: Global, config: &Checked) -> Result<Self, AllocError> {
        let fields = config.targets();
        let table = RegisterTable::make(alloc, config.mshrs())?;
        Ok(ExplicitFile { table, fields })
    }

    fn try_clone(&self, alloc: Global) -> Result<Self, AllocError> {
        let table = self.table.try_clone(alloc)?;
        Ok(ExplicitFile {
            table,
            fields: self.fields,
        })
    }

    fn find(&self, line: Local) -> bool {
        self.table.find(line)
    }

    fn room_open(&self, _tag: u8) -> bool {
        self.table.has_free()
    }

    fn room_join(&self, line: Local, _tag: u8) -> bool {
        self.table.waiting(line) < self.fields
    }

    fn waiting(&self, line: Local) -> usize {
        self.table.waiting(line)
    }

    fn front_loads(&self, line: Local) -> usize {
        self.table.front_loads(line)
    }

    fn targets(&self, line: Local) -> ArrayVec<Target, 64> {
        self.table.targets(line)
    }

    fn lines(&self, alloc: Global) -> Result<Vec<Local>, AllocError> {
        self.table.lines(alloc)
    }

    fn admit(&self, line: Local, _tag: u8) -> Admission {
        let used = self.table.waiting(line);
        if used > 0 {
            if used < self.fields {
                Admission::Join
            } else {
                Admission::NoTarget
            }
        } else if self.table.has_free() {
            Admission::Open
        } else {
            Admission::NoRegister
        }
    }

    fn open(&mut self, line: Local, target: Target) {
        self.table.open(line, target);
    }

    fn join(&mut self, line: Local, target: Target) {
        self.table.join(line, target);
    }

    fn take_first(&mut self, line: Local) -> Target {
        self.table.take_first(line)
    }

    fn take_loads(&mut self, line: Local) -> ArrayVec<Target, 64> {
        self.table.take_loads(line)
    }

    fn close(&mut self, line: Local) -> ArrayVec<Target, 64> {
        self.table.close(line)
    }

    fn registers(&self) -> usize {
        self.table.count_open()
    }
}
