ghost use Rattle.std.specs.Prelude.{◌≡◌, ◌<◌, ◌≤◌, ◌+◌, ◌==◌, [], ◌∷◌, true, false, nat_lt, not, if◌then◌else◌, length};
ghost use Rattle.std.specs.Prelude.{filter, map, IfOk, replicate, slice_index_or};
ghost use Rattle.std.specs.Box.{boxed_slice_items};
ghost use Rattle.std.specs.List.{list_any, position};
ghost use Rattle.target_list.specs.Target.{front_loads};
ghost use Rattle.mshr_file.specs.Miss.{is_waited, waited_lines, targets_of, has_miss, AddsTarget, TakesTargets, IsMissFile};
ghost use Rattle.mshr_file.specs.Register.{IsKept, registers_in, open_in, serves, no_register, row_of, no_row};
ghost use Rattle.mshr_file.specs.Register.{row_serves, is_free_row};

use address_map::Local;
use arrayvec::ArrayVec;
use std::alloc::{AllocError, Global};
use std::boxed::BoxedSlice;
use target_list::{Target, TargetList};

/// A miss register: the line that is waited for, and the accesses that wait for it. It is free while it has no target.
#[derive(Drop)]
pub struct Register {
    pub targets: TargetList,
    pub line: Local,
}

impl Register {
    pub fn free() -> Self
        ensures { result ≡ no_register }
    {
        Register {
            targets: TargetList::new(),
            line: Local(0),
        }
    }

    /// What its row says.
    pub fn row(&self) -> Row
        ensures value { result ≡ row_of self.now }
        ensures few { result.waiting ≤ 64 }
    {
        Row {
            line: self.line,
            waiting: self.targets.len(),
        }
    }
}

/// The same line and targets.
impl Clone for Register {
    ghost use Rattle.std.specs.Prelude.{◌≡◌};

    ghost is_clone = { λ register copy. copy ≡ register };

    fn clone(&self) -> Result<Self, AllocError> {
        Ok(Register {
            targets: self.targets.clone()?,
            line: self.line,
        })
    }
}

/// What a search reads of a register: its line, and how many targets it has.
#[derive(Clone, Copy, Debug)]
pub struct Row {
    pub line: Local,
    pub waiting: usize,
}

impl Row {
    pub fn free() -> Self
        ensures { result ≡ no_row }
    {
        Row {
            line: Local(0),
            waiting: 0,
        }
    }

    pub fn is_free(&self) -> bool
        ensures { result ≡ is_free_row self.now }
    {
        self.waiting == 0
    }

    /// Whether its register is open and for this line.
    pub fn serves(&self, line: Local) -> bool
        ensures { result ≡ row_serves line.0 self.now }
    {
        !self.is_free() && self.line == line
    }
}

/// Registers, and a row for each of them. Registers are large, and are far apart: a search looks at the rows alone, and
/// at none while no register is open.
#[derive(Drop)]
pub struct RegisterTable {
    pub rows: BoxedSlice<Row>,
    pub registers: BoxedSlice<Register>,
    /// How many registers are open.
    pub open_count: usize,
}

impl RegisterTable {
    /// Allocates a table of free registers.
    pub fn make(alloc: Global, count: usize) -> Result<Self, AllocError>
        ensures kept { IfOk result IsKept }
        ensures free { IfOk result (λ table. registers_in table ≡ replicate count no_register) }
    {
        let rows = free_rows(alloc, count)?;
        let registers = free_registers(alloc, count)?;
        Ok(RegisterTable {
            rows,
            registers,
            open_count: 0,
        })
    }

    /// The same registers, in memory of their own.
    pub fn try_clone(&self, alloc: Global) -> Result<Self, AllocError>
        requires { IsKept self.now }
        ensures kept { IfOk result IsKept }
        ensures same { IfOk result (λ copy. registers_in copy ≡ registers_in self.now) }
    {
        let rows = Vec::from_slice(alloc, self.rows.as_slice())?;
        let registers = Vec::from_clones(alloc, self.registers.as_slice())?;
        Ok(RegisterTable {
            rows: rows.into_boxed_slice(),
            registers: registers.into_boxed_slice(),
            open_count: self.open_count,
        })
    }

    /// Whether a register is free.
    pub fn has_free(&self) -> bool
        requires { IsKept self.now }
        ensures { result ≡ nat_lt (length (open_in self.now)) (length (registers_in self.now)) }
    {
        self.open_count < self.registers.len()
    }

    /// Whether there is a register for the line.
    pub fn find(&self, line: Local) -> bool
        requires { IsKept self.now }
        ensures served { result ≡ has_miss (open_in self.now) line.0 }
        ensures sound { IsMissFile (open_in self.now) }
    {
        self.search(line).is_some()
    }

    /// How many targets wait for the line.
    pub fn waiting(&self, line: Local) -> usize
        requires { IsKept self.now }
        ensures count { result ≡ length (targets_of (open_in self.now) line.0) }
        ensures few { result ≤ 64 }
    {
        match self.search(line) {
            Some(place) => self.rows[place].waiting,
            None => 0,
        }
    }

    /// How many loads the targets of the line begin with.
    pub fn front_loads(&self, line: Local) -> usize
        requires { IsKept self.now }
        ensures count { result ≡ length (front_loads (targets_of (open_in self.now) line.0)) }
        ensures within { result ≤ length (targets_of (open_in self.now) line.0) }
    {
        match self.search(line) {
            Some(place) => self.registers[place].targets.front_loads(),
            None => 0,
        }
    }

    /// The targets of the line.
    pub fn targets(&self, line: Local) -> ArrayVec<Target, 64>
        requires { IsKept self.now }
        ensures { result.items ≡ targets_of (open_in self.now) line.0 }
    {
        match self.search(line) {
            Some(place) => self.registers[place].targets.to_vec(),
            None => ArrayVec::new(),
        }
    }

    /// The lines of the open registers.
    pub fn lines(&self, alloc: Global) -> Result<Vec<Local>, AllocError>
        requires { IsKept self.now }
        ensures { IfOk result (λ lines. lines.items ≡ waited_lines (open_in self.now)) }
    {
        lines_in_use(alloc, &self.rows)
    }

    /// How many registers are open.
    pub fn count_open(&self) -> usize
        requires { IsKept self.now }
        ensures { result ≡ length (open_in self.now) }
    {
        self.open_count
    }

    /// Opens a free register for the line.
    pub fn open(&mut self, line: Local, target: Target)
        requires kept { IsKept self.old }
        requires unserved { has_miss (open_in self.old) line.0 ≡ false }
        requires room { length (open_in self.old) < length (registers_in self.old) }
        ensures kept { IsKept self.new }
        ensures added { AddsTarget (open_in self.old) (open_in self.new) line.0 target }
        ensures count { length (open_in self.new) ≡ length (open_in self.old) + 1 }
        ensures sound { IsMissFile (open_in self.new) }
        ensures size { length (registers_in self.new) ≡ length (registers_in self.old) }
    {
        let place = self.free_place();
        let register = &mut self.registers[place];
        register.line = line;
        register.targets.push(target);
        let row = register.row();
        self.rows[place] = row;
        self.open_count += 1;
    }

    /// Adds a target to the line's register.
    pub fn join(&mut self, line: Local, target: Target)
        requires kept { IsKept self.old }
        requires served { has_miss (open_in self.old) line.0 ≡ true }
        requires room { length (targets_of (open_in self.old) line.0) < 64 }
        ensures kept { IsKept self.new }
        ensures added { AddsTarget (open_in self.old) (open_in self.new) line.0 target }
        ensures count { length (open_in self.new) ≡ length (open_in self.old) }
        ensures sound { IsMissFile (open_in self.new) }
        ensures size { length (registers_in self.new) ≡ length (registers_in self.old) }
    {
        let place = self.place_of(line);
        let register = &mut self.registers[place];
        register.targets.push(target);
        let row = register.row();
        self.rows[place] = row;
    }

    /// Takes the first target of the line's register.
    pub fn take_first(&mut self, line: Local) -> Target
        requires kept { IsKept self.old }
        requires served { has_miss (open_in self.old) line.0 ≡ true }
        ensures kept { IsKept self.new }
        ensures taken { TakesTargets (open_in self.old) (open_in self.new) line.0
            (result ∷ []) }
        ensures count { length (open_in self.old)
            ≡ length (open_in self.new)
            + (if has_miss (open_in self.new) line.0 then 0 else 1) }
        ensures sound { IsMissFile (open_in self.new) }
        ensures size { length (registers_in self.new) ≡ length (registers_in self.old) }
    {
        let place = self.place_of(line);
        let register = &mut self.registers[place];
        let first = register.targets.take_first();
        let row = register.row();
        self.rows[place] = row;
        self.open_count -= usize::from(row.is_free());
        first
    }

    /// Takes the loads at the front of the line's register.
    pub fn take_loads(&mut self, line: Local) -> ArrayVec<Target, 64>
        requires kept { IsKept self.old }
        requires served { has_miss (open_in self.old) line.0 ≡ true }
        ensures kept { IsKept self.new }
        ensures loads { result.items ≡ front_loads (targets_of (open_in self.old) line.0) }
        ensures taken { TakesTargets (open_in self.old) (open_in self.new) line.0 result.items }
        ensures count { length (open_in self.old)
            ≡ length (open_in self.new)
            + (if has_miss (open_in self.new) line.0 then 0 else 1) }
        ensures sound { IsMissFile (open_in self.new) }
        ensures size { length (registers_in self.new) ≡ length (registers_in self.old) }
    {
        let place = self.place_of(line);
        let register = &mut self.registers[place];
        let loads = register.targets.take_loads();
        let row = register.row();
        self.rows[place] = row;
        self.open_count -= usize::from(row.is_free());
        loads
    }

    /// Takes all targets of the line's register.
    pub fn close(&mut self, line: Local) -> ArrayVec<Target, 64>
        requires kept { IsKept self.old }
        requires served { has_miss (open_in self.old) line.0 ≡ true }
        ensures kept { IsKept self.new }
        ensures all { result.items ≡ targets_of (open_in self.old) line.0 }
        ensures taken { TakesTargets (open_in self.old) (open_in self.new) line.0 result.items }
        ensures count { length (open_in self.old) ≡ length (open_in self.new) + 1 }
        ensures sound { IsMissFile (open_in self.new) }
        ensures size { length (registers_in self.new) ≡ length (registers_in self.old) }
    {
        let place = self.place_of(line);
        let register = &mut self.registers[place];
        let all = register.targets.take_all();
        let row = register.row();
        self.rows[place] = row;
        self.open_count -= 1;
        all
    }

    /// Returns where the line's row is, if it has one.
    fn search(&self, line: Local) -> Option<usize>
        requires { IsKept self.now }
        ensures { result ≡ position (row_serves line.0) (boxed_slice_items self.now.rows) }
    {
        if self.open_count == 0 {
            return None;
        }
        first_serving(&self.rows, line)
    }

    /// The place of the register for the line.
    fn place_of(&self, line: Local) -> usize
        requires kept { IsKept self.now }
        requires served { has_miss (open_in self.now) line.0 ≡ true }
        ensures row { result < length (boxed_slice_items self.now.rows) }
        ensures inside { result < length (registers_in self.now) }
        ensures serves { serves line.0 (slice_index_or (registers_in self.now) result no_register) ≡ true }
    {
        first_serving(&self.rows, line).unwrap()
    }

    /// The place of the first register that is free.
    fn free_place(&self) -> usize
        requires kept { IsKept self.now }
        requires room { length (open_in self.now) < length (registers_in self.now) }
        ensures row { result < length (boxed_slice_items self.now.rows) }
        ensures inside { result < length (registers_in self.now) }
        ensures free { is_waited (slice_index_or (registers_in self.now) result no_register).targets ≡ false }
    {
        first_free(&self.rows).unwrap()
    }
}

fn free_registers(alloc: Global, count: usize) -> Result<BoxedSlice<Register>, AllocError>
    ensures { IfOk result (λ registers. boxed_slice_items registers ≡ replicate count no_register) }
{
    let mut registers = Vec::with_capacity(alloc, count)?;
    for _ in 0..count {
        registers.push(Register::free())?;
    }
    Ok(registers.into_boxed_slice())
}

fn free_rows(alloc: Global, count: usize) -> Result<BoxedSlice<Row>, AllocError>
    ensures { IfOk result (λ rows. boxed_slice_items rows ≡ replicate count no_row) }
{
    let mut rows = Vec::with_capacity(alloc, count)?;
    for _ in 0..count {
        rows.push(Row::free())?;
    }
    Ok(rows.into_boxed_slice())
}

/// The lines of the rows that aren't free.
fn lines_in_use(alloc: Global, rows: &[Row]) -> Result<Vec<Local>, AllocError>
    ensures { IfOk result (λ lines. lines.items
        ≡ map (λ row. row.line) (filter (λ row. not (is_free_row row)) rows.now)) }
{
    let mut lines = Vec::new(alloc);
    for row in rows {
        if row.is_free() {
            continue;
        }
        lines.push(row.line)?;
    }
    Ok(lines)
}

fn first_serving(rows: &[Row], line: Local) -> Option<usize>
    ensures { result ≡ position (row_serves line.0) rows.now }
{
    rows.iter().position(|row| row.serves(line))
}

fn first_free(rows: &[Row]) -> Option<usize>
    ensures { result ≡ position is_free_row rows.now }
{
    rows.iter().position(|row| row.is_free())
}
