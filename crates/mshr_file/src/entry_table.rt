ghost use Rattle.std.specs.Prelude.{◌≡◌, ◌+◌, ◌<◌, ◌≤◌, true, if◌then◌else◌, [], ◌∷◌, filter, find, length, map, take};
ghost use Rattle.std.specs.Prelude.{◌==◌, IfOk, OnOk};
ghost use Rattle.std.specs.List.{list_any, prefix_len, position};
ghost use Rattle.std.specs.Option.{option_copied};
ghost use Rattle.target_list.specs.Target.{front_loads};
ghost use Rattle.mshr_file.specs.Miss.{has_miss, has_tag, is_free, targets_of, waited_lines, AddsTarget, IsMissFile};
ghost use Rattle.mshr_file.specs.Miss.{TakesTargets};
ghost use Rattle.mshr_file.specs.Waiting.{at_line, by_line, entry_at, waiting_in, waits_for, slot_for, IsEntryTable};
ghost use Rattle.mshr_file.specs.Waiting.{lines_from, with_line, TakesEntries};

use super::waiting::Waiting;
use address_map::Local;
use arrayvec::ArrayVec;
use std::alloc::{AllocError, Global};
use target_list::Target;

/// What a search reads of an entry: its line, its tag, and whether it is a load.
#[derive(Clone, Copy, Debug)]
pub struct Slot {
    pub line: Local,
    pub tag: u8,
    pub load: bool,
}

/// What the unused places of a row hold.
impl Default for Slot {
    fn default() -> Self {
        Slot {
            line: Local(0),
            tag: 0,
            load: false,
        }
    }
}

/// An entry for each tag of a core, and a slot for each entry that is in use, the oldest first. A search goes over the
/// slots alone, and entries stay where they are.
#[derive(Drop)]
pub struct EntryTable {
    pub entries: [Option<Waiting>; 64],
    pub order: ArrayVec<Slot, 64>,
}

impl EntryTable {
    pub fn new() -> Self
        ensures kept { IsEntryTable result }
        ensures empty { waiting_in result ≡ [] }
    {
        let entries = [None; 64];
        EntryTable {
            entries,
            order: ArrayVec::new(),
        }
    }

    /// The same entries.
    pub fn copy(&self) -> Self
        requires { IsEntryTable self.now }
        ensures kept { IsEntryTable result }
        ensures same { waiting_in result ≡ waiting_in self.now }
    {
        let mut order = ArrayVec::new();
        let _ = order.try_extend_from_slice(self.order.as_slice());
        EntryTable {
            entries: self.entries,
            order,
        }
    }

    /// The entry with the tag.
    pub fn entry(&self, tag: u8) -> Option<&Waiting>
        requires { IsEntryTable self.now }
        ensures { option_copied result ≡ find (λ entry. has_tag tag entry.target) (waiting_in self.now) }
    {
        if tag < 64 {
            self.entries[tag as usize].as_ref()
        } else {
            None
        }
    }

    /// Whether no entry has the tag.
    pub fn has_free(&self, tag: u8) -> bool
        requires kept { IsEntryTable self.now }
        requires tag { tag < 64 }
        ensures { result ≡ is_free (by_line (waiting_in self.now)) tag }
    {
        self.entries[tag as usize].is_none()
    }

    /// Whether an entry is for the line.
    pub fn waits(&self, line: Local) -> bool
        requires { IsEntryTable self.now }
        ensures waits { result ≡ has_miss (by_line (waiting_in self.now)) line.0 }
        ensures sound { IsMissFile (by_line (waiting_in self.now)) }
    {
        any_for(self.order.as_slice(), line)
    }

    /// How many entries are for the line.
    pub fn count_at_line(&self, line: Local) -> usize
        requires { IsEntryTable self.now }
        ensures count { result ≡ length (targets_of (by_line (waiting_in self.now)) line.0) }
        ensures few { result ≤ 64 }
    {
        count_slots(self.order.as_slice(), line)
    }

    /// The targets of the entries for the line.
    pub fn targets(&self, line: Local) -> ArrayVec<Target, 64>
        requires { IsEntryTable self.now }
        ensures { result.items ≡ targets_of (by_line (waiting_in self.now)) line.0 }
    {
        targets_at(&self.entries, self.order.as_slice(), line)
    }

    /// The lines of the entries, each once, those of the latest entries first.
    pub fn lines(&self, alloc: Global) -> Result<Vec<Local>, AllocError>
        requires { IsEntryTable self.now }
        ensures { IfOk result (λ lines. lines.items ≡ waited_lines (by_line (waiting_in self.now))) }
    {
        lines_from(alloc, self.order.as_slice())
    }

    /// How many loads the entries for the line begin with.
    pub fn count_front_loads(&self, line: Local) -> usize
        requires { IsEntryTable self.now }
        ensures count { result ≡ length (front_loads (targets_of (by_line (waiting_in self.now)) line.0)) }
        ensures within { result ≤ length (targets_of (by_line (waiting_in self.now)) line.0) }
    {
        count_loads(self.order.as_slice(), line)
    }

    /// Puts an entry after the others.
    pub fn push(&mut self, line: Local, target: Target)
        requires kept { IsEntryTable self.old }
        requires tag { target.tag < 64 }
        requires free { is_free (by_line (waiting_in self.old)) target.tag ≡ true }
        ensures kept { IsEntryTable self.new }
        ensures added { AddsTarget (by_line (waiting_in self.old)) (by_line (waiting_in self.new)) line.0 target }
        ensures sound { IsMissFile (by_line (waiting_in self.new)) }
        ensures lines { length (by_line (waiting_in self.new))
            + (if has_miss (by_line (waiting_in self.old)) line.0 then 1 else 0)
            ≡ length (by_line (waiting_in self.old)) + 1 }
    {
        self.entries[target.tag as usize] = Some(Waiting { target, line });
        self.order.push(Slot {
            line,
            tag: target.tag,
            load: target.is_load(),
        });
    }

    /// Takes out the first entry for the line.
    pub fn take_first(&mut self, line: Local) -> Target
        requires kept { IsEntryTable self.old }
        requires some { has_miss (by_line (waiting_in self.old)) line.0 ≡ true }
        ensures kept { IsEntryTable self.new }
        ensures taken { TakesTargets (by_line (waiting_in self.old))
            (by_line (waiting_in self.new)) line.0 (result ∷ []) }
        ensures sound { IsMissFile (by_line (waiting_in self.new)) }
        ensures lines { length (by_line (waiting_in self.old))
            ≡ length (by_line (waiting_in self.new))
            + (if has_miss (by_line (waiting_in self.new)) line.0 then 0 else 1) }
    {
        take_entry(self, line)
    }

    /// Takes out the first `count` entries for the line.
    pub fn take(&mut self, line: Local, count: usize) -> ArrayVec<Target, 64>
        requires kept { IsEntryTable self.old }
        requires some { has_miss (by_line (waiting_in self.old)) line.0 ≡ true }
        requires enough { count ≤ length (targets_of (by_line (waiting_in self.old)) line.0) }
        ensures kept { IsEntryTable self.new }
        ensures first { result.items ≡ take count (targets_of (by_line (waiting_in self.old)) line.0) }
        ensures taken { TakesTargets (by_line (waiting_in self.old))
            (by_line (waiting_in self.new)) line.0 result.items }
        ensures sound { IsMissFile (by_line (waiting_in self.new)) }
        ensures lines { length (by_line (waiting_in self.old))
            ≡ length (by_line (waiting_in self.new))
            + (if has_miss (by_line (waiting_in self.new)) line.0 then 0 else 1) }
    {
        take_in_turn(self, line, count)
    }
}

fn take_in_turn(table: &mut EntryTable, line: Local, count: usize) -> ArrayVec<Target, 64>
    requires kept { IsEntryTable table.old }
    requires some { list_any (waits_for line.0) (waiting_in table.old) ≡ true }
    requires enough { count ≤ length (at_line line.0 (waiting_in table.old)) }
    requires room { count ≤ 64 }
    ensures kept { IsEntryTable table.new }
    ensures count { length result.items ≡ count }
    ensures taken { TakesEntries (waiting_in table.old) line.0 result.items (waiting_in table.new) }
{
    let mut taken = ArrayVec::new();
    for _ in 0..count {
        taken.push(take_entry(table, line));
    }
    taken
}

fn take_entry(table: &mut EntryTable, line: Local) -> Target
    requires kept { IsEntryTable table.old }
    requires some { list_any (waits_for line.0) (waiting_in table.old) ≡ true }
    ensures kept { IsEntryTable table.new }
    ensures taken { TakesEntries (waiting_in table.old) line.0 (result ∷ []) (waiting_in table.new) }
{
    let place = first_for(table.order.as_slice(), line).unwrap();
    let tag = table.order.remove(place).tag as usize;
    let held = table.entries[tag];
    table.entries[tag] = None;
    held.unwrap().target
}

/// The targets of those entries that are for the line, by their slots.
fn targets_at(entries: &[Option<Waiting>], slots: &[Slot], line: Local) -> ArrayVec<Target, 64>
    requires { length slots.now ≤ 64 }
    ensures { result.items ≡ at_line line.0 (map (entry_at entries.now) slots.now) }
{
    let mut targets = ArrayVec::new();
    for slot in slots {
        let entry = entry_of(entries, *slot);
        if entry.line == line {
            targets.push(entry.target);
        }
    }
    targets
}

/// The entry under the tag of a slot.
fn entry_of(entries: &[Option<Waiting>], slot: Slot) -> Waiting
    ensures { result ≡ entry_at entries.now slot }
{
    match entries.get(slot.tag as usize) {
        Some(Some(entry)) => *entry,
        _ => Waiting {
            target: Target::default(),
            line: Local(0),
        },
    }
}

/// The lines of these slots, each once, those of the last slots first.
fn lines_from(alloc: Global, slots: &[Slot]) -> Result<Vec<Local>, AllocError>
    ensures { IfOk result (λ lines. lines.items ≡ lines_from slots.now) }
{
    let mut lines = Vec::new(alloc);
    for seen in 0..slots.len() {
        note_line(&mut lines, slots[slots.len() - 1 - seen].line)?;
    }
    Ok(lines)
}

/// Puts a line after the others, where it isn't among them.
fn note_line(lines: &mut Vec<Local>, line: Local) -> Result<(), AllocError>
    ensures { OnOk result (lines.new.items ≡ with_line line lines.old.items) }
{
    if has_line(lines, line) {
        return Ok(());
    }
    Ok(lines.push(line)?)
}

fn has_line(lines: &[Local], line: Local) -> bool
    ensures { result ≡ list_any (λ other. other.0 == line.0) lines.now }
{
    lines.iter().any(|other| *other == line)
}

fn any_for(slots: &[Slot], line: Local) -> bool
    ensures { result ≡ list_any (slot_for line.0) slots.now }
{
    slots.iter().any(|slot| slot.line == line)
}

fn first_for(slots: &[Slot], line: Local) -> Option<usize>
    ensures { result ≡ position (slot_for line.0) slots.now }
{
    slots.iter().position(|slot| slot.line == line)
}

fn count_slots(slots: &[Slot], line: Local) -> usize
    ensures count { result ≡ length (filter (slot_for line.0) slots.now) }
    ensures within { result ≤ length slots.now }
{
    slots.iter().filter(|slot| slot.line == line).count()
}

fn count_loads(slots: &[Slot], line: Local) -> usize
    ensures { result ≡ prefix_len (λ slot. slot.load) (filter (slot_for line.0) slots.now) }
{
    slots
        .iter()
        .filter(|slot| slot.line == line)
        .take_while(|slot| slot.load)
        .count()
}
