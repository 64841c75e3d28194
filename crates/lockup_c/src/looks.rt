//! What there is.
ghost use Rattle.std.specs.Prelude.{◌≡◌, None, Some};
ghost use Rattle.lockup_c.specs.Answer.{code_of, shown_of};
ghost use Rattle.lockup_c.specs.Looks.{ShowsCopy, ShowsDirectory, ShowsEntries, ShowsEntry, ShowsQuiet, ShowsWord};
ghost use Rattle.lockup_c.specs.Looks.{copy_numbers, directory_numbers, entry_numbers, no_copy, no_directory};
ghost use Rattle.lockup_c.specs.Looks.{no_entry, no_word, word_numbers};
ghost use Rattle.lockup_c.specs.Number.{flag, op_number, operand_of, replacement_of};

use super::answer::{Fault, show};
use super::handle::{Handle, put, take};
use super::held::Held;
use super::names::{copy_named, line_named, slice_named, word_named};
use super::numbers::{copy_number, core_number, dir_number};
use super::structs::{CopyNumbers, DirectoryNumbers, EntryNumbers, WordNumbers};
use address_map::Op;
use slice_core::{CacheCopy, Entry, LineView};
use std::alloc::Global;

const NO_COPY: CopyNumbers = CopyNumbers {
    state: 0,
    wants: 0,
    counted: 0,
    block: [0; 8],
};

const NO_DIRECTORY: DirectoryNumbers = DirectoryNumbers {
    state: 0,
    owner: 0,
    sharers: 0,
    home: [0; 8],
};

const NO_WORD: WordNumbers = WordNumbers { quiet: 0, value: 0 };

const NO_ENTRY: EntryNumbers = EntryNumbers {
    core: 0,
    seq: 0,
    tag: 0,
    op: 0,
    word: 0,
    operand: 0,
    replacement: 0,
    reply: 0,
    since: 0,
};

/// Shows a core's copy of a line.
#[unsafe(no_mangle)]
pub extern "C" fn lockup_copy_at(
    alloc: Global,
    handle: &mut Handle,
    core: u64,
    line: u64,
    copy: &mut CopyNumbers,
) -> u32
    ensures seen { ShowsCopy core line result copy.new handle.old.value }
    ensures kept { handle.new.value ≡ handle.old.value }
{
    let Some(held) = take(handle, alloc) else {
        return show(Err(Fault::NoMachine), NO_COPY, copy);
    };
    let shown = copy_at(&held, core, line);
    put(handle, held);
    show(shown, NO_COPY, copy)
}

fn copy_at(held: &Held, core: u64, line: u64) -> Result<CopyNumbers, Fault>
    ensures { ShowsCopy core line (code_of result) (shown_of no_copy result) (Some held.now) }
{
    let simulator = held.machine()?;
    let (core, line) = copy_named(simulator.config(), core, line).ok_or(Fault::OutOfRange)?;
    Ok(copy_numbers(simulator.copy(core, line)))
}

fn copy_numbers(copy: Option<CacheCopy>) -> CopyNumbers
    ensures { result ≡ copy_numbers copy }
{
    match copy {
        Some(copy) => {
            let block = copy.block.words;
            CopyNumbers {
                state: copy_number(copy.state),
                wants: copy.wants as u64,
                counted: copy.counted as u64,
                block,
            }
        }
        None => NO_COPY,
    }
}

/// Shows the directory's entry of a line.
#[unsafe(no_mangle)]
pub extern "C" fn lockup_directory_at(
    alloc: Global,
    handle: &mut Handle,
    line: u64,
    directory: &mut DirectoryNumbers,
) -> u32
    ensures seen { ShowsDirectory line result directory.new handle.old.value }
    ensures kept { handle.new.value ≡ handle.old.value }
{
    let Some(held) = take(handle, alloc) else {
        return show(Err(Fault::NoMachine), NO_DIRECTORY, directory);
    };
    let shown = directory_at(&held, line);
    put(handle, held);
    show(shown, NO_DIRECTORY, directory)
}

fn directory_at(held: &Held, line: u64) -> Result<DirectoryNumbers, Fault>
    ensures { ShowsDirectory line (code_of result) (shown_of no_directory result) (Some held.now) }
{
    let simulator = held.machine()?;
    let line = line_named(simulator.config(), line).ok_or(Fault::OutOfRange)?;
    Ok(directory_numbers(simulator.line(line)))
}

fn directory_numbers(shown: Option<LineView>) -> DirectoryNumbers
    ensures { result ≡ directory_numbers shown }
{
    match shown {
        Some(shown) => {
            let home = shown.home;
            DirectoryNumbers {
                state: dir_number(shown.dir),
                owner: core_number(shown.owner),
                sharers: shown.sharers,
                home,
            }
        }
        None => NO_DIRECTORY,
    }
}

/// Whether the machine is quiet.
#[unsafe(no_mangle)]
pub extern "C" fn lockup_quiet(alloc: Global, handle: &mut Handle, quiet: &mut u64) -> u32
    ensures seen { ShowsQuiet result quiet.new handle.old.value }
    ensures kept { handle.new.value ≡ handle.old.value }
{
    let Some(held) = take(handle, alloc) else {
        return show(Err(Fault::NoMachine), 0, quiet);
    };
    let shown = show_quiet(&held);
    put(handle, held);
    show(shown, 0, quiet)
}

fn show_quiet(held: &Held) -> Result<u64, Fault>
    ensures { ShowsQuiet (code_of result) (shown_of 0 result) (Some held.now) }
{
    let simulator = held.machine()?;
    Ok(flag(simulator.is_quiet()))
}

pub(crate) fn flag(is_so: bool) -> u64
    ensures { result ≡ flag is_so }
{
    if is_so { 1 } else { 0 }
}

/// Shows a word, where its slice is quiet.
#[unsafe(no_mangle)]
pub extern "C" fn lockup_word_at(
    alloc: Global,
    handle: &mut Handle,
    word: u64,
    value: &mut WordNumbers,
) -> u32
    ensures seen { ShowsWord word result value.new handle.old.value }
    ensures kept { handle.new.value ≡ handle.old.value }
{
    let Some(held) = take(handle, alloc) else {
        return show(Err(Fault::NoMachine), NO_WORD, value);
    };
    let shown = word_at(&held, word);
    put(handle, held);
    show(shown, NO_WORD, value)
}

fn word_at(held: &Held, word: u64) -> Result<WordNumbers, Fault>
    ensures { ShowsWord word (code_of result) (shown_of no_word result) (Some held.now) }
{
    let simulator = held.machine()?;
    let word = word_named(simulator.config(), word).ok_or(Fault::OutOfRange)?;
    Ok(word_numbers(simulator.word(word)))
}

fn word_numbers(shown: Option<u64>) -> WordNumbers
    ensures { result ≡ word_numbers shown }
{
    match shown {
        Some(value) => WordNumbers { quiet: 1, value },
        None => NO_WORD,
    }
}

/// How many entries the log of a slice has.
#[unsafe(no_mangle)]
pub extern "C" fn lockup_entries(
    alloc: Global,
    handle: &mut Handle,
    slice: u64,
    count: &mut u64,
) -> u32
    ensures seen { ShowsEntries slice result count.new handle.old.value }
    ensures kept { handle.new.value ≡ handle.old.value }
{
    let Some(held) = take(handle, alloc) else {
        return show(Err(Fault::NoMachine), 0, count);
    };
    let shown = entries(&held, slice);
    put(handle, held);
    show(shown, 0, count)
}

fn entries(held: &Held, slice: u64) -> Result<u64, Fault>
    ensures { ShowsEntries slice (code_of result) (shown_of 0 result) (Some held.now) }
{
    let simulator = held.machine()?;
    let slice = slice_named(simulator.config(), slice).ok_or(Fault::OutOfRange)?;
    Ok(simulator.log(slice).len() as u64)
}

/// Shows an entry of a slice's log.
#[unsafe(no_mangle)]
pub extern "C" fn lockup_entry_at(
    alloc: Global,
    handle: &mut Handle,
    slice: u64,
    nth: u64,
    entry: &mut EntryNumbers,
) -> u32
    ensures seen { ShowsEntry slice nth result entry.new handle.old.value }
    ensures kept { handle.new.value ≡ handle.old.value }
{
    let Some(held) = take(handle, alloc) else {
        return show(Err(Fault::NoMachine), NO_ENTRY, entry);
    };
    let shown = entry_at(&held, slice, nth);
    put(handle, held);
    show(shown, NO_ENTRY, entry)
}

fn entry_at(held: &Held, slice: u64, nth: u64) -> Result<EntryNumbers, Fault>
    ensures { ShowsEntry slice nth (code_of result) (shown_of no_entry result) (Some held.now) }
{
    let simulator = held.machine()?;
    let slice = slice_named(simulator.config(), slice).ok_or(Fault::OutOfRange)?;
    let found = simulator
        .log(slice)
        .get(nth as usize)
        .ok_or(Fault::OutOfRange)?;
    Ok(entry_numbers(found))
}

fn entry_numbers(entry: &Entry) -> EntryNumbers
    ensures { result ≡ entry_numbers entry.now }
{
    EntryNumbers {
        core: entry.core.0 as u64,
        seq: entry.seq,
        tag: entry.tag as u64,
        op: op_number(entry.op),
        word: entry.word.0,
        operand: operand_of(entry.op),
        replacement: replacement_of(entry.op),
        reply: entry.reply,
        since: entry.since,
    }
}

pub(crate) const fn op_number(op: Op) -> u64
    ensures { result ≡ op_number op }
{
    match op {
        Op::Load => 0,
        Op::Store(_) => 1,
        Op::Add(_) => 2,
        Op::Cas { .. } => 3,
    }
}

pub(crate) const fn operand_of(op: Op) -> u64
    ensures { result ≡ operand_of op }
{
    match op {
        Op::Load => 0,
        Op::Store(value) => value,
        Op::Add(delta) => delta,
        Op::Cas { expect, .. } => expect,
    }
}

pub(crate) const fn replacement_of(op: Op) -> u64
    ensures { result ≡ replacement_of op }
{
    match op {
        Op::Load => 0,
        Op::Store(_) => 0,
        Op::Add(_) => 0,
        Op::Cas { new, .. } => new,
    }
}
