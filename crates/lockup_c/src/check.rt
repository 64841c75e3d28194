//! A trace that is judged as it comes.
ghost use Rattle.std.specs.Prelude.{◌≡◌, ◌≢◌, ◌↔◌, IfSome, IsTrue, None, Some};
ghost use Rattle.lockup_c.specs.Answer.{code_of, shown_of};
ghost use Rattle.lockup_c.specs.Checks.{AddsEntry, AddsWord, CanBegin, HasNewTrace, IsNoBeginning, IsNoEntry};
ghost use Rattle.lockup_c.specs.Checks.{NamesWord, ShowsVerdict, TakesEntry, entry_named, no_verdict, reason_number, verdict_numbers};
ghost use Rattle.lockup_c.specs.Made.{Frees};
ghost use Rattle.trace_check.specs.Judge.{IsNameable};

use super::answer::{Fault, show};
use super::codes::{DONE, IN_USE, NO_MACHINE, NO_MEMORY, OUT_OF_RANGE};
use super::handle::{Handle, put, take};
use super::held::Held;
use super::names::op_named;
use super::structs::{EntryNumbers, VerdictNumbers};
use address_map::{CoreId, WordAddr};
use slice_log::Entry;
use std::alloc::Global;
use trace_check::{MOST_CORES, MOST_WORDS, Reason, TraceJudge, Verdict};

/// How many tags a core has.
const TAGS: u64 = 64;

const NO_VERDICT: VerdictNumbers = VerdictNumbers {
    verdict: 0,
    entry: 0,
};

/// Begins a trace.
#[unsafe(no_mangle)]
pub extern "C" fn lockup_check_new(alloc: Global, handle: &mut Handle) -> u32
    ensures begun { result ≡ 0 → HasNewTrace handle.new.value }
    ensures kept { result ≢ 0 → handle.new.value ≡ handle.old.value }
{
    if let Some(held) = take(handle, alloc) {
        put(handle, held);
        return IN_USE;
    }
    match Box::new(alloc, Held::Trace(TraceJudge::new(alloc))) {
        Ok(held) => {
            put(handle, held);
            DONE
        }
        Err(_) => NO_MEMORY,
    }
}

/// Gives a word the value that it begins with.
#[unsafe(no_mangle)]
pub extern "C" fn lockup_check_begin(
    alloc: Global,
    handle: &mut Handle,
    word: u64,
    value: u64,
) -> u32
    ensures named { result ≡ 0 → NamesWord word value handle.old.value handle.new.value }
    ensures refused { result ≡ 2 ↔ IsNoBeginning word handle.old.value }
    ensures ended { result ≡ 3 → handle.new.value ≡ None }
    ensures kept { result ≢ 0 → result ≢ 3 → handle.new.value ≡ handle.old.value }
{
    let Some(mut held) = take(handle, alloc) else {
        return NO_MACHINE;
    };
    let code = name_word(&mut held, word, value);
    if code != NO_MEMORY {
        put(handle, held);
    }
    code
}

fn name_word(held: &mut Held, word: u64, value: u64) -> u32
    ensures named { result ≡ 0 → NamesWord word value (Some held.old) (Some held.new) }
    ensures refused { result ≡ 2 ↔ IsNoBeginning word (Some held.old) }
    ensures kept { result ≢ 0 → result ≢ 3 → held.new ≡ held.old }
{
    match held {
        Held::Trace(judge) => add_word(judge, word, value),
        Held::Machine(_) | Held::Histories(_) => NO_MACHINE,
    }
}

fn add_word(judge: &mut TraceJudge, word: u64, value: u64) -> u32
    ensures named { result ≡ 0 → AddsWord word value judge.old judge.new }
    ensures refused { result ≡ 2 ↔ (CanBegin word judge.old → ⊥) }
    ensures kept { result ≢ 0 → result ≢ 3 → judge.new ≡ judge.old }
{
    if !can_begin(judge, word) {
        return OUT_OF_RANGE;
    }
    match judge.begin(WordAddr(word), value) {
        Ok(()) => DONE,
        Err(_) => NO_MEMORY,
    }
}

fn can_begin(judge: &TraceJudge, word: u64) -> bool
    ensures { IsTrue result ↔ CanBegin word judge.now }
{
    word < MOST_WORDS && judge.may_begin(WordAddr(word))
}

/// Judges one more entry.
#[unsafe(no_mangle)]
pub extern "C" fn lockup_check_entry(
    alloc: Global,
    handle: &mut Handle,
    entry: &EntryNumbers,
) -> u32
    ensures taken { result ≡ 0 → TakesEntry entry.now handle.old.value handle.new.value }
    ensures refused { result ≡ 2 ↔ IsNoEntry entry.now handle.old.value }
    ensures ended { result ≡ 3 → handle.new.value ≡ None }
    ensures kept { result ≢ 0 → result ≢ 3 → handle.new.value ≡ handle.old.value }
{
    let Some(mut held) = take(handle, alloc) else {
        return NO_MACHINE;
    };
    let code = take_entry(&mut held, entry);
    if code != NO_MEMORY {
        put(handle, held);
    }
    code
}

fn take_entry(held: &mut Held, numbers: &EntryNumbers) -> u32
    ensures taken { result ≡ 0 → TakesEntry numbers.now (Some held.old) (Some held.new) }
    ensures refused { result ≡ 2 ↔ IsNoEntry numbers.now (Some held.old) }
    ensures kept { result ≢ 0 → result ≢ 3 → held.new ≡ held.old }
{
    match held {
        Held::Trace(judge) => add_entry(judge, numbers),
        Held::Machine(_) | Held::Histories(_) => NO_MACHINE,
    }
}

fn add_entry(judge: &mut TraceJudge, numbers: &EntryNumbers) -> u32
    ensures taken { result ≡ 0 → AddsEntry numbers.now judge.old judge.new }
    ensures refused { result ≡ 2 ↔ (entry_named numbers.now ≡ None) }
    ensures kept { result ≢ 0 → result ≢ 3 → judge.new ≡ judge.old }
{
    let Some(entry) = entry_named(numbers) else {
        return OUT_OF_RANGE;
    };
    match judge.take(&entry) {
        Ok(()) => DONE,
        Err(_) => NO_MEMORY,
    }
}

fn entry_named(numbers: &EntryNumbers) -> Option<Entry>
    ensures named { result ≡ entry_named numbers.now }
    ensures known { IfSome result IsNameable }
{
    if numbers.core < MOST_CORES && numbers.tag < TAGS && numbers.word < MOST_WORDS {
        let op = op_named(numbers.op, numbers.operand, numbers.replacement)?;
        Some(Entry {
            op,
            word: WordAddr(numbers.word),
            seq: numbers.seq,
            reply: numbers.reply,
            since: numbers.since,
            core: CoreId(numbers.core as u8),
            tag: numbers.tag as u8,
        })
    } else {
        None
    }
}

/// Shows what the entries come to so far.
#[unsafe(no_mangle)]
pub extern "C" fn lockup_check_verdict(
    alloc: Global,
    handle: &mut Handle,
    verdict: &mut VerdictNumbers,
) -> u32
    ensures seen { ShowsVerdict result verdict.new handle.old.value }
    ensures kept { handle.new.value ≡ handle.old.value }
{
    let Some(held) = take(handle, alloc) else {
        return show(Err(Fault::NoMachine), NO_VERDICT, verdict);
    };
    let shown = show_verdict(&held);
    put(handle, held);
    show(shown, NO_VERDICT, verdict)
}

fn show_verdict(held: &Held) -> Result<VerdictNumbers, Fault>
    ensures { ShowsVerdict (code_of result) (shown_of no_verdict result) (Some held.now) }
{
    let Held::Trace(judge) = held else {
        return Err(Fault::NoMachine);
    };
    Ok(verdict_numbers(judge.verdict()))
}

fn verdict_numbers(verdict: Verdict) -> VerdictNumbers
    ensures { result ≡ verdict_numbers verdict }
{
    match verdict {
        Verdict::Legal(entries) => VerdictNumbers {
            verdict: 0,
            entry: entries as u64,
        },
        Verdict::Illegal(entry, reason) => VerdictNumbers {
            verdict: reason_number(reason),
            entry: entry as u64,
        },
    }
}

const fn reason_number(reason: Reason) -> u64
    ensures { result ≡ reason_number reason }
{
    match reason {
        Reason::Reply => 1,
        Reason::Order => 2,
        Reason::Since => 3,
    }
}

/// Ends a trace.
#[unsafe(no_mangle)]
pub extern "C" fn lockup_check_free(alloc: Global, handle: &mut Handle) -> u32
    ensures { Frees result handle.old.value handle.new.value }
{
    match take(handle, alloc) {
        Some(_) => DONE,
        None => NO_MACHINE,
    }
}
