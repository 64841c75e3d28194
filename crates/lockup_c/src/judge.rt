//! Histories that are judged: what each core asked for and the replies to it, without an order between cores.
ghost use Rattle.std.specs.Prelude.{◌≡◌, ◌≢◌, ◌↔◌, IfOk, IsTrue, None, Some};
ghost use Rattle.lockup_c.specs.Answer.{code_of, shown_of};
ghost use Rattle.lockup_c.specs.Judges.{AddsAccess, CanGive, GivesValue, GivesWord, HasNewHistories, IsJudgedAs};
ghost use Rattle.lockup_c.specs.Judges.{IsNoAccess, IsNoGift, Judges, ShowsReason, TakesAccess, access_named};
ghost use Rattle.lockup_c.specs.Judges.{judgement_numbers, no_judgement, no_reason, reply_named};
ghost use Rattle.lockup_c.specs.Made.{Frees};

use super::answer::{Fault, show};
use super::codes::{DONE, IN_USE, NO_MACHINE, NO_MEMORY, OUT_OF_RANGE};
use super::contradiction::reasons_of;
use super::handle::{Handle, put, take};
use super::held::Held;
use super::histories::JudgedHistories;
use super::names::op_named;
use super::structs::{AccessNumbers, JudgementNumbers, ReasonNumbers};
use address_map::{CoreId, Op, WordAddr};
use history_judge::Access;
use history_text::{Histories, Verdict};
use std::alloc::{AllocError, Global};
use trace_check::{MOST_CORES, MOST_WORDS};

const NO_JUDGEMENT: JudgementNumbers = JudgementNumbers {
    verdict: 0,
    word: 0,
    reasons: 0,
};

const NO_REASON: ReasonNumbers = ReasonNumbers {
    why: 0,
    first: 0,
    last: 0,
    other: 0,
};

/// Begins histories.
#[unsafe(no_mangle)]
pub extern "C" fn lockup_judge_new(alloc: Global, handle: &mut Handle) -> u32
    ensures begun { result ≡ 0 → HasNewHistories handle.new.value }
    ensures kept { result ≢ 0 → handle.new.value ≡ handle.old.value }
{
    if let Some(held) = take(handle, alloc) {
        put(handle, held);
        return IN_USE;
    }
    match Box::new(alloc, Held::Histories(JudgedHistories::new(alloc))) {
        Ok(held) => {
            put(handle, held);
            DONE
        }
        Err(_) => NO_MEMORY,
    }
}

/// Gives a word the value that it begins with.
#[unsafe(no_mangle)]
pub extern "C" fn lockup_judge_begin(
    alloc: Global,
    handle: &mut Handle,
    word: u64,
    value: u64,
) -> u32
    ensures given { result ≡ 0 → GivesValue word value handle.old.value handle.new.value }
    ensures refused { result ≡ 2 ↔ IsNoGift word handle.old.value }
    ensures ended { result ≡ 3 → handle.new.value ≡ None }
    ensures kept { result ≢ 0 → result ≢ 3 → handle.new.value ≡ handle.old.value }
{
    let Some(mut held) = take(handle, alloc) else {
        return NO_MACHINE;
    };
    let code = give_value(&mut held, word, value);
    if code != NO_MEMORY {
        put(handle, held);
    }
    code
}

fn give_value(held: &mut Held, word: u64, value: u64) -> u32
    ensures given { result ≡ 0 → GivesValue word value (Some held.old) (Some held.new) }
    ensures refused { result ≡ 2 ↔ IsNoGift word (Some held.old) }
    ensures kept { result ≢ 0 → result ≢ 3 → held.new ≡ held.old }
{
    match held {
        Held::Histories(judged) => give_word(judged, word, value),
        Held::Machine(_) | Held::Trace(_) => NO_MACHINE,
    }
}

fn give_word(judged: &mut JudgedHistories, word: u64, value: u64) -> u32
    ensures given { result ≡ 0 → GivesWord word value judged.old.histories judged.new.histories }
    ensures refused { result ≡ 2 ↔ (CanGive word judged.old.histories → ⊥) }
    ensures kept { result ≢ 0 → result ≢ 3 → judged.new ≡ judged.old }
{
    if !can_give(&judged.histories, word) {
        return OUT_OF_RANGE;
    }
    match judged.histories.begin(WordAddr(word), value) {
        Ok(()) => DONE,
        Err(_) => NO_MEMORY,
    }
}

fn can_give(histories: &Histories, word: u64) -> bool
    ensures { IsTrue result ↔ CanGive word histories.now }
{
    word < MOST_WORDS && histories.given(WordAddr(word)).is_none()
}

/// Takes one more access.
#[unsafe(no_mangle)]
pub extern "C" fn lockup_judge_access(
    alloc: Global,
    handle: &mut Handle,
    access: &AccessNumbers,
) -> u32
    ensures taken { result ≡ 0 → TakesAccess access.now handle.old.value handle.new.value }
    ensures refused { result ≡ 2 ↔ IsNoAccess access.now handle.old.value }
    ensures ended { result ≡ 3 → handle.new.value ≡ None }
    ensures kept { result ≢ 0 → result ≢ 3 → handle.new.value ≡ handle.old.value }
{
    let Some(mut held) = take(handle, alloc) else {
        return NO_MACHINE;
    };
    let code = take_access(&mut held, access);
    if code != NO_MEMORY {
        put(handle, held);
    }
    code
}

fn take_access(held: &mut Held, numbers: &AccessNumbers) -> u32
    ensures taken { result ≡ 0 → TakesAccess numbers.now (Some held.old) (Some held.new) }
    ensures refused { result ≡ 2 ↔ IsNoAccess numbers.now (Some held.old) }
    ensures kept { result ≢ 0 → result ≢ 3 → held.new ≡ held.old }
{
    match held {
        Held::Histories(judged) => add_access(judged, numbers),
        Held::Machine(_) | Held::Trace(_) => NO_MACHINE,
    }
}

fn add_access(judged: &mut JudgedHistories, numbers: &AccessNumbers) -> u32
    ensures taken { result ≡ 0 → AddsAccess numbers.now judged.old.histories judged.new.histories }
    ensures refused { result ≡ 2 ↔ (access_named numbers.now ≡ None) }
    ensures kept { result ≢ 0 → result ≢ 3 → judged.new ≡ judged.old }
{
    let Some(access) = access_named(numbers) else {
        return OUT_OF_RANGE;
    };
    // 2^64 accesses fit no memory
    let Some(accesses) = judged.accesses.checked_add(1) else {
        return NO_MEMORY;
    };
    match judged.histories.take(access, judged.accesses) {
        Ok(()) => {
            judged.accesses = accesses;
            DONE
        }
        Err(_) => NO_MEMORY,
    }
}

fn access_named(numbers: &AccessNumbers) -> Option<Access>
    ensures { result ≡ access_named numbers.now }
{
    if numbers.core < MOST_CORES && numbers.word < MOST_WORDS && numbers.begin <= numbers.end {
        let op = op_named(numbers.op, numbers.operand, numbers.replacement)?;
        Some(Access {
            op,
            reply: reply_named(op, numbers.reply),
            begin: numbers.begin,
            end: numbers.end,
            word: WordAddr(numbers.word),
            core: CoreId(numbers.core as u8),
        })
    } else {
        None
    }
}

const fn reply_named(op: Op, reply: u64) -> u64
    ensures { result ≡ reply_named op reply }
{
    match op {
        Op::Store(_) => 0,
        Op::Load | Op::Add(_) | Op::Cas { .. } => reply,
    }
}

/// Judges the histories.
#[unsafe(no_mangle)]
pub extern "C" fn lockup_judge_verdict(
    alloc: Global,
    handle: &mut Handle,
    limit: u64,
    judgement: &mut JudgementNumbers,
) -> u32
    ensures { Judges result judgement.new handle.old.value handle.new.value }
{
    let Some(mut held) = take(handle, alloc) else {
        return show(Err(Fault::NoMachine), NO_JUDGEMENT, judgement);
    };
    let shown = judge_held(&mut held, alloc, limit);
    put(handle, held);
    show(shown, NO_JUDGEMENT, judgement)
}

fn judge_held(held: &mut Held, alloc: Global, limit: u64) -> Result<JudgementNumbers, Fault>
    ensures { Judges (code_of result) (shown_of no_judgement result) (Some held.old) (Some held.new) }
{
    let Held::Histories(judged) = held else {
        return Err(Fault::NoMachine);
    };
    let (numbers, reasons) = judged_as(alloc, &judged.histories, limit)?;
    judged.reasons = reasons;
    Ok(numbers)
}

fn judged_as(
    alloc: Global,
    histories: &Histories,
    limit: u64,
) -> Result<(JudgementNumbers, Vec<ReasonNumbers>), AllocError>
    ensures { IfOk result (λ it. IsJudgedAs it.0 it.1.items histories.now) }
{
    let verdict = histories.judge(limit as usize)?;
    let reasons = reasons_of(alloc, histories, &verdict)?;
    Ok((judgement_numbers(&verdict, reasons.len()), reasons))
}

fn judgement_numbers(verdict: &Verdict, reasons: usize) -> JudgementNumbers
    ensures { result ≡ judgement_numbers verdict.now reasons }
{
    let (number, word) = match verdict {
        Verdict::Coherent(_) => (0, 0),
        Verdict::Incoherent(word, _) => (1, *word),
        Verdict::Undecided(word) => (2, *word),
    };
    JudgementNumbers {
        verdict: number,
        word,
        reasons: reasons as u64,
    }
}

/// Shows one of the reasons of the last judgement.
#[unsafe(no_mangle)]
pub extern "C" fn lockup_judge_reason(
    alloc: Global,
    handle: &mut Handle,
    nth: u64,
    reason: &mut ReasonNumbers,
) -> u32
    ensures seen { ShowsReason nth result reason.new handle.old.value }
    ensures kept { handle.new.value ≡ handle.old.value }
{
    let Some(held) = take(handle, alloc) else {
        return show(Err(Fault::NoMachine), NO_REASON, reason);
    };
    let shown = show_reason(&held, nth);
    put(handle, held);
    show(shown, NO_REASON, reason)
}

fn show_reason(held: &Held, nth: u64) -> Result<ReasonNumbers, Fault>
    ensures { ShowsReason nth (code_of result) (shown_of no_reason result) (Some held.now) }
{
    let Held::Histories(judged) = held else {
        return Err(Fault::NoMachine);
    };
    match judged.reasons.get(nth as usize) {
        Some(reason) => Ok(*reason),
        None => Err(Fault::OutOfRange),
    }
}

/// Ends histories.
#[unsafe(no_mangle)]
pub extern "C" fn lockup_judge_free(alloc: Global, handle: &mut Handle) -> u32
    ensures { Frees result handle.old.value handle.new.value }
{
    match take(handle, alloc) {
        Some(_) => DONE,
        None => NO_MACHINE,
    }
}
