//! The lines of a history's text after the first.
ghost use Rattle.std.specs.Prelude.{◌∷◌, codes, map, IfErr, IfOk};
ghost use Rattle.history_text.specs.HistoryLine.{IsAccessBy, ReadsAsLine, ReadsAsTold};
ghost use Rattle.history_text.specs.declared.history_line.HistoryLine.{HistoryLine};

use super::interval::{Interval, number_of, parted};
use address_map::{CoreId, Op, WordAddr};
use history_judge::Access;
use litmus_text::{LineFault, three_numbers, two_numbers};
use trace_check::{MOST_CORES, MOST_WORDS};

/// What a line of a history says.
#[derive(Clone, Copy, Debug, PartialEq, Eq)]
pub enum HistoryLine {
    /// A word and the value that it begins with.
    Init(WordAddr, u64),
    Access(Access),
}

/// A core's request to a word, and its reply: 0 to a store.
#[derive(Clone, Copy)]
pub(super) struct Told {
    pub op: Op,
    pub word: u64,
    pub reply: u64,
}

impl HistoryLine {
    #[tactic(auto, using(crate::proofs::HistoryLines::no_words, crate::proofs::HistoryLines::of_none, litmus_text::proofs::FormLemmas::no_words))]
    /// Parses a line: `init WORD VALUE`, or `core CORE` and an access with its reply and its times.
    pub fn parse(words: &[&[u8]]) -> Result<Self, LineFault>
        ensures { ReadsAsLine (map (λ w. w.now) words.now) result }
    {
        let Some((name, rest)) = words.split_first() else {
            return Err(LineFault::NotACommand);
        };
        if *name == b"init".as_slice() {
            return parse_init(rest);
        }
        if *name == b"core".as_slice() {
            return parse_core(rest);
        }
        Err(LineFault::NotACommand)
    }
}

#[tactic(auto, using(crate::proofs::HistoryLines::of_init), unfolding(crate::specs::HistoryLine::IsLineOf))]
fn parse_init(words: &[&[u8]]) -> Result<HistoryLine, LineFault>
    ensures { ReadsAsLine (codes "init" ∷ map (λ w. w.now) words.now) result }
{
    let (word, value) = two_numbers(words)?;
    if word >= MOST_WORDS {
        return Err(LineFault::OutOfRange);
    }
    Ok(HistoryLine::Init(WordAddr(word), value))
}

fn parse_core(words: &[&[u8]]) -> Result<HistoryLine, LineFault>
    ensures { ReadsAsLine (codes "core" ∷ map (λ w. w.now) words.now) result }
{
    let [core, behind @ ..] = words else {
        return Err(LineFault::NotACommand);
    };
    match parted(behind) {
        Some((told, times)) => parse_access(core, told, Interval::parse(times)?),
        None => parse_access(core, behind, Interval::UNKNOWN),
    }
}

// Parses the words of an access.
#[tactic(auto, unfolding(crate::specs::HistoryLine::IsAccessBy))]
fn parse_access(core: &[u8], told: &[&[u8]], interval: Interval) -> Result<HistoryLine, LineFault>
    ensures line { IfOk result
        (IsAccessBy core.now (map (λ w. w.now) told.now) interval.begin interval.end) }
    ensures refused { IfErr result (λ fault. (line : HistoryLine)
        → IsAccessBy core.now (map (λ w. w.now) told.now) interval.begin interval.end line → ⊥) }
{
    let told = Told::parse(told)?;
    let core = number_of(core)?;
    if core >= MOST_CORES || told.word >= MOST_WORDS || interval.end < interval.begin {
        return Err(LineFault::OutOfRange);
    }
    let access = Access {
        op: told.op,
        reply: told.reply,
        begin: interval.begin,
        end: interval.end,
        word: WordAddr(told.word),
        core: CoreId(core as u8),
    };
    Ok(HistoryLine::Access(access))
}

impl Told {
    #[tactic(auto, using(crate::proofs::HistoryLines::no_name, crate::proofs::HistoryLines::other_name, litmus_text::proofs::FormLemmas::no_words))]
    fn parse(words: &[&[u8]]) -> Result<Self, LineFault>
        ensures { ReadsAsTold (map (λ w. w.now) words.now) result }
    {
        let Some((name, numbers)) = words.split_first() else {
            return Err(LineFault::NotACommand);
        };
        if *name == b"load".as_slice() {
            return parse_load(numbers);
        }
        if *name == b"store".as_slice() {
            return parse_store(numbers);
        }
        if *name == b"add".as_slice() {
            return parse_add(numbers);
        }
        if *name == b"cas".as_slice() {
            return parse_cas(numbers);
        }
        Err(LineFault::NotACommand)
    }
}

fn parse_load(numbers: &[&[u8]]) -> Result<Told, LineFault>
    ensures { ReadsAsTold (codes "load" ∷ map (λ w. w.now) numbers.now) result }
{
    let (word, reply) = two_numbers(numbers)?;
    Ok(Told {
        op: Op::Load,
        word,
        reply,
    })
}

fn parse_store(numbers: &[&[u8]]) -> Result<Told, LineFault>
    ensures { ReadsAsTold (codes "store" ∷ map (λ w. w.now) numbers.now) result }
{
    let (word, value) = two_numbers(numbers)?;
    Ok(Told {
        op: Op::Store(value),
        word,
        reply: 0,
    })
}

fn parse_add(numbers: &[&[u8]]) -> Result<Told, LineFault>
    ensures { ReadsAsTold (codes "add" ∷ map (λ w. w.now) numbers.now) result }
{
    let (word, delta, reply) = three_numbers(numbers)?;
    Ok(Told {
        op: Op::Add(delta),
        word,
        reply,
    })
}

#[tactic(auto, using(crate::proofs::HistoryLines::of_cas), unfolding(crate::specs::HistoryLine::IsTold))]
fn parse_cas(numbers: &[&[u8]]) -> Result<Told, LineFault>
    ensures { ReadsAsTold (codes "cas" ∷ map (λ w. w.now) numbers.now) result }
{
    let Some((word, rest)) = numbers.split_first() else {
        return Err(LineFault::NotACommand);
    };
    let (expect, new, reply) = three_numbers(rest)?;
    Ok(Told {
        op: Op::Cas { expect, new },
        word: number_of(word)?,
        reply,
    })
}
