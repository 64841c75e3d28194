//! What a line at the prompt does that begins with a word of the prompt's own.
ghost use Rattle.std.specs.Prelude.{◌≡◌, ◌≢◌, ◌<◌, ◌∷◌, IfErr, IfNone, IfSome, codes, map};
ghost use Rattle.std.specs.Result.{OkIff};
ghost use Rattle.script_prompt.specs.Own.{ReadsAsOwn, name_of};
ghost use Rattle.script_prompt.specs.declared.own.Word.{Word};

use address_map::{Checked, CoreId, Op, SliceId, WordAddr};
use litmus_text::{
    LineFault, core_in, no_numbers, one_number, parse_number, three_numbers, two_numbers,
    value_named,
};

/// What the prompt does at a word of its own.
#[derive(Clone, Copy, Debug, PartialEq, Eq)]
pub enum Own<'a> {
    /// An access of a core, under a tag that is free.
    Access {
        core: CoreId,
        op: Op,
        word: WordAddr,
    },
    /// The next delivery, of any slice or of this one.
    Next(Option<SliceId>),
    /// To take the last line back.
    Undo,
    /// To write the script into the file of this name.
    Save(&'a [u8]),
    Help,
    Quit,
}

/// The words of the prompt's own.
#[derive(Clone, Copy)]
pub(crate) enum Word {
    Load,
    Store,
    Add,
    Cas,
    Next,
    Undo,
    Save,
    Help,
    Quit,
}

/// Each of them, by its name.
static WORDS: [(&[u8], Word); 9] = [
    (b"load", Word::Load),
    (b"store", Word::Store),
    (b"add", Word::Add),
    (b"cas", Word::Cas),
    (b"next", Word::Next),
    (b"undo", Word::Undo),
    (b"save", Word::Save),
    (b"help", Word::Help),
    (b"quit", Word::Quit),
];

/// Returns the word with this name.
pub(crate) fn own_word(name: &[u8]) -> Option<Word>
    ensures found { IfSome result (λ word. name.now ≡ name_of word) }
    ensures none { IfNone result ((word : Word) → name.now ≢ name_of word) }
{
    value_named(&WORDS, name)
}

/// Returns what the prompt does at this word with these other words after it, at a machine of this configuration.
pub(crate) fn read_own<'a>(
    config: &Checked,
    word: Word,
    rest: &[&'a [u8]],
) -> Result<Own<'a>, LineFault>
    ensures { ReadsAsOwn config.now (name_of word ∷ map (λ w. w.now) rest.now) result }
{
    match word {
        Word::Load => read_load(config, rest),
        Word::Store => read_store(config, rest),
        Word::Add => read_add(config, rest),
        Word::Cas => read_cas(config, rest),
        Word::Next => read_next(config, rest),
        Word::Undo => {
            no_numbers(rest)?;
            Ok(Own::Undo)
        }
        Word::Save => read_save(config, rest),
        Word::Help => {
            no_numbers(rest)?;
            Ok(Own::Help)
        }
        Word::Quit => {
            no_numbers(rest)?;
            Ok(Own::Quit)
        }
    }
}

#[tactic(auto, unfolding(crate::specs::Own::parts_of_access))]
fn read_load<'a>(config: &Checked, rest: &[&'a [u8]]) -> Result<Own<'a>, LineFault>
    ensures { ReadsAsOwn config.now (codes "load" ∷ map (λ w. w.now) rest.now) result }
{
    let (core, word) = two_numbers(rest)?;
    Ok(Own::Access {
        core: core_in(config, core)?,
        op: Op::Load,
        word: WordAddr(word),
    })
}

#[tactic(auto, unfolding(crate::specs::Own::parts_of_access))]
fn read_store<'a>(config: &Checked, rest: &[&'a [u8]]) -> Result<Own<'a>, LineFault>
    ensures { ReadsAsOwn config.now (codes "store" ∷ map (λ w. w.now) rest.now) result }
{
    let (core, word, value) = three_numbers(rest)?;
    Ok(Own::Access {
        core: core_in(config, core)?,
        op: Op::Store(value),
        word: WordAddr(word),
    })
}

#[tactic(auto, unfolding(crate::specs::Own::parts_of_access))]
fn read_add<'a>(config: &Checked, rest: &[&'a [u8]]) -> Result<Own<'a>, LineFault>
    ensures { ReadsAsOwn config.now (codes "add" ∷ map (λ w. w.now) rest.now) result }
{
    let (core, word, delta) = three_numbers(rest)?;
    Ok(Own::Access {
        core: core_in(config, core)?,
        op: Op::Add(delta),
        word: WordAddr(word),
    })
}

#[tactic(auto, unfolding(crate::specs::Own::parts_of_access))]
fn read_cas<'a>(config: &Checked, rest: &[&'a [u8]]) -> Result<Own<'a>, LineFault>
    ensures { ReadsAsOwn config.now (codes "cas" ∷ map (λ w. w.now) rest.now) result }
{
    let Some((core, others)) = rest.split_first() else {
        return Err(LineFault::NotACommand);
    };
    let (word, expect, new) = three_numbers(others)?;
    let Some(core) = parse_number(core) else {
        return Err(LineFault::BadNumber);
    };
    Ok(Own::Access {
        core: core_in(config, core)?,
        op: Op::Cas { expect, new },
        word: WordAddr(word),
    })
}

fn read_next<'a>(config: &Checked, rest: &[&'a [u8]]) -> Result<Own<'a>, LineFault>
    ensures { ReadsAsOwn config.now (codes "next" ∷ map (λ w. w.now) rest.now) result }
{
    if rest.is_empty() {
        return Ok(Own::Next(None));
    }
    let slice = one_number(rest)?;
    Ok(Own::Next(Some(slice_in(config, slice)?)))
}

fn read_save<'a>(config: &Checked, rest: &[&'a [u8]]) -> Result<Own<'a>, LineFault>
    ensures { ReadsAsOwn config.now (codes "save" ∷ map (λ w. w.now) rest.now) result }
{
    let Some((file, more)) = rest.split_first() else {
        return Err(LineFault::NotACommand);
    };
    no_numbers(more)?;
    Ok(Own::Save(file))
}

/// Returns the slice with this number, if the machine has it.
fn slice_in(config: &Checked, number: u64) -> Result<SliceId, LineFault>
    ensures ok { OkIff result (number < config.now.slices) (record { 0 = number }) }
    ensures err { IfErr result (λ fault. fault ≡ LineFault.OutOfRange) }
{
    if number < config.slices() as u64 {
        Ok(SliceId(number as u8))
    } else {
        Err(LineFault::OutOfRange)
    }
}
