ghost use Rattle.std.specs.Prelude.{◌≡◌};
ghost use Rattle.slice_log.specs.Log.{value, value_past, stored_to, added_to, named};

use super::entry::Entry;
use super::perform::performed;
use address_map::{Op, WordAddr};

/// The value of a word after the entries, from its initial value.
pub fn value_after(initial: u64, entries: &[Entry], word: WordAddr) -> u64
    ensures { result ≡ value initial entries.now word.0 }
{
    let mut value = initial;
    for entry in entries {
        value = value_after_one(value, entry, word);
    }
    value
}

// What one entry makes of a word's value. A compare-exchange matched where it replied what it expected.
fn value_after_one(value: u64, entry: &Entry, word: WordAddr) -> u64
    ensures { result ≡ value_past (stored_to word.0 entry.now) value (added_to word.0 entry.now) }
{
    if entry.word != word {
        return value;
    }
    match entry.op {
        Op::Cas { expect, new } if entry.reply == expect => new,
        Op::Cas { .. } => value,
        op => performed(op, value),
    }
}

/// The sum of all that the entries add to a word, as a whole number: it isn't reduced.
pub fn named_sum(entries: &[Entry], word: WordAddr) -> u128
    ensures { result ≡ named entries.now word.0 }
{
    let mut sum = 0;
    for entry in entries {
        sum += u128::from(added_by(entry, word));
    }
    sum
}

fn added_by(entry: &Entry, word: WordAddr) -> u64
    ensures { result ≡ added_to word.0 entry.now }
{
    match entry.op {
        Op::Add(delta) if entry.word == word => delta,
        _ => 0,
    }
}
