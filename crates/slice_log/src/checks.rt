ghost use Rattle.std.specs.Prelude.{◌≡◌, ℕ, ◌↔◌, ◌/◌, ◌<◌, All, IsTrue};
ghost use Rattle.address_map.specs.Words.{initial_value};
ghost use Rattle.slice_log.specs.Log.{initially, IsLegal, IsOrdered, IsAfter};

use super::entry::Entry;
use super::history::value_after;
use super::perform::reply_to;
use address_map::WordAddr;

/// Whether each entry's reply is the one that the value of its word gives. A word begins with the value that is
/// paired with it first, and a word that isn't named begins as 0.
pub fn is_legal(init: &[(WordAddr, u64)], log: &[Entry]) -> bool
    ensures { IsTrue result ↔ IsLegal (initially init.now) log.now }
{
    for (number, entry) in log.iter().enumerate() {
        let initial = initial_of(init, entry.word);
        let value = value_after(initial, &log[..number], entry.word);
        if entry.reply != reply_to(entry.op, value) {
            return false;
        }
    }
    true
}

// The value that the word begins with.
fn initial_of(init: &[(WordAddr, u64)], word: WordAddr) -> u64
    ensures { result ≡ initial_value init.now word }
{
    match init.iter().find(|pair| pair.0.0 == word.0) {
        Some(pair) => pair.1,
        None => 0,
    }
}

/// Whether the log is in each core's order, and no entry was performed before it was asked for.
pub fn is_ordered(log: &[Entry]) -> bool
    ensures { IsTrue result ↔ IsOrdered log.now }
{
    for (number, entry) in log.iter().enumerate() {
        if entry.since > number as u64 || !is_last_of_its_core(&log[..number], entry) {
            return false;
        }
    }
    true
}

// Whether the entry was asked for after all earlier entries of its core on its line.
fn is_last_of_its_core(earlier: &[Entry], entry: &Entry) -> bool
    ensures { IsTrue result ↔ All (λ d. IsAfter d entry.now) earlier.now }
{
    earlier.iter().all(|d| {
        d.core != entry.core || d.word.0 / 8 != entry.word.0 / 8 || d.seq < entry.seq
    })
}
