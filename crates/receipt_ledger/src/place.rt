ghost use Rattle.std.specs.Prelude.{◌≡◌, ◌<◌, ◌≤◌, [], ◌∷◌, length, position, MatchOption, ◌==◌};
ghost use Rattle.address_map.specs.Words.{IsAscendingBy};
ghost use Rattle.receipt_ledger.specs.Sums.{zeros, only, sums};

use address_map::{Op, WordAddr};
use slice_log::Entry;

// The place of the word among the counters.
fn place_of(words: &[WordAddr], word: WordAddr) -> Option<usize>
    ensures { result ≡ position (λ counter. counter.0 == word.0) words.now }
{
    words.iter().position(|counter| *counter == word)
}

/// Which counter the entry adds to, by its place, and how much; None where it adds to none.
pub(crate) fn addition(words: &[WordAddr], entry: &Entry) -> Option<(usize, u64)>
    requires few { length words.now ≤ 8 }
    requires ascending { IsAscendingBy (λ word. word.0) words.now }
    ensures { let sums = sums words.now (entry.now ∷ []) in
        MatchOption result (sums ≡ zeros) (λ a. (a.0 < 8) × (sums ≡ only a.0 a.1)) }
{
    let Op::Add(delta) = entry.op else {
        return None;
    };
    Some((place_of(words, entry.word)?, delta))
}
