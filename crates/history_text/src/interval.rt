//! When an access began and ended, which the last word of its line may give.
ghost use Rattle.std.specs.Prelude.{◌≡◌, ◌≢◌, ◌+◌, ◌<◌, ◌++◌, ◌∷◌, [], ℕ, List, IfErr, IfNone, IfOk, IfSome, drop, length};
ghost use Rattle.std.specs.Prelude.{map, slice_index};
ghost use Rattle.std.specs.List.{position};
ghost use Rattle.std.specs.Result.{OkIff};
ghost use Rattle.std.specs.Str.Parse.{digits_value};
ghost use Rattle.litmus_text.specs.Number.{IsNumber};
ghost use Rattle.history_text.specs.HistoryLine.{IsInterval, is_dot};

use litmus_text::{LineFault, parse_number};

/// The times at which an access began and ended, by a counter that all cores share.
#[derive(Clone, Copy)]
pub(super) struct Interval {
    pub begin: u64,
    pub end: u64,
}

impl Interval {
    /// Neither is known.
    pub(super) const UNKNOWN: Interval = Interval {
        begin: 0,
        end: u64::MAX,
    };

    /// Parses a text BEGIN..END.
    pub(super) fn parse(text: &[u8]) -> Result<Self, LineFault>
        ensures written { IfOk result (λ it. IsInterval text.now it.begin it.end) }
        ensures only { IfOk result (λ it. (begin end : ℕ) → IsInterval text.now begin end
            → (begin ≡ it.begin) × (end ≡ it.end)) }
        ensures refused { IfErr result (λ fault. (begin end : ℕ) → IsInterval text.now begin end → ⊥) }
    {
        match dot_at(text) {
            Some(at) => parse_around(text, at),
            None => Err(LineFault::BadNumber),
        }
    }
}

// Parses a text with its first dot at this place.
fn parse_around(text: &[u8], at: usize) -> Result<Interval, LineFault>
    requires { position is_dot text.now ≡ Some at }
    ensures written { IfOk result (λ it. IsInterval text.now it.begin it.end) }
    ensures only { IfOk result (λ it. (begin end : ℕ) → IsInterval text.now begin end
        → (begin ≡ it.begin) × (end ≡ it.end)) }
    ensures refused { IfErr result (λ fault. (begin end : ℕ) → IsInterval text.now begin end → ⊥) }
{
    let Some(behind) = behind_dots(text, at) else {
        return Err(LineFault::BadNumber);
    };
    let begin = number_of(&text[..at])?;
    let end = number_of(behind)?;
    Ok(Interval { begin, end })
}

// Returns what follows the dot at this place and another.
fn behind_dots(text: &[u8], at: usize) -> Option<&[u8]>
    requires { at < length text.now }
    ensures some { IfSome result
        (λ behind. (slice_index text.now (at + 1) ≡ 46) × (behind.now ≡ drop (at + 2) text.now)) }
    ensures none { IfNone result (slice_index text.now (at + 1) ≢ 46) }
{
    match &text[at + 1..] {
        [b'.', behind @ ..] => Some(behind),
        _ => None,
    }
}

// Returns the place of the first dot.
fn dot_at(text: &[u8]) -> Option<usize>
    ensures { result ≡ position is_dot text.now }
{
    text.iter().position(|byte| *byte == b'.')
}

/// Returns the words before the last, and the text after that one's `@`, if it begins with one.
pub(super) fn parted<'a>(words: &'a [&'a [u8]]) -> Option<(&'a [&'a [u8]], &'a [u8])>
    ensures some { IfSome result
        (λ p. map (λ w. w.now) words.now ≡ map (λ w. w.now) p.0.now ++ (64 ∷ p.1.now) ∷ []) }
    ensures none { IfNone result ((front : List (List ℕ)) (times : List ℕ)
        → map (λ w. w.now) words.now ≢ front ++ (64 ∷ times) ∷ []) }
{
    let [front @ .., last] = words else {
        return None;
    };
    match behind_mark(last) {
        Some(times) => Some((front, times)),
        None => None,
    }
}

fn behind_mark(word: &[u8]) -> Option<&[u8]>
    ensures some { IfSome result (λ times. word.now ≡ 64 ∷ times.now) }
    ensures none { IfNone result ((times : List ℕ) → word.now ≢ 64 ∷ times) }
{
    match word {
        [b'@', times @ ..] => Some(times),
        _ => None,
    }
}

/// Parses a word that has to be a number.
pub(super) fn number_of(word: &[u8]) -> Result<u64, LineFault>
    ensures ok { OkIff result (IsNumber word.now) (digits_value 10 word.now) }
    ensures err { IfErr result (λ fault. fault ≡ LineFault.BadNumber) }
{
    parse_number(word).ok_or(LineFault::BadNumber)
}
