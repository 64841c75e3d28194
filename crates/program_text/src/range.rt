ghost use Rattle.std.specs.Prelude.{◌≡◌, ◌≢◌, ◌+◌, ◌<◌, ℕ, IfErr, IfNone, IfOk, IfSome, drop, length, slice_index};
ghost use Rattle.std.specs.List.{position};
ghost use Rattle.std.specs.Result.{OkIff};
ghost use Rattle.std.specs.Str.Parse.{digits_value};
ghost use Rattle.litmus_text.specs.Number.{IsNumber};
ghost use Rattle.program_text.specs.Range.{IsRange, is_dot};

use litmus_text::{LineFault, parse_number};

/// The words from the first to the last.
#[derive(Clone, Copy)]
pub(super) struct Range {
    pub first: u64,
    pub last: u64,
}

impl Range {
    /// A word, or the words from one to another as FIRST..LAST.
    pub(super) fn parse(text: &[u8]) -> Result<Range, LineFault>
        ensures written { IfOk result (λ range. IsRange text.now range.first range.last) }
        ensures only { IfOk result (λ range. (first last : ℕ) → IsRange text.now first last
            → (first ≡ range.first) × (last ≡ range.last)) }
        ensures refused { IfErr result (λ fault. (first last : ℕ) → IsRange text.now first last → ⊥) }
        ensures fault { IfErr result (λ fault. fault ≡ LineFault.BadNumber) }
    {
        match dot_at(text) {
            Some(at) => parse_span(text, at),
            None => parse_one(text),
        }
    }
}

/// A text without dots.
fn parse_one(text: &[u8]) -> Result<Range, LineFault>
    requires { position is_dot text.now ≡ None }
    ensures written { IfOk result (λ range. IsRange text.now range.first range.last) }
    ensures only { IfOk result (λ range. (first last : ℕ) → IsRange text.now first last
        → (first ≡ range.first) × (last ≡ range.last)) }
    ensures refused { IfErr result (λ fault. (first last : ℕ) → IsRange text.now first last → ⊥) }
    ensures fault { IfErr result (λ fault. fault ≡ LineFault.BadNumber) }
{
    match parse_number(text) {
        Some(word) => Ok(Range {
            first: word,
            last: word,
        }),
        None => Err(LineFault::BadNumber),
    }
}

/// A text with its first dot at this place.
fn parse_span(text: &[u8], at: usize) -> Result<Range, LineFault>
    requires { position is_dot text.now ≡ Some at }
    ensures written { IfOk result (λ range. IsRange text.now range.first range.last) }
    ensures only { IfOk result (λ range. (first last : ℕ) → IsRange text.now first last
        → (first ≡ range.first) × (last ≡ range.last)) }
    ensures refused { IfErr result (λ fault. (first last : ℕ) → IsRange text.now first last → ⊥) }
    ensures fault { IfErr result (λ fault. fault ≡ LineFault.BadNumber) }
{
    let Some(behind) = behind_dots(text, at) else {
        return Err(LineFault::BadNumber);
    };
    let Some(first) = parse_number(&text[..at]) else {
        return Err(LineFault::BadNumber);
    };
    match parse_number(behind) {
        Some(last) => Ok(Range { first, last }),
        None => Err(LineFault::BadNumber),
    }
}

/// Returns what follows the dot at this place and another.
fn behind_dots(text: &[u8], at: usize) -> Option<&[u8]>
    requires { at < length text.now }
    ensures some { IfSome result
        (λ behind. (slice_index text.now (at + 1) ≡ 46) × (behind.now ≡ drop (at + 2) text.now)) }
    ensures none { IfNone result (slice_index text.now (at + 1) ≢ 46) }
{
    match &text[at + 1..] {
        [b'.', behind @ ..] => Some(behind),
        _ => None,
    }
}

/// Returns the place of the first dot.
fn dot_at(text: &[u8]) -> Option<usize>
    ensures { result ≡ position is_dot text.now }
{
    text.iter().position(|byte| *byte == b'.')
}

/// Returns the number that a text has to spell.
pub(super) fn number_of(text: &[u8]) -> Result<u64, LineFault>
    ensures ok { OkIff result (IsNumber text.now) (digits_value 10 text.now) }
    ensures err { IfErr result (λ fault. fault ≡ LineFault.BadNumber) }
{
    parse_number(text).ok_or(LineFault::BadNumber)
}
