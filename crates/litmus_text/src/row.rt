//! The first words of a line. The blanks of a short line are found as a bit mask, from 64 bytes of the text at once.
ghost use Rattle.std.specs.Prelude.{◌≡◌, ℕ, ◌+◌, ◌<◌, ◌≤◌, ◌==◌, List, [], ◌∷◌, ◌++◌, drop, length, map, slice_index};
ghost use Rattle.std.specs.Prelude.{take};
ghost use Rattle.std.specs.Prelude.{if◌then◌else◌};
ghost use Rattle.std.specs.Int.{bit_at};
ghost use Rattle.std.specs.List.{position_or_len};
ghost use Rattle.litmus_text.specs.Blanks.{AreBlanks};
ghost use Rattle.litmus_text.specs.Text.{is_blank, parts_with_bytes, words, words_of_line};
ghost use Rattle.litmus_text.specs.declared.row.TheConstants.{MOST_WORDS};

use super::word::Words;
use arrayvec::ArrayVec;
use std::simd::prelude::*;

/// The number of words of a line that are kept: more than any line of a text may have.
pub const MOST_WORDS: usize = 18;

/// The number of bytes scanned at once.
const BLOCK: usize = 64;

/// The first words of a line.
pub(super) type Row<'a> = ArrayVec<&'a [u8], MOST_WORDS>;

/// Returns the first words of a line. A line with more words than are kept matches no form.
pub fn first_words(line: &[u8]) -> ArrayVec<&[u8], MOST_WORDS>
    ensures { map (λ w. w.now) result.items ≡ take MOST_WORDS (words_of_line line.now) }
{
    let mut row = ArrayVec::new();
    fill_word_by_word(&mut row, line);
    row
}

/// Replaces the words of a row with the first words of a line. The text is the line and what follows it.
pub(super) fn fill_row<'a>(row: &mut Row<'a>, line: &'a [u8], text: &[u8])
    requires { take (length line.now) text.now ≡ line.now }
    ensures { map (λ w. w.now) row.new.items ≡ take MOST_WORDS (words_of_line line.now) }
{
    if line.len() >= BLOCK || text.len() < BLOCK || matches!(line, [b'#', ..]) {
        fill_word_by_word(row, line);
    } else {
        fill_by_blanks(row, line, blanks_of(text));
    }
}

fn fill_word_by_word<'a>(row: &mut Row<'a>, line: &'a [u8])
    ensures { map (λ w. w.now) row.new.items ≡ take MOST_WORDS (words_of_line line.now) }
{
    row.clear();
    for word in Words::of_line(line) {
        if row.is_full() {
            break;
        }
        row.push(word);
    }
}

/// The same for a short line, with known blanks.
fn fill_by_blanks<'a>(row: &mut Row<'a>, line: &'a [u8], blanks: u64)
    requires short { length line.now < 64 }
    requires blanks { AreBlanks blanks line.now }
    ensures { map (λ w. w.now) row.new.items ≡ take MOST_WORDS (words line.now) }
{
    row.clear();
    let mut at = 0;
    while at < line.len() {
        if row.is_full() {
            break;
        }
        let end = part_end(line, blanks, at);
        push_part(row, &line[at..end]);
        at = end + 1;
    }
}

/// Adds the part between two blanks, unless it is empty.
#[inline(always)]
fn push_part<'a>(row: &mut Row<'a>, part: &'a [u8])
    requires { length row.old.items < MOST_WORDS }
    ensures items { map (λ w. w.now) row.new.items ≡ map (λ w. w.now) row.old.items
        ++ parts_with_bytes (part.now ∷ []) }
    ensures few { length row.new.items ≤ MOST_WORDS }
{
    if part.is_empty() {
        return;
    }
    row.push(part);
}

/// Returns the blanks of a line: bit k is set if byte k is one. The text is the line and what follows it.
#[inline(always)]
fn blanks_of(text: &[u8]) -> u64
    requires { 64 ≤ length text.now }
    ensures { (k : ℕ) → k < 64 → bit_at result k ≡ (if is_blank (slice_index text.now k) then 1 else 0) }
{
    let block = u8x64::from_slice(text);
    places_of(block, b' ') | places_of(block, b'\t')
}

/// Returns the positions of a byte in a block, as bits.
#[inline(always)]
fn places_of(block: u8x64, byte: u8) -> u64
    ensures { (k : ℕ) → k < 64 → bit_at result k ≡ (if slice_index block k == byte then 1 else 0) }
{
    block.simd_eq(u8x64::splat(byte)).to_bitmask()
}

/// Returns the end of the part that begins at `at`: the next blank, or the line's end.
#[inline(always)]
fn part_end(line: &[u8], blanks: u64, at: usize) -> usize
    requires short { length line.now < 64 }
    requires at { at < length line.now }
    requires blanks { AreBlanks blanks line.now }
    ensures part { result ≡ at + position_or_len is_blank (drop at line.now) }
    ensures within { (at ≤ result) × (result ≤ length line.now) }
{
    // If no bit is set, the result is past the block, and so past the line.
    let end = at + (blanks >> at).trailing_zeros() as usize;
    if end < line.len() { end } else { line.len() }
}
