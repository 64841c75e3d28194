//! The numbers that words spell, and whether a machine has a core, slice, line or word of that number.
ghost use Rattle.std.specs.Prelude.{◌≡◌, ℕ, ◌+◌, ◌*◌, ◌/◌, ◌^◌, ◌<◌, [], ◌∷◌, map, IfOk, IfErr};
ghost use Rattle.std.specs.Option.{SomeIff};
ghost use Rattle.std.specs.Result.{OkIff};
ghost use Rattle.std.specs.Char.{digit_value};
ghost use Rattle.std.specs.Str.Parse.{digits_value};
ghost use Rattle.litmus_text.specs.Form.{Writes, IsFormFaultOf, no_parts, num, one_part, three_parts, two_parts};
ghost use Rattle.litmus_text.specs.Number.{IsNumber};

use super::fault::LineFault;
use address_map::{Checked, CoreId, LineAddr, SliceId, WordAddr};

/// The maximum number of digits.
const MOST_DIGITS: usize = 20;

/// Parses a decimal number: one to twenty digits and no sign.
pub fn parse_number(word: &[u8]) -> Option<u64>
    ensures { SomeIff result (IsNumber word.now) (digits_value 10 word.now) }
{
    number(word).ok()
}

/// Parses a word that has to be a number.
pub(super) fn number(word: &[u8]) -> Result<u64, LineFault>
    ensures ok { OkIff result (IsNumber word.now) (digits_value 10 word.now) }
    ensures err { IfErr result (λ fault. fault ≡ LineFault.BadNumber) }
{
    if word.is_empty() || word.len() > MOST_DIGITS {
        return Err(LineFault::BadNumber);
    }
    let mut number = 0;
    for byte in word {
        match with_digit(number, *byte) {
            Some(longer) => number = longer,
            None => return Err(LineFault::BadNumber),
        }
    }
    Ok(number)
}

// Appends a digit, if the byte is one and the number still fits.
fn with_digit(number: u64, byte: u8) -> Option<u64>
    ensures { SomeIff result ((digit_value byte < 10) × (number * 10 + digit_value byte < 2 ^ 64))
        (number * 10 + digit_value byte) }
{
    if !byte.is_ascii_digit() {
        return None;
    }
    number.checked_mul(10)?.checked_add((byte - b'0') as u64)
}

/// Parses a tag: a number below 256.
pub(super) fn tag_number(word: &[u8]) -> Result<u8, LineFault>
    ensures ok { OkIff result (IsNumber word.now × (digits_value 10 word.now < 256)) (digits_value 10 word.now) }
    ensures err { IfErr result (λ fault. fault ≡ LineFault.BadNumber) }
{
    let tag = number(word)?;
    if tag < 256 {
        Ok(tag as u8)
    } else {
        Err(LineFault::BadNumber)
    }
}

/// Checks that there are no words.
#[tactic(auto, using(crate::proofs::FormLemmas::wrong_count, crate::proofs::FormLemmas::wrong_form), unfolding(crate::specs::Form::IsFaultOf))]
pub fn no_numbers(words: &[&[u8]]) -> Result<(), LineFault>
    ensures written { IfOk result (λ unit. Writes (map (λ w. w.now) words.now) []) }
    ensures refused { IfErr result (λ fault. Writes (map (λ w. w.now) words.now) [] → ⊥) }
    ensures fault { IfErr result (IsFormFaultOf no_parts (map (λ w. w.now) words.now)) }
{
    match words {
        [] => Ok(()),
        _ => Err(LineFault::NotACommand),
    }
}

/// Parses exactly one number.
#[tactic(auto, using(crate::proofs::FormLemmas::wrong_count, crate::proofs::FormLemmas::wrong_form), unfolding(crate::specs::Form::IsFaultOf))]
pub fn one_number(words: &[&[u8]]) -> Result<u64, LineFault>
    ensures written { IfOk result (λ n. Writes (map (λ w. w.now) words.now) (num n ∷ [])) }
    ensures only { IfOk result (λ n. (m : ℕ) → Writes (map (λ w. w.now) words.now) (num m ∷ []) → m ≡ n) }
    ensures refused { IfErr result (λ fault. (n : ℕ) → Writes (map (λ w. w.now) words.now) (num n ∷ []) → ⊥) }
    ensures fault { IfErr result (IsFormFaultOf one_part (map (λ w. w.now) words.now)) }
{
    let [word] = words else {
        return Err(LineFault::NotACommand);
    };
    number(word)
}

/// Parses exactly two numbers.
#[tactic(auto, using(crate::proofs::FormLemmas::wrong_count, crate::proofs::FormLemmas::wrong_form), unfolding(crate::specs::Form::IsFaultOf))]
pub fn two_numbers(words: &[&[u8]]) -> Result<(u64, u64), LineFault>
    ensures written { IfOk result (λ p. Writes (map (λ w. w.now) words.now) (num p.0 ∷ num p.1 ∷ [])) }
    ensures only { IfOk result
        (λ p. (n m : ℕ) → Writes (map (λ w. w.now) words.now) (num n ∷ num m ∷ []) → (n ≡ p.0) × (m ≡ p.1)) }
    ensures refused { IfErr result (λ fault. (n m : ℕ) → Writes (map (λ w. w.now) words.now) (num n ∷ num m ∷ []) → ⊥) }
    ensures fault { IfErr result (IsFormFaultOf two_parts (map (λ w. w.now) words.now)) }
{
    let [first, second] = words else {
        return Err(LineFault::NotACommand);
    };
    Ok((number(first)?, number(second)?))
}

/// Parses exactly three numbers.
#[tactic(auto, using(crate::proofs::FormLemmas::wrong_count, crate::proofs::FormLemmas::wrong_form), unfolding(crate::specs::Form::IsFaultOf))]
pub fn three_numbers(words: &[&[u8]]) -> Result<(u64, u64, u64), LineFault>
    ensures written { IfOk result (λ p. Writes (map (λ w. w.now) words.now) (num p.0 ∷ num p.1 ∷ num p.2 ∷ [])) }
    ensures only { IfOk result (λ p. (n m k : ℕ) → Writes (map (λ w. w.now) words.now) (num n ∷ num m ∷ num k ∷ [])
        → (n ≡ p.0) × (m ≡ p.1) × (k ≡ p.2)) }
    ensures refused { IfErr result (λ fault. (n m k : ℕ)
        → Writes (map (λ w. w.now) words.now) (num n ∷ num m ∷ num k ∷ []) → ⊥) }
    ensures fault { IfErr result (IsFormFaultOf three_parts (map (λ w. w.now) words.now)) }
{
    let [first, second, third] = words else {
        return Err(LineFault::NotACommand);
    };
    Ok((number(first)?, number(second)?, number(third)?))
}

/// Returns the core with this number, if the machine has it.
pub fn core_in(config: &Checked, number: u64) -> Result<CoreId, LineFault>
    ensures ok { OkIff result (number < config.now.cores) (record { 0 = number }) }
    ensures err { IfErr result (λ fault. fault ≡ LineFault.OutOfRange) }
{
    if number < config.cores() as u64 {
        Ok(CoreId(number as u8))
    } else {
        Err(LineFault::OutOfRange)
    }
}

/// Returns the slice with this number, if the machine has it.
pub fn slice_in(config: &Checked, number: u64) -> Result<SliceId, LineFault>
    ensures ok { OkIff result (number < config.now.slices) (record { 0 = number }) }
    ensures err { IfErr result (λ fault. fault ≡ LineFault.OutOfRange) }
{
    if number < config.slices() as u64 {
        Ok(SliceId(number as u8))
    } else {
        Err(LineFault::OutOfRange)
    }
}

/// Returns the line with this number, if the machine has it.
pub fn line_in(config: &Checked, number: u64) -> Result<LineAddr, LineFault>
    ensures ok { OkIff result (number < config.now.lines) (record { 0 = number }) }
    ensures err { IfErr result (λ fault. fault ≡ LineFault.OutOfRange) }
{
    if number < config.lines() as u64 {
        Ok(LineAddr(number))
    } else {
        Err(LineFault::OutOfRange)
    }
}

/// Returns the word with this number, if the machine has it.
pub fn word_in(config: &Checked, number: u64) -> Result<WordAddr, LineFault>
    ensures ok { OkIff result (number / 8 < config.now.lines) (record { 0 = number }) }
    ensures err { IfErr result (λ fault. fault ≡ LineFault.OutOfRange) }
{
    if number / 8 < config.lines() as u64 {
        Ok(WordAddr(number))
    } else {
        Err(LineFault::OutOfRange)
    }
}
