ghost use Rattle.std.specs.Prelude.{◌≡◌, ℕ, [], ◌∷◌, codes, IfErr, IfOk, map};
ghost use Rattle.litmus_text.specs.Form.{Writes, num};
ghost use Rattle.program_text.specs.Keyword.{IsCountFault, IsFormFault, name_of_keyword, words_behind};
ghost use Rattle.program_text.specs.Line.{BeginsAsSetting, WritesRange};
ghost use Rattle.program_text.specs.Reading.{ReadsAs};

use super::keyword::Keyword;
use super::range::{Range, number_of};
use address_map::Op;
use litmus_text::LineFault;

/// What a line says after those that configure. Cores and words are numbers that the machine may lack.
#[derive(Clone, Copy)]
pub(super) enum Line {
    /// How many accesses of a core may be under way.
    Outstanding(u64),
    /// How many deliveries each slice makes after an access.
    Pace(u64),
    Core(u64),
    /// An access to each word of the range, ascending.
    Access(Range, Op),
    /// The core waits for its accesses.
    Settle,
    Repeat(u64),
    End,
}

impl Line {
    /// Returns the line that these words write. They are checked by their keyword and their count, and then as numbers.
    pub(super) fn parse(words: &[&[u8]]) -> Result<Self, LineFault>
        requires { ¬ BeginsAsSetting (map (λ w. w.now) words.now) }
        ensures reads { ReadsAs (map (λ w. w.now) words.now) result }
        ensures form { IfErr result (λ fault. IsFormFault (map (λ w. w.now) words.now) fault) }
    {
        let Some((name, rest)) = words.split_first() else {
            return Err(LineFault::NotACommand);
        };
        match Keyword::named(name) {
            Some(keyword) => parse_called(keyword, rest),
            None => Err(LineFault::NotACommand),
        }
    }
}

// Returns the line of this keyword with these other words.
fn parse_called(keyword: Keyword, words: &[&[u8]]) -> Result<Line, LineFault>
    ensures reads { ReadsAs (name_of_keyword keyword ∷ map (λ w. w.now) words.now) result }
    ensures form { IfErr result (λ fault. IsCountFault (words_behind keyword) (map (λ w. w.now) words.now) fault) }
{
    match keyword {
        Keyword::Outstanding => parse_outstanding(words),
        Keyword::Pace => parse_pace(words),
        Keyword::Core => parse_core(words),
        Keyword::Load => parse_load(words),
        Keyword::Store => parse_store(words),
        Keyword::Add => parse_add(words),
        Keyword::Cas => parse_cas(words),
        Keyword::Settle => parse_settle(words),
        Keyword::Repeat => parse_repeat(words),
        Keyword::End => parse_end(words),
    }
}

#[tactic(auto, using(crate::proofs::LineLemmas::outstanding_sets_nothing))]
fn parse_outstanding(words: &[&[u8]]) -> Result<Line, LineFault>
    ensures reads { ReadsAs (codes "outstanding" ∷ map (λ w. w.now) words.now) result }
    ensures form { IfErr result (λ fault. IsCountFault 1 (map (λ w. w.now) words.now) fault) }
{
    Ok(Line::Outstanding(number_alone(words)?))
}

#[tactic(auto, using(crate::proofs::LineLemmas::pace_sets_nothing))]
fn parse_pace(words: &[&[u8]]) -> Result<Line, LineFault>
    ensures reads { ReadsAs (codes "pace" ∷ map (λ w. w.now) words.now) result }
    ensures form { IfErr result (λ fault. IsCountFault 1 (map (λ w. w.now) words.now) fault) }
{
    Ok(Line::Pace(number_alone(words)?))
}

#[tactic(auto, using(crate::proofs::LineLemmas::core_sets_nothing))]
fn parse_core(words: &[&[u8]]) -> Result<Line, LineFault>
    ensures reads { ReadsAs (codes "core" ∷ map (λ w. w.now) words.now) result }
    ensures form { IfErr result (λ fault. IsCountFault 1 (map (λ w. w.now) words.now) fault) }
{
    Ok(Line::Core(number_alone(words)?))
}

#[tactic(auto, using(crate::proofs::LineLemmas::load_sets_nothing))]
fn parse_load(words: &[&[u8]]) -> Result<Line, LineFault>
    ensures reads { ReadsAs (codes "load" ∷ map (λ w. w.now) words.now) result }
    ensures form { IfErr result (λ fault. IsCountFault 1 (map (λ w. w.now) words.now) fault) }
{
    Ok(Line::Access(range_alone(words)?, Op::Load))
}

#[tactic(auto, using(crate::proofs::LineLemmas::store_sets_nothing))]
fn parse_store(words: &[&[u8]]) -> Result<Line, LineFault>
    ensures reads { ReadsAs (codes "store" ∷ map (λ w. w.now) words.now) result }
    ensures form { IfErr result (λ fault. IsCountFault 2 (map (λ w. w.now) words.now) fault) }
{
    let (range, value) = range_and_number(words)?;
    Ok(Line::Access(range, Op::Store(value)))
}

#[tactic(auto, using(crate::proofs::LineLemmas::add_sets_nothing))]
fn parse_add(words: &[&[u8]]) -> Result<Line, LineFault>
    ensures reads { ReadsAs (codes "add" ∷ map (λ w. w.now) words.now) result }
    ensures form { IfErr result (λ fault. IsCountFault 2 (map (λ w. w.now) words.now) fault) }
{
    let (range, delta) = range_and_number(words)?;
    Ok(Line::Access(range, Op::Add(delta)))
}

#[tactic(auto, using(crate::proofs::LineLemmas::cas_sets_nothing))]
fn parse_cas(words: &[&[u8]]) -> Result<Line, LineFault>
    ensures reads { ReadsAs (codes "cas" ∷ map (λ w. w.now) words.now) result }
    ensures form { IfErr result (λ fault. IsCountFault 3 (map (λ w. w.now) words.now) fault) }
{
    let (range, expect, new) = range_and_two_numbers(words)?;
    Ok(Line::Access(range, Op::Cas { expect, new }))
}

#[tactic(auto, using(crate::proofs::LineLemmas::settle_sets_nothing))]
fn parse_settle(words: &[&[u8]]) -> Result<Line, LineFault>
    ensures reads { ReadsAs (codes "settle" ∷ map (λ w. w.now) words.now) result }
    ensures form { IfErr result (λ fault. IsCountFault 0 (map (λ w. w.now) words.now) fault) }
{
    no_words(words)?;
    Ok(Line::Settle)
}

#[tactic(auto, using(crate::proofs::LineLemmas::repeat_sets_nothing))]
fn parse_repeat(words: &[&[u8]]) -> Result<Line, LineFault>
    ensures reads { ReadsAs (codes "repeat" ∷ map (λ w. w.now) words.now) result }
    ensures form { IfErr result (λ fault. IsCountFault 1 (map (λ w. w.now) words.now) fault) }
{
    Ok(Line::Repeat(number_alone(words)?))
}

#[tactic(auto, using(crate::proofs::LineLemmas::end_sets_nothing))]
fn parse_end(words: &[&[u8]]) -> Result<Line, LineFault>
    ensures reads { ReadsAs (codes "end" ∷ map (λ w. w.now) words.now) result }
    ensures form { IfErr result (λ fault. IsCountFault 0 (map (λ w. w.now) words.now) fault) }
{
    no_words(words)?;
    Ok(Line::End)
}

// There are no words.
#[tactic(auto, using(litmus_text::proofs::FormLemmas::wrong_count))]
fn no_words(words: &[&[u8]]) -> Result<(), LineFault>
    ensures written { IfOk result (λ unit. Writes (map (λ w. w.now) words.now) []) }
    ensures refused { IfErr result (λ fault. Writes (map (λ w. w.now) words.now) [] → ⊥) }
    ensures form { IfErr result (λ fault. IsCountFault 0 (map (λ w. w.now) words.now) fault) }
{
    match words {
        [] => Ok(()),
        _ => Err(LineFault::NotACommand),
    }
}

// Returns the number that is all of these words.
#[tactic(auto, using(litmus_text::proofs::FormLemmas::wrong_count))]
fn number_alone(words: &[&[u8]]) -> Result<u64, LineFault>
    ensures written { IfOk result (λ n. Writes (map (λ w. w.now) words.now) (num n ∷ [])) }
    ensures only { IfOk result (λ n. (m : ℕ) → Writes (map (λ w. w.now) words.now) (num m ∷ []) → m ≡ n) }
    ensures refused { IfErr result (λ fault. (n : ℕ) → Writes (map (λ w. w.now) words.now) (num n ∷ []) → ⊥) }
    ensures form { IfErr result (λ fault. IsCountFault 1 (map (λ w. w.now) words.now) fault) }
{
    match words {
        [number] => number_of(number),
        _ => Err(LineFault::NotACommand),
    }
}

// Returns the range that is all of these words.
#[tactic(auto, using(crate::proofs::LineLemmas::wrong_range), unfolding(crate::specs::Line::WritesRange))]
fn range_alone(words: &[&[u8]]) -> Result<Range, LineFault>
    ensures written { IfOk result (λ range. WritesRange (map (λ w. w.now) words.now) range.first range.last []) }
    ensures only { IfOk result (λ range. (first last : ℕ)
        → WritesRange (map (λ w. w.now) words.now) first last [] → (first ≡ range.first) × (last ≡ range.last)) }
    ensures refused { IfErr result (λ fault. (first last : ℕ)
        → WritesRange (map (λ w. w.now) words.now) first last [] → ⊥) }
    ensures form { IfErr result (λ fault. IsCountFault 1 (map (λ w. w.now) words.now) fault) }
{
    match words {
        [range] => Range::parse(range),
        _ => Err(LineFault::NotACommand),
    }
}

// Returns the range and the number that are all of these words.
#[tactic(auto, using(crate::proofs::LineLemmas::wrong_range), unfolding(crate::specs::Line::WritesRange))]
fn range_and_number(words: &[&[u8]]) -> Result<(Range, u64), LineFault>
    ensures written { IfOk result
        (λ p. WritesRange (map (λ w. w.now) words.now) p.0.first p.0.last (num p.1 ∷ [])) }
    ensures only { IfOk result (λ p. (first last n : ℕ)
        → WritesRange (map (λ w. w.now) words.now) first last (num n ∷ [])
        → (first ≡ p.0.first) × (last ≡ p.0.last) × (n ≡ p.1)) }
    ensures refused { IfErr result (λ fault. (first last n : ℕ)
        → WritesRange (map (λ w. w.now) words.now) first last (num n ∷ []) → ⊥) }
    ensures form { IfErr result (λ fault. IsCountFault 2 (map (λ w. w.now) words.now) fault) }
{
    let [range, number] = words else {
        return Err(LineFault::NotACommand);
    };
    Ok((Range::parse(range)?, number_of(number)?))
}

// Returns the range and the two numbers that are all of these words.
#[tactic(auto, using(crate::proofs::LineLemmas::wrong_range), unfolding(crate::specs::Line::WritesRange))]
fn range_and_two_numbers(words: &[&[u8]]) -> Result<(Range, u64, u64), LineFault>
    ensures written { IfOk result
        (λ p. WritesRange (map (λ w. w.now) words.now) p.0.first p.0.last (num p.1 ∷ num p.2 ∷ [])) }
    ensures only { IfOk result (λ p. (first last n m : ℕ)
        → WritesRange (map (λ w. w.now) words.now) first last (num n ∷ num m ∷ [])
        → (first ≡ p.0.first) × (last ≡ p.0.last) × (n ≡ p.1) × (m ≡ p.2)) }
    ensures refused { IfErr result (λ fault. (first last n m : ℕ)
        → WritesRange (map (λ w. w.now) words.now) first last (num n ∷ num m ∷ []) → ⊥) }
    ensures form { IfErr result (λ fault. IsCountFault 3 (map (λ w. w.now) words.now) fault) }
{
    let [range, first, second] = words else {
        return Err(LineFault::NotACommand);
    };
    Ok((Range::parse(range)?, number_of(first)?, number_of(second)?))
}
