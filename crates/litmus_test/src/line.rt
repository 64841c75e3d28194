ghost use Rattle.std.specs.Prelude.{◌≡◌, ℕ, List, [], ◌∷◌, IfErr, IfOk, IsTrue, codes, get_or, length, map};
ghost use Rattle.litmus_text.specs.Form.{Writes, key, num};
ghost use Rattle.std.specs.Result.{OkIff};
ghost use Rattle.std.specs.Str.Parse.{digits_value};
ghost use Rattle.litmus_text.specs.Number.{IsNumber};
ghost use Rattle.litmus_test.specs.declared.version.Version.{Version};
ghost use Rattle.litmus_test.specs.Name.{is_name as is_name_lem};
ghost use Rattle.litmus_test.specs.Fault.{HasClaimsForm, HasForm, IsFormFault, IsLineFault};
ghost use Rattle.litmus_test.specs.Keyword.{name_of_keyword};
ghost use Rattle.litmus_test.specs.Line.{BeginsAsSetting};
ghost use Rattle.litmus_test.specs.Reading.{ReadsAs};

use super::claim::{Claim, parse_claims};
use super::keyword::Keyword;
use super::name::is_name;
use super::test::MOST_PAIRS;
use super::version::Version;
use arrayvec::ArrayVec;
use litmus_text::{LineFault, no_numbers, one_number, parse_number, two_numbers};

/// What a line says after the settings. Cores, words and lines are numbers that the machine may lack.
#[derive(Drop)]
pub(super) enum Line<'a> {
    Thread(u64),
    Load(u64, &'a [u8]),
    Store(u64, u64),
    Add(u64, u64, &'a [u8]),
    Cas {
        word: u64,
        expect: u64,
        new: u64,
        name: &'a [u8],
    },
    Settle,
    Evict(u64),
    Forbid(ArrayVec<Claim<'a>, MOST_PAIRS>),
}

impl<'a> Line<'a> {
    /// Parses the words of a line. Checks first the keywords, the number of words and the names, and then the numbers.
    pub(super) fn parse(version: Version, words: &[&'a [u8]]) -> Result<Self, LineFault>
        requires { ¬ BeginsAsSetting (map (λ w. w.now) words.now) }
        ensures reads { ReadsAs version (map (λ w. w.now) words.now) result }
        ensures form { IfErr result (IsLineFault version (map (λ w. w.now) words.now)) }
    {
        let Some((name, rest)) = words.split_first() else {
            return Err(LineFault::NotACommand);
        };
        match Keyword::named(name) {
            Some(keyword) => parse_called(version, keyword, rest),
            None => Err(LineFault::NotACommand),
        }
    }
}

// Parses the words that follow a line's keyword.
fn parse_called<'a>(
    version: Version,
    keyword: Keyword,
    words: &[&'a [u8]],
) -> Result<Line<'a>, LineFault>
    ensures reads { ReadsAs version (name_of_keyword keyword ∷ map (λ w. w.now) words.now) result }
    ensures form { IfErr result (IsFormFault (HasForm version keyword (map (λ w. w.now) words.now))) }
{
    match keyword {
        Keyword::Thread => parse_thread(words),
        Keyword::Load => parse_load(words),
        Keyword::Store => parse_store(words),
        Keyword::Add => parse_add(words),
        Keyword::Cas => parse_cas(version, words),
        Keyword::Settle => parse_settle(words),
        Keyword::Evict => parse_evict(words),
        Keyword::Forbid => parse_forbid(words),
    }
}

#[tactic(auto, using(crate::proofs::LineLemmas::thread_sets_nothing))]
fn parse_thread<'a>(words: &[&'a [u8]]) -> Result<Line<'a>, LineFault>
    ensures reads { (version : Version) → ReadsAs version (codes "thread" ∷ map (λ w. w.now) words.now) result }
    ensures form { IfErr result (IsFormFault (length (map (λ w. w.now) words.now) ≡ 1)) }
{
    Ok(Line::Thread(one_number(words)?))
}

#[tactic(auto, using(crate::proofs::LineLemmas::load_sets_nothing))]
fn parse_load<'a>(words: &[&'a [u8]]) -> Result<Line<'a>, LineFault>
    ensures reads { (version : Version) → ReadsAs version (codes "load" ∷ map (λ w. w.now) words.now) result }
    ensures form { IfErr result (IsFormFault ((length (map (λ w. w.now) words.now) ≡ 2)
        × IsTrue (is_name_lem (get_or (map (λ w. w.now) words.now) 1 [])))) }
{
    let (word, name) = number_and_name(words)?;
    Ok(Line::Load(word, name))
}

#[tactic(auto, using(crate::proofs::LineLemmas::store_sets_nothing))]
fn parse_store<'a>(words: &[&'a [u8]]) -> Result<Line<'a>, LineFault>
    ensures reads { (version : Version) → ReadsAs version (codes "store" ∷ map (λ w. w.now) words.now) result }
    ensures form { IfErr result (IsFormFault (length (map (λ w. w.now) words.now) ≡ 2)) }
{
    let (word, value) = two_numbers(words)?;
    Ok(Line::Store(word, value))
}

#[tactic(auto, using(crate::proofs::LineLemmas::add_sets_nothing))]
fn parse_add<'a>(words: &[&'a [u8]]) -> Result<Line<'a>, LineFault>
    ensures reads { (version : Version) → ReadsAs version (codes "add" ∷ map (λ w. w.now) words.now) result }
    ensures form { IfErr result (IsFormFault ((length (map (λ w. w.now) words.now) ≡ 3)
        × IsTrue (is_name_lem (get_or (map (λ w. w.now) words.now) 2 [])))) }
{
    let (word, delta, name) = two_numbers_and_name(words)?;
    Ok(Line::Add(word, delta, name))
}

#[tactic(auto, using(crate::proofs::LineLemmas::cas_sets_nothing))]
fn parse_cas<'a>(version: Version, words: &[&'a [u8]]) -> Result<Line<'a>, LineFault>
    ensures reads { ReadsAs version (codes "cas" ∷ map (λ w. w.now) words.now) result }
    ensures form { IfErr result (IsFormFault (HasForm version Keyword.Cas (map (λ w. w.now) words.now))) }
{
    if !version.has_cas() {
        return Err(LineFault::NotACommand);
    }
    let (word, expect, new, name) = three_numbers_and_name(words)?;
    Ok(Line::Cas {
        word,
        expect,
        new,
        name,
    })
}

#[tactic(auto, using(crate::proofs::LineLemmas::settle_sets_nothing))]
fn parse_settle<'a>(words: &[&'a [u8]]) -> Result<Line<'a>, LineFault>
    ensures reads { (version : Version) → ReadsAs version (codes "settle" ∷ map (λ w. w.now) words.now) result }
    ensures form { IfErr result (IsFormFault (length (map (λ w. w.now) words.now) ≡ 0)) }
{
    no_numbers(words)?;
    Ok(Line::Settle)
}

#[tactic(auto, using(crate::proofs::LineLemmas::evict_sets_nothing))]
fn parse_evict<'a>(words: &[&'a [u8]]) -> Result<Line<'a>, LineFault>
    ensures reads { (version : Version) → ReadsAs version (codes "evict" ∷ map (λ w. w.now) words.now) result }
    ensures form { IfErr result (IsFormFault (length (map (λ w. w.now) words.now) ≡ 1)) }
{
    Ok(Line::Evict(one_number(words)?))
}

#[tactic(auto, using(crate::proofs::LineLemmas::forbid_sets_nothing))]
fn parse_forbid<'a>(words: &[&'a [u8]]) -> Result<Line<'a>, LineFault>
    ensures reads { (version : Version) → ReadsAs version (codes "forbid" ∷ map (λ w. w.now) words.now) result }
    ensures form { IfErr result (IsFormFault (HasClaimsForm (map (λ w. w.now) words.now))) }
{
    Ok(Line::Forbid(parse_claims(words)?))
}

#[tactic(auto, using(litmus_text::proofs::FormLemmas::wrong_count))]
fn number_and_name<'a>(words: &[&'a [u8]]) -> Result<(u64, &'a [u8]), LineFault>
    ensures written { IfOk result (λ p. Writes (map (λ w. w.now) words.now) (num p.0 ∷ key p.1.now ∷ [])) }
    ensures named { IfOk result (λ p. IsTrue (is_name_lem p.1.now)) }
    ensures only { IfOk result (λ p. (n : ℕ) (name : List ℕ)
        → Writes (map (λ w. w.now) words.now) (num n ∷ key name ∷ []) → (n ≡ p.0) × (name ≡ p.1.now)) }
    ensures refused { IfErr result (λ fault. (n : ℕ) (name : List ℕ)
        → Writes (map (λ w. w.now) words.now) (num n ∷ key name ∷ []) → IsTrue (is_name_lem name) → ⊥) }
    ensures form { IfErr result (IsFormFault ((length (map (λ w. w.now) words.now) ≡ 2)
        × IsTrue (is_name_lem (get_or (map (λ w. w.now) words.now) 1 [])))) }
{
    let [number, name] = words else {
        return Err(LineFault::NotACommand);
    };
    let name = name_of(name)?;
    Ok((number_of(number)?, name))
}

#[tactic(auto, using(litmus_text::proofs::FormLemmas::wrong_count))]
fn two_numbers_and_name<'a>(words: &[&'a [u8]]) -> Result<(u64, u64, &'a [u8]), LineFault>
    ensures written { IfOk result (λ p. Writes (map (λ w. w.now) words.now) (num p.0 ∷ num p.1 ∷ key p.2.now ∷ [])) }
    ensures named { IfOk result (λ p. IsTrue (is_name_lem p.2.now)) }
    ensures only { IfOk result (λ p. (n m : ℕ) (name : List ℕ)
        → Writes (map (λ w. w.now) words.now) (num n ∷ num m ∷ key name ∷ [])
        → (n ≡ p.0) × (m ≡ p.1) × (name ≡ p.2.now)) }
    ensures refused { IfErr result (λ fault. (n m : ℕ) (name : List ℕ)
        → Writes (map (λ w. w.now) words.now) (num n ∷ num m ∷ key name ∷ []) → IsTrue (is_name_lem name) → ⊥) }
    ensures form { IfErr result (IsFormFault ((length (map (λ w. w.now) words.now) ≡ 3)
        × IsTrue (is_name_lem (get_or (map (λ w. w.now) words.now) 2 [])))) }
{
    let [first, second, name] = words else {
        return Err(LineFault::NotACommand);
    };
    let name = name_of(name)?;
    Ok((number_of(first)?, number_of(second)?, name))
}

#[tactic(auto, using(litmus_text::proofs::FormLemmas::wrong_count))]
fn three_numbers_and_name<'a>(words: &[&'a [u8]]) -> Result<(u64, u64, u64, &'a [u8]), LineFault>
    ensures written { IfOk result
        (λ p. Writes (map (λ w. w.now) words.now) (num p.0 ∷ num p.1 ∷ num p.2 ∷ key p.3.now ∷ [])) }
    ensures named { IfOk result (λ p. IsTrue (is_name_lem p.3.now)) }
    ensures only { IfOk result (λ p. (n m k : ℕ) (name : List ℕ)
        → Writes (map (λ w. w.now) words.now) (num n ∷ num m ∷ num k ∷ key name ∷ [])
        → (n ≡ p.0) × (m ≡ p.1) × (k ≡ p.2) × (name ≡ p.3.now)) }
    ensures refused { IfErr result (λ fault. (n m k : ℕ) (name : List ℕ)
        → Writes (map (λ w. w.now) words.now) (num n ∷ num m ∷ num k ∷ key name ∷ []) → IsTrue (is_name_lem name) → ⊥) }
    ensures form { IfErr result (IsFormFault ((length (map (λ w. w.now) words.now) ≡ 4)
        × IsTrue (is_name_lem (get_or (map (λ w. w.now) words.now) 3 [])))) }
{
    let [first, second, third, name] = words else {
        return Err(LineFault::NotACommand);
    };
    let name = name_of(name)?;
    Ok((
        number_of(first)?,
        number_of(second)?,
        number_of(third)?,
        name,
    ))
}

// Parses a word that has to be a name.
fn name_of(word: &[u8]) -> Result<&[u8], LineFault>
    ensures same { IfOk result (λ name. name.now ≡ word.now) }
    ensures form { IfOk result (λ name. IsTrue (is_name_lem word.now)) }
    ensures err { IfErr result (λ fault. ¬ IsTrue (is_name_lem word.now)) }
    ensures fault { IfErr result (λ fault. fault ≡ LineFault.NotACommand) }
{
    if is_name(word) {
        Ok(word)
    } else {
        Err(LineFault::NotACommand)
    }
}

// Parses a word that has to be a number.
fn number_of(word: &[u8]) -> Result<u64, LineFault>
    ensures ok { OkIff result (IsNumber word.now) (digits_value 10 word.now) }
    ensures err { IfErr result (λ fault. fault ≡ LineFault.BadNumber) }
{
    parse_number(word).ok_or(LineFault::BadNumber)
}
