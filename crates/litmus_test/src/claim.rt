ghost use Rattle.std.specs.Prelude.{◌≡◌, ◌+◌, ℕ, ◌≤◌, List, ◌∷◌, [], map, take, drop, IfOk, IfErr, IfSome, IfNone};
ghost use Rattle.std.specs.Prelude.{IsTrue, is_some};
ghost use Rattle.std.specs.Borrow.{Bor};
ghost use Rattle.std.specs.List.{list_all, position};
ghost use Rattle.litmus_test.specs.Fault.{HasClaimsForm, IsFormFault, has_claim_form};
ghost use Rattle.litmus_test.specs.Name.{is_name as is_name_lem};
ghost use Rattle.litmus_test.specs.Claim.{IsClaim, WritesClaims, is_equals_sign, claims_of};

use super::name::is_name;
use super::test::MOST_PAIRS;
use arrayvec::ArrayVec;
use litmus_text::{LineFault, parse_number};

/// The claim that a reply has a value.
#[derive(Clone, Copy, Default)]
pub(super) struct Claim<'a> {
    pub name: &'a [u8],
    pub value: u64,
}

/// A name, and the word after the `=`, whether it is a number or not.
#[derive(Clone, Copy)]
struct Sides<'a> {
    name: &'a [u8],
    number: &'a [u8],
}

impl<'a> Sides<'a> {
    fn of(word: &'a [u8]) -> Option<Self>
        ensures parted { IfSome result (λ sides. (at : ℕ) × ((position is_equals_sign word.now ≡ Some at)
            × (take at word.now ≡ sides.name.now) × (drop (at + 1) word.now ≡ sides.number.now))) }
        ensures form { IfSome result (λ sides. IsTrue (is_name_lem sides.name.now)) }
        ensures none { IfNone result ((name : List ℕ) (value : ℕ) → IsClaim word.now name value → ⊥) }
        ensures is_form { is_some result ≡ has_claim_form word.now }
    {
        let at = equals_sign_at(word)?;
        let name = &word[..at];
        if is_name(name) {
            Some(Sides {
                name,
                number: &word[at + 1..],
            })
        } else {
            None
        }
    }
}

fn equals_sign_at(word: &[u8]) -> Option<usize>
    ensures { result ≡ position is_equals_sign word.now }
{
    word.iter().position(|byte| *byte == b'=')
}

impl<'a> Claim<'a> {
    /// Parses a claim, written as NAME=VALUE.
    fn parse(word: &'a [u8]) -> Option<Self>
        ensures written { IfSome result (λ claim. IsClaim word.now claim.name.now claim.value) }
        ensures only { IfSome result (λ claim. (name : List ℕ) (value : ℕ) → IsClaim word.now name value
            → (name ≡ claim.name.now) × (value ≡ claim.value)) }
        ensures none { IfNone result ((name : List ℕ) (value : ℕ) → IsClaim word.now name value → ⊥) }
    {
        let sides = Sides::of(word)?;
        let value = parse_number(sides.number)?;
        Some(Claim {
            name: sides.name,
            value,
        })
    }
}

/// Parses one to 16 claims, one word each.
pub(super) fn parse_claims<'a>(
    words: &[&'a [u8]],
) -> Result<ArrayVec<Claim<'a>, MOST_PAIRS>, LineFault>
    ensures written { IfOk result (λ claims. WritesClaims (map (λ w. w.now) words.now) (claims_of claims.items)) }
    ensures only { IfOk result (λ claims. (other : List (List ℕ × ℕ))
        → WritesClaims (map (λ w. w.now) words.now) other → other ≡ claims_of claims.items) }
    ensures refused { IfErr result
        (λ fault. (other : List (List ℕ × ℕ)) → WritesClaims (map (λ w. w.now) words.now) other → ⊥) }
    ensures form { IfErr result (IsFormFault (HasClaimsForm (map (λ w. w.now) words.now))) }
{
    if words.is_empty() || words.len() > MOST_PAIRS {
        return Err(LineFault::NotACommand);
    }
    let mut claims = ArrayVec::new();
    for word in words {
        let Some(claim) = Claim::parse(word) else {
            return Err(fault_of(words));
        };
        claims.push(claim);
    }
    Ok(claims)
}

// Checks the forms of all words before any number.
fn fault_of(words: &[&[u8]]) -> LineFault
    ensures { IsFormFault (IsTrue (list_all has_claim_form (map (λ w. w.now) words.now))) result }
{
    if have_form(words) {
        LineFault::BadNumber
    } else {
        LineFault::NotACommand
    }
}

fn have_form(words: &[&[u8]]) -> bool
    ensures { result ≡ list_all (λ (w : Bor (List ℕ)). has_claim_form w.now) words.now }
{
    words.iter().all(|word| has_form(word))
}

fn has_form(word: &[u8]) -> bool
    ensures { result ≡ has_claim_form word.now }
{
    Sides::of(word).is_some()
}
