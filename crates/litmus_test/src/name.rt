ghost use Rattle.std.specs.Prelude.{◌≡◌, slice_index};
ghost use Rattle.std.specs.List.{list_all};
ghost use Rattle.litmus_test.specs.Name.{is_name as is_name_lem, is_letter as is_letter_lem, is_digit as is_digit_lem};
ghost use Rattle.litmus_test.specs.Name.{may_stand as may_stand_lem};

use super::test::LONGEST_NAME;

/// Whether the word can be the name of a reply.
#[tactic(auto, unfolding(crate::specs::Name::is_name))]
pub(super) fn is_name(word: &[u8]) -> bool
    ensures { result ≡ is_name_lem word.now }
{
    word.len() <= LONGEST_NAME && begins_with_letter(word) && all_may_stand(word)
}

fn all_may_stand(word: &[u8]) -> bool
    ensures { result ≡ list_all may_stand_lem word.now }
{
    word.iter().all(|byte| may_stand(*byte))
}

fn begins_with_letter(word: &[u8]) -> bool
    ensures { result ≡ is_letter_lem (slice_index word.now 0) }
{
    match word.first() {
        Some(first) => is_letter(*first),
        None => false,
    }
}

fn may_stand(byte: u8) -> bool
    ensures { result ≡ may_stand_lem byte }
{
    is_letter(byte) || is_digit(byte)
}

const fn is_letter(byte: u8) -> bool
    ensures { result ≡ is_letter_lem byte }
{
    b'a' <= byte && byte <= b'z'
}

const fn is_digit(byte: u8) -> bool
    ensures { result ≡ is_digit_lem byte }
{
    b'0' <= byte && byte <= b'9'
}
