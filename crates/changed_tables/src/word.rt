//! Words of a text.

ghost use Rattle.std.specs.Prelude.{◌≡◌, ◌↔◌, ◌++◌, ◌==◌, IfOk, IsTrue, map};
ghost use Rattle.std.specs.List.{slice_split};
ghost use Rattle.changed_tables.specs.Word.{trimmed};

use std::alloc::{AllocError, Global};

/// Whether the word is both texts, one after the other.
pub(crate) fn is_joined(word: &[u8], first: &str, second: &str) -> bool
    ensures { IsTrue result ↔ (word.now ≡ first.now ++ second.now) }
{
    match word.strip_prefix(first.as_bytes()) {
        Some(rest) => rest == second.as_bytes(),
        None => false,
    }
}

/// The word without the white space round it.
pub(crate) fn trimmed(word: &[u8]) -> &[u8]
    ensures { result.now ≡ trimmed word.now }
{
    word.trim_ascii_start().trim_ascii_end()
}

/// The pieces of a text between its bytes of this kind.
pub(crate) fn pieces(alloc: Global, text: &[u8], between: u8) -> Result<Vec<&[u8]>, AllocError>
    ensures { IfOk result (λ found. map (λ piece. piece.now) found.items
        ≡ slice_split (λ byte. byte == between) text.now) }
{
    text.split(|byte| *byte == between).collect(alloc)
}
