ghost use Rattle.std.specs.Prelude.{◌≡◌, ℕ, List, ◌∷◌, [], MatchOption};
ghost use Rattle.std.specs.Iterator.{YieldsFirstRef, item_count};
ghost use Rattle.litmus_text.specs.Text.{is_blank as is_blank_byte, words, words_of_line};

use std::marker::Model;

/// The unread words of a line.
#[derive(Debug, Drop)]
pub struct Words<'a> {
    rest: &'a [u8],
}

impl<'a> Model for Words<'a> {
    ghost Value = { List (List ℕ) };

    ghost view = { λ w. words w.rest.now };
}

impl<'a> Words<'a> {
    /// Returns the words of a line, separated by spaces and tabs. A comment has none.
    pub fn of_line(line: &'a [u8]) -> Self
        ensures { result ≡ words_of_line line.now }
    {
        let rest = match line {
            [b'#', ..] => &[],
            _ => line,
        };
        Words { rest }
    }
}

impl<'a> Iterator for Words<'a> {
    type Item = &'a [u8];

    ghost next_gives = { YieldsFirstRef (λ left. left) };

    ghost remaining = { item_count (λ left. left) };

    #[inline(always)]
    fn next(&mut self) -> Option<&'a [u8]> {
        let (word, rest) = first_word(self.rest)?;
        self.rest = rest;
        Some(word)
    }
}

#[inline(always)]
fn is_blank(byte: u8) -> bool
    ensures { result ≡ is_blank_byte byte }
{
    byte == b' ' || byte == b'\t'
}

/// Returns the first word of a text, and what follows the blank after it.
#[inline(always)]
fn first_word(text: &[u8]) -> Option<(&[u8], &[u8])>
    ensures { MatchOption result (words text.now ≡ []) (λ p. words text.now ≡ p.0.now ∷ words p.1.now) }
{
    let start = text.iter().position(|byte| !is_blank(*byte))?;
    let (_, text) = text.split_at(start);
    match text.iter().position(|byte| is_blank(*byte)) {
        Some(end) => Some((&text[..end], &text[end + 1..])),
        None => Some((text, &[])),
    }
}
