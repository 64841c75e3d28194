ghost use Rattle.std.specs.Prelude.{◌≡◌, ℕ, ◌<◌, ◌≤◌, List, [], ◌∷◌, length, take, IfSome, MatchOption};
ghost use Rattle.std.specs.Iterator.{YieldsFirstRef, item_count};
ghost use Rattle.std.specs.Str.Lines.{lines};

use memchr::memchr;
use std::marker::Model;

/// The unread lines of a text.
#[derive(Debug, Drop)]
pub struct Lines<'a> {
    rest: &'a [u8],
}

impl<'a> Model for Lines<'a> {
    ghost Value = { List (List ℕ) };

    ghost view = { λ l. lines l.rest.now };
}

impl<'a> Lines<'a> {
    /// Returns the lines of a text. A line ends with a line feed, which the last one may lack; a carriage
    /// return directly before the line feed belongs to it.
    pub const fn of(text: &'a [u8]) -> Self
        ensures value { result ≡ lines text.now }
        ensures len { length result ≤ length text.now }
    {
        Lines { rest: text }
    }

    /// Returns the next line, and the text that begins with it.
    #[inline(always)]
    pub(super) fn read(&mut self) -> Option<(&'a [u8], &'a [u8])>
        ensures lines { MatchOption result ((self.old ≡ []) × (self.new ≡ []))
            (λ read. self.old ≡ read.0.now ∷ self.new) }
        ensures text { IfSome result (λ read. take (length read.0.now) read.1.now ≡ read.0.now) }
    {
        if self.rest.is_empty() {
            return None;
        }
        let text = self.rest;
        let (line, rest) = split_line(text);
        self.rest = rest;
        Some((line, text))
    }
}

impl<'a> Iterator for Lines<'a> {
    type Item = &'a [u8];

    ghost next_gives = { YieldsFirstRef (λ left. left) };

    ghost remaining = { item_count (λ left. left) };

    fn next(&mut self) -> Option<&'a [u8]> {
        let (line, _) = self.read()?;
        Some(line)
    }
}

/// Returns the first line of a text, and what follows it.
fn split_line(text: &[u8]) -> (&[u8], &[u8])
    requires { 0 < length text.now }
    ensures lines { lines text.now ≡ result.0.now ∷ lines result.1.now }
    ensures begins { take (length result.0.now) text.now ≡ result.0.now }
{
    match memchr(b'\n', text) {
        Some(end) => match &text[..end] {
            [line @ .., b'\r'] => (line, &text[end + 1..]),
            line => (line, &text[end + 1..]),
        },
        None => (text, &[]),
    }
}
