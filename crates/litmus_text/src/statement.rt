ghost use Rattle.std.specs.Prelude.{◌≡◌, ℕ, ◌+◌, ◌<◌, ◌^◌, List, [], ◌∷◌, length, map, true, false};
ghost use Rattle.std.specs.Iterator.{YieldsFirstBy, item_count};
ghost use Rattle.std.specs.Str.Lines.{lines};
ghost use Rattle.litmus_text.specs.Statement.{kept_words, statements_from};

use super::line::Lines;
use super::row::{MOST_WORDS, fill_row};
use arrayvec::ArrayVec;
use std::marker::Model;

/// A line that has words, with its number, which counts from 1.
#[derive(Debug, Drop)]
pub struct Statement<'a> {
    pub number: usize,
    /// The line as it is written, without its end.
    pub line: &'a [u8],
    pub words: ArrayVec<&'a [u8], MOST_WORDS>,
    ghost words_of_line: { map (λ w. w.now) words.items ≡ kept_words line.now },
}

impl Statement<'_> {
    /// Returns an empty statement, to read statements into.
    pub fn blank() -> Self
        ensures { result.words.items ≡ [] }
    {
        Statement {
            number: 0,
            line: &[],
            words: ArrayVec::new(),
        }
    }
}

/// The unread statements of a text. Lines without words are counted and skipped.
#[derive(Debug, Drop)]
pub struct Statements<'a> {
    lines: Lines<'a>,
    /// The number of lines read.
    number: usize,
}

impl<'a> Model for Statements<'a> {
    ghost Value = { List (ℕ × List (List ℕ)) };

    ghost view = { λ s. statements_from s.number s.lines };

    ghost invariant = { λ s. s.number + length s.lines < 2 ^ 64 };
}

impl<'a> Statements<'a> {
    pub fn of(text: &'a [u8]) -> Self
        ensures { result ≡ statements_from 0 (lines text.now) }
    {
        Statements {
            lines: Lines::of(text),
            number: 0,
        }
    }

    /// Reads the next statement into this one, and returns whether there was one. The same row of words serves all
    /// lines of a text, and is never copied.
    pub fn read(&mut self, statement: &mut Statement<'a>) -> bool
        ensures read { result ≡ true
            → self.old ≡ (statement.new.number, map (λ w. w.now) statement.new.words.items) ∷ self.new }
        ensures end { result ≡ false → (self.old ≡ []) × (self.new ≡ []) }
    {
        while let Some((line, text)) = self.lines.read() {
            self.number += 1;
            statement.line = line;
            fill_row(&mut statement.words, line, text);
            if !statement.words.is_empty() {
                statement.number = self.number;
                return true;
            }
        }
        false
    }
}

impl<'a> Iterator for Statements<'a> {
    type Item = Statement<'a>;

    ghost use Rattle.litmus_text.specs.declared.statement.Statement.{Statement};

    ghost next_gives = { YieldsFirstBy (λ (s : Statement). (s.number, map (λ w. w.now) s.words.items)) (λ left. left) };

    ghost remaining = { item_count (λ left. left) };

    fn next(&mut self) -> Option<Statement<'a>> {
        let mut statement = Statement::blank();
        if self.read(&mut statement) {
            Some(statement)
        } else {
            None
        }
    }
}
