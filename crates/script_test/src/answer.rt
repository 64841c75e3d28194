ghost use Rattle.std.specs.Prelude.{◌≡◌, ◌≤◌, ◌-◌, IfOk, length, map};
ghost use Rattle.std.specs.Str.Lines.{lines};
ghost use Rattle.litmus_text.specs.Statement.{statements_from};
ghost use Rattle.script_test.specs.Answers.{answers_of, text_at};

use litmus_text::Statements;
use std::alloc::{AllocError, Global};

/// What a statement answers.
#[derive(Clone, Copy)]
pub struct Answer<'a> {
    /// The number of the statement's line.
    pub line: usize,
    pub text: &'a [u8],
}

/// Returns the number of each statement of a script.
pub fn numbers_of(alloc: Global, script: &[u8]) -> Result<Vec<usize>, AllocError>
    ensures { IfOk result
        (λ numbers. numbers.items ≡ map (λ s. s.0) (statements_from 0 (lines script.now))) }
{
    let mut numbers = Vec::new(alloc);
    for statement in Statements::of(script) {
        numbers.push(statement.number)?;
    }
    Ok(numbers)
}

/// What answers each statement, where the last of them answer these texts, and first what is printed in front of all.
pub fn answers_of<'a>(
    alloc: Global,
    numbers: &[usize],
    texts: &'a [Vec<u8>],
) -> Result<Vec<Answer<'a>>, AllocError>
    ensures { IfOk result (λ answers. map (λ a. (a.line, a.text.now)) answers.items
        ≡ answers_of numbers.now (map (λ t. t.items) texts.now)) }
{
    let skipped = numbers.len().saturating_sub(texts.len());
    let mut answers = Vec::new(alloc);
    answers.push(Answer { line: 0, text: &[] })?;
    for (place, number) in numbers.iter().enumerate() {
        let text = text_at(skipped, texts, place);
        answers.push(Answer {
            line: *number,
            text,
        })?;
    }
    Ok(answers)
}

fn text_at(skipped: usize, texts: &[Vec<u8>], place: usize) -> &[u8]
    ensures { result.now ≡ text_at skipped (map (λ t. t.items) texts.now) place }
{
    if place < skipped {
        return &[];
    }
    match texts.get(place - skipped) {
        Some(text) => text.as_slice(),
        None => &[],
    }
}
