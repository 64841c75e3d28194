ghost use Rattle.std.specs.Prelude.{◌≡◌, ◌≤◌, ◌<◌, ◌++◌, ℕ, List, All, length, map, take, drop, slice_index_or};
ghost use Rattle.std.specs.Prelude.{IfOk, OnOk, MatchOption};
ghost use Rattle.std.specs.Option.{option_map, option_to_list};
ghost use Rattle.std.specs.Str.Lines.{lines};
ghost use Rattle.script_test.specs.Judged.{BeginBehind, IsBefore, IsFirstUnlike, IsJudged, IsSame, IsUnlike};
ghost use Rattle.script_test.specs.Judged.{IsUnlikeFrom, unlike_of};

use super::answer::Answer;
use super::exercise::Want;
use litmus_text::{Lines, Words};
use std::alloc::{AllocError, Global};

/// Where an answer isn't the wanted one. Where both have a line, `word` is the first, from 1, that isn't the same.
#[derive(Clone, Copy)]
pub struct Difference<'a> {
    pub line: usize,
    pub wanted: Option<&'a [u8]>,
    pub got: Option<&'a [u8]>,
    pub word: Option<usize>,
}

/// Returns the differences of all answers, in order: of each answer the first.
pub fn judge<'a>(
    alloc: Global,
    wants: &'a [Want<'a>],
    answers: &'a [Answer<'a>],
) -> Result<Vec<Difference<'a>>, AllocError>
    ensures { IfOk result (λ differences. IsJudged (map (λ w. (w.line, w.text.now)) wants.now)
        (map (λ a. (a.line, a.text.now)) answers.now) (map unlike_of differences.items)) }
{
    let mut differences = Vec::new(alloc);
    let mut taken = 0;
    for (place, answer) in answers.iter().enumerate() {
        let rest = &wants[taken..];
        let count = count_before(rest, &answers[place + 1..]);
        push_difference(difference_of(answer, &rest[..count]), &mut differences)?;
        taken += count;
    }
    Ok(differences)
}

/// Adds a difference, if there is one.
fn push_difference<'a>(
    difference: Option<Difference<'a>>,
    differences: &mut Vec<Difference<'a>>,
) -> Result<(), AllocError>
    ensures { OnOk result (map unlike_of differences.new.items
        ≡ map unlike_of differences.old.items ++ option_to_list (option_map unlike_of difference.entry)) }
{
    match difference {
        Some(difference) => {
            differences.push(difference)?;
            Ok(())
        }
        None => Ok(()),
    }
}

/// Returns how many of the wanted lines are in front of the next statement.
fn count_before(wants: &[Want<'_>], next: &[Answer<'_>]) -> usize
    ensures few { result ≤ length wants.now }
    ensures before { All (IsBefore (map (λ a. (a.line, a.text.now)) next.now))
        (take result (map (λ w. (w.line, w.text.now)) wants.now)) }
    ensures behind { BeginBehind (map (λ a. (a.line, a.text.now)) next.now)
        (drop result (map (λ w. (w.line, w.text.now)) wants.now)) }
{
    match next {
        [next, ..] => count_below(wants, next.line),
        [] => wants.len(),
    }
}

/// Returns how many of the wanted lines, from the first on, come before this one.
fn count_below(wants: &[Want<'_>], line: usize) -> usize
    ensures few { result ≤ length wants.now }
    ensures before { (k : ℕ) → k < result
        → (d : ℕ × List ℕ) → (slice_index_or (map (λ w. (w.line, w.text.now)) wants.now) k d).0 < line }
    ensures behind { (d : ℕ × List ℕ) → result < length wants.now
        → line ≤ (slice_index_or (map (λ w. (w.line, w.text.now)) wants.now) result d).0 }
{
    for (count, want) in wants.iter().enumerate() {
        if want.line >= line {
            return count;
        }
    }
    wants.len()
}

/// Returns the first difference of an answer from these wanted lines. If there are none, any answer is right.
fn difference_of<'a>(answer: &Answer<'a>, wants: &'a [Want<'a>]) -> Option<Difference<'a>>
    ensures { IsUnlike (answer.now.line, answer.now.text.now) (map (λ w. (w.line, w.text.now)) wants.now)
        (option_map unlike_of result) }
{
    if wants.is_empty() {
        return None;
    }
    first_difference(answer.line, wants, answer.text)
}

/// Returns the first place at which a text's lines aren't those that are wanted.
fn first_difference<'a>(
    line: usize,
    wants: &'a [Want<'a>],
    text: &'a [u8],
) -> Option<Difference<'a>>
    ensures { IsFirstUnlike line (map (λ w. (w.line, w.text.now)) wants.now) (lines text.now)
        (option_map unlike_of result) }
{
    let mut lines = Lines::of(text);
    for want in wants {
        let wanted = Some(want.text);
        match lines.next() {
            Some(got) => {
                if let Some(word) = unlike_word(want.text, got) {
                    return Some(Difference {
                        line: want.line,
                        wanted,
                        got: Some(got),
                        word: Some(word),
                    });
                }
            }
            None => {
                return Some(Difference {
                    line: want.line,
                    wanted,
                    got: None,
                    word: None,
                });
            }
        }
    }
    let got = lines.next()?;
    Some(Difference {
        line,
        wanted: None,
        got: Some(got),
        word: None,
    })
}

/// Returns the first word, from 1, that isn't the same in two lines, if there is one.
fn unlike_word(wanted: &[u8], got: &[u8]) -> Option<usize>
    ensures { MatchOption result (IsSame wanted.now got.now) (IsUnlikeFrom wanted.now got.now) }
{
    let mut others = Words::of_line(got);
    let mut number = 1;
    for word in Words::of_line(wanted) {
        match others.next() {
            Some(other) if other == word => number += 1,
            _ => return Some(number),
        }
    }
    others.next()?;
    Some(number)
}
