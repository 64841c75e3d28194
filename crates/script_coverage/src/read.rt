//! Counts that were written, read again and added.
ghost use Rattle.std.specs.Prelude.{◌≡◌, ◌↔◌, ℕ, ◌≤◌, ◌+◌, ◌^◌, [], ◌∷◌, codes, map, IfErr, IfNone, IfOk, IfSome, IsTrue, OnErr, OnOk};
ghost use Rattle.std.specs.Str.Lines.{lines};
ghost use Rattle.litmus_text.specs.Form.{Writes};
ghost use Rattle.litmus_text.specs.Statement.{statements_from};
ghost use Rattle.script_coverage.specs.Read.{AddsLine, AddsLines, IsAdded, IsCell, IsCount, IsFaultOfLine, IsNoCount, IsOfWords, IsRefused, IsStopped, names_of, parts_of_head};

use super::cells::CELLS;
use super::coverage::Coverage;
use super::table_cell::Cell;
use litmus_text::{Statement, Statements, parse_number};
use thiserror::Error;

/// What is wrong with a line of counts.
#[derive(Clone, Copy, Debug, PartialEq, Eq, Error)]
pub enum CoverageFault {
    /// The first line isn't that of counts.
    #[error("not a coverage")]
    NotACoverage,
    #[error("not a cell")]
    NotACell,
    #[error("bad number")]
    BadNumber,
    /// The sum would be 2^64 or more.
    #[error("too often")]
    TooOften,
}

/// The first line at fault.
#[derive(Clone, Copy, Debug, PartialEq, Eq, Error)]
#[error("line {number}: {fault}")]
pub struct Unread {
    pub number: usize,
    pub fault: CoverageFault,
}

impl Coverage {
    /// Adds the counts that a text writes. At Err those before the line at fault are added.
    pub fn read(&mut self, text: &[u8]) -> Result<(), Unread>
        ensures added { OnOk result
            (IsAdded (statements_from 0 (lines text.now)) self.old self.new) }
        ensures refused { IfErr result
            (IsRefused (statements_from 0 (lines text.now)) self.old self.new) }
    {
        let mut statements = Statements::of(text);
        let Some(first) = statements.next() else {
            return Err(CoverageFault::NotACoverage.at(1));
        };
        if !is_head(first.words.as_slice()) {
            return Err(CoverageFault::NotACoverage.at(first.number));
        }
        self.read_lines(statements)
    }

    /// Adds the counts of the lines after the first.
    fn read_lines(&mut self, mut statements: Statements<'_>) -> Result<(), Unread>
        ensures added { OnOk result
            (AddsLines statements.entry self.old self.new) }
        ensures refused { IfErr result
            (IsStopped statements.entry self.old self.new) }
    {
        let mut statement = Statement::blank();
        'lines: while statements.read(&mut statement) {
            if let Err(fault) = self.read_line(statement.words.as_slice()) {
                return Err(fault.at(statement.number));
            }
        }
        Ok(())
    }

    fn read_line(&mut self, words: &[&[u8]]) -> Result<(), CoverageFault>
        ensures added { OnOk result
            (AddsLine (map (λ w. w.now) words.now) self.old self.new) }
        ensures refused { IfErr result
            (IsFaultOfLine (map (λ w. w.now) words.now) self.old) }
        ensures same { OnErr result (self.new ≡ self.old) }
    {
        if is_head(words) {
            return Ok(());
        }
        let (cell, times) = count_of(words)?;
        match self.add(cell, times) {
            Ok(()) => Ok(()),
            Err(_) => Err(CoverageFault::TooOften),
        }
    }
}

impl CoverageFault {
    const fn at(self, number: usize) -> Unread
        ensures number { result.number ≡ number }
        ensures fault { result.fault ≡ self }
    {
        Unread {
            number,
            fault: self,
        }
    }
}

/// Whether the words are those with which counts begin.
#[tactic(auto, using(litmus_text::proofs::FormLemmas::wrong_count))]
fn is_head(words: &[&[u8]]) -> bool
    ensures { IsTrue result ↔ Writes (map (λ w. w.now) words.now) parts_of_head }
{
    match words {
        [name, version] => is_same(name, "lockup-coverage") && is_same(version, "1"),
        _ => false,
    }
}

/// The number of the cell that the words name, and how often they say that it was met.
#[tactic(auto, using(litmus_text::proofs::FormLemmas::wrong_count, crate::proofs::Reading::count_of_names, crate::proofs::Reading::no_number))]
fn count_of(words: &[&[u8]]) -> Result<(usize, u64), CoverageFault>
    ensures counts { IfOk result (λ count. IsCount (map (λ w. w.now) words.now) count.0 count.1) }
    ensures refused { IfErr result (λ fault. IsNoCount (map (λ w. w.now) words.now)) }
    ensures fault { IfErr result (IsOfWords) }
{
    let [table, state, event, outcome, times] = words else {
        return Err(CoverageFault::NotACell);
    };
    let names = Names {
        table,
        state,
        event,
        outcome,
    };
    let Some(cell) = names.number() else {
        return Err(CoverageFault::NotACell);
    };
    match parse_number(times) {
        Some(times) => Ok((cell, times)),
        None => Err(CoverageFault::BadNumber),
    }
}

/// The words that name a cell.
#[derive(Clone, Copy)]
struct Names<'a> {
    table: &'a [u8],
    state: &'a [u8],
    event: &'a [u8],
    outcome: &'a [u8],
}

impl Names<'_> {
    /// The number of the cell that has these names.
    fn number(&self) -> Option<usize>
        ensures found { IfSome result
            (λ cell. IsCell (self.now.table.now ∷ self.now.state.now ∷ self.now.event.now ∷ self.now.outcome.now ∷ []) cell) }
        ensures none { IfNone result ((cell : ℕ)
            → ¬ IsCell (self.now.table.now ∷ self.now.state.now ∷ self.now.event.now ∷ self.now.outcome.now ∷ []) cell) }
    {
        for number in 0..CELLS.len() {
            if self.are_of(&CELLS[number]) {
                return Some(number);
            }
        }
        None
    }

    /// Whether they are the cell's.
    fn are_of(&self, cell: &Cell) -> bool
        ensures { IsTrue result ↔ (self.now.table.now ∷ self.now.state.now ∷ self.now.event.now ∷ self.now.outcome.now ∷ []
            ≡ names_of cell.now) }
    {
        is_same(self.table, cell.state.table())
            && is_same(self.state, cell.state.name())
            && is_same(self.event, cell.event.name())
            && is_same(self.outcome, cell.outcome.name())
    }
}

fn is_same(word: &[u8], name: &str) -> bool
    ensures { IsTrue result ↔ (word.now ≡ name.now) }
{
    word == name.as_bytes()
}
