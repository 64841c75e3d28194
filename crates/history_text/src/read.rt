//! Reads the histories in a text.
ghost use Rattle.std.specs.Prelude.{◌≡◌, ◌↔◌, List, IfErr, IfOk, IsTrue, OnOk, false, map, true};
ghost use Rattle.std.specs.Str.Lines.{lines};
ghost use Rattle.litmus_text.specs.Form.{Writes};
ghost use Rattle.litmus_text.specs.Statement.{statements_from};
ghost use Rattle.trace_check.specs.Trace.{AreLines};
ghost use Rattle.trace_check.specs.declared.trace_line.TraceLine.{TraceLine};
ghost use Rattle.history_text.specs.Histories.{AreTold, line_of};
ghost use Rattle.history_text.specs.HistoryLine.{IsLineOf, parts_of_history};
ghost use Rattle.history_text.specs.Judged.{AreHistoriesOf, AreHistoriesOfTrace, AreLinesToldBy, BeginsAsHistory, IsFaultIn};
ghost use Rattle.history_text.specs.Judged.{IsFaultOf, IsFresh, IsGivenAgain, IsNoMemoryOrAt, IsNoNext, IsSomeTrace, ReadsNext, ReadsTo};
ghost use Rattle.history_text.specs.declared.history_line.HistoryLine.{HistoryLine};

use super::extent::Extent;
use super::histories::Histories;
use super::history_line::HistoryLine;
use history_judge::Access;
use litmus_text::{LineFault, Statement, Statements, TextFault};
use std::alloc::{AllocError, Global};
use trace_check::{TraceLine, Version, check_trace};

/// Reads the histories in a text: a history, or a trace, whose entries may be in any order that is each core's own on
/// each word. SEQ, TAG and SINCE are ignored. Running out of memory and a faulty line are the only faults.
pub fn read_histories(alloc: Global, input: &[u8], extent: Extent) -> Result<Histories, TextFault>
    ensures told { IfOk result (AreHistoriesOf input.now) }
    ensures extent { IfOk result (λ it. it.extent ≡ extent) }
    ensures fault { IfErr result (IsFaultOf input.now) }
{
    let mut statements = Statements::of(input);
    let Some(first) = statements.next() else {
        return read_trace(alloc, input, extent);
    };
    if is_first(first.words.as_slice()) {
        read_lines(alloc, statements, extent)
    } else {
        read_trace(alloc, input, extent)
    }
}

// Whether these are the words of a history's first line.
#[tactic(auto, using(litmus_text::proofs::FormLemmas::wrong_count))]
fn is_first(words: &[&[u8]]) -> bool
    ensures { IsTrue result ↔ Writes (map (λ w. w.now) words.now) parts_of_history }
{
    let [name, version] = words else {
        return false;
    };
    is_same(name, b"lockup-history") && is_same(version, b"1")
}

fn is_same(word: &[u8], name: &[u8]) -> bool
    ensures { IsTrue result ↔ (word.now ≡ name.now) }
{
    word == name
}

// ---- a history

fn read_lines(
    alloc: Global,
    mut statements: Statements<'_>,
    extent: Extent,
) -> Result<Histories, TextFault>
    ensures read { IfOk result (ReadsTo statements.entry) }
    ensures extent { IfOk result (λ it. it.extent ≡ extent) }
    ensures fault { IfErr result (IsNoMemoryOrAt (IsFaultIn statements.entry)) }
{
    let mut histories = Histories::new(alloc, extent);
    let mut statement = Statement::blank();
    'lines: while statements.read(&mut statement) {
        histories.read(&statement)?;
    }
    Ok(histories)
}

impl Histories {
    #[tactic(auto, unfolding(crate::specs::Judged::IsNoMemoryOrAt))]
    fn read(&mut self, statement: &Statement<'_>) -> Result<(), TextFault>
        ensures read { OnOk result ((told : List HistoryLine) → AreTold self.old told
            → ReadsNext told (map (λ w. w.now) statement.now.words.items) self.new) }
        ensures extent { self.new.extent ≡ self.old.extent }
        ensures fault { IfErr result (IsNoMemoryOrAt (λ number. (number ≡ statement.now.number)
            × ((told : List HistoryLine) → AreTold self.old told
            → IsNoNext told (map (λ w. w.now) statement.now.words.items)))) }
    {
        match self.next_line(statement.words.as_slice()) {
            Ok(line) => Ok(self.tell(line, statement.number)?),
            Err(fault) => Err(fault.at(statement.number)),
        }
    }

    // Parses the words of a line that may be here.
    fn next_line(&self, words: &[&[u8]]) -> Result<HistoryLine, LineFault>
        ensures written { IfOk result (IsLineOf (map (λ w. w.now) words.now)) }
        ensures fresh { IfOk result (λ line. (told : List HistoryLine) → AreTold self.now told → IsFresh told line) }
        ensures refused { IfErr result (λ fault. (told : List HistoryLine) → AreTold self.now told
            → IsNoNext told (map (λ w. w.now) words.now)) }
    {
        let line = HistoryLine::parse(words)?;
        if self.gave(line) {
            return Err(LineFault::NameUsedTwice);
        }
        Ok(line)
    }

    // Whether the line gives a value to a word that was given one.
    #[tactic(auto, unfolding(crate::specs::Judged::IsFresh, crate::specs::Judged::IsGivenAgain))]
    fn gave(&self, line: HistoryLine) -> bool
        ensures again { result ≡ true → ((told : List HistoryLine) → AreTold self.now told → IsGivenAgain told line) }
        ensures fresh { result ≡ false → ((told : List HistoryLine) → AreTold self.now told → IsFresh told line) }
    {
        match line {
            HistoryLine::Init(word, _) => self.given(word).is_some(),
            HistoryLine::Access(..) => false,
        }
    }
}

// ---- a trace

#[tactic(auto, using(crate::proofs::Reading::of_trace), unfolding(crate::specs::Judged::IsFaultOf))]
fn read_trace(alloc: Global, input: &[u8], extent: Extent) -> Result<Histories, TextFault>
    requires other { BeginsAsHistory (statements_from 0 (lines input.now)) → ⊥ }
    ensures told { IfOk result (AreHistoriesOf input.now) }
    ensures extent { IfOk result (λ it. it.extent ≡ extent) }
    ensures fault { IfErr result (IsFaultOf input.now) }
{
    check_trace(alloc, input)?;
    Ok(read_checked(alloc, input, extent)?)
}

// Of a text that is known to be a trace.
fn read_checked(alloc: Global, trace: &[u8], extent: Extent) -> Result<Histories, AllocError>
    requires { IsSomeTrace trace.now }
    ensures told { IfOk result (AreHistoriesOfTrace trace.now) }
    ensures extent { IfOk result (λ it. it.extent ≡ extent) }
{
    let mut statements = Statements::of(trace);
    // a trace has a first line, which names its version
    let Some(first) = statements.next() else {
        return Ok(Histories::new(alloc, extent));
    };
    match Version::parse(first.words.as_slice()) {
        Ok(version) => read_entries(alloc, version, statements, extent),
        Err(_) => Ok(Histories::new(alloc, extent)),
    }
}

// .. whose lines these are, after the first.
fn read_entries(
    alloc: Global,
    version: Version,
    mut statements: Statements<'_>,
    extent: Extent,
) -> Result<Histories, AllocError>
    ensures told { IfOk result (λ it. (some : List TraceLine) → AreLines version statements.entry some
        → AreLinesToldBy version statements.entry it) }
    ensures extent { IfOk result (λ it. it.extent ≡ extent) }
{
    let mut histories = Histories::new(alloc, extent);
    let mut statement = Statement::blank();
    'lines: while statements.read(&mut statement) {
        // no line of a trace is refused
        if let Ok(line) = TraceLine::parse(version, statement.words.as_slice()) {
            histories.tell(told_by(line), statement.number)?;
        }
    }
    Ok(histories)
}

// Converts a line of a trace.
fn told_by(line: TraceLine) -> HistoryLine
    ensures { result ≡ line_of line }
{
    match line {
        TraceLine::Init(word, value) => HistoryLine::Init(word, value),
        TraceLine::Entry(entry) => HistoryLine::Access(Access::untimed(
            entry.core,
            entry.word,
            entry.op,
            entry.reply,
        )),
    }
}
