ghost use Rattle.std.specs.Prelude.{◌≡◌, ℕ, ◌<◌, List, [], ◌∷◌, ◌++◌, map, length, IfOk, IfErr, OnOk};
ghost use Rattle.std.specs.Str.Lines.{lines};
ghost use Rattle.address_map.specs.declared.address.WordAddr.{WordAddr};
ghost use Rattle.litmus_text.specs.Fault.{IsAtLine, IsFirstFault};
ghost use Rattle.litmus_text.specs.Statement.{statements_from};
ghost use Rattle.slice_log.specs.Log.{initially};
ghost use Rattle.slice_log.specs.declared.entry.Entry.{Entry};
ghost use Rattle.trace_check.specs.Judge.{IsNameable};
ghost use Rattle.trace_check.specs.declared.judge.TheConstants.{MOST_WORDS};
ghost use Rattle.trace_check.specs.TraceLine.{IsLineOf};
ghost use Rattle.trace_check.specs.declared.verdict.Verdict.{Verdict};
ghost use Rattle.trace_check.specs.Verdict.{IsVerdict};
ghost use Rattle.trace_check.specs.declared.trace_line.Version.TheVariants as versions;
ghost use Rattle.trace_check.specs.declared.verdict.Reason.TheVariants as reasons;
ghost use Rattle.trace_check.specs.declared.verdict.Verdict.TheVariants as verdicts;
ghost use Rattle.trace_check.specs.Trace.{IsJudged, IsTrace, AreJudged, IsFaultAt, IsNoTrace, AreNoTrace, AreSomeTrace};
ghost use Rattle.trace_check.specs.SoFar.{MayBegin, Stands};
ghost use Rattle.trace_check.specs.Trace.{IsNoMemoryOrLine, IsNoNextLine, IsReading};
ghost use Rattle.trace_check.specs.Trace.{IsFaultAmong, IsFaultNext, IsFaultOfTrace, IsOfLine, MayFollow};

use super::trace_judge::TraceJudge;
use super::trace_line::{TraceLine, Version, begins_with};
use super::verdict::Verdict;
use address_map::WordAddr;
use litmus_text::{LineFault, Statement, Statements, TextFault};
use slice_log::Entry;
use std::alloc::Global;

/// The part of a trace that was read.
#[derive(Drop)]
struct Check {
    version: Version,
    trace: TraceJudge,
}

/// Judges a trace. The whole text is read first, so a faulty line is reported before an invalid entry. The only faults
/// are running out of memory and a faulty line.
pub fn check_trace(alloc: Global, input: &[u8]) -> Result<Verdict, TextFault>
    ensures judged { IfOk result (IsJudged input.now) }
    ensures refused { IfErr result (IsNoMemoryOrLine (IsNoTrace input.now)) }
    ensures line { IfErr result (IsAtLine (IsFaultAt (statements_from 0 (lines input.now)))) }
    ensures fault { IfErr result (IsOfLine (IsFaultOfTrace (statements_from 0 (lines input.now)))) }
{
    let mut statements = Statements::of(input);
    let Some(first) = statements.next() else {
        return Err(LineFault::NotATrace.at(1));
    };
    match Version::parse(first.words.as_slice()) {
        Ok(version) => check_lines(alloc, version, statements),
        Err(fault) => Err(fault.at(first.number)),
    }
}

/// A text has at most one verdict: its words are those of at most one trace.
pub fn one_judgement()
    ensures { (text : List ℕ) (a b : Verdict) → IsJudged text a → IsJudged text b → a ≡ b }
{}

/// In a trace without SINCE no entry is invalid because of the log's length, which it doesn't give: the verdict is that
/// of the replies and of the order alone.
pub fn none_by_since()
    ensures { (text : List ℕ) (init : List (WordAddr × ℕ)) (entries : List Entry) (k : ℕ)
        → IsTrace versions.WithoutSince init entries text
        → IsVerdict (initially init) entries (verdicts.Illegal k reasons.Since) → ⊥ }
{}

/// Judges the lines after the first.
fn check_lines(
    alloc: Global,
    version: Version,
    mut statements: Statements<'_>,
) -> Result<Verdict, TextFault>
    ensures judged { IfOk result (AreJudged version statements.entry) }
    ensures refused { IfErr result (IsNoMemoryOrLine (AreNoTrace version statements.entry)) }
    ensures line { IfErr result (IsAtLine (IsFirstFault (AreSomeTrace version) statements.entry)) }
    ensures fault { IfErr result (IsOfLine (IsFaultAmong version statements.entry)) }
{
    let mut check = Check::new(alloc, version);
    let mut statement = Statement::blank();
    'lines: while statements.read(&mut statement) {
        check.take(&statement)?;
    }
    Ok(check.trace.verdict())
}

impl Check {
    fn new(alloc: Global, version: Version) -> Self
        ensures stands { Stands result.trace [] [] }
        ensures version { result.version ≡ version }
    {
        Check {
            version,
            trace: TraceJudge::new(alloc),
        }
    }

    fn take(&mut self, statement: &Statement<'_>) -> Result<(), TextFault>
        ensures reading { OnOk result
            ((all left : List (ℕ × List (List ℕ)))
            → IsReading self.old all ((statement.now.number, map (λ w. w.now) statement.now.words.items) ∷ left)
            → IsReading self.new all left) }
        ensures refused { IfErr result (IsNoMemoryOrLine
            (IsNoNextLine self.old (map (λ w. w.now) statement.now.words.items))) }
        ensures line { IfErr result (IsAtLine (λ number. number ≡ statement.now.number)) }
        ensures fault { IfErr result (IsOfLine (λ number fault. (number ≡ statement.now.number)
            × IsFaultNext (0 < self.old.trace.entries) (MayBegin self.old.trace) self.old.version
            (map (λ w. w.now) statement.now.words.items) fault)) }
        ensures version { self.new.version ≡ self.old.version }
    {
        match self.line(statement.words.as_slice()) {
            Ok(TraceLine::Init(word, value)) => self.begin(word, value),
            Ok(TraceLine::Entry(entry)) => self.judge(&entry),
            Err(fault) => Err(fault.at(statement.number)),
        }
    }

    /// Parses the words of a line that may come next.
    #[tactic(auto, unfolding(crate::specs::Trace::MayFollow))]
    fn line(&self, words: &[&[u8]]) -> Result<TraceLine, LineFault>
        ensures written { IfOk result (IsLineOf self.now.version (map (λ w. w.now) words.now)) }
        ensures follows { IfOk result (MayFollow self.now) }
        ensures refused { IfErr result (λ fault. IsNoNextLine self.now (map (λ w. w.now) words.now)) }
        ensures fault { IfErr result (IsFaultNext (0 < self.now.trace.entries) (MayBegin self.now.trace) self.now.version
            (map (λ w. w.now) words.now)) }
    {
        match TraceLine::parse(self.version, words) {
            Ok(TraceLine::Init(word, value)) if self.trace.may_begin(word) => {
                Ok(TraceLine::Init(word, value))
            }
            Ok(TraceLine::Init(..)) => Err(LineFault::NotACommand),
            Ok(TraceLine::Entry(entry)) => Ok(TraceLine::Entry(entry)),
            // it would be in the wrong place even if it were well formed
            Err(_) if self.trace.entries > 0 && begins_with(words, b"init") => {
                Err(LineFault::NotACommand)
            }
            Err(fault) => Err(fault),
        }
    }

    fn begin(&mut self, word: WordAddr, value: u64) -> Result<(), TextFault>
        requires word { word.0 < MOST_WORDS }
        requires place { MayBegin self.old.trace word }
        ensures stands { OnOk result
            ((init : List (WordAddr × ℕ)) → Stands self.old.trace init []
            → Stands self.new.trace (init ++ (word, value) ∷ []) []) }
        ensures refused { IfErr result (λ fault. fault ≡ TextFault.NoMemory) }
        ensures version { self.new.version ≡ self.old.version }
    {
        self.trace.begin(word, value)?;
        Ok(())
    }

    fn judge(&mut self, entry: &Entry) -> Result<(), TextFault>
        requires { IsNameable entry.now }
        ensures stands { OnOk result
            ((init : List (WordAddr × ℕ)) (entries : List Entry) → Stands self.old.trace init entries
            → Stands self.new.trace init (entries ++ entry.now ∷ [])) }
        ensures refused { IfErr result (λ fault. fault ≡ TextFault.NoMemory) }
        ensures version { self.new.version ≡ self.old.version }
    {
        self.trace.take(entry)?;
        Ok(())
    }
}
