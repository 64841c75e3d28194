ghost use Rattle.std.specs.Prelude.{◌≡◌, ◌≢◌, ℕ, List, [], ◌∷◌, IfErr, IfOk, IsTrue, ◌↔◌, OnOk, map};
ghost use Rattle.std.specs.Str.Lines.{lines};
ghost use Rattle.litmus_text.specs.Fault.{IsAtLine, IsFirstFault};
ghost use Rattle.litmus_text.specs.Statement.{statements_from};
ghost use Rattle.litmus_test.specs.declared.version.Version.{Version};
ghost use Rattle.litmus_test.specs.Fault.{IsAstray, IsFault, IsFaultAmong, IsNextFault, IsWrong, keyword_of};
ghost use Rattle.litmus_test.specs.Line.{BeginsAsSetting};
ghost use Rattle.litmus_test.specs.Reading.{IsBegun, IsNoMemoryOr, IsNoNextLine, IsReading, SayNothing, SayOnly};
ghost use Rattle.litmus_test.specs.Reading.{said_first};
ghost use Rattle.litmus_test.specs.Sound.{IsChecked};
ghost use Rattle.litmus_test.specs.Text.{AreLines, IsFaultAt, IsLitmusTest, Said, Says, said_by, said_nothing};

use super::keyword::Keyword;
use super::line::Line;
use super::preamble::Preamble;
use super::setting::Setting;
use super::test::LitmusTest;
use super::version::Version;
use litmus_text::{LineFault, Statement, Statements, TextFault};
use std::alloc::Global;

impl<'a> LitmusTest<'a> {
    /// Reads a litmus test. The only faults are running out of memory, a faulty line, and a refused configuration.
    pub fn read(alloc: Global, input: &'a [u8]) -> Result<LitmusTest<'a>, TextFault>
        ensures written { IfOk result (λ test. IsLitmusTest input.now (said_by test)) }
        ensures only { IfOk result (λ test. (other : Said) → IsLitmusTest input.now other → other ≡ said_by test) }
        ensures refused { IfErr result (IsNoMemoryOr ((whole : Said) → ¬ IsLitmusTest input.now whole)) }
        ensures line { IfErr result (IsAtLine (IsFaultAt (statements_from 0 (lines input.now)))) }
        ensures fault { IfErr result (IsFault (statements_from 0 (lines input.now))) }
    {
        let mut statements = Statements::of(input);
        let Some(first) = statements.next() else {
            return Err(LineFault::NotALitmusText.at(1));
        };
        match Version::parse(first.words.as_slice()) {
            Ok(version) => read_statements(alloc, version, statements),
            Err(fault) => Err(fault.at(first.number)),
        }
    }

    /// Reads a line that begins as no setting.
    fn read_line(
        &mut self,
        alloc: Global,
        version: Version,
        statement: &Statement<'a>,
    ) -> Result<(), TextFault>
        requires { ¬ BeginsAsSetting (map (λ w. w.now) statement.now.words.items) }
        ensures reading { OnOk result
            ((start : Said) (all left : List (ℕ × List (List ℕ)))
            → IsReading version start (said_by self.old) all
            ((statement.now.number, map (λ w. w.now) statement.now.words.items) ∷ left)
            → IsReading version start (said_by self.new) all left) }
        ensures begun { OnOk result (IsBegun (said_by self.new)) }
        ensures refused { IfErr result (IsNoMemoryOr
            (IsNoNextLine version (said_by self.old) (map (λ w. w.now) statement.now.words.items))) }
        ensures line { IfErr result (IsAtLine (λ number. number ≡ statement.now.number)) }
        ensures fault { IfErr result (IsNextFault version (said_by self.old) statement.now.number
            (map (λ w. w.now) statement.now.words.items)) }
    {
        let words = statement.words.as_slice();
        match Line::parse(version, words) {
            Ok(line) => self.take(alloc, statement.number, line),
            Err(fault) => Err(self.fault_of(words, fault).at(statement.number)),
        }
    }

    // Returns the fault of a malformed line. In the wrong part of the text it would be refused even if well formed.
    fn fault_of(&self, words: &[&[u8]], fault: LineFault) -> LineFault
        ensures astray { IsAstray (said_by self.now) (keyword_of (map (λ w. w.now) words.now))
            → result ≡ LineFault.NotACommand }
        ensures placed { ¬ IsAstray (said_by self.now) (keyword_of (map (λ w. w.now) words.now)) → result ≡ fault }
    {
        if self.is_astray(keyword_of(words)) {
            LineFault::NotACommand
        } else {
            fault
        }
    }

    // Whether a line that begins with this keyword, or with none, is in the wrong part of the text.
    fn is_astray(&self, keyword: Option<Keyword>) -> bool
        ensures { IsTrue result ↔ IsAstray (said_by self.now) keyword }
    {
        match keyword {
            Some(Keyword::Thread) => self.has_outcome(),
            Some(Keyword::Forbid) => false,
            Some(
                Keyword::Load
                | Keyword::Store
                | Keyword::Add
                | Keyword::Cas
                | Keyword::Settle
                | Keyword::Evict,
            ) => self.has_no_thread() || self.has_outcome(),
            None => self.has_no_thread() && self.has_outcome(),
        }
    }

    #[tactic(auto, unfolding(crate::specs::Text::said_by))]
    fn has_no_thread(&self) -> bool
        ensures { IsTrue result ↔ ((said_by self.now).threads ≡ []) }
    {
        self.threads.is_empty()
    }

    #[tactic(auto, unfolding(crate::specs::Text::said_by))]
    fn has_outcome(&self) -> bool
        ensures { IsTrue result ↔ ((said_by self.now).forbidden ≢ []) }
    {
        !self.forbidden.is_empty()
    }

    /// Reads a line after the first that is no setting.
    fn read_next(
        &mut self,
        alloc: Global,
        version: Version,
        statement: &Statement<'a>,
    ) -> Result<(), TextFault>
        requires { IsBegun (said_by self.old) }
        ensures reading { OnOk result
            ((start : Said) (all left : List (ℕ × List (List ℕ)))
            → IsReading version start (said_by self.old) all
            ((statement.now.number, map (λ w. w.now) statement.now.words.items) ∷ left)
            → IsReading version start (said_by self.new) all left) }
        ensures begun { OnOk result (IsBegun (said_by self.new)) }
        ensures refused { IfErr result (IsNoMemoryOr
            (IsNoNextLine version (said_by self.old) (map (λ w. w.now) statement.now.words.items))) }
        ensures line { IfErr result (IsAtLine (λ number. number ≡ statement.now.number)) }
        ensures fault { IfErr result (IsNextFault version (said_by self.old) statement.now.number
            (map (λ w. w.now) statement.now.words.items)) }
    {
        let words = statement.words.as_slice();
        if begins_as_setting(words) {
            return Err(self.late_fault(words).at(statement.number));
        }
        self.read_line(alloc, version, statement)
    }

    // Returns the fault of a setting after the first thread, or after a `forbid` if no thread came.
    fn late_fault(&self, words: &[&[u8]]) -> LineFault
        requires begun { IsBegun (said_by self.now) }
        requires begins { BeginsAsSetting (map (λ w. w.now) words.now) }
        ensures { (version : Version) → IsWrong version (said_by self.now) (map (λ w. w.now) words.now) result }
    {
        match Setting::parse(words) {
            Ok(_) if self.has_no_thread() => LineFault::NotACommand,
            Ok(_) => LineFault::LateConfiguration,
            Err(fault) => self.fault_of(words, fault),
        }
    }
}

fn keyword_of(words: &[&[u8]]) -> Option<Keyword>
    ensures { result ≡ keyword_of (map (λ w. w.now) words.now) }
{
    match words.split_first() {
        Some((name, _)) => Keyword::named(name),
        None => None,
    }
}

fn begins_as_setting(words: &[&[u8]]) -> bool
    ensures { IsTrue result ↔ BeginsAsSetting (map (λ w. w.now) words.now) }
{
    match words.split_first() {
        Some((name, _)) => Setting::is_named(name),
        None => false,
    }
}

impl Preamble {
    /// Reads a line that begins as a setting.
    fn read_setting(&mut self, statement: &Statement<'_>) -> Result<(), TextFault>
        requires { BeginsAsSetting (map (λ w. w.now) statement.now.words.items) }
        ensures reading { OnOk result
            ((version : Version) (start : Said) (all left : List (ℕ × List (List ℕ)))
            → IsReading version start (said_first self.old) all
            ((statement.now.number, map (λ w. w.now) statement.now.words.items) ∷ left)
            → IsReading version start (said_first self.new) all left) }
        ensures refused { (version : Version) → IfErr result (IsNoMemoryOr
            (IsNoNextLine version (said_first self.old) (map (λ w. w.now) statement.now.words.items))) }
        ensures line { IfErr result (IsAtLine (λ number. number ≡ statement.now.number)) }
        ensures fault { (version : Version) → IfErr result (IsNextFault version (said_first self.old) statement.now.number
            (map (λ w. w.now) statement.now.words.items)) }
    {
        match Setting::parse(statement.words.as_slice()) {
            Ok(setting) => self.take(statement.number, setting),
            Err(fault) => Err(fault.at(statement.number)),
        }
    }
}

/// Reads the lines after the first.
fn read_statements<'a>(
    alloc: Global,
    version: Version,
    mut statements: Statements<'a>,
) -> Result<LitmusTest<'a>, TextFault>
    ensures says { IfOk result (λ test. SayOnly version said_nothing statements.entry (said_by test)) }
    ensures refused { IfErr result (IsNoMemoryOr (SayNothing version said_nothing statements.entry)) }
    ensures line { IfErr result (IsAtLine (IsFirstFault (AreLines version said_nothing) statements.entry)) }
    ensures fault { IfErr result (IsFaultAmong version said_nothing statements.entry) }
{
    let mut preamble = Preamble::new(alloc);
    while let Some(statement) = statements.next() {
        if !begins_as_setting(statement.words.as_slice()) {
            let test = preamble.test(alloc)?;
            return read_threads(alloc, version, test, statement, statements);
        }
        preamble.read_setting(&statement)?;
    }
    preamble.test(alloc)
}

/// Reads the lines from the first that is no setting on.
fn read_threads<'a>(
    alloc: Global,
    version: Version,
    mut test: LitmusTest<'a>,
    first: Statement<'a>,
    statements: Statements<'a>,
) -> Result<LitmusTest<'a>, TextFault>
    requires { ¬ BeginsAsSetting (map (λ w. w.now) first.words.items) }
    ensures says { IfOk result (λ whole. SayOnly version (said_by test.entry)
        ((first.entry.number, map (λ w. w.now) first.entry.words.items) ∷ statements.entry) (said_by whole)) }
    ensures refused { IfErr result (IsNoMemoryOr (SayNothing version (said_by test.entry)
        ((first.entry.number, map (λ w. w.now) first.entry.words.items) ∷ statements.entry))) }
    ensures line { IfErr result (IsAtLine (IsFirstFault (AreLines version (said_by test.entry))
        ((first.entry.number, map (λ w. w.now) first.entry.words.items) ∷ statements.entry))) }
    ensures fault { IfErr result (IsFaultAmong version (said_by test.entry)
        ((first.entry.number, map (λ w. w.now) first.entry.words.items) ∷ statements.entry)) }
{
    test.read_line(alloc, version, &first)?;
    for statement in statements {
        test.read_next(alloc, version, &statement)?;
    }
    Ok(test)
}
