ghost use Rattle.std.specs.Prelude.{◌≡◌, ◌↔◌, ℕ, [], ◌∷◌, false, IfErr, IfOk, IsTrue, List, OnOk, Option, map, None};
ghost use Rattle.std.specs.Str.Lines.{lines};
ghost use Rattle.litmus_text.specs.ConfigLine.{after_config_line};
ghost use Rattle.litmus_text.specs.Statement.{statements_from};
ghost use Rattle.litmus_text.specs.declared.settings.Settings.{Settings};
ghost use Rattle.program_text.specs.declared.programs.Limits.{Limits};
ghost use Rattle.program_text.specs.Fault.{BeginOtherwise, IsFault, IsProgramText, Statement as ReadStatement};
ghost use Rattle.program_text.specs.Fault.{programs_of, settings_of};
ghost use Rattle.program_text.specs.Judged.{fault_of, is_first};
ghost use Rattle.program_text.specs.Line.{BeginsAsSetting, line_of};
ghost use Rattle.program_text.specs.Reading.{IsSoundReader, IsPlaceFault, IsRead, IsReading, said_by, said_first};
ghost use Rattle.program_text.specs.Reading.{said_in};
ghost use Rattle.program_text.specs.Text.{Program, said_line};

use super::line::Line;
use super::programs::{Limits, MOST_DEPTH, Programs};
use arrayvec::ArrayVec;
use litmus_text::{ConfigLine, LineFault, Settings, Statement, Statements, TextFault};
use std::alloc::Global;

/// A `repeat` without its `end` so far.
#[derive(Clone, Copy, Default)]
pub(super) struct Block {
    /// The number of its line.
    pub number: usize,
    pub times: u64,
    /// How many steps of the program come before it.
    pub start: usize,
}

/// Programs that are read so far.
#[derive(Drop)]
pub(super) struct Reader {
    pub programs: Programs,
    pub blocks: ArrayVec<Block, MOST_DEPTH>,
    /// How many steps all programs have.
    pub steps: usize,
}

impl Programs {
    /// Reads programs. The only faults are running out of memory, a faulty line, and a configuration that is refused.
    pub fn read(alloc: Global, input: &[u8]) -> Result<Programs, TextFault>
        ensures written { IfOk result
            (λ programs. IsProgramText input.now (settings_of programs) programs.limits (programs_of programs)) }
        ensures only { IfOk result (λ programs. (settings : Settings) (limits : Limits) (others : List Program)
            → IsProgramText input.now settings limits others
            → (settings ≡ settings_of programs) × (limits ≡ programs.limits) × (others ≡ programs_of programs)) }
        ensures fault { IfErr result (IsFault (statements_from 0 (lines input.now))) }
    {
        let mut statements = Statements::of(input);
        let mut settings = Settings::new(alloc);
        while let Some(statement) = statements.next() {
            if !begins_as_setting(statement.words.as_slice()) {
                let reader = Reader::new(alloc, settings)?;
                return reader.read(alloc, statement, statements);
            }
            configure(&mut settings, &statement)?;
        }
        let reader = Reader::new(alloc, settings)?;
        Ok(reader.programs)
    }
}

fn begins_as_setting(words: &[&[u8]]) -> bool
    ensures { IsTrue result ↔ BeginsAsSetting (map (λ w. w.now) words.now) }
{
    match words.split_first() {
        Some((name, _)) => ConfigLine::is_named(name),
        None => false,
    }
}

/// Takes a line that configures, before all programs.
fn configure(settings: &mut Settings, statement: &Statement<'_>) -> Result<(), TextFault>
    requires { BeginsAsSetting (map (λ w. w.now) statement.now.words.items) }
    ensures reading { OnOk result ((all left : List ReadStatement)
        → IsReading all (said_first settings.old) (said_in statement.now ∷ left)
        → IsReading all (said_first settings.new) left) }
    ensures fault { IfErr result (λ fault. (all left : List ReadStatement)
        → IsReading all (said_first settings.old) (said_in statement.now ∷ left)
        → IsFault all fault) }
{
    match ConfigLine::parse(statement.words.as_slice()) {
        Ok(line) => set(line, settings),
        Err(fault) => Err(fault.at(statement.number)),
    }
}

fn set(line: ConfigLine, settings: &mut Settings) -> Result<(), TextFault>
    ensures said { OnOk result (settings.new ≡ after_config_line settings.old line) }
    ensures fault { IfErr result (λ fault. fault ≡ TextFault.NoMemory) }
{
    line.set(settings)?;
    Ok(())
}

impl Reader {
    /// Nothing but what configures was read.
    #[tactic(auto, unfolding(crate::specs::Reading::said_by))]
    fn new(alloc: Global, settings: Settings) -> Result<Self, TextFault>
        ensures said { IfOk result (λ reader. said_by reader ≡ said_first settings) }
        ensures counted { IfOk result IsSoundReader }
        ensures fault { IfErr result (λ fault. (all left : List ReadStatement)
            → IsReading all (said_first settings) left → BeginOtherwise left → IsFault all fault) }
    {
        let misses = settings.misses;
        let config = match settings.config.check() {
            Ok(config) => config,
            Err(error) => return Err(TextFault::Config(error)),
        };
        Ok(Reader {
            programs: Programs {
                config,
                misses,
                limits: Limits {
                    outstanding: None,
                    pace: None,
                },
                cores: Vec::new(alloc),
            },
            blocks: ArrayVec::new(),
            steps: 0,
        })
    }

    /// Reads the lines from the first on that doesn't configure. The last `repeat` without an `end` is at fault.
    fn read(
        self,
        alloc: Global,
        first: Statement<'_>,
        statements: Statements<'_>,
    ) -> Result<Programs, TextFault>
        requires counted { IsSoundReader self }
        requires begins { ¬ BeginsAsSetting (map (λ w. w.now) first.words.items) }
        ensures read { IfOk result (λ programs. (all : List ReadStatement)
            → IsReading all (said_by self) (said_in first.entry ∷ statements.entry)
            → IsRead all programs) }
        ensures fault { IfErr result (λ fault. (all : List ReadStatement)
            → IsReading all (said_by self) (said_in first.entry ∷ statements.entry)
            → IsFault all fault) }
    {
        let mut reader = self;
        reader.read_line(alloc, &first)?;
        for statement in statements {
            reader.read_next(alloc, &statement)?;
        }
        reader.end()
    }

    /// Returns what was read, if no block is left open.
    fn end(self) -> Result<Programs, TextFault>
        requires { IsSoundReader self }
        ensures read { IfOk result
            (λ programs. (all : List ReadStatement) → IsReading all (said_by self) [] → IsRead all programs) }
        ensures fault { IfErr result
            (λ fault. (all : List ReadStatement) → IsReading all (said_by self) [] → IsFault all fault) }
    {
        let blocks = self.blocks.as_slice();
        match blocks.last() {
            Some(block) => Err(LineFault::NotACommand.at(block.number)),
            None => Ok(self.programs),
        }
    }

    /// Reads a line after the first that doesn't configure.
    fn read_next(&mut self, alloc: Global, statement: &Statement<'_>) -> Result<(), TextFault>
        requires counted { IsSoundReader self.old }
        requires begun { is_first (said_by self.old) ≡ false }
        ensures reading { OnOk result ((all left : List ReadStatement)
            → IsReading all (said_by self.old) (said_in statement.now ∷ left)
            → IsReading all (said_by self.new) left) }
        ensures counted { OnOk result (IsSoundReader self.new) }
        ensures begun { OnOk result (is_first (said_by self.new) ≡ false) }
        ensures fault { IfErr result (λ fault. (all left : List ReadStatement)
            → IsReading all (said_by self.old) (said_in statement.now ∷ left)
            → IsFault all fault) }
    {
        let words = statement.words.as_slice();
        if begins_as_setting(words) {
            return Err(ConfigLine::late_fault(words).at(statement.number));
        }
        self.read_line(alloc, statement)
    }

    /// Reads a line that doesn't configure.
    fn read_line(&mut self, alloc: Global, statement: &Statement<'_>) -> Result<(), TextFault>
        requires counted { IsSoundReader self.old }
        requires begins { ¬ BeginsAsSetting (map (λ w. w.now) statement.now.words.items) }
        ensures reading { OnOk result ((all left : List ReadStatement)
            → IsReading all (said_by self.old) (said_in statement.now ∷ left)
            → IsReading all (said_by self.new) left) }
        ensures counted { OnOk result (IsSoundReader self.new) }
        ensures begun { OnOk result (is_first (said_by self.new) ≡ false) }
        ensures fault { IfErr result (λ fault. (all left : List ReadStatement)
            → IsReading all (said_by self.old) (said_in statement.now ∷ left)
            → IsFault all fault) }
    {
        match Line::parse(statement.words.as_slice()) {
            Ok(line) => self.take(alloc, statement.number, line),
            Err(fault) => Err(fault.at(statement.number)),
        }
    }

    /// Takes one more line, which has this number.
    fn take(&mut self, alloc: Global, number: usize, line: Line) -> Result<(), TextFault>
        requires { IsSoundReader self.old }
        ensures may { OnOk result (fault_of (said_by self.old) (line_of line) ≡ None) }
        ensures said { OnOk result (said_by self.new ≡ said_line (said_by self.old) number (line_of line)) }
        ensures counted { OnOk result (IsSoundReader self.new) }
        ensures fault { IfErr result (IsPlaceFault (said_by self.old) number (line_of line)) }
    {
        if let Err(fault) = self.judge(line) {
            return Err(fault.at(number));
        }
        self.add(alloc, number, line)?;
        Ok(())
    }
}
