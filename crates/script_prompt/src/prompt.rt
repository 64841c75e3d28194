//! The prompt.
ghost use Rattle.std.specs.Prelude.{◌≡◌, ◌⊎◌, ◌<◌, ◌-◌, [], IfOk, OnOk, length, slice_get};
ghost use Rattle.script_prompt.specs.Session.{IsMadeWith, IsTakenBack, IsUndone, is_end, with_end};

use super::asked::Asked;
use super::help::HELP;
use super::hint::hint_of;
use super::own::Own;
use super::saver::Saver;
use super::session::Session;
use litmus_script::{TextWriter, written};
use litmus_text::{Statement, Statements, TextFault};
use std::alloc::Global;
use std::fmt::Write as _;
use std::io::{BufRead, Write};
use std::{io, str};

/// Plays a script, and then answers each line of the input at once, after this mark. Returns the exit status.
pub fn run_prompt<R: BufRead, W: Write, S: Saver>(
    alloc: Global,
    script: &[u8],
    mark: &str,
    input: &mut R,
    out: &mut W,
    saver: &mut S,
) -> Result<u8, TextFault>
    ensures status { IfOk result (λ status. status ≡ 0) }
{
    let script = with_end(alloc, script)?;
    let session = Session::open(alloc, script, out)?;
    let mut prompt = Prompt {
        alloc,
        session,
        parts: Vec::new(alloc),
    };
    for _ in 0..u64::MAX {
        show(mark, out)?;
        let line = read_line(alloc, input)?;
        if line.is_empty() || !prompt.answer(&line, out, saver)? {
            break;
        }
    }
    Ok(0)
}

/// Returns the text, with the end of its last line.
fn with_end(alloc: Global, text: &[u8]) -> Result<Vec<u8>, TextFault>
    ensures { IfOk result (λ whole. whole.items ≡ with_end text.now) }
{
    let mut whole = Vec::new(alloc);
    whole.extend_from_slice(text)?;
    if !is_ended(text) {
        whole.push(b'\n')?;
    }
    Ok(whole)
}

/// Whether the last line of a text has its end.
fn is_ended(text: &[u8]) -> bool
    ensures { result ≡ is_end (slice_get text.now (length text.now - 1)) }
{
    match text.last() {
        Some(byte) => *byte == b'\n',
        None => true,
    }
}

/// Writes the mark, and all that waits to be written.
fn show<W: Write>(mark: &str, out: &mut W) -> Result<(), TextFault> {
    let mut answers = TextWriter { out };
    written(answers.write_str(mark))?;
    match out.flush() {
        Ok(()) => Ok(()),
        Err(_) => Err(TextFault::CannotWrite),
    }
}

/// Returns the next line of the input with its end, or nothing if the input ends or can't be read.
fn read_line<R: BufRead>(alloc: Global, input: &mut R) -> Result<Vec<u8>, TextFault> {
    let mut line = Vec::new(alloc);
    match input.read_until(b'\n', &mut line) {
        Ok(_) => Ok(line),
        Err(error) if error.kind() == io::ErrorKind::OutOfMemory => Err(TextFault::NoMemory),
        Err(_) => Ok(Vec::new(alloc)),
    }
}

/// A session, and where in its script each part begins that one line of the prompt has brought.
#[derive(Drop)]
struct Prompt {
    alloc: Global,
    session: Session,
    parts: Vec<usize>,
}

impl Prompt {
    /// Answers a line. Returns whether the prompt goes on.
    fn answer<W: Write, S: Saver>(
        &mut self,
        line: &[u8],
        out: &mut W,
        saver: &mut S,
    ) -> Result<bool, TextFault> {
        let Some(statement) = Statements::of(line).next() else {
            return Ok(true);
        };
        let before = self.session.script().len();
        match self.session.answer(&statement, out) {
            Ok(Asked::Own(Own::Quit)) => return Ok(false),
            Ok(Asked::Own(Own::Undo)) => {
                self.undo(out)?;
                return Ok(true);
            }
            Ok(asked) => self.do_other(asked, &statement, out, saver)?,
            Err(fault) => self.tell_line(&statement, fault, out)?,
        }
        if self.session.script().len() > before {
            self.parts.push(before)?;
        }
        Ok(true)
    }

    fn do_other<W: Write, S: Saver>(
        &mut self,
        asked: Asked<'_>,
        statement: &Statement<'_>,
        out: &mut W,
        saver: &mut S,
    ) -> Result<(), TextFault> {
        match asked {
            Asked::Configuration => self.configure(statement.line, out),
            Asked::Own(Own::Save(name)) => self.save(name, out, saver),
            Asked::Own(Own::Help) => {
                let mut answers = TextWriter { out };
                written(answers.write_str(HELP))
            }
            _ => Ok(()),
        }
    }

    /// Reports what is wrong with a line, and what could be in it.
    fn tell_line<W: Write>(
        &self,
        statement: &Statement<'_>,
        fault: TextFault,
        out: &mut W,
    ) -> Result<(), TextFault> {
        let TextFault::Line { fault: wrong, .. } = fault else {
            return tell(fault, out);
        };
        let Some(name) = statement.words.as_slice().first() else {
            return tell(fault, out);
        };
        let mut text = with_end(self.alloc, self.session.script())?;
        text.extend_from_slice(statement.line)?;
        let mut answers = TextWriter { out };
        match hint_of(self.alloc, &text, name, wrong) {
            Some(hint) => written(writeln!(answers, "fault: {wrong}   {hint}")),
            None => written(writeln!(answers, "fault: {wrong}")),
        }
    }

    /// Has the machine that the script so far configures with one more line. That is played anew, where it can be.
    fn configure<W: Write>(&mut self, line: &[u8], out: &mut W) -> Result<(), TextFault>
        ensures { OnOk result (IsMadeWith line.now self.old.session self.new.session) }
    {
        let mut script = with_end(self.alloc, self.session.script())?;
        script.extend_from_slice(line)?;
        let script = with_end(self.alloc, &script)?;
        match Session::open(self.alloc, script, &mut io::sink()) {
            Ok(session) => {
                self.session = session;
                Ok(())
            }
            Err(fault) => tell(fault, out),
        }
    }

    /// Takes back what the last line brought. The script without that is played anew.
    fn undo<W: Write>(&mut self, out: &mut W) -> Result<(), TextFault>
        ensures { OnOk result (IsUndone self.old.parts.items self.new.parts.items self.old.session self.new.session) }
    {
        let part = self.parts.pop();
        self.take_back(part, out)
    }

    /// Takes back the script from this byte on, or else its last line.
    fn take_back<W: Write>(&mut self, part: Option<usize>, out: &mut W) -> Result<(), TextFault>
        ensures parts { self.new.parts ≡ self.old.parts }
        ensures taken { OnOk result (IsTakenBack part self.old.session self.new.session) }
    {
        let script = self.session.script();
        let first = match part {
            Some(part) => part,
            None => last_line(script),
        };
        let (Some(left), Some(gone)) = (script.get(..first), script.get(first..)) else {
            return Ok(());
        };
        let mut answers = TextWriter { out };
        if gone.is_empty() {
            return written(writeln!(answers, "nothing to undo"));
        }
        for line in gone.split_inclusive(|byte| *byte == b'\n') {
            written(answers.write_str("undone: "))?;
            written(answers.write_bytes(line))?;
        }
        let left = with_end(self.alloc, left)?;
        self.session = Session::open(self.alloc, left, &mut io::sink())?;
        Ok(())
    }

    fn save<W: Write, S: Saver>(
        &self,
        name: &[u8],
        out: &mut W,
        saver: &mut S,
    ) -> Result<(), TextFault> {
        let mut answers = TextWriter { out };
        let Ok(name) = str::from_utf8(name) else {
            return written(writeln!(answers, "fault: cannot write a file of this name"));
        };
        match saver.save(name, self.session.script()) {
            Ok(()) => written(writeln!(answers, "saved {name}")),
            Err(error) if error.kind() == io::ErrorKind::AlreadyExists => {
                written(writeln!(answers, "fault: {name} is there already"))
            }
            Err(error) if error.kind() == io::ErrorKind::OutOfMemory => Err(TextFault::NoMemory),
            Err(_) => written(writeln!(answers, "fault: cannot write {name}")),
        }
    }
}

/// Returns where the last line of a text begins.
fn last_line(text: &[u8]) -> usize
    ensures { (result < length text.now) ⊎ (text.now ≡ []) }
{
    let Some((_, before)) = text.split_last() else {
        return 0;
    };
    match before.iter().rposition(|byte| *byte == b'\n') {
        Some(end) => end + 1,
        None => 0,
    }
}

/// Reports what is wrong with a line of the prompt. A fault that isn't the line's is passed on.
fn tell<W: Write>(fault: TextFault, out: &mut W) -> Result<(), TextFault> {
    let mut answers = TextWriter { out };
    match fault {
        TextFault::Line { fault, .. } => written(writeln!(answers, "fault: {fault}")),
        TextFault::Config(error) => written(writeln!(answers, "fault: config {error}")),
        TextFault::CannotWrite | TextFault::NoMemory => Err(fault),
    }
}
