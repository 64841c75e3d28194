//! Judges histories, in which the order of accesses of several cores isn't known, and prints the result.
ghost use Rattle.std.specs.Prelude.{◌≡◌, IfErr, IfOk};
ghost use Rattle.text_verdicts.specs.Judge.{IsJudgedAs, IsNotJudged, status_of};
ghost use Rattle.litmus_script.specs.Play.{IsOfRun};

use super::contradiction::Json;
use super::shown::{Shown, shown_claims};
use address_map::Op;
use history_judge::Access;
use history_text::{Claim, Extent, History, Judged, Verdict, claims_of, judge_text};
use litmus_script::TextWriter;
use litmus_text::TextFault;
use std::alloc::{AllocError, Global};
use std::fmt;
use std::io::Write;

/// How a judgement is printed.
#[derive(Clone, Copy, Debug, PartialEq, Eq)]
pub enum JudgeForm {
    /// As text, with the contradiction of a word or a line that has no order.
    Text,
    /// .. but if all have an order, the accesses of the word or the line with this number in its order, as a trace.
    Witness(u64),
    /// As a JSON value.
    Json,
}

/// Judges the histories in a text, each word's by itself or each line's, and prints the verdict in this form. Takes at
/// most `limit` steps to try orders of one. Returns the exit status.
pub fn run_judge<W: Write>(
    alloc: Global,
    input: &[u8],
    extent: Extent,
    limit: u64,
    form: JudgeForm,
    out: &mut W,
) -> Result<u8, TextFault>
    ensures judged { IfOk result (IsJudgedAs input.now extent) }
    ensures fault { IfErr result (IsNotJudged input.now) }
{
    let judged = judge_text(alloc, input, extent, limit as usize)?;
    print(alloc, &judged, form, out)?;
    Ok(status_of(&judged.verdict))
}

// Returns the exit status: 0 if the histories are coherent, and 1 if they aren't or it is undecided.
const fn status_of(verdict: &Verdict) -> u8
    ensures { result ≡ status_of verdict.now }
{
    match verdict {
        Verdict::Coherent(_) => 0,
        Verdict::Incoherent(..) | Verdict::Undecided(_) => 1,
    }
}

fn print<W: Write>(
    alloc: Global,
    judged: &Judged,
    form: JudgeForm,
    out: &mut W,
) -> Result<(), TextFault>
    ensures fault { IfErr result IsOfRun }
{
    let claims = claims_in(alloc, judged)?;
    let lines = shown_claims(alloc, &claims)?;
    let mut answers = TextWriter { out };
    match write_verdict(judged, form, &claims, &lines, &mut answers) {
        Ok(()) => Ok(()),
        Err(_) => Err(TextFault::CannotWrite),
    }
}

/// Returns what the contradiction says, if there is one.
fn claims_in(alloc: Global, judged: &Judged) -> Result<Vec<Claim>, AllocError> {
    match &judged.verdict {
        Verdict::Incoherent(number, contradiction) => match judged.histories.history(*number) {
            Some(history) => claims_of(alloc, history, contradiction),
            None => Ok(Vec::new(alloc)),
        },
        Verdict::Coherent(_) | Verdict::Undecided(_) => Ok(Vec::new(alloc)),
    }
}

fn write_verdict<W: fmt::Write>(
    judged: &Judged,
    form: JudgeForm,
    claims: &[Claim],
    lines: &[Shown],
    out: &mut W,
) -> fmt::Result {
    match form {
        JudgeForm::Text => write_text(judged, lines, out),
        JudgeForm::Json => write_json(judged, claims, out),
        JudgeForm::Witness(number) => match &judged.verdict {
            Verdict::Coherent(orders) => write_witness(judged, orders, number, out),
            Verdict::Undecided(_) | Verdict::Incoherent(..) => write_text(judged, lines, out),
        },
    }
}

fn write_text<W: fmt::Write>(judged: &Judged, lines: &[Shown], out: &mut W) -> fmt::Result {
    let extent = judged.histories.extent();
    match &judged.verdict {
        Verdict::Coherent(orders) => writeln!(out, "coherent {} entries", count(orders)),
        Verdict::Undecided(number) => writeln!(out, "undecided {}", Words(extent, *number)),
        Verdict::Incoherent(number, _) => {
            writeln!(out, "incoherent {}", Words(extent, *number))?;
            for it in lines {
                writeln!(out, "{it}")?;
            }
            write_end(lines, out)
        }
    }
}

/// What is judged under a number: `word 9`, or for a line `words 8 to 15`.
#[derive(Clone, Copy)]
struct Words(Extent, u64);

impl fmt::Display for Words {
    fn fmt<W: fmt::Write>(&self, f: &mut fmt::Formatter<W>) -> fmt::Result {
        match self.0 {
            Extent::Word => write!(f, "word {}", self.1),
            Extent::Line => {
                let (first, last) = words_of(self.1);
                write!(f, "words {first} to {last}")
            }
        }
    }
}

const fn words_of(line: u64) -> (u64, u64) {
    let first = line.saturating_mul(8);
    (first, first.saturating_add(7))
}

/// The same as a JSON member.
#[derive(Clone, Copy)]
struct WordsJson(Extent, u64);

impl fmt::Display for WordsJson {
    fn fmt<W: fmt::Write>(&self, f: &mut fmt::Formatter<W>) -> fmt::Result {
        match self.0 {
            Extent::Word => write!(f, "\"word\":{}", self.1),
            Extent::Line => {
                let (first, last) = words_of(self.1);
                write!(f, "\"words\":[{first},{last}]")
            }
        }
    }
}

/// Returns the number of accesses in the orders.
fn count(orders: &[Vec<usize>]) -> usize {
    let mut accesses: usize = 0;
    for order in orders {
        accesses = accesses.saturating_add(order.len());
    }
    accesses
}

/// Writes what the steps lead to: the last one ends where the first begins.
fn write_end<W: fmt::Write>(lines: &[Shown], out: &mut W) -> fmt::Result {
    match lines.last() {
        Some(
            Shown {
                claim: Claim::Before { last, .. },
                ..
            },
        ) => writeln!(out, "so line {last} before itself"),
        _ => Ok(()),
    }
}

fn write_json<W: fmt::Write>(judged: &Judged, claims: &[Claim], out: &mut W) -> fmt::Result {
    let extent = judged.histories.extent();
    match &judged.verdict {
        Verdict::Coherent(orders) => {
            let entries = count(orders);
            writeln!(out, "{{\"verdict\":\"coherent\",\"entries\":{entries}}}")
        }
        Verdict::Undecided(number) => {
            let words = WordsJson(extent, *number);
            writeln!(out, "{{\"verdict\":\"undecided\",{words}}}")
        }
        Verdict::Incoherent(number, _) => {
            let words = WordsJson(extent, *number);
            write!(out, "{{\"verdict\":\"incoherent\",{words},")?;
            write!(out, "\"contradiction\":[")?;
            for (number, it) in claims.iter().enumerate() {
                let comma = if number == 0 { "" } else { "," };
                write!(out, "{comma}{}", Json(*it))?;
            }
            writeln!(out, "]}}")
        }
    }
}

/// Writes the accesses of a word or a line in the order that was found, as a trace.
fn write_witness<W: fmt::Write>(
    judged: &Judged,
    orders: &[Vec<usize>],
    number: u64,
    out: &mut W,
) -> fmt::Result {
    writeln!(out, "lockup-trace no-since")?;
    let Some(history) = judged.histories.history(number) else {
        return Ok(());
    };
    for (word, value) in &history.given {
        writeln!(out, "init {} {value}", word.0)?;
    }
    match orders.get(number as usize) {
        Some(order) => write_entries(history, order, out),
        None => Ok(()),
    }
}

// An entry's SEQ is its place among those that are judged together.
fn write_entries<W: fmt::Write>(history: &History, order: &[usize], out: &mut W) -> fmt::Result {
    for place in order {
        if let Some(access) = history.accesses.get(*place) {
            write_entry(*access, *place, out)?;
        }
    }
    Ok(())
}

fn write_entry<W: fmt::Write>(access: Access, seq: usize, out: &mut W) -> fmt::Result {
    let word = access.word.0;
    write!(out, "entry {} {seq} 0 ", access.core.0)?;
    match access.op {
        Op::Load => write!(out, "load {word}")?,
        Op::Store(value) => write!(out, "store {word} {value}")?,
        Op::Add(delta) => write!(out, "add {word} {delta}")?,
        Op::Cas { expect, new } => write!(out, "cas {word} {expect} {new}")?,
    }
    writeln!(out, " {}", access.reply)
}
