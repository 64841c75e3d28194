ghost use Rattle.std.specs.Prelude.{◌≡◌, [], IfErr, IfOk, OnOk};
ghost use Rattle.std.specs.Fmt.{WritesInCalls};
ghost use Rattle.std.specs.Io.KnownBytes.{Appends};
ghost use Rattle.text_verdicts.specs.Check.{IsChecked, IsCheckedAsJson, IsExplained, IsNotChecked, json_of_verdict, status_of};
ghost use Rattle.text_verdicts.specs.Check.{text_of_reason, text_of_verdict};

use super::wrong_entry::{Members, WrongEntry, wrong_entry_at};
use litmus_script::TextWriter;
use litmus_text::TextFault;
use std::alloc::{AllocError, Global};
use std::fmt;
use std::io::Write;
use trace_check::{Reason, Verdict, check_trace};

/// Judges a trace, and prints the verdict as a line of text. Returns the exit status.
pub fn run_check<W: Write>(alloc: Global, input: &[u8], out: &mut W) -> Result<u8, TextFault>
    ensures checked { IfOk result (IsChecked input.now (text_of_verdict []) (W.contents out.old) (W.contents out.new)) }
    ensures fault { IfErr result (IsNotChecked input.now) }
{
    let verdict = check_trace(alloc, input)?;
    print_text(verdict, "", out)?;
    Ok(status_of(verdict))
}

/// Judges a trace, and prints the verdict as a line of text, with what was expected of an invalid entry. Returns the
/// exit status.
pub fn run_check_explained<W: Write>(
    alloc: Global,
    input: &[u8],
    out: &mut W,
) -> Result<u8, TextFault>
    ensures checked { IfOk result (IsExplained input.now (W.contents out.old) (W.contents out.new)) }
    ensures fault { IfErr result (IsNotChecked input.now) }
{
    let verdict = check_trace(alloc, input)?;
    let more = explanation(alloc, input, verdict)?;
    print_text(verdict, more.as_str(), out)?;
    Ok(status_of(verdict))
}

/// Judges a trace, and prints the verdict as a JSON value, with what was expected of an invalid entry. Returns the
/// exit status.
pub fn run_check_json<W: Write>(alloc: Global, input: &[u8], out: &mut W) -> Result<u8, TextFault>
    ensures checked { IfOk result (IsCheckedAsJson input.now (W.contents out.old) (W.contents out.new)) }
    ensures fault { IfErr result (IsNotChecked input.now) }
{
    let verdict = check_trace(alloc, input)?;
    let wrong = wrong_entry_of(alloc, input, verdict)?;
    print_json(verdict, wrong, out)?;
    Ok(status_of(verdict))
}

/// Returns the first invalid entry, if the trace isn't legal.
fn wrong_entry_of(
    alloc: Global,
    input: &[u8],
    verdict: Verdict,
) -> Result<Option<WrongEntry>, AllocError> {
    match verdict {
        Verdict::Legal(_) => Ok(None),
        Verdict::Illegal(number, reason) => wrong_entry_at(alloc, input, number, reason),
    }
}

/// Returns what follows an entry's reason: what was expected of it.
fn explanation(alloc: Global, input: &[u8], verdict: Verdict) -> Result<String, AllocError> {
    match wrong_entry_of(alloc, input, verdict)? {
        Some(wrong) => format!(in alloc; "   {wrong}"),
        None => Ok(String::new(alloc)),
    }
}

fn print_text<W: Write>(verdict: Verdict, more: &str, out: &mut W) -> Result<(), TextFault>
    ensures printed { OnOk result (Appends (W.contents out.old) (W.contents out.new) (text_of_verdict more.now verdict)) }
    ensures fault { IfErr result (λ fault. fault ≡ TextFault.CannotWrite) }
{
    let mut answers = TextWriter { out };
    match write_text(verdict, more, &mut answers) {
        Ok(()) => Ok(()),
        Err(_) => Err(TextFault::CannotWrite),
    }
}

fn print_json<W: Write>(
    verdict: Verdict,
    wrong: Option<WrongEntry>,
    out: &mut W,
) -> Result<(), TextFault>
    ensures printed { OnOk result (Appends (W.contents out.old) (W.contents out.new) (json_of_verdict wrong verdict)) }
    ensures fault { IfErr result (λ fault. fault ≡ TextFault.CannotWrite) }
{
    let mut answers = TextWriter { out };
    match write_json(verdict, wrong, &mut answers) {
        Ok(()) => Ok(()),
        Err(_) => Err(TextFault::CannotWrite),
    }
}

fn write_json<W: fmt::Write>(
    verdict: Verdict,
    wrong: Option<WrongEntry>,
    out: &mut W,
) -> fmt::Result
    ensures { OnOk result (WritesInCalls W.write_str_gives out.old (json_of_verdict wrong verdict) out.new) }
{
    match verdict {
        Verdict::Legal(entries) => writeln!(out, "{{\"legal\":true,\"entries\":{entries}}}"),
        Verdict::Illegal(entry, reason) => {
            let word = word_of(reason);
            let members = Members(wrong);
            writeln!(
                out,
                "{{\"legal\":false,\"entry\":{entry},\"reason\":\"{word}\"{members}}}"
            )
        }
    }
}

fn write_text<W: fmt::Write>(verdict: Verdict, more: &str, out: &mut W) -> fmt::Result
    ensures { OnOk result (WritesInCalls W.write_str_gives out.old (text_of_verdict more.now verdict) out.new) }
{
    match verdict {
        Verdict::Legal(entries) => writeln!(out, "legal {entries} entries"),
        Verdict::Illegal(entry, reason) => {
            let word = word_of(reason);
            writeln!(out, "illegal entry {entry}: {word}{more}")
        }
    }
}

// Returns the word for the reason.
const fn word_of(reason: Reason) -> &'static str
    ensures { result.now ≡ text_of_reason reason }
{
    match reason {
        Reason::Reply => "reply",
        Reason::Order => "order",
        Reason::Since => "since",
    }
}

// Returns the exit status: 0 if the trace is legal, and 1 if it isn't.
const fn status_of(verdict: Verdict) -> u8
    ensures { result ≡ status_of verdict }
{
    match verdict {
        Verdict::Legal(_) => 0,
        Verdict::Illegal(..) => 1,
    }
}
