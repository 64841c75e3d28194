ghost use Rattle.std.specs.Prelude.{◌≡◌, IfErr, IfOk, IsOk, length, map};
ghost use Rattle.std.specs.Io.KnownBytes.{Appends};
ghost use Rattle.script_test.specs.Judged.{IsStopped, PrintsTest, shown, status_of, text_of, unlike_of};

use super::answer::{answers_of, numbers_of};
use super::exercise::{script_of, wants_of};
use super::judge::{Difference, judge};
use super::print::{write_count, write_differences};
use super::recorder::texts_of;
use litmus_text::TextFault;
use stats_report::Cut;
use std::alloc::Global;
use std::io::Write;

/// Runs the script in a text with wanted answers, and prints where answers aren't the wanted ones, with `first` the
/// first place alone, or how many lines are as wanted. Returns the exit status: 0 where all are as wanted, 1 where some
/// aren't. A text that wants nothing is no test: nothing is printed of it, and the status is 2.
pub fn run_test<W: Write>(
    alloc: Global,
    input: &[u8],
    first: bool,
    out: &mut W,
) -> Result<u8, TextFault>
    ensures printed { IfOk result (PrintsTest input.now first (W.contents out.old) (W.contents out.new)) }
    ensures fault { IfErr result (IsStopped input.now) }
{
    let script = script_of(alloc, input)?;
    let texts = texts_of(alloc, script.as_slice())?;
    let numbers = numbers_of(alloc, script.as_slice())?;
    let answers = answers_of(alloc, numbers.as_slice(), texts.as_slice())?;
    let wants = wants_of(alloc, input)?;
    let differences = judge(alloc, wants.as_slice(), answers.as_slice())?;
    print_judgement(wants.len(), differences.as_slice(), first, out)
}

/// Prints the result of a test that wants `wanted` lines.
fn print_judgement<W: Write>(
    wanted: usize,
    differences: &[Difference<'_>],
    first: bool,
    out: &mut W,
) -> Result<u8, TextFault>
    ensures printed { IfOk result (λ status. (status ≡ status_of wanted (map unlike_of differences.now))
        × Appends (W.contents out.old) (W.contents out.new)
        (text_of first wanted (map unlike_of differences.now))) }
    ensures fault { IfErr result (λ fault. fault ≡ TextFault.CannotWrite) }
{
    if wanted == 0 {
        return Ok(2);
    }
    if differences.is_empty() {
        return ended(write_count(wanted, out), 0);
    }
    ended(write_differences(shown(differences, first), out), 1)
}

/// Returns the differences that are printed: all, or the first alone.
fn shown<'a, 'b>(differences: &'a [Difference<'b>], first: bool) -> &'a [Difference<'b>]
    ensures { map unlike_of result.now ≡ shown first (map unlike_of differences.now) }
{
    if first {
        return &differences[..differences.len().min(1)];
    }
    differences
}

/// Returns the status with which a run ends, if its text was written.
fn ended(wrote: Result<(), Cut>, status: u8) -> Result<u8, TextFault>
    ensures status { IfOk result (λ s. (s ≡ status) × IsOk wrote) }
    ensures fault { IfErr result (λ fault. fault ≡ TextFault.CannotWrite) }
{
    match wrote {
        Ok(()) => Ok(status),
        Err(_) => Err(TextFault::CannotWrite),
    }
}
