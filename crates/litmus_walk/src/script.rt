ghost use Rattle.std.specs.Prelude.{IfErr, IfOk, OnOk};
ghost use Rattle.std.specs.Fmt.{WritesInCalls};
ghost use Rattle.std.specs.Io.KnownBytes.{Appends};
ghost use Rattle.litmus_walk.specs.Script.{PrintsWalk, text_of_call, text_of_calls, text_of_script, text_of_step};
ghost use Rattle.mshr_file.specs.Miss.{bound_of};
ghost use Rattle.litmus_script.specs.Play.{IsOfRun};

use super::moves::named_lines;
use super::place::StepPlace;
use super::recorded::Made;
use super::round::walk;
use address_map::Checked;
use litmus_script::TextWriter;
use litmus_test::LitmusTest;
use litmus_text::{TextFault, write_command, write_settings};
use mshr_file::MissKind;
use std::alloc::Global;
use std::fmt::Write;
use std::{fmt, io};

/// Prints the walk that this seed draws, with at most `most` moves, as a script. Returns the exit status, which is 1 if
/// the walk is stuck or was given up.
pub fn write_walk<W: io::Write>(
    alloc: Global,
    test: &LitmusTest<'_>,
    seed: u64,
    most: u64,
    out: &mut W,
) -> Result<u8, TextFault>
    ensures printed { IfOk result (λ status. PrintsWalk test.now (bound_of test.now.misses test.now.config) seed most
        status (W.contents out.old) (W.contents out.new)) }
    ensures fault { IfErr result IsOfRun }
{
    let lines = named_lines(alloc, test)?;
    let walked = walk(alloc, test, &lines, seed, most)?;
    print_script(&test.config, test.misses, walked.recorded.calls(), out)?;
    Ok(walked.end.status())
}

fn print_script<W: io::Write>(
    config: &Checked,
    misses: MissKind,
    calls: &[Made],
    out: &mut W,
) -> Result<(), TextFault>
    ensures printed { OnOk result (Appends (W.contents out.old) (W.contents out.new)
        (text_of_script config.now misses calls.now)) }
    ensures fault { IfErr result IsOfRun }
{
    let mut answers = TextWriter { out };
    match write_script(config, misses, calls, &mut answers) {
        Ok(()) => Ok(()),
        Err(_) => Err(TextFault::CannotWrite),
    }
}

/// Writes these calls of a new machine as a script: first its configuration, then each call, after a comment if a step
/// made it.
pub(crate) fn write_script<W: Write>(
    config: &Checked,
    misses: MissKind,
    calls: &[Made],
    out: &mut W,
) -> fmt::Result
    ensures { OnOk result (WritesInCalls W.write_str_gives out.old
        (text_of_script config.now misses calls.now) out.new) }
{
    write_settings(config, misses, out)?;
    write_calls(calls, out)
}

fn write_calls<W: Write>(calls: &[Made], out: &mut W) -> fmt::Result
    ensures { OnOk result (WritesInCalls W.write_str_gives out.old (text_of_calls calls.now) out.new) }
{
    for made in calls {
        write_call(*made, out)?;
    }
    Ok(())
}

fn write_call<W: Write>(made: Made, out: &mut W) -> fmt::Result
    ensures { OnOk result (WritesInCalls W.write_str_gives out.old (text_of_call made) out.new) }
{
    write_step(made.step, out)?;
    write_command(made.command, out)
}

fn write_step<W: Write>(step: Option<StepPlace>, out: &mut W) -> fmt::Result
    ensures { OnOk result (WritesInCalls W.write_str_gives out.old (text_of_step step) out.new) }
{
    match step {
        Some(StepPlace { thread, step }) => writeln!(out, "# thread {thread}, step {step}"),
        None => Ok(()),
    }
}
