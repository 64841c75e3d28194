ghost use Rattle.std.specs.Prelude.{IfErr, IfOk, OnOk};
ghost use Rattle.std.specs.Fmt.{WritesInCalls};
ghost use Rattle.std.specs.Io.KnownBytes.{Appends};
ghost use Rattle.mshr_file.specs.Miss.{bound_of};
ghost use Rattle.litmus_script.specs.Play.{IsOfRun};
ghost use Rattle.program_text.specs.Fault.{IsProgramText, programs_of, settings_of};
ghost use Rattle.program_text.specs.declared.programs.Programs.{Programs};
ghost use Rattle.program_run.specs.Calls.{text_of_calls, text_of_script};
ghost use Rattle.program_run.specs.Run.{IsProgramNotRun, PrintsSchedule, limited_to};

use super::run::{limit, run};
use super::runner::Runner;
use address_map::Checked;
use litmus_script::TextWriter;
use litmus_test::Silent;
use litmus_text::{Command, TextFault, write_command, write_settings};
use mshr_file::MissKind;
use program_text::{Limits, Programs};
use std::alloc::Global;
use std::fmt::Write;
use std::{fmt, io};

/// Prints the calls that a run of the programs makes of its machine, as [`run_programs`] runs them, as a script. Returns
/// the exit status, which is 1 where nothing can move before the end.
///
/// [`run_programs`]: super::run_programs
pub fn write_schedule<W: io::Write>(
    alloc: Global,
    input: &[u8],
    given: Limits,
    seed: u64,
    out: &mut W,
) -> Result<u8, TextFault>
    ensures done { IfOk result (λ status. (programs : Programs)
        × IsProgramText input.now (settings_of programs) programs.limits (programs_of programs)
        × PrintsSchedule (bound_of programs.misses programs.config) (limited_to given programs) seed status
        (W.contents out.old) (W.contents out.new)) }
    ensures fault { IfErr result (IsProgramNotRun input.now) }
{
    let mut programs = Programs::read(alloc, input)?;
    limit(&mut programs, given);
    write_read(alloc, &programs, seed, out)
}

/// The same with programs that are read.
fn write_read<W: io::Write>(
    alloc: Global,
    programs: &Programs,
    seed: u64,
    out: &mut W,
) -> Result<u8, TextFault>
    ensures done { IfOk result (λ status. PrintsSchedule (bound_of programs.now.misses programs.now.config)
        programs.now seed status (W.contents out.old) (W.contents out.new)) }
    ensures fault { IfErr result IsOfRun }
{
    let mut runner = Runner::new(alloc, programs, true)?;
    let mut silent = Silent;
    run(alloc, programs, seed, &mut runner, &mut silent)?;
    print_script(&programs.config, programs.misses, runner.calls(), out)?;
    if runner.is_over(programs) {
        Ok(0)
    } else {
        Ok(1)
    }
}

fn print_script<W: io::Write>(
    config: &Checked,
    misses: MissKind,
    calls: &[Command],
    out: &mut W,
) -> Result<(), TextFault>
    ensures printed { OnOk result (Appends (W.contents out.old) (W.contents out.new)
        (text_of_script config.now misses calls.now)) }
    ensures fault { IfErr result IsOfRun }
{
    let mut answers = TextWriter { out };
    match write_script(config, misses, calls, &mut answers) {
        Ok(()) => Ok(()),
        Err(_) => Err(TextFault::CannotWrite),
    }
}

// Writes what configures the machine, and then each call.
fn write_script<W: Write>(
    config: &Checked,
    misses: MissKind,
    calls: &[Command],
    out: &mut W,
) -> fmt::Result
    ensures { OnOk result (WritesInCalls W.write_str_gives out.old
        (text_of_script config.now misses calls.now) out.new) }
{
    write_settings(config, misses, out)?;
    write_calls(calls, out)
}

fn write_calls<W: Write>(calls: &[Command], out: &mut W) -> fmt::Result
    ensures { OnOk result (WritesInCalls W.write_str_gives out.old (text_of_calls calls.now) out.new) }
{
    for call in calls {
        write_command(*call, out)?;
    }
    Ok(())
}
