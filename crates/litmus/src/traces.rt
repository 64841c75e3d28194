//! Traces of the script of a schedule: it is played, and then each slice's log is written.
ghost use Rattle.std.specs.Prelude.{◌≡◌, ◌⊎◌, ◌<◌, ℕ, List, [], Option, Some, IfErr, IfOk, OnOk};
ghost use Rattle.std.specs.Io.KnownBytes.{Appends};
ghost use Rattle.litmus.specs.Traces.{HasTraces, HasTracesFault, IsTracedOn, text_of_slice};
ghost use Rattle.litmus.specs.Traces.{text_of_slices};
ghost use Rattle.mshr_file.specs.Miss.{bound_of};
ghost use Rattle.litmus_script.specs.Play.{IsOfRun};
ghost use Rattle.litmus_script.specs.Script.{IsPlayedUpTo, Plainly, commands_of};
ghost use Rattle.litmus_threads.specs.Trace.{heading_of};

use address_map::{Checked, SliceId};
use litmus_script::{Commands, Machine, Script, TextWriter, written};
use litmus_text::{Look, TextFault};
use litmus_threads::write_heading;
use std::alloc::Global;
use std::io::Write;

/// Writes the traces of a script that was printed with this status, and returns that.
pub(super) fn traces_of<W: Write>(
    alloc: Global,
    script: &[u8],
    status: u8,
    out: &mut W,
) -> Result<u8, TextFault>
    ensures traces { IfOk result (λ s. (s ≡ status) × HasTraces script.now (W.contents out.old) (W.contents out.new)) }
    ensures fault { IfErr result (HasTracesFault script.now) }
{
    match Script::read(alloc, script)? {
        Some(script) => {
            trace_script(alloc, script, out)?;
            Ok(status)
        }
        None => Ok(status),
    }
}

fn trace_script<W: Write>(alloc: Global, script: Script<'_>, out: &mut W) -> Result<(), TextFault>
    ensures traced { OnOk result (IsTracedOn script.entry.config (bound_of script.entry.misses script.entry.config)
        (commands_of script.entry.commands) (W.contents out.old) (W.contents out.new)) }
    ensures fault { IfErr result (λ fault. IsOfRun fault ⊎ ((after : Option (List ℕ))
        × IsPlayedUpTo Plainly script.entry.config (bound_of script.entry.misses script.entry.config)
        (commands_of script.entry.commands) (Some []) after fault)) }
{
    let Script {
        config,
        misses,
        commands,
    } = script;
    let mut machine = Machine::build(alloc, config, misses)?;
    let mut answers = Vec::new(alloc);
    match commands.play(&mut machine, &mut answers) {
        Ok(()) => write_logs(&machine, out),
        // writing to memory fails only if it runs out
        Err(TextFault::CannotWrite) => Err(TextFault::NoMemory),
        Err(fault) => Err(fault),
    }
}

/// Writes the log of each slice as a trace.
fn write_logs<W: Write>(machine: &Machine, out: &mut W) -> Result<(), TextFault>
    ensures written { OnOk result (Appends (W.contents out.old) (W.contents out.new)
        (text_of_slices machine.now.config machine.now.slices.items machine.now.config.slices)) }
    ensures fault { IfErr result IsOfRun }
{
    for slice in 0..machine.config.slices() {
        write_log(machine, SliceId(slice as u8), out)?;
    }
    Ok(())
}

fn write_log<W: Write>(machine: &Machine, slice: SliceId, out: &mut W) -> Result<(), TextFault>
    requires { slice.0 < machine.now.config.slices }
    ensures written { OnOk result (Appends (W.contents out.old) (W.contents out.new)
        (text_of_slice machine.now.config machine.now.slices.items slice.0)) }
    ensures fault { IfErr result IsOfRun }
{
    name_slice(&machine.config, slice, out)?;
    machine.show(Look::Log(slice), out)
}

/// Writes the line before a slice's trace, if the machine has several slices.
fn name_slice<W: Write>(config: &Checked, slice: SliceId, out: &mut W) -> Result<(), TextFault>
    ensures named { OnOk result
        (Appends (W.contents out.old) (W.contents out.new) (heading_of config.now slice.0)) }
    ensures fault { IfErr result IsOfRun }
{
    let mut lines = TextWriter { out };
    written(write_heading(config, slice, &mut lines))
}
