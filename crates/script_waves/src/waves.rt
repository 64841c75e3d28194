//! A script's waves.
ghost use Rattle.std.specs.Prelude.{◌≡◌, ◌⊎◌, List, [], IfErr, IfOk, OnOk};
ghost use Rattle.std.specs.Io.KnownBytes.{Appends};
ghost use Rattle.std.specs.Str.Lines.{lines};
ghost use Rattle.address_map.specs.Config.{default_config};
ghost use Rattle.litmus_script.specs.Machine.{IsNewMachine};
ghost use Rattle.mshr_file.specs.Miss.{bound_of};
ghost use Rattle.litmus_script.specs.Play.{IsOfRun};
ghost use Rattle.litmus_script.specs.Script.{commands_of};
ghost use Rattle.litmus_text.specs.Statement.{statements_from};
ghost use Rattle.script_waves.specs.Signals.{text_of_header};
ghost use Rattle.script_waves.specs.Values.{text_of_time};
ghost use Rattle.script_waves.specs.Waves.{HasWaves, IsWaves, IsWavesFault, IsWavesOf, IsWritten, WavesStopAt, next};
ghost use Rattle.slice_core_spec.specs.Calls.{PartsView};

use super::command::write_time;
use super::header::write_header;
use super::player::Waved;
use address_map::{Checked, Config, LineAddr};
use litmus_script::{Commands, Machine, Script, TextWriter, written};
use litmus_text::TextFault;
use stats_report::write_text;
use std::alloc::Global;
use std::io::Write;

/// Writes a script's run as waves. Returns the exit status. A script at fault has none: its lines are known only once
/// it has run, and they are first.
pub fn run_waves<W: Write>(alloc: Global, input: &[u8], out: &mut W) -> Result<u8, TextFault>
    ensures status { IfOk result (λ status. status ≡ 0) }
    ensures printed { OnOk result (IsWaves (statements_from 0 (lines input.now))
        (W.contents out.old) (W.contents out.new)) }
    ensures fault { IfErr result (IsWavesFault (statements_from 0 (lines input.now))) }
{
    match Script::read(alloc, input)? {
        Some(script) => waves_of(alloc, script, out)?,
        None => waves_of_nothing(alloc, out)?,
    }
    Ok(0)
}

/// Writes the waves of an empty script: the signals of its machine's cores, and no value.
fn waves_of_nothing<W: Write>(alloc: Global, out: &mut W) -> Result<(), TextFault>
    ensures written { OnOk result (IsWritten default_config.cores default_config.slices [] [] 1
        (W.contents out.old) (W.contents out.new)) }
    ensures fault { IfErr result IsOfRun }
{
    let config = Config::new(alloc);
    begin(config.cores as usize, config.slices as usize, &[], out)?;
    tell(&[], out)?;
    end(1, out)
}

fn waves_of<W: Write>(alloc: Global, script: Script<'_>, out: &mut W) -> Result<(), TextFault>
    ensures waves { OnOk result (IsWavesOf script.entry.config (bound_of script.entry.misses script.entry.config)
        (commands_of script.entry.commands) (W.contents out.old) (W.contents out.new)) }
    ensures fault { IfErr result (λ fault. IsOfRun fault ⊎ ((start : List PartsView)
        × IsNewMachine script.entry.config (bound_of script.entry.misses script.entry.config) start
        × WavesStopAt script.entry.config (commands_of script.entry.commands) start fault)) }
{
    let Script {
        config,
        misses,
        commands,
    } = script;
    let machine = Machine::build(alloc, config, misses)?;
    waves(alloc, machine, commands, out)
}

fn waves<W: Write>(
    alloc: Global,
    machine: Machine,
    commands: Commands<'_>,
    out: &mut W,
) -> Result<(), TextFault>
    ensures waves { OnOk result (HasWaves machine.config (commands_of commands.entry) machine.slices.items
        (W.contents out.old) (W.contents out.new)) }
    ensures fault { IfErr result (λ fault. IsOfRun fault
        ⊎ WavesStopAt machine.config (commands_of commands.entry) machine.slices.items fault) }
{
    let mut player = Waved::new(alloc, machine);
    let mut ticks = Vec::new(alloc);
    match commands.play(&mut player, &mut ticks) {
        Ok(()) => write_all(&player, ticks.as_slice(), out),
        // writing to memory fails when there is none left
        Err(TextFault::CannotWrite) => Err(TextFault::NoMemory),
        Err(fault) => Err(fault),
    }
}

/// Writes the signals of the lines that were named, then what the commands made of them, and the end.
fn write_all<W: Write>(player: &Waved, ticks: &[u8], out: &mut W) -> Result<(), TextFault>
    ensures written { OnOk result (IsWritten player.now.machine.config.cores player.now.machine.config.slices
        player.now.named.items ticks.now (next player.now.played) (W.contents out.old) (W.contents out.new)) }
    ensures fault { IfErr result IsOfRun }
{
    let config = &player.machine.config;
    begin(
        config.cores(),
        config.slices(),
        player.named.as_slice(),
        out,
    )?;
    tell(ticks, out)?;
    end(player.played.wrapping_add(1), out)
}

fn begin<W: Write>(
    cores: usize,
    slices: usize,
    named: &[LineAddr],
    out: &mut W,
) -> Result<(), TextFault>
    ensures header { OnOk result (Appends (W.contents out.old) (W.contents out.new)
        (text_of_header cores slices named.now)) }
    ensures fault { IfErr result IsOfRun }
{
    let mut answers = TextWriter { out };
    written(write_header(cores, slices, named, &mut answers))
}

fn tell<W: Write>(ticks: &[u8], out: &mut W) -> Result<(), TextFault>
    ensures told { OnOk result (Appends (W.contents out.old) (W.contents out.new) ticks.now) }
    ensures fault { IfErr result IsOfRun }
{
    match write_text(out, ticks) {
        Ok(()) => Ok(()),
        Err(_) => Err(TextFault::CannotWrite),
    }
}

fn end<W: Write>(time: u64, out: &mut W) -> Result<(), TextFault>
    ensures ended { OnOk result (Appends (W.contents out.old) (W.contents out.new) (text_of_time time)) }
    ensures fault { IfErr result IsOfRun }
{
    let mut answers = TextWriter { out };
    written(write_time(time, &mut answers))
}
