//! A script's run, counted.
ghost use Rattle.std.specs.Prelude.{◌≡◌, ◌⊎◌, ℕ, List, [], Option, Some, IfErr, IfOk, map};
ghost use Rattle.std.specs.Str.Lines.{lines};
ghost use Rattle.litmus_script.specs.Machine.{IsNewMachine};
ghost use Rattle.mshr_file.specs.Miss.{bound_of};
ghost use Rattle.litmus_script.specs.Play.{IsOfRun};
ghost use Rattle.litmus_script.specs.Script.{IsPlayedOn, IsPlayedUpTo, commands_of};
ghost use Rattle.litmus_text.specs.Statement.{statements_from};
ghost use Rattle.script_coverage.specs.Counts.{counted_all, listed};
ghost use Rattle.script_coverage.specs.Coverage.{IsCountedOn, IsCoverage, IsNotCovered};
ghost use Rattle.script_coverage.specs.Trail.{Notingly};
ghost use Rattle.script_coverage.specs.declared.cells.TheConstants.{CELLS};

use super::coverage::Coverage;
use super::writer::Noting;
use address_map::Checked;
use litmus_script::{Commands, Machine, Script, TextWriter, written};
use litmus_text::TextFault;
use script_explained::play_steps;
use std::alloc::Global;
use std::io::Write;

/// Plays a script, and prints how often its steps met each cell of the tables. Returns the exit status.
pub fn run_coverage<W: Write>(alloc: Global, input: &[u8], out: &mut W) -> Result<u8, TextFault>
    ensures status { IfOk result (λ status. status ≡ 0) }
    ensures fault { IfErr result (IsNotCovered (statements_from 0 (lines input.now))) }
{
    let coverage = coverage_of(alloc, input)?;
    match print_coverage(&coverage, out) {
        Ok(()) => Ok(0),
        Err(fault) => Err(fault),
    }
}

/// Prints counts.
pub fn print_coverage<W: Write>(coverage: &Coverage, out: &mut W) -> Result<(), TextFault>
    ensures fault { IfErr result IsOfRun }
{
    let mut answers = TextWriter { out };
    match coverage.write(&mut answers) {
        Ok(()) => Ok(()),
        Err(_) => Err(TextFault::CannotWrite),
    }
}

/// Plays a script, and counts how often its steps met each cell.
pub fn coverage_of(alloc: Global, input: &[u8]) -> Result<Coverage, TextFault>
    ensures counted { IfOk result (IsCoverage (statements_from 0 (lines input.now))) }
    ensures fault { IfErr result (IsNotCovered (statements_from 0 (lines input.now))) }
{
    match Script::read(alloc, input)? {
        Some(script) => counted(alloc, script),
        None => Ok(Coverage::new(alloc, None)?),
    }
}

fn counted(alloc: Global, script: Script<'_>) -> Result<Coverage, TextFault>
    ensures counted { IfOk result (IsCountedOn script.entry.config
        (bound_of script.entry.misses script.entry.config) (commands_of script.entry.commands)) }
    ensures fault { IfErr result (λ fault. IsOfRun fault ⊎ ((after : Option (List ℕ))
        × IsPlayedUpTo Notingly script.entry.config (bound_of script.entry.misses script.entry.config)
        (commands_of script.entry.commands) (Some []) after fault)) }
{
    let exclusive = script.config.exclusive();
    let trail = trail_of(alloc, script)?;
    counts_of(alloc, exclusive, trail.as_slice())
}

/// The counts of the cells with these numbers.
fn counts_of(alloc: Global, exclusive: bool, numbers: &[u8]) -> Result<Coverage, TextFault>
    ensures counted { IfOk result
        (λ counts. counts ≡ counted_all (map (listed (Some exclusive)) CELLS) numbers.now) }
    ensures fault { IfErr result IsOfRun }
{
    let mut coverage = Coverage::new(alloc, Some(exclusive))?;
    match coverage.add_each(numbers) {
        Ok(()) => Ok(coverage),
        // 2^64 steps fit no memory
        Err(_) => Err(TextFault::NoMemory),
    }
}

/// The numbers of the cells that the steps of a script met.
fn trail_of(alloc: Global, script: Script<'_>) -> Result<Vec<u8>, TextFault>
    ensures played { IfOk result (λ trail. IsPlayedOn Notingly script.entry.config
        (bound_of script.entry.misses script.entry.config)
        (commands_of script.entry.commands) (Some []) (Some trail.items)) }
    ensures fault { IfErr result (λ fault. IsOfRun fault ⊎ ((after : Option (List ℕ))
        × IsPlayedUpTo Notingly script.entry.config (bound_of script.entry.misses script.entry.config)
        (commands_of script.entry.commands) (Some []) after fault)) }
{
    let Script {
        config,
        misses,
        commands,
    } = script;
    let machine = Machine::build(alloc, config, misses)?;
    let mut trail = Vec::new(alloc);
    match play_steps(alloc, machine, Noting, commands, &mut trail) {
        Ok(()) => Ok(trail),
        // writing to memory fails when there is none left
        Err(TextFault::CannotWrite) => Err(TextFault::NoMemory),
        Err(fault) => Err(fault),
    }
}
