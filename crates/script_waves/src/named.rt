//! The lines that a script's commands name.
ghost use Rattle.std.specs.Prelude.{◌≡◌, ◌<◌, ◌↔◌, All, Contains, IfErr, IsTrue, OnOk};
ghost use Rattle.litmus_script.specs.Play.{IsOfRun};
ghost use Rattle.litmus_text.specs.Command.{HasLine};
ghost use Rattle.script_waves.specs.Named.{Names, line_named};

use address_map::{Checked, LineAddr};
use litmus_text::{Command, TextFault};

/// Puts the command's line after those that were named, where it is a line of the memory and new.
pub(crate) fn note_line(
    config: &Checked,
    command: Command,
    named: &mut Vec<LineAddr>,
) -> Result<(), TextFault>
    ensures names { OnOk result (Names config.now (line_named command) named.old.items named.new.items) }
    ensures placed { All (HasLine config.now) named.old.items → All (HasLine config.now) named.new.items }
    ensures fault { IfErr result IsOfRun }
{
    let Some(line) = line_named(command) else {
        return Ok(());
    };
    if !is_new(config, line, named) {
        return Ok(());
    }
    named.push(line)?;
    Ok(())
}

/// Whether it is a line of the memory that wasn't named yet.
fn is_new(config: &Checked, line: LineAddr, named: &Vec<LineAddr>) -> bool
    ensures { IsTrue result ↔ HasLine config.now line × ¬ Contains named.now.items line }
{
    line.0 < config.lines() as u64 && !named.contains(&line)
}

/// Returns the line that a command is about, if it is about one.
fn line_named(command: Command) -> Option<LineAddr>
    ensures { result ≡ line_named command }
{
    match command {
        Command::Issue { request, .. } => Some(request.word.line()),
        Command::Evict { line, .. } => Some(line),
        Command::Deliver(pick) => Some(pick.line()),
        Command::Look(look) => look.line(),
        Command::Hand { .. } | Command::Pump(_) => None,
    }
}
