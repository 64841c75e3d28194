ghost use Rattle.std.specs.Prelude.{◌≡◌, IfErr, IfOk, OnOk};
ghost use Rattle.std.specs.Str.Lines.{lines};
ghost use Rattle.litmus_script.specs.Play.{PlaysUpTo};
ghost use Rattle.litmus_script.specs.Script.{HasPlayed, IsRun, IsRunUpTo, commands_of};
ghost use Rattle.litmus_text.specs.Statement.{statements_from};
ghost use Rattle.script_json.specs.Values.{Listed};

use super::player::Lister;
use super::writer::ValueWriter;
use litmus_script::{Commands, Machine, Style, run_in_style};
use litmus_text::TextFault;
use script_explained::Stepper;
use std::alloc::Global;
use std::io::Write;

/// Runs a script, and writes each command with its answer and what happened as a value of JSON. Comments, lines without
/// words and those that configure the machine aren't written.
pub fn run_json<W: Write>(alloc: Global, input: &[u8], out: &mut W) -> Result<u8, TextFault>
    ensures status { IfOk result (λ status. status ≡ 0) }
    ensures printed { OnOk result (IsRun Listed (statements_from 0 (lines input.now))
        (W.contents out.old) (W.contents out.new)) }
    ensures fault { IfErr result (IsRunUpTo Listed (statements_from 0 (lines input.now))
        (W.contents out.old) (W.contents out.new)) }
{
    run_in_style(alloc, input, &Listing { alloc }, out)
}

/// Each command as a value.
#[derive(Clone, Copy)]
struct Listing {
    alloc: Global,
}

impl Style for Listing {
    ghost use Rattle.script_json.specs.Values.{Listed};

    ghost playing = { λ _. Listed };

    fn play<W: Write>(
        &self,
        machine: Machine,
        commands: Commands<'_>,
        out: &mut W,
    ) -> Result<(), TextFault> {
        let alloc = self.alloc;
        play_listed(alloc, machine, commands, out)
    }
}

/// Plays commands.
fn play_listed<W: Write>(
    alloc: Global,
    machine: Machine,
    commands: Commands<'_>,
    out: &mut W,
) -> Result<(), TextFault>
    ensures played { OnOk result (HasPlayed Listed machine.config (commands_of commands.entry)
        machine.slices.items (W.contents out.old) (W.contents out.new)) }
    ensures fault { IfErr result (PlaysUpTo (Listed machine.config) machine.config
        (commands_of commands.entry) machine.slices.items (W.contents out.old) (W.contents out.new)) }
{
    let player = Stepper::new(alloc, machine, ValueWriter { alloc });
    let items = Vec::new(alloc);
    let mut lister = Lister { player, items };
    commands.play(&mut lister, out)
}
