ghost use Rattle.std.specs.Prelude.{◌≡◌, IfErr, IfOk, OnOk, false, true};
ghost use Rattle.std.specs.Str.Lines.{lines};
ghost use Rattle.litmus_script.specs.Play.{PlaysUpTo};
ghost use Rattle.litmus_script.specs.Script.{HasPlayed, IsRun, IsRunUpTo, Plainly, commands_of};
ghost use Rattle.litmus_text.specs.Statement.{statements_from};
ghost use Rattle.script_explained.specs.Explains.{Explainingly};
ghost use Rattle.script_explained.specs.Beside.{IsBeside, Told};

use super::beside::Beside;
use super::explaining::Explaining;
use super::stepper::Stepper;
use litmus_script::{Commands, Machine, Style, run_in_style};
use litmus_text::TextFault;
use std::alloc::Global;
use std::io::Write;

/// Runs a script, and writes each answer next to its command's own line; with `explain`, what happened after it.
/// Comments, lines without words and those that configure the machine aren't written.
pub fn run_beside<W: Write>(
    alloc: Global,
    input: &[u8],
    explain: bool,
    out: &mut W,
) -> Result<u8, TextFault>
    ensures status { IfOk result (λ status. status ≡ 0) }
    ensures printed { OnOk result (IsRun (IsBeside (Told explain)) (statements_from 0 (lines input.now))
        (W.contents out.old) (W.contents out.new)) }
    ensures fault { IfErr result (IsRunUpTo (IsBeside (Told explain)) (statements_from 0 (lines input.now))
        (W.contents out.old) (W.contents out.new)) }
{
    run_in_style(alloc, input, &SideBySide { alloc, explain }, out)
}

/// Each answer next to its command, alone or with what happened.
#[derive(Clone, Copy)]
struct SideBySide {
    alloc: Global,
    explain: bool,
}

impl Style for SideBySide {
    ghost use Rattle.script_explained.specs.Beside.{IsBeside, Told};

    ghost playing = { λ style. IsBeside (Told style.explain) };

    fn play<W: Write>(
        &self,
        machine: Machine,
        commands: Commands<'_>,
        out: &mut W,
    ) -> Result<(), TextFault> {
        let alloc = self.alloc;
        if self.explain {
            play_explained(alloc, machine, commands, out)
        } else {
            play_plain(alloc, machine, commands, out)
        }
    }
}

/// Plays commands, and reports what happened.
fn play_explained<W: Write>(
    alloc: Global,
    machine: Machine,
    commands: Commands<'_>,
    out: &mut W,
) -> Result<(), TextFault>
    ensures played { OnOk result (HasPlayed (IsBeside Explainingly) machine.config (commands_of commands.entry)
        machine.slices.items (W.contents out.old) (W.contents out.new)) }
    ensures fault { IfErr result (PlaysUpTo (IsBeside Explainingly machine.config) machine.config
        (commands_of commands.entry) machine.slices.items (W.contents out.old) (W.contents out.new)) }
{
    let player = Stepper::new(alloc, machine, Explaining { alloc });
    let answer = Vec::new(alloc);
    let mut beside = Beside { player, answer };
    commands.play(&mut beside, out)
}

/// Plays commands.
fn play_plain<W: Write>(
    alloc: Global,
    machine: Machine,
    commands: Commands<'_>,
    out: &mut W,
) -> Result<(), TextFault>
    ensures played { OnOk result (HasPlayed (IsBeside Plainly) machine.config
        (commands_of commands.entry) machine.slices.items
        (W.contents out.old) (W.contents out.new)) }
    ensures fault { IfErr result (PlaysUpTo (IsBeside Plainly machine.config) machine.config
        (commands_of commands.entry)
        machine.slices.items (W.contents out.old) (W.contents out.new)) }
{
    let answer = Vec::new(alloc);
    let mut beside = Beside {
        player: machine,
        answer,
    };
    commands.play(&mut beside, out)
}
