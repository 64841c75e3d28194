ghost use Rattle.std.specs.Prelude.{◌≡◌, IfErr, IfOk, OnOk, false, true};
ghost use Rattle.std.specs.Str.Lines.{lines};
ghost use Rattle.litmus_script.specs.Play.{PlaysUpTo};
ghost use Rattle.litmus_script.specs.Script.{Echoed, HasPlayed, IsRun, IsRunUpTo, commands_of};
ghost use Rattle.litmus_text.specs.Statement.{statements_from};
ghost use Rattle.script_explained.specs.Explains.{Explainingly};
ghost use Rattle.script_explained.specs.Step.{PlaysSteps};

use super::explaining::Explaining;
use super::stepper::{StepWriter, Stepper};
use litmus_script::{Commands, Echo, Machine, Style, run_in_style};
use litmus_text::TextFault;
use std::alloc::Global;
use std::io::Write;

/// Runs a script, and writes after each answer what happened; with echo, the command's own line before it.
pub fn run_explained<W: Write>(
    alloc: Global,
    input: &[u8],
    echo: bool,
    out: &mut W,
) -> Result<u8, TextFault>
    ensures status { IfOk result (λ status. status ≡ 0) }
    ensures printed { OnOk result (IsRun (Echoed echo Explainingly) (statements_from 0 (lines input.now))
        (W.contents out.old) (W.contents out.new)) }
    ensures fault { IfErr result (IsRunUpTo (Echoed echo Explainingly) (statements_from 0 (lines input.now))
        (W.contents out.old) (W.contents out.new)) }
{
    let writer = Explaining { alloc };
    let style = Stepwise {
        alloc,
        writer,
        echo,
    };
    run_in_style(alloc, input, &style, out)
}

/// Commands are played as steps, which a writer writes: each alone, or after the command's own line.
#[derive(Clone, Copy)]
pub struct Stepwise<S: StepWriter> {
    pub alloc: Global,
    pub writer: S,
    pub echo: bool,
}

impl<S: StepWriter> Style for Stepwise<S> {
    ghost use Rattle.litmus_script.specs.Script.{Echoed};
    ghost use Rattle.script_explained.specs.Step.{PlaysSteps};

    ghost playing = { λ style. Echoed style.echo
        (PlaysSteps (S.writes style.writer) (S.writes_next style.writer)) };

    fn play<W: Write>(
        &self,
        machine: Machine,
        commands: Commands<'_>,
        out: &mut W,
    ) -> Result<(), TextFault> {
        if self.echo {
            play_echoed(self.alloc, machine, self.writer, commands, out)
        } else {
            play_steps(self.alloc, machine, self.writer, commands, out)
        }
    }
}

/// Plays commands as steps, each after the command's own line.
fn play_echoed<S: StepWriter, W: Write>(
    alloc: Global,
    machine: Machine,
    writer: S,
    commands: Commands<'_>,
    out: &mut W,
) -> Result<(), TextFault>
    ensures played { OnOk result (HasPlayed (Echoed true (PlaysSteps (S.writes writer) (S.writes_next writer)))
        machine.config (commands_of commands.entry) machine.slices.items (W.contents out.old) (W.contents out.new)) }
    ensures fault { IfErr result (PlaysUpTo
        (Echoed true (PlaysSteps (S.writes writer) (S.writes_next writer)) machine.config)
        machine.config (commands_of commands.entry) machine.slices.items (W.contents out.old) (W.contents out.new)) }
{
    let player = Stepper::new(alloc, machine, writer);
    let mut echo = Echo { player };
    commands.play(&mut echo, out)
}

/// Plays commands as steps, which a writer writes.
pub fn play_steps<S: StepWriter, W: Write>(
    alloc: Global,
    machine: Machine,
    writer: S,
    commands: Commands<'_>,
    out: &mut W,
) -> Result<(), TextFault>
    ensures played { OnOk result (HasPlayed (PlaysSteps (S.writes writer) (S.writes_next writer))
        machine.config (commands_of commands.entry) machine.slices.items (W.contents out.old) (W.contents out.new)) }
    ensures fault { IfErr result (PlaysUpTo (PlaysSteps (S.writes writer) (S.writes_next writer) machine.config)
        machine.config (commands_of commands.entry) machine.slices.items (W.contents out.old) (W.contents out.new)) }
{
    let mut stepper = Stepper::new(alloc, machine, writer);
    commands.play(&mut stepper, out)
}
