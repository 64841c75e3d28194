ghost use Rattle.std.specs.Prelude.{◌≡◌, ℕ, List, Option, IfErr, OnOk};
ghost use Rattle.address_map.specs.declared.config.Config.{Config};
ghost use Rattle.litmus_script.specs.Play.{IsOfRun};
ghost use Rattle.litmus_text.specs.Command.{IsInRange};
ghost use Rattle.litmus_text.specs.declared.command.Command.{Command};

use address_map::Checked;
use litmus_text::{Command, Statement, TextFault};
use std::io::Write;

/// Plays the commands of a script, one at a time.
pub trait Player: Sized + Drop {
    ghost config_of: { Self → Config };

    /// What a command on a line of this text does: from the player and the text before to those after.
    ghost plays: { Self → List ℕ → Command → Option (List ℕ) → Option (List ℕ) → Self → Type 0 };

    /// Returns the configuration of the machine that is played on. It never changes.
    fn config(&self) -> &Checked
        ensures { result.now ≡ config_of self.now };

    /// Plays the command of a statement, and writes its answer.
    fn play<W: Write>(
        &mut self,
        statement: &Statement<'_>,
        command: Command,
        out: &mut W,
    ) -> Result<(), TextFault>
        requires { IsInRange (config_of self.old) command }
        ensures config { config_of self.new ≡ config_of self.old }
        ensures plays { OnOk result (plays self.old statement.now.line.now command
            (W.contents out.old) (W.contents out.new) self.new) }
        ensures fault { IfErr result IsOfRun };
}
