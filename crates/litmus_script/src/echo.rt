use super::answers::write_line;
use super::player::Player;
use address_map::Checked;
use litmus_text::{Command, Statement, TextFault};
use std::io::Write;

/// A player that writes each command's line before its answer.
#[derive(Drop)]
pub struct Echo<P: Player> {
    pub player: P,
}

impl<P: Player> Player for Echo<P> {
    ghost use Rattle.std.specs.Prelude.{ℕ, List, Option};
    ghost use Rattle.litmus_script.specs.Prints.{Adds};

    ghost config_of = { λ echo. P.config_of echo.player };

    ghost plays = { λ old line command before after new. (middle : Option (List ℕ)) × Adds before middle line
        × P.plays old.player line command middle after new.player };

    fn config(&self) -> &Checked {
        self.player.config()
    }

    fn play<W: Write>(
        &mut self,
        statement: &Statement<'_>,
        command: Command,
        out: &mut W,
    ) -> Result<(), TextFault> {
        let Ok(()) = write_line(statement.line, out) else {
            return Err(TextFault::CannotWrite);
        };
        self.player.play(statement, command, out)
    }
}
