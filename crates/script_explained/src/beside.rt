//! Plays a script's commands, and writes answers next to them.
use super::rows::write_beside;
use address_map::Checked;
use litmus_script::Player;
use litmus_text::{Command, Statement, TextFault};
use std::io::Write;

/// A player that writes each command's line, and next to it the answer of another player.
#[derive(Drop)]
pub(crate) struct Beside<P: Player> {
    pub(crate) player: P,
    /// The buffer for an answer, which is kept from one to the next.
    pub(crate) answer: Vec<u8>,
}

impl<P: Player> Player for Beside<P> {
    ghost use Rattle.std.specs.Prelude.{ℕ, [], List, Some};
    ghost use Rattle.std.specs.Io.KnownBytes.{Appends};
    ghost use Rattle.std.specs.Str.Lines.{lines};
    ghost use Rattle.script_explained.specs.Rows.{text_beside};

    ghost config_of = { λ beside. P.config_of beside.player };

    ghost plays = { λ old line command before after new. (answer : List ℕ)
        × P.plays old.player line command (Some []) (Some answer) new.player
        × Appends before after (text_beside line (lines answer)) };

    fn config(&self) -> &Checked {
        self.player.config()
    }

    fn play<W: Write>(
        &mut self,
        statement: &Statement<'_>,
        command: Command,
        out: &mut W,
    ) -> Result<(), TextFault> {
        self.answer.clear();
        if self
            .player
            .play(statement, command, &mut self.answer)
            .is_err()
        {
            // writing to memory fails when there is none left
            return Err(TextFault::NoMemory);
        }
        match write_beside(statement.line, self.answer.as_slice(), out) {
            Ok(()) => Ok(()),
            Err(_) => Err(TextFault::CannotWrite),
        }
    }
}
