//! What plays a script's commands, and writes each as a value.
use super::object::write_object;
use address_map::Checked;
use litmus_script::Player;
use litmus_text::{Command, Statement, TextFault};
use std::io::Write;

/// A player that writes each command with the items that another player writes of its answer.
#[derive(Drop)]
pub(crate) struct Lister<P: Player> {
    pub(crate) player: P,
    /// The room for the items of an answer, which is kept from one to the next.
    pub(crate) items: Vec<u8>,
}

impl<P: Player> Player for Lister<P> {
    ghost use Rattle.std.specs.Prelude.{ℕ, [], List, Some};
    ghost use Rattle.std.specs.Io.KnownBytes.{Appends};
    ghost use Rattle.script_json.specs.Value.{object_of};

    ghost config_of = { λ lister. P.config_of lister.player };

    ghost plays = { λ old line command before after new. (items : List ℕ) × (number : ℕ)
        × P.plays old.player line command (Some []) (Some items) new.player
        × Appends before after (object_of number line command items) };

    fn config(&self) -> &Checked {
        self.player.config()
    }

    fn play<W: Write>(
        &mut self,
        statement: &Statement<'_>,
        command: Command,
        out: &mut W,
    ) -> Result<(), TextFault> {
        self.items.clear();
        if self
            .player
            .play(statement, command, &mut self.items)
            .is_err()
        {
            // writing to memory fails when there is none left
            return Err(TextFault::NoMemory);
        }
        let number = statement.number as u64;
        let items = self.items.as_slice();
        match write_object(number, statement.line, command, items, out) {
            Ok(()) => Ok(()),
            Err(_) => Err(TextFault::CannotWrite),
        }
    }
}
