//! What a line at the prompt asks for.
ghost use Rattle.std.specs.Prelude.{IfErr, IfOk, map};
ghost use Rattle.script_prompt.specs.Asked.{Asks, IsFaultOfAsked};
ghost use Rattle.script_prompt.specs.declared.asked.Asked.{Asked};

use super::own::{Own, own_word, read_own};
use address_map::Checked;
use litmus_text::{ConfigLine, LineFault};

/// What a line at the prompt asks for.
#[derive(Clone, Copy, Debug, PartialEq, Eq)]
pub enum Asked<'a> {
    /// Nothing: it has no words.
    Nothing,
    /// To configure the machine.
    Configuration,
    /// What a line of a script says.
    Command,
    /// What the prompt does at a word of its own.
    Own(Own<'a>),
}

/// What a line of these words asks for, at a machine of this configuration. Only words of the prompt's own are judged:
/// first by their form, then as numbers, and last by what the machine has.
pub fn read_asked<'a>(config: &Checked, words: &[&'a [u8]]) -> Result<Asked<'a>, LineFault>
    ensures asks { IfOk result (Asks config.now (map (λ w. w.now) words.now)) }
    ensures refused { IfErr result (λ fault. (asked : Asked) → Asks config.now (map (λ w. w.now) words.now) asked → ⊥) }
    ensures fault { IfErr result (IsFaultOfAsked config.now (map (λ w. w.now) words.now)) }
{
    let Some((name, rest)) = words.split_first() else {
        return Ok(Asked::Nothing);
    };
    if ConfigLine::is_named(name) {
        return Ok(Asked::Configuration);
    }
    let Some(word) = own_word(name) else {
        return Ok(Asked::Command);
    };
    let own = read_own(config, word, rest)?;
    Ok(Asked::Own(own))
}
