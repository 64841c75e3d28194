//! Reads a cell of a printed table of a directory.

ghost use Rattle.std.specs.Prelude.{◌≡◌, ◌↔◌, IfErr, IfOk, IfSome, IsTrue};
ghost use Rattle.changed_tables.specs.Effects.{effect_at};
ghost use Rattle.changed_tables.specs.DirectoryText.{IsReadAs, IsRefusal, IsSaid, NoneSays};

use super::directory_text::{is_asked_at, is_rule_for, is_whole, row_at_sample, says};
use super::fault::{CellFault, TableFault};
use super::layout::{Written, at};
use directory_table::DirState;
use protocol_tables::{
    DirCase, DirEffect, DirMessage, DirRule, Entry, Owns, Shares, directory_rule,
};
use std::alloc::{AllocError, Global};

static MESSAGES: [DirMessage; 7] = [
    DirMessage::Nothing,
    DirMessage::Data,
    DirMessage::DataE,
    DirMessage::DataAndInv,
    DirMessage::FwdGetS,
    DirMessage::FwdGetM,
    DirMessage::PutAck,
];

static STATES: [DirState; 4] = [DirState::I, DirState::S, DirState::M, DirState::S_D];

static OWNS: [Owns; 3] = [Owns::Same, Owns::Nobody, Owns::Asker];

static SHARES: [Shares; 6] = [
    Shares::Same,
    Shares::Nobody,
    Shares::Asker,
    Shares::AskerToo,
    Shares::AskerNot,
    Shares::OwnerAndAsker,
];

/// How many effects there are.
const EFFECTS: usize = 1008;

/// Reads a cell, and returns the rule to which it is changed, or None where it says what our table says there.
pub(crate) fn read_cell(
    alloc: Global,
    exclusive: bool,
    entry: Entry,
    case: DirCase,
    cell: &Written,
) -> Result<Option<DirRule>, TableFault>
    ensures read { IfOk result (λ read. IsReadAs exclusive entry case cell.now.word.now read) }
    ensures refused { IfErr result (IsRefusal exclusive entry case cell.now.word.now) }
{
    let ours = directory_rule(exclusive, entry, case);
    if says(alloc, entry, ours, cell.word)? {
        return Ok(None);
    }
    if !is_asked_at(entry, case) {
        return Err(at(cell, CellFault::NoAsker));
    }
    match rule_said(alloc, entry, case, cell.word)? {
        Some(rule) => Ok(Some(rule)),
        None => Err(at(cell, no_rule(cell.word))),
    }
}

/// The first rule that says the word, the plainest first.
fn rule_said(
    alloc: Global,
    entry: Entry,
    case: DirCase,
    word: &[u8],
) -> Result<Option<DirRule>, AllocError>
    ensures some { IfOk result (λ found. IfSome found (IsSaid entry case word.now)) }
    ensures none { IfOk result (λ found. found ≡ None → NoneSays entry case word.now) }
{
    if is_said(alloc, entry, case, DirRule::Blocked, word)? {
        return Ok(Some(DirRule::Blocked));
    }
    if is_said(alloc, entry, case, DirRule::NoEntry, word)? {
        return Ok(Some(DirRule::NoEntry));
    }
    for number in 0..EFFECTS {
        let rule = DirRule::Go(effect_at(number));
        if is_said(alloc, entry, case, rule, word)? {
            return Ok(Some(rule));
        }
    }
    Ok(None)
}

/// The effect with this number: the plainer the less.
fn effect_at(number: usize) -> DirEffect
    ensures { result ≡ effect_at number }
{
    DirEffect {
        sends: MESSAGES[number / 144 % 7],
        writes_home: number / 72 % 2 == 1,
        state: STATES[number / 18 % 4],
        owns: OWNS[number / 6 % 3],
        shares: SHARES[number % 6],
    }
}

/// Whether a rule can occur in the column, and says the word.
fn is_said(
    alloc: Global,
    entry: Entry,
    case: DirCase,
    rule: DirRule,
    word: &[u8],
) -> Result<bool, AllocError>
    ensures { IfOk result (λ said. IsTrue said ↔ IsSaid entry case word.now rule) }
{
    if !is_rule_for(case, rule) || !is_whole(row_at_sample(entry, rule)) {
        return Ok(false);
    }
    says(alloc, entry, rule, word)
}

/// Why no rule says the word: the entry afterwards isn't known, or else what is sent.
fn no_rule(word: &[u8]) -> CellFault {
    for known in ["I", "S", "M", "S_D"] {
        if word == known.as_bytes() || word.ends_with(known.as_bytes()) {
            return CellFault::UnknownEffect;
        }
    }
    CellFault::UnknownNextState
}
