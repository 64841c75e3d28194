ghost use Rattle.std.specs.Prelude.{ℕ, List, OnOk};
ghost use Rattle.std.specs.Fmt.{WritesInCalls};
ghost use Rattle.litmus_test.specs.Table.{IsTableOf};
ghost use Rattle.litmus_test.specs.Form.{text_of_gave_up, text_of_outcomes, text_of_stuck};

use super::json::write_json;
use super::table::Outcomes;
use super::text::write_table;
use crate::LitmusTest;
use litmus_text::Number;
use std::fmt;
use std::fmt::Write;

/// How outcomes are written.
#[derive(Clone, Copy, Debug, PartialEq, Eq)]
pub enum OutcomeForm {
    Table,
    Json,
}

/// Writes the outcomes of rounds. If the seed of round 0 is given, each has the seed of its first round.
pub fn write_outcomes<W: Write>(
    test: &LitmusTest<'_>,
    outcomes: &Outcomes,
    seed: Option<u64>,
    form: OutcomeForm,
    out: &mut W,
) -> fmt::Result
    ensures { (rounds : List (List ℕ)) → IsTableOf rounds outcomes.now → OnOk result
        (WritesInCalls W.write_str_gives out.old
        (text_of_outcomes form test.now seed outcomes.now.rows rounds) out.new) }
{
    match form {
        OutcomeForm::Table => write_table(test, outcomes, seed, out),
        OutcomeForm::Json => write_json(test, outcomes, seed, out),
    }
}

/// Writes which round was stuck.
pub fn write_stuck<W: Write>(round: u64, form: OutcomeForm, out: &mut W) -> fmt::Result
    ensures { OnOk result (WritesInCalls W.write_str_gives out.old (text_of_stuck form round) out.new) }
{
    match form {
        OutcomeForm::Table => writeln!(out, "stuck round {round}"),
        OutcomeForm::Json => {
            let round = Number(round);
            writeln!(out, "{{\"stuck_round\":{round}}}")
        }
    }
}

/// Writes which round was given up, and after how many moves.
pub fn write_gave_up<W: Write>(
    round: u64,
    moves: u64,
    form: OutcomeForm,
    out: &mut W,
) -> fmt::Result
    ensures { OnOk result (WritesInCalls W.write_str_gives out.old (text_of_gave_up form round moves) out.new) }
{
    match form {
        OutcomeForm::Table => writeln!(out, "gave up round {round} after {moves} moves"),
        OutcomeForm::Json => {
            let round = Number(round);
            let moves = Number(moves);
            writeln!(out, "{{\"gave_up_round\":{round},\"moves\":{moves}}}")
        }
    }
}
