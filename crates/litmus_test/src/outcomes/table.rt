ghost use Rattle.std.specs.Prelude.{◌≡◌, ◌+◌, ◌^◌, ◌<◌, ◌≤◌, ℕ, List, [], ◌∷◌, ◌++◌, Any, IfErr, IfOk, IsOk, IsTrue, OnErr};
ghost use Rattle.std.specs.Prelude.{OnOk, false};
ghost use Rattle.std.specs.Prelude.{count_by, insert, length, vec_len};
ghost use Rattle.litmus_test.specs.Forbid.{is_forbidden};
ghost use Rattle.litmus_test.specs.Table.{Counts, IsBoth, IsGapFor, IsPlaceOf, IsSound, IsTableOf, TableView};

use super::forbid::is_forbidden;
use super::row::Row;
use crate::LitmusTest;
use std::alloc::{AllocError, Global};
use std::marker::Model;

/// How often each outcome occurred in the rounds so far.
#[derive(Debug, Drop)]
pub struct Outcomes {
    alloc: Global,
    rows: Vec<Row>,
    /// The number of rounds.
    rounds: u64,
}

impl Model for Outcomes {
    ghost use Rattle.litmus_test.specs.Table.{TableView, IsSound};

    ghost Value = { TableView };

    ghost view = { λ table. record { rows = table.rows.items; rounds = table.rounds } };

    ghost invariant = { λ table. IsSound table.rows.items table.rounds };
}

impl Outcomes {
    /// Creates the table of no rounds.
    pub fn new(alloc: Global) -> Self
        ensures { IsTableOf [] result }
    {
        Outcomes {
            alloc,
            rows: Vec::new(alloc),
            rounds: 0,
        }
    }

    /// Counts the outcome of one more round. Allocates only for an outcome that hasn't occurred before.
    pub fn add(&mut self, values: &[u64]) -> Result<(), AllocError>
        requires { self.old.rounds + 1 < 2 ^ 64 }
        ensures ok { OnOk result
            ((rounds : List (List ℕ)) → IsTableOf rounds self.old
            → IsTableOf (rounds ++ values.now ∷ []) self.new) }
        ensures err { OnErr result (self.new ≡ self.old) }
        ensures known { Any (λ row. row.values ≡ values.now) self.old.rows → IsOk result }
    {
        self.count(values, 1, self.rounds)
    }

    /// Counts `rounds` more rounds of an outcome, with `first` the first of them. Allocates only for an outcome that
    /// hasn't occurred before.
    pub fn count(&mut self, values: &[u64], rounds: u64, first: u64) -> Result<(), AllocError>
        requires { self.old.rounds + rounds < 2 ^ 64 }
        ensures ok { OnOk result
            (Counts (record { values = values.now; rounds = rounds; first = first }) self.old self.new) }
        ensures err { OnErr result (self.new ≡ self.old) }
        ensures known { Any (λ row. row.values ≡ values.now) self.old.rows → IsOk result }
    {
        match self.search(values) {
            Ok(at) => {
                let row = &mut self.rows[at];
                row.come_again(rounds);
            }
            Err(at) => insert_row(self.alloc, &mut self.rows, at, values, rounds, first)?,
        }
        self.rounds += rounds;
        Ok(())
    }

    /// The same, if `rounds` more rounds can be counted. Returns whether they can.
    pub fn try_count(&mut self, values: &[u64], rounds: u64, first: u64) -> Result<bool, AllocError>
        ensures counted { IfOk result (λ counted. IsTrue counted
            → Counts (record { values = values.now; rounds = rounds; first = first }) self.old self.new) }
        ensures full { IfOk result (λ counted. counted ≡ false
            → (self.new ≡ self.old) × (2 ^ 64 ≤ self.old.rounds + rounds)) }
    {
        if rounds > u64::MAX - self.rounds {
            return Ok(false);
        }
        self.count(values, rounds, first)?;
        Ok(true)
    }

    /// Returns the number of rounds.
    pub fn rounds(&self) -> u64
        ensures { result ≡ self.now.rounds }
    {
        self.rounds
    }

    /// Also counts the rounds of another table, whose round 0 is round `from` here. At `Err` some of its rows may be
    /// counted.
    pub fn append(&mut self, from: u64, other: &Outcomes) -> Result<(), AllocError>
        requires { self.old.rounds + other.now.rounds < 2 ^ 64 }
        // The other's rounds come after those of this one.
        ensures behind { OnOk result ((rounds more : List (List ℕ)) → from ≡ length rounds
            → IsTableOf rounds self.old → IsTableOf more other.now → IsTableOf (rounds ++ more) self.new) }
        // Also if rounds between the two are missing.
        ensures both { OnOk result (IsBoth from self.old other.now self.new) }
    {
        let _ = &self.alloc;
        for row in &other.rows {
            let first = from.wrapping_add(row.first());
            self.count(row.values(), row.rounds(), first)?;
        }
        Ok(())
    }

    /// Returns a row for each outcome that occurred, ascending by values. No round is lost or counted twice.
    pub fn rows(&self) -> &[Row]
        ensures rows { result.now ≡ self.now.rows }
        ensures sound { IsSound self.now.rows self.now.rounds }
    {
        &self.rows
    }

    /// Returns the number of rounds that had a forbidden outcome.
    pub fn forbidden(&self, test: &LitmusTest<'_>) -> u64
        ensures { (rounds : List (List ℕ)) → IsTableOf rounds self.now
            → result ≡ count_by (is_forbidden test.now) rounds }
    {
        let mut count = 0;
        for row in &self.rows {
            if is_forbidden(test, row.values()) {
                count += row.rounds();
            }
        }
        count
    }

    // Returns the place of an outcome's row, or the place where it would go.
    fn search(&self, values: &[u64]) -> Result<usize, usize>
        ensures found { IfOk result (IsPlaceOf self.now.rows values.now) }
        ensures absent { IfErr result (IsGapFor self.now.rows values.now) }
    {
        self.rows.binary_search_by(|row| row.values().cmp(values))
    }
}

// Inserts the row of a new outcome at its place.
fn insert_row(
    alloc: Global,
    rows: &mut Vec<Row>,
    at: usize,
    values: &[u64],
    rounds: u64,
    first: u64,
) -> Result<(), AllocError>
    requires { at ≤ vec_len rows.old }
    ensures ok { OnOk result
        (rows.new.items ≡ insert rows.old.items at (record { values = values.now; rounds = rounds; first = first })) }
    ensures err { OnErr result (rows.new.items ≡ rows.old.items) }
{
    let mut copied = Vec::new(alloc);
    copied.extend_from_slice(values)?;
    rows.insert(at, Row::new(copied, rounds, first))?;
    Ok(())
}

/// Rounds have exactly one table.
pub fn one_table()
    ensures { (rounds : List (List ℕ)) (a b : TableView) → IsTableOf rounds a → IsTableOf rounds b → a ≡ b }
{}
