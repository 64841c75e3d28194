//! Whether two cells are the same, part by part: of a whole cell the prover would have to try all pairs.
ghost use Rattle.std.specs.Prelude.{◌≡◌, ◌↔◌, IsTrue};

use super::table_cell::{Cell, Outcome, TableEvent, TableState};
use cache_table::CopyState;
use directory_table::DirState;

impl Cell {
    pub(crate) fn is(&self, other: &Cell) -> bool
        ensures { IsTrue result ↔ (self.now ≡ other.now) }
    {
        is_state(self.state, other.state)
            && is_event(self.event, other.event)
            && is_outcome(self.outcome, other.outcome)
    }
}

fn is_state(a: TableState, b: TableState) -> bool
    ensures { IsTrue result ↔ (a ≡ b) }
{
    match (a, b) {
        (TableState::Cache(a), TableState::Cache(b)) => is_copy(a, b),
        (TableState::Directory(a), TableState::Directory(b)) => is_entry(a, b),
        _ => false,
    }
}

fn is_copy(a: CopyState, b: CopyState) -> bool
    ensures { IsTrue result ↔ (a ≡ b) }
{
    a == b
}

fn is_entry(a: DirState, b: DirState) -> bool
    ensures { IsTrue result ↔ (a ≡ b) }
{
    a == b
}

fn is_event(a: TableEvent, b: TableEvent) -> bool
    ensures { IsTrue result ↔ (a ≡ b) }
{
    a == b
}

fn is_outcome(a: Outcome, b: Outcome) -> bool
    ensures { IsTrue result ↔ (a ≡ b) }
{
    match (a, b) {
        (Outcome::To(a), Outcome::To(b)) => is_state(a, b),
        (Outcome::Blocked, Outcome::Blocked)
        | (Outcome::Joins, Outcome::Joins)
        | (Outcome::Stalls, Outcome::Stalls)
        | (Outcome::Busy, Outcome::Busy)
        | (Outcome::NotHeld, Outcome::NotHeld) => true,
        _ => false,
    }
}
