//! A cell of the tables: a state, what comes to it, and what follows.
ghost use Rattle.std.specs.Prelude.{◌≡◌};
ghost use Rattle.script_coverage.specs.TableCell.{name_of_event, name_of_outcome, name_of_state, table_of};

use cache_table::CopyState;
use directory_table::DirState;

/// A cell, as far as a step shows which it met: rows that differ in their numbers alone are one cell where they lead to
/// the same state.
#[derive(Clone, Copy, Debug, PartialEq, Eq)]
pub struct Cell {
    pub state: TableState,
    pub event: TableEvent,
    pub outcome: Outcome,
}

/// A state of one of the two tables.
#[derive(Clone, Copy, Debug, PartialEq, Eq)]
pub enum TableState {
    /// Of a core's copy of a line.
    Cache(CopyState),
    /// Of a directory's entry of a line.
    Directory(DirState),
}

/// What comes to a state: an access or an eviction that a core asks for, or a message, whatever its numbers are.
#[derive(Clone, Copy, Debug, PartialEq, Eq)]
pub enum TableEvent {
    Load,
    Write,
    Eviction,
    FwdGetS,
    FwdGetM,
    Inv,
    PutAck,
    Data,
    InvAck,
    DataE,
    GetS,
    GetM,
    PutS,
    PutM,
    DataHome,
}

/// What follows of it.
#[derive(Clone, Copy, Debug, PartialEq, Eq)]
pub enum Outcome {
    /// The row is done, and leads to this state.
    To(TableState),
    /// The message stays at the front of its channel.
    Blocked,
    /// The access joins the miss register of its line.
    Joins,
    /// The access stalls, since its line is being written back.
    Stalls,
    /// The eviction is refused, since the line is waited for or being written back.
    Busy,
    /// The eviction is refused, since there is no copy.
    NotHeld,
}

impl TableState {
    /// The name of its table.
    pub const fn table(self) -> &'static str
        ensures { result.now ≡ table_of self }
    {
        match self {
            TableState::Cache(_) => "cache",
            TableState::Directory(_) => "directory",
        }
    }

    pub const fn name(self) -> &'static str
        ensures { result.now ≡ name_of_state self }
    {
        match self {
            TableState::Cache(CopyState::I) => "I",
            TableState::Cache(CopyState::IS_D) => "IS_D",
            TableState::Cache(CopyState::IM_AD) => "IM_AD",
            TableState::Cache(CopyState::IM_A) => "IM_A",
            TableState::Cache(CopyState::S) => "S",
            TableState::Cache(CopyState::SM_AD) => "SM_AD",
            TableState::Cache(CopyState::SM_A) => "SM_A",
            TableState::Cache(CopyState::M) => "M",
            TableState::Cache(CopyState::MI_A) => "MI_A",
            TableState::Cache(CopyState::SI_A) => "SI_A",
            TableState::Cache(CopyState::II_A) => "II_A",
            TableState::Cache(CopyState::E) => "E",
            TableState::Directory(DirState::I) => "I",
            TableState::Directory(DirState::S) => "S",
            TableState::Directory(DirState::M) => "M",
            TableState::Directory(DirState::S_D) => "S_D",
        }
    }
}

impl TableEvent {
    /// The name, as in the tables, in one word.
    pub const fn name(self) -> &'static str
        ensures { result.now ≡ name_of_event self }
    {
        match self {
            TableEvent::Load => "load",
            TableEvent::Write => "write",
            TableEvent::Eviction => "eviction",
            TableEvent::FwdGetS => "Fwd-GetS",
            TableEvent::FwdGetM => "Fwd-GetM",
            TableEvent::Inv => "Inv",
            TableEvent::PutAck => "Put-Ack",
            TableEvent::Data => "Data",
            TableEvent::InvAck => "Inv-Ack",
            TableEvent::DataE => "Data-E",
            TableEvent::GetS => "GetS",
            TableEvent::GetM => "GetM",
            TableEvent::PutS => "PutS",
            TableEvent::PutM => "PutM",
            TableEvent::DataHome => "Data-home",
        }
    }
}

impl Outcome {
    /// The next state, or what the tables say in its place, in one word.
    pub const fn name(self) -> &'static str
        ensures { result.now ≡ name_of_outcome self }
    {
        match self {
            Outcome::To(state) => state.name(),
            Outcome::Blocked => "blocked",
            Outcome::Joins => "joins",
            Outcome::Stalls => "stalls",
            Outcome::Busy => "busy",
            Outcome::NotHeld => "not-held",
        }
    }
}
