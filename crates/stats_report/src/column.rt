ghost use Rattle.std.specs.Prelude.{◌≡◌, ◌≤◌, length};
ghost use Rattle.stats_report.specs.Column.{name_of, count_in, columns_of};

use slice_answer::{CoreStats, Stall};

/// A column of the report after the core's number, by what it counts.
#[derive(Clone, Copy, Debug, PartialEq, Eq)]
pub enum Column {
    Hits,
    Primary,
    Secondary,
    Stall(Stall),
    Evictions,
    Silent,
}

/// All columns in their order. The last one is shown only where the machine has the exclusive state.
static COLUMNS: [Column; 10] = [
    Column::Hits,
    Column::Primary,
    Column::Secondary,
    Column::Stall(Stall::NoRegister),
    Column::Stall(Stall::NoTarget),
    Column::Stall(Stall::NoWay),
    Column::Stall(Stall::WriteBackFull),
    Column::Stall(Stall::WriteBackBusy),
    Column::Evictions,
    Column::Silent,
];

/// The columns of a machine that has the exclusive state, or hasn't.
pub fn columns(exclusive: bool) -> &'static [Column]
    ensures { result.now ≡ columns_of exclusive }
{
    if exclusive { &COLUMNS } else { &COLUMNS[..9] }
}

impl Column {
    /// What its heading says.
    pub fn name(self) -> &'static str
        ensures { result.now ≡ name_of self }
    {
        match self {
            Column::Hits => "hits",
            Column::Primary => "primary",
            Column::Secondary => "secondary",
            Column::Stall(Stall::NoRegister) => "stall1",
            Column::Stall(Stall::NoTarget) => "stall2",
            Column::Stall(Stall::NoWay) => "stall3",
            Column::Stall(Stall::WriteBackFull) => "stall4",
            Column::Stall(Stall::WriteBackBusy) => "stall5",
            Column::Evictions => "evict",
            Column::Silent => "silent",
        }
    }

    /// The count that it shows.
    pub fn count(self, counts: &CoreStats) -> u64
        ensures { result ≡ count_in self counts.now }
    {
        match self {
            Column::Hits => counts.hits,
            Column::Primary => counts.primary,
            Column::Secondary => counts.secondary,
            Column::Stall(stall) => counts.stalls[stall as usize],
            Column::Evictions => counts.evictions,
            Column::Silent => counts.silent,
        }
    }
}
