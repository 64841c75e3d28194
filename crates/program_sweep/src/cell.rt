//! The columns of rows: what each is called, and what a row has there.
ghost use Rattle.std.specs.Prelude.{◌≡◌};
ghost use Rattle.program_sweep.specs.Cell.{all_cells, if_bound, if_given, if_limited, name_of, number_if, value_in};

use super::row::Row;
use address_map::PolicyKind;
use mshr_file::MissKind;
use program_run::Column;

/// What is in a cell.
#[derive(Clone, Copy)]
pub(crate) enum Value {
    Number(u64),
    /// It wasn't given, or isn't counted.
    Nothing,
    Policy(PolicyKind),
    Misses(MissKind),
    Switch(bool),
}

/// A column of rows after the first, which has the program's name.
#[derive(Clone, Copy)]
pub(crate) enum Cell {
    Cores,
    Slices,
    Lines,
    Sets,
    Ways,
    Mshrs,
    Targets,
    Writebacks,
    Policy,
    /// The setting `misses`, whose name is that of a count.
    MissFile,
    Exclusive,
    Outstanding,
    Pace,
    Seed,
    /// A count over all lines.
    Count(Column),
    /// .. which is counted only if it is given how many accesses of a core may be under way.
    Further(Column),
    /// How many moves there were, which are counted only if something bounds the run.
    Moves,
    RegistersMost,
    RegistersSum,
    TargetsMost,
    TargetsSum,
}

static CELLS: [Cell; 42] = [
    Cell::Cores,
    Cell::Slices,
    Cell::Lines,
    Cell::Sets,
    Cell::Ways,
    Cell::Mshrs,
    Cell::Targets,
    Cell::Writebacks,
    Cell::Policy,
    Cell::MissFile,
    Cell::Exclusive,
    Cell::Outstanding,
    Cell::Pace,
    Cell::Seed,
    Cell::Count(Column::Requests),
    Cell::Count(Column::Hits),
    Cell::Count(Column::Misses),
    Cell::Count(Column::Cold),
    Cell::Count(Column::Replaced),
    Cell::Count(Column::Upgrade),
    Cell::Count(Column::TrueSharing),
    Cell::Count(Column::FalseSharing),
    Cell::Count(Column::Evictions),
    Cell::Count(Column::Req),
    Cell::Count(Column::Fwd),
    Cell::Count(Column::Data),
    Cell::Count(Column::Ack),
    Cell::Count(Column::Home),
    Cell::Further(Column::Primary),
    Cell::Further(Column::Secondary),
    Cell::Further(Column::Stalls),
    Cell::Further(Column::NoRegister),
    Cell::Further(Column::NoTarget),
    Cell::Further(Column::NoWay),
    Cell::Further(Column::WriteBackFull),
    Cell::Further(Column::WriteBackBusy),
    Cell::Moves,
    Cell::Count(Column::Delivered),
    Cell::RegistersMost,
    Cell::RegistersSum,
    Cell::TargetsMost,
    Cell::TargetsSum,
];

/// Returns all of them, in their order.
pub(crate) fn cells() -> &'static [Cell]
    ensures { result.now ≡ all_cells }
{
    &CELLS
}

impl Cell {
    /// Returns its name.
    pub fn name(self) -> &'static str
        ensures { result.now ≡ name_of self }
    {
        match self {
            Cell::Cores => "cores",
            Cell::Slices => "slices",
            Cell::Lines => "lines",
            Cell::Sets => "sets",
            Cell::Ways => "ways",
            Cell::Mshrs => "mshrs",
            Cell::Targets => "targets",
            Cell::Writebacks => "writebacks",
            Cell::Policy => "policy",
            Cell::MissFile => "miss_file",
            Cell::Exclusive => "exclusive",
            Cell::Outstanding => "outstanding",
            Cell::Pace => "pace",
            Cell::Seed => "seed",
            Cell::Count(column) | Cell::Further(column) => column.key(),
            Cell::Moves => "moves",
            Cell::RegistersMost => "registers_most",
            Cell::RegistersSum => "registers_sum",
            Cell::TargetsMost => "targets_most",
            Cell::TargetsSum => "targets_sum",
        }
    }

    /// Returns what a row has there.
    pub fn value(self, row: &Row) -> Value
        ensures { result ≡ value_in self row.now }
    {
        match self {
            Cell::Cores => Value::Number(row.cores),
            Cell::Slices => Value::Number(row.slices),
            Cell::Lines => Value::Number(row.lines),
            Cell::Sets => Value::Number(row.sets),
            Cell::Ways => Value::Number(row.ways),
            Cell::Mshrs => Value::Number(row.mshrs),
            Cell::Targets => Value::Number(row.targets),
            Cell::Writebacks => Value::Number(row.writebacks),
            Cell::Policy => Value::Policy(row.policy),
            Cell::MissFile => Value::Misses(row.misses),
            Cell::Exclusive => Value::Switch(row.exclusive),
            Cell::Outstanding => if_given(row.limits.outstanding),
            Cell::Pace => if_given(row.limits.pace),
            Cell::Seed => Value::Number(row.seed),
            Cell::Count(column) => Value::Number(column.count(&row.sums.counts)),
            Cell::Further(column) => if_limited(row, column.count(&row.sums.counts)),
            Cell::Moves => if_bound(row, row.sums.usage.moves),
            Cell::RegistersMost => if_limited(row, row.sums.usage.most_registers),
            Cell::RegistersSum => if_limited(row, row.sums.usage.sum_registers),
            Cell::TargetsMost => if_limited(row, row.sums.usage.most_targets),
            Cell::TargetsSum => if_limited(row, row.sums.usage.sum_targets),
        }
    }
}

// A number, if there is one.
fn if_given(number: Option<u64>) -> Value
    ensures { result ≡ if_given number }
{
    match number {
        Some(number) => Value::Number(number),
        None => Value::Nothing,
    }
}

// Returns a number that is counted only if it is given how many accesses of a core may be under way.
fn if_limited(row: &Row, number: u64) -> Value
    ensures { result ≡ if_limited row.now number }
{
    number_if(row.limits.is_limited(), number)
}

// .. or only if something bounds the run.
fn if_bound(row: &Row, number: u64) -> Value
    ensures { result ≡ if_bound row.now number }
{
    number_if(row.limits.is_limited() || row.limits.is_paced(), number)
}

fn number_if(is_counted: bool, number: u64) -> Value
    ensures { result ≡ number_if is_counted number }
{
    if is_counted {
        Value::Number(number)
    } else {
        Value::Nothing
    }
}
