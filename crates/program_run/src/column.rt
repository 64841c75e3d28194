ghost use Rattle.std.specs.Prelude.{◌≡◌};
ghost use Rattle.program_run.specs.Column.{columns_of_all, columns_of_core, core_columns, count_in, key_of, line_columns};
ghost use Rattle.program_run.specs.Column.{name_of, pace_columns, parallel_columns};

use super::tally::Counts;

/// A column of the report, by what it counts.
#[derive(Clone, Copy)]
pub enum Column {
    Requests,
    Hits,
    Misses,
    Cold,
    Replaced,
    Upgrade,
    TrueSharing,
    FalseSharing,
    Evictions,
    Req,
    Fwd,
    Data,
    Ack,
    Home,
    Primary,
    Secondary,
    Stalls,
    NoRegister,
    NoTarget,
    NoWay,
    WriteBackFull,
    WriteBackBusy,
    Delivered,
}

/// The columns of a line in their order, and after them what is counted of all lines only where several accesses of a
/// core may be under way.
static LINE_COLUMNS: [Column; 22] = [
    Column::Requests,
    Column::Hits,
    Column::Misses,
    Column::Cold,
    Column::Replaced,
    Column::Upgrade,
    Column::TrueSharing,
    Column::FalseSharing,
    Column::Evictions,
    Column::Req,
    Column::Fwd,
    Column::Data,
    Column::Ack,
    Column::Home,
    Column::Primary,
    Column::Secondary,
    Column::Stalls,
    Column::NoRegister,
    Column::NoTarget,
    Column::NoWay,
    Column::WriteBackFull,
    Column::WriteBackBusy,
];

/// Those of a core, and after them what is counted only where several of its accesses may be under way.
static CORE_COLUMNS: [Column; 21] = [
    Column::Requests,
    Column::Hits,
    Column::Misses,
    Column::Cold,
    Column::Replaced,
    Column::Upgrade,
    Column::TrueSharing,
    Column::FalseSharing,
    Column::Evictions,
    Column::Req,
    Column::Fwd,
    Column::Data,
    Column::Ack,
    Column::Primary,
    Column::Secondary,
    Column::Stalls,
    Column::NoRegister,
    Column::NoTarget,
    Column::NoWay,
    Column::WriteBackFull,
    Column::WriteBackBusy,
];

/// What is counted of a run if it is given how many deliveries each slice makes.
static PACE_COLUMNS: [Column; 1] = [Column::Delivered];

/// Returns the columns of a core.
pub(crate) fn core_columns() -> &'static [Column]
    ensures { result.now ≡ core_columns }
{
    &CORE_COLUMNS[..13]
}

/// Returns what is counted of a core only where several of its accesses may be under way.
pub(crate) fn parallel_columns() -> &'static [Column]
    ensures { result.now ≡ parallel_columns }
{
    &CORE_COLUMNS[13..]
}

/// Returns all that is reported of a core, by whether several of its accesses may be under way.
pub(crate) fn columns_of_core(is_limited: bool) -> &'static [Column]
    ensures { result.now ≡ columns_of_core is_limited }
{
    if is_limited {
        &CORE_COLUMNS
    } else {
        core_columns()
    }
}

/// Returns the columns of a line.
pub(crate) fn line_columns() -> &'static [Column]
    ensures { result.now ≡ line_columns }
{
    &LINE_COLUMNS[..14]
}

/// Returns those of all lines, by whether several accesses of a core may be under way.
pub(crate) fn columns_of_all(is_limited: bool) -> &'static [Column]
    ensures { result.now ≡ columns_of_all is_limited }
{
    if is_limited {
        &LINE_COLUMNS
    } else {
        line_columns()
    }
}

/// Returns what is counted of a run if it is given how many deliveries each slice makes.
pub(crate) fn pace_columns() -> &'static [Column]
    ensures { result.now ≡ pace_columns }
{
    &PACE_COLUMNS
}

impl Column {
    /// Returns its heading.
    pub fn name(self) -> &'static str
        ensures { result.now ≡ name_of self }
    {
        match self {
            Column::Requests => "requests",
            Column::Hits => "hits",
            Column::Misses => "misses",
            Column::Cold => "cold",
            Column::Replaced => "replaced",
            Column::Upgrade => "upgrade",
            Column::TrueSharing => "true",
            Column::FalseSharing => "false",
            Column::Evictions => "evict",
            Column::Req => "req",
            Column::Fwd => "fwd",
            Column::Data => "data",
            Column::Ack => "ack",
            Column::Home => "home",
            Column::Primary => "primary",
            Column::Secondary => "secondary",
            Column::Stalls => "stalls",
            Column::NoRegister => "register",
            Column::NoTarget => "target",
            Column::NoWay => "way",
            Column::WriteBackFull => "wb-full",
            Column::WriteBackBusy => "wb-busy",
            Column::Delivered => "delivered",
        }
    }

    /// Returns its name where no heading of a table says what it belongs to: in JSON and in rows.
    pub fn key(self) -> &'static str
        ensures { result.now ≡ key_of self }
    {
        match self {
            Column::Requests => "requests",
            Column::Hits => "hits",
            Column::Misses => "misses",
            Column::Cold => "misses_cold",
            Column::Replaced => "misses_replaced",
            Column::Upgrade => "misses_upgrade",
            Column::TrueSharing => "misses_true_sharing",
            Column::FalseSharing => "misses_false_sharing",
            Column::Evictions => "evictions",
            Column::Req => "messages_request",
            Column::Fwd => "messages_forwarded",
            Column::Data => "messages_data",
            Column::Ack => "messages_acknowledgement",
            Column::Home => "messages_home",
            Column::Primary => "misses_primary",
            Column::Secondary => "misses_secondary",
            Column::Stalls => "stalls",
            Column::NoRegister => "stalls_register",
            Column::NoTarget => "stalls_target",
            Column::NoWay => "stalls_way",
            Column::WriteBackFull => "stalls_write_back_full",
            Column::WriteBackBusy => "stalls_write_back_busy",
            Column::Delivered => "moves_delivered",
        }
    }

    /// Returns the count that it shows.
    pub fn count(self, counts: &Counts) -> u64
        ensures { result ≡ count_in self counts.now }
    {
        match self {
            Column::Requests => counts.requests(),
            Column::Hits => counts.hits,
            Column::Misses | Column::Primary => counts.misses(),
            Column::Cold => counts.cold,
            Column::Replaced => counts.replaced,
            Column::Upgrade => counts.upgrade,
            Column::TrueSharing => counts.true_sharing,
            Column::FalseSharing => counts.false_sharing,
            Column::Evictions => counts.evictions,
            Column::Req => counts.messages.requests,
            Column::Fwd => counts.messages.forwarded,
            Column::Data => counts.messages.data_replies,
            Column::Ack => counts.messages.acknowledgements,
            Column::Home => counts.messages.home,
            Column::Secondary => counts.secondary,
            Column::Stalls => counts.stalls(),
            Column::NoRegister => counts.no_register,
            Column::NoTarget => counts.no_target,
            Column::NoWay => counts.no_way,
            Column::WriteBackFull => counts.write_back_full,
            Column::WriteBackBusy => counts.write_back_busy,
            Column::Delivered => counts.delivered(),
        }
    }
}
