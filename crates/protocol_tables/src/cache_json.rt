//! The cells of a private cache's table as values of JSON.

ghost use Rattle.std.specs.Prelude.{◌≡◌, OnOk};
ghost use Rattle.std.specs.Fmt.{WritesInCalls};
ghost use Rattle.protocol_tables.specs.CacheJson.{cells_at, cells_of, line_of, lines_of, none_of, said_of, state_lines, waits_of};

use super::cache_rows::{CacheCase, Counted, accesses, cache_rule, messages, states};
use cache_table::{CacheSends, CopyState, Row};
use std::fmt;
use std::fmt::Write;

/// The event's name.
#[derive(Clone, Copy)]
struct Event(CacheCase);

impl fmt::Display for Event {
    ghost use Rattle.std.specs.Prelude.{Some};
    ghost use Rattle.protocol_tables.specs.CacheJson.{event_of};

    ghost output = { λ event. Some (event_of event.0) };

    fn fmt<W: fmt::Write>(&self, f: &mut fmt::Formatter<W>) -> fmt::Result {
        f.write_str(match self.0 {
            CacheCase::Load => "load",
            CacheCase::Write => "write",
            CacheCase::Eviction => "eviction",
            CacheCase::FwdGetS => "Fwd-GetS",
            CacheCase::FwdGetM => "Fwd-GetM",
            CacheCase::Inv => "Inv",
            CacheCase::PutAck => "Put-Ack",
            CacheCase::Data(_) => "Data",
            CacheCase::InvAck(_) => "Inv-Ack",
            CacheCase::DataE { .. } => "Data-E",
        })
    }
}

/// What is said of the event in addition: how its numbers compare, or what the miss register holds.
#[derive(Clone, Copy)]
struct Guard(CacheCase);

impl fmt::Display for Guard {
    ghost use Rattle.std.specs.Prelude.{Some};
    ghost use Rattle.protocol_tables.specs.CacheJson.{guard_of};

    ghost output = { λ guard. Some (guard_of guard.0) };

    fn fmt<W: fmt::Write>(&self, f: &mut fmt::Formatter<W>) -> fmt::Result {
        f.write_str(match self.0 {
            CacheCase::Data(Counted::Equal) => "{\"numbers\":\"k = n\"}",
            CacheCase::Data(Counted::Less) => "{\"numbers\":\"k < n\"}",
            CacheCase::Data(Counted::More) => "{\"numbers\":\"k > n\"}",
            CacheCase::InvAck(Counted::Equal) => "{\"numbers\":\"k + 1 = n\"}",
            CacheCase::InvAck(Counted::Less) => "{\"numbers\":\"k + 1 < n\"}",
            CacheCase::InvAck(Counted::More) => "{\"numbers\":\"k + 1 > n\"}",
            CacheCase::DataE { all_loads: true } => "{\"targets\":\"loads alone\"}",
            CacheCase::DataE { all_loads: false } => "{\"targets\":\"a write too\"}",
            _ => "{}",
        })
    }
}

/// What a row sends, and to whom.
#[derive(Clone, Copy)]
struct Sends(CacheSends);

impl fmt::Display for Sends {
    ghost use Rattle.std.specs.Prelude.{Some};
    ghost use Rattle.protocol_tables.specs.CacheJson.{sends_of};

    ghost output = { λ sent. Some (sends_of sent.0) };

    fn fmt<W: fmt::Write>(&self, f: &mut fmt::Formatter<W>) -> fmt::Result {
        f.write_str(match self.0 {
            CacheSends::Nothing => "",
            CacheSends::GetS => "{\"send\":\"GetS\",\"to\":\"directory\"}",
            CacheSends::GetM => "{\"send\":\"GetM\",\"to\":\"directory\"}",
            CacheSends::PutS => "{\"send\":\"PutS\",\"to\":\"directory\"}",
            CacheSends::PutM => "{\"send\":\"PutM\",\"to\":\"directory\",\"with\":\"block\"}",
            CacheSends::InvAckToRequester => "{\"send\":\"Inv-Ack\",\"to\":\"requester\"}",
            CacheSends::DataToRequester => {
                "{\"send\":\"Data\",\"to\":\"requester\",\"with\":\"block\",\"acknowledgements\":\"none\"}"
            }
            CacheSends::DataToRequesterAndHome => {
                "{\"send\":\"Data\",\"to\":\"requester\",\"with\":\"block\",\"acknowledgements\":\"none\"},{\"send\":\"Data\",\"to\":\"directory\",\"with\":\"block\"}"
            }
        })
    }
}

/// What a row does: an access that sends nothing is a hit, and an acknowledgement is counted.
#[derive(Clone, Copy)]
struct Effects {
    case: CacheCase,
    sends: CacheSends,
}

impl fmt::Display for Effects {
    ghost use Rattle.std.specs.Prelude.{Some};
    ghost use Rattle.protocol_tables.specs.CacheJson.{effects_of};

    ghost output = { λ does. Some (effects_of does.case does.sends) };

    fn fmt<W: fmt::Write>(&self, f: &mut fmt::Formatter<W>) -> fmt::Result {
        match (self.case, self.sends) {
            (CacheCase::Load | CacheCase::Write, CacheSends::Nothing) => {
                f.write_str("{\"do\":\"hit\"}")
            }
            (CacheCase::InvAck(_), _) => f.write_str("{\"do\":\"count\"}"),
            (_, sends) => Sends(sends).fmt(f),
        }
    }
}

/// What there is instead of a row that goes on, where the table has none: the event never comes, or the access joins,
/// stalls or is refused before it comes to the table.
const fn none_of(state: CopyState, case: CacheCase) -> &'static str
    ensures { result.now ≡ none_of state case }
{
    match case {
        CacheCase::Load | CacheCase::Write if state.is_waiting() => "joins",
        CacheCase::Load | CacheCase::Write => "stalls",
        CacheCase::Eviction if state.is_waiting() || state.is_leaving() => "busy",
        CacheCase::Eviction => "not held",
        _ => "never",
    }
}

/// .. where the message waits. Without the exclusive state no reader becomes the owner of its line, so no request is
/// forwarded to it.
const fn waits_of(exclusive: bool, state: CopyState, case: CacheCase) -> &'static str
    ensures { result.now ≡ waits_of exclusive state case }
{
    match (exclusive, state, case) {
        (false, CopyState::IS_D, CacheCase::FwdGetS | CacheCase::FwdGetM) => "never",
        _ => "blocked",
    }
}

/// Writes the cells of a private cache's table, with the exclusive state or without it.
pub fn write_cache_cells<W: Write>(exclusive: bool, out: &mut W) -> fmt::Result
    ensures { OnOk result (WritesInCalls W.write_str_gives out.old (cells_of exclusive) out.new) }
{
    write_states(exclusive, states(exclusive), out)
}

fn write_states<W: Write>(exclusive: bool, states: &[CopyState], out: &mut W) -> fmt::Result
    ensures { OnOk result (WritesInCalls W.write_str_gives out.old (state_lines exclusive states.now) out.new) }
{
    for state in states {
        write_state(exclusive, *state, out)?;
    }
    Ok(())
}

fn write_state<W: Write>(exclusive: bool, state: CopyState, out: &mut W) -> fmt::Result
    ensures { OnOk result (WritesInCalls W.write_str_gives out.old
        (cells_at exclusive state) out.new) }
{
    write_cells(exclusive, state, accesses(), out)?;
    write_cells(exclusive, state, messages(exclusive), out)
}

fn write_cells<W: Write>(
    exclusive: bool,
    state: CopyState,
    cases: &[CacheCase],
    out: &mut W,
) -> fmt::Result
    ensures { OnOk result (WritesInCalls W.write_str_gives out.old (lines_of exclusive state cases.now) out.new) }
{
    for case in cases {
        write_cell(exclusive, state, *case, cache_rule(state, *case), out)?;
    }
    Ok(())
}

fn write_cell<W: Write>(
    exclusive: bool,
    state: CopyState,
    case: CacheCase,
    row: Row,
    out: &mut W,
) -> fmt::Result
    ensures { OnOk result (WritesInCalls W.write_str_gives out.old (line_of exclusive state case row) out.new) }
{
    let (event, guard) = (Event(case), Guard(case));
    write!(
        out,
        "{{\"table\":\"cache\",\"state\":\"{state}\",\"event\":\"{event}\",\"guard\":{guard},"
    )?;
    write_row(exclusive, state, case, row, out)
}

/// Writes what a cell says of its row.
fn write_row<W: Write>(
    exclusive: bool,
    state: CopyState,
    case: CacheCase,
    row: Row,
    out: &mut W,
) -> fmt::Result
    ensures { OnOk result (WritesInCalls W.write_str_gives out.old (said_of exclusive state case row) out.new) }
{
    match row {
        Row::Go(next, sends) => {
            let effects = Effects { case, sends };
            write!(
                out,
                "\"row\":\"go\",\"effects\":[{effects}],\"next\":{{\"state\":\"{next}\"}}}}\n"
            )
        }
        Row::Blocked => {
            let word = waits_of(exclusive, state, case);
            write!(out, "\"row\":\"{word}\"}}\n")
        }
        Row::NoEntry => {
            let word = none_of(state, case);
            write!(out, "\"row\":\"{word}\"}}\n")
        }
    }
}
