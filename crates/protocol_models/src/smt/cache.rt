//! The queries of a private cache: for each state and each event one, but where the event waits.

ghost use Rattle.std.specs.Prelude.{◌≡◌, OnOk};
ghost use Rattle.std.specs.Fmt.{WritesInCalls};
ghost use Rattle.protocol_tables.specs.CacheRows.{states_of};
ghost use Rattle.protocol_models.specs.SmtCache.{cells_of, never_of, queries_of, query_of, state_queries_of, states_queries};

use cache_table::{CacheSends, CopyState, Row};
use protocol_tables::{
    CacheCase, Counted, accesses, cache_rule, messages, sample_of, states, text_of_effect,
};
use std::fmt;
use std::fmt::Write;

/// The event's name, as in the tables.
#[derive(Clone, Copy)]
struct Title(CacheCase);

impl fmt::Display for Title {
    ghost use Rattle.std.specs.Prelude.{Some};
    ghost use Rattle.protocol_tables.specs.CacheRows.{name_of_case};

    ghost output = { λ title. Some (name_of_case title.0) };

    fn fmt<W: fmt::Write>(&self, f: &mut fmt::Formatter<W>) -> fmt::Result {
        f.write_str(self.0.name())
    }
}

/// The event's name in the queries.
#[derive(Clone, Copy)]
struct EventName(CacheCase);

impl fmt::Display for EventName {
    ghost use Rattle.std.specs.Prelude.{Some};
    ghost use Rattle.protocol_models.specs.SmtCache.{event_name};

    ghost output = { λ event. Some (event_name event.0) };

    fn fmt<W: fmt::Write>(&self, f: &mut fmt::Formatter<W>) -> fmt::Result {
        f.write_str(match self.0 {
            CacheCase::Load => "load",
            CacheCase::Write => "write",
            CacheCase::Eviction => "eviction",
            CacheCase::FwdGetS => "take-Fwd-GetS",
            CacheCase::FwdGetM => "take-Fwd-GetM",
            CacheCase::Inv => "take-Inv",
            CacheCase::PutAck => "take-Put-Ack",
            CacheCase::Data(Counted::Equal) => "take-Data-all",
            CacheCase::Data(Counted::Less) => "take-Data-some",
            CacheCase::Data(Counted::More) => "take-Data-past",
            CacheCase::InvAck(Counted::Equal) => "take-Inv-Ack-all",
            CacheCase::InvAck(Counted::Less) => "take-Inv-Ack-some",
            CacheCase::InvAck(Counted::More) => "take-Inv-Ack-past",
            CacheCase::DataE { all_loads: true } => "take-Data-E-loads",
            CacheCase::DataE { all_loads: false } => "take-Data-E-write",
        })
    }
}

/// What a row sends, in the queries.
#[derive(Clone, Copy)]
struct SendsName(CacheSends);

impl fmt::Display for SendsName {
    ghost use Rattle.std.specs.Prelude.{Some};
    ghost use Rattle.protocol_models.specs.SmtCache.{sends_name};

    ghost output = { λ sent. Some (sends_name sent.0) };

    fn fmt<W: fmt::Write>(&self, f: &mut fmt::Formatter<W>) -> fmt::Result {
        f.write_str(match self.0 {
            CacheSends::Nothing => "nothing",
            CacheSends::GetS => "send-GetS",
            CacheSends::GetM => "send-GetM",
            CacheSends::PutS => "send-PutS",
            CacheSends::PutM => "send-PutM",
            CacheSends::InvAckToRequester => "send-Inv-Ack",
            CacheSends::DataToRequester => "send-Data",
            CacheSends::DataToRequesterAndHome => "send-Data-and-home",
        })
    }
}

/// A cell's name.
#[derive(Clone, Copy)]
struct Cell {
    state: CopyState,
    case: CacheCase,
}

impl fmt::Display for Cell {
    ghost use Rattle.std.specs.Prelude.{Some};
    ghost use Rattle.protocol_models.specs.SmtCache.{cell_name};

    ghost output = { λ cell. Some (cell_name cell.state cell.case) };

    fn fmt<W: fmt::Write>(&self, f: &mut fmt::Formatter<W>) -> fmt::Result {
        write!(f, "{}, {}", self.state, Title(self.case))
    }
}

/// An event at a state, in the queries.
#[derive(Clone, Copy)]
struct At {
    state: CopyState,
    case: CacheCase,
}

impl fmt::Display for At {
    ghost use Rattle.std.specs.Prelude.{Some};
    ghost use Rattle.protocol_models.specs.SmtCache.{at_of};

    ghost output = { λ at. Some (at_of at.state at.case) };

    fn fmt<W: fmt::Write>(&self, f: &mut fmt::Formatter<W>) -> fmt::Result {
        write!(f, "{} {}", self.state, EventName(self.case))
    }
}

/// What a row sends, and the next state, in the queries.
#[derive(Clone, Copy)]
struct Step {
    next: CopyState,
    sends: CacheSends,
}

impl fmt::Display for Step {
    ghost use Rattle.std.specs.Prelude.{Some};
    ghost use Rattle.protocol_models.specs.SmtCache.{step_of};

    ghost output = { λ step. Some (step_of step.next step.sends) };

    fn fmt<W: fmt::Write>(&self, f: &mut fmt::Formatter<W>) -> fmt::Result {
        write!(f, "{} {}", SendsName(self.sends), self.next)
    }
}

/// Writes the queries of a private cache.
pub fn write_cache_queries<W: Write>(exclusive: bool, out: &mut W) -> fmt::Result
    ensures { OnOk result (WritesInCalls W.write_str_gives out.old (queries_of exclusive) out.new) }
{
    write_states(exclusive, states(exclusive), out)
}

fn write_states<W: Write>(exclusive: bool, states: &[CopyState], out: &mut W) -> fmt::Result
    ensures { OnOk result (WritesInCalls W.write_str_gives out.old (states_queries exclusive states.now) out.new) }
{
    for state in states {
        write_state(exclusive, *state, out)?;
    }
    Ok(())
}

fn write_state<W: Write>(exclusive: bool, state: CopyState, out: &mut W) -> fmt::Result
    ensures { OnOk result (WritesInCalls W.write_str_gives out.old (state_queries_of exclusive state) out.new) }
{
    write_cells(state, accesses(), out)?;
    write_cells(state, messages(exclusive), out)
}

fn write_cells<W: Write>(state: CopyState, cases: &[CacheCase], out: &mut W) -> fmt::Result
    ensures { OnOk result (WritesInCalls W.write_str_gives out.old (cells_of state cases.now) out.new) }
{
    for case in cases {
        write_query(state, *case, cache_rule(state, *case), out)?;
    }
    Ok(())
}

/// Writes the query of a cell.
fn write_query<W: Write>(state: CopyState, case: CacheCase, row: Row, out: &mut W) -> fmt::Result
    ensures { OnOk result (WritesInCalls W.write_str_gives out.old (query_of state case row) out.new) }
{
    let cell = Cell { state, case };
    match row {
        Row::Go(next, sends) => {
            let does = text_of_effect(sample_of(case), sends);
            let (at, step) = (At { state, case }, Step { next, sends });
            write!(
                out,
                "; {cell}: {does}{next}\n(push 1)\n(assert (invariant before))\n(assert (cache-row {at} {step}))\n(assert (not kept))\n(check-sat)\n(pop 1)\n\n"
            )
        }
        Row::Blocked => write!(out, "; {cell}: blocked\n\n"),
        Row::NoEntry => write_never(state, case, out),
    }
}

/// Writes the query of a cell without a row. What a core does by itself doesn't come then: it joins, stalls or is
/// refused.
fn write_never<W: Write>(state: CopyState, case: CacheCase, out: &mut W) -> fmt::Result
    ensures { OnOk result (WritesInCalls W.write_str_gives out.old (never_of state case) out.new) }
{
    match case {
        CacheCase::Load | CacheCase::Write | CacheCase::Eviction => Ok(()),
        _ => {
            let (cell, at) = (Cell { state, case }, At { state, case });
            write!(
                out,
                "; {cell}: -\n(push 1)\n(assert (invariant before))\n(assert (cache-event {at}))\n(check-sat)\n(pop 1)\n\n"
            )
        }
    }
}
