//! The table of a private cache, in two parts.

ghost use Rattle.std.specs.Prelude.{◌≡◌, OnOk, option_map};
ghost use Rattle.std.specs.Fmt.{WritesInCalls};
ghost use Rattle.protocol_tables.specs.Cache.{all_states, answer_columns, before_the_table, cells_of, columns_of, heading_of};
ghost use Rattle.protocol_tables.specs.Cache.{line_of, lines_of};
ghost use Rattle.protocol_tables.specs.Cache.{needs_exclusive, part_of, rules_of, setting_of, shown_line, table_of};
ghost use Rattle.protocol_tables.specs.Cache.{text_of_effect, text_of_none, text_of_sends, titles_of};

use cache_table::{CacheEvent, CacheSends, CopyState, Row, cache_row};
use std::fmt;
use std::fmt::Write;

static STATES: [CopyState; 12] = [
    CopyState::I,
    CopyState::IS_D,
    CopyState::IM_AD,
    CopyState::IM_A,
    CopyState::S,
    CopyState::SM_AD,
    CopyState::SM_A,
    CopyState::M,
    CopyState::E,
    CopyState::MI_A,
    CopyState::SI_A,
    CopyState::II_A,
];

/// A column's title and its event.
type Column = (&'static str, CacheEvent);

/// What a core does, and what is asked of it.
static ASKED: [Column; 7] = [
    ("load", CacheEvent::Load),
    ("write", CacheEvent::Write),
    ("eviction", CacheEvent::Eviction),
    ("Fwd-GetS", CacheEvent::FwdGetS),
    ("Fwd-GetM", CacheEvent::FwdGetM),
    ("Inv", CacheEvent::Inv),
    ("Put-Ack", CacheEvent::PutAck),
];

/// The messages that answer a core. Only the exclusive state uses the last two.
static ANSWERED: [Column; 8] = [
    ("Data, k = n", CacheEvent::Data { n: 1, k: 1 }),
    ("Data, k < n", CacheEvent::Data { n: 1, k: 0 }),
    ("Data, k > n", CacheEvent::Data { n: 0, k: 1 }),
    ("Inv-Ack, k + 1 = n", CacheEvent::InvAck { n: 1, k: 0 }),
    ("Inv-Ack, k + 1 < n", CacheEvent::InvAck { n: 2, k: 0 }),
    ("Inv-Ack, k + 1 > n", CacheEvent::InvAck { n: 0, k: 0 }),
    (
        "Data-E (exclusive on), loads alone",
        CacheEvent::DataE { all_loads: true },
    ),
    (
        "Data-E (exclusive on), a write too",
        CacheEvent::DataE { all_loads: false },
    ),
];

/// Returns the messages that answer a core under the setting.
fn answered(exclusive: bool) -> &'static [Column]
    ensures { columns_of result.now ≡ answer_columns exclusive }
{
    if exclusive { &ANSWERED } else { &ANSWERED[..6] }
}

/// One cell as text: what is done, what is sent, and the next state.
#[derive(Clone, Copy)]
struct Cell {
    exclusive: bool,
    state: CopyState,
    event: CacheEvent,
}

impl fmt::Display for Cell {
    ghost use Rattle.std.specs.Prelude.{Some};
    ghost use Rattle.protocol_tables.specs.Cache.{text_of_cell};

    ghost output = { λ cell. Some (text_of_cell cell.exclusive cell.state cell.event) };

    fn fmt<W: fmt::Write>(&self, f: &mut fmt::Formatter<W>) -> fmt::Result {
        if let Some(word) = before_the_table(self.state, self.event) {
            return f.write_str(word);
        }
        if !self.exclusive && needs_exclusive(self.state, self.event) {
            return f.write_str("-");
        }
        match cache_row(self.state, self.event) {
            Row::Go(next, sends) => write!(f, "{}{next}", text_of_effect(self.event, sends)),
            Row::Blocked => f.write_str("blocked"),
            Row::NoEntry => f.write_str(text_of_none(self.event)),
        }
    }
}

/// What is said where the table has no row.
const fn text_of_none(event: CacheEvent) -> &'static str
    ensures { result.now ≡ text_of_none event }
{
    match event {
        CacheEvent::Eviction => "not held",
        _ => "-",
    }
}

/// What becomes of an access or an eviction that never comes to the table: the line has a miss register, or leaves.
const fn before_the_table(state: CopyState, event: CacheEvent) -> Option<&'static str>
    ensures { option_map (λ word. word.now) result ≡ before_the_table state event }
{
    match event {
        CacheEvent::Load | CacheEvent::Write if state.is_waiting() => Some("joins"),
        CacheEvent::Load | CacheEvent::Write if state.is_leaving() => Some("stalls"),
        CacheEvent::Eviction if state.is_waiting() || state.is_leaving() => Some("busy"),
        _ => None,
    }
}

/// Whether the event comes to the state only where there is the exclusive state. Without it no reader becomes the owner
/// of its line, so no request is forwarded to it.
const fn needs_exclusive(state: CopyState, event: CacheEvent) -> bool
    ensures { result ≡ needs_exclusive state event }
{
    matches!(state, CopyState::IS_D) && matches!(event, CacheEvent::FwdGetS | CacheEvent::FwdGetM)
}

/// What is done where a row goes on: an access that sends nothing is a hit, and an acknowledgement is counted.
pub const fn text_of_effect(event: CacheEvent, sends: CacheSends) -> &'static str
    ensures { result.now ≡ text_of_effect event sends }
{
    match (event, sends) {
        (CacheEvent::Load | CacheEvent::Write, CacheSends::Nothing) => "hit; ",
        (CacheEvent::InvAck { .. }, _) => "k + 1; ",
        _ => text_of_sends(sends),
    }
}

/// What is sent.
const fn text_of_sends(sends: CacheSends) -> &'static str
    ensures { result.now ≡ text_of_sends sends }
{
    match sends {
        CacheSends::Nothing => "",
        CacheSends::GetS => "GetS; ",
        CacheSends::GetM => "GetM; ",
        CacheSends::PutS => "PutS; ",
        CacheSends::PutM => "PutM; ",
        CacheSends::InvAckToRequester => "Inv-Ack; ",
        CacheSends::DataToRequester => "Data(0); ",
        CacheSends::DataToRequesterAndHome => "Data(0), Data home; ",
    }
}

/// The setting without which no copy comes to the state.
const fn setting_of(state: CopyState) -> &'static str
    ensures { result.now ≡ setting_of state }
{
    match state {
        CopyState::E => " (exclusive on)",
        _ => "",
    }
}

/// Writes the table of a private cache in two parts, with an empty line between them.
pub fn write_cache_table<W: Write>(exclusive: bool, out: &mut W) -> fmt::Result
    ensures { OnOk result (WritesInCalls W.write_str_gives out.old (table_of exclusive) out.new) }
{
    write_part(exclusive, &ASKED, out)?;
    writeln!(out)?;
    write_part(exclusive, answered(exclusive), out)
}

fn write_part<W: Write>(exclusive: bool, columns: &[Column], out: &mut W) -> fmt::Result
    ensures { OnOk result
        (WritesInCalls W.write_str_gives out.old (part_of exclusive (columns_of columns.now)) out.new) }
{
    write_heading(columns, out)?;
    write_lines(exclusive, columns, out)
}

fn write_heading<W: Write>(columns: &[Column], out: &mut W) -> fmt::Result
    ensures { OnOk result
        (WritesInCalls W.write_str_gives out.old (heading_of (columns_of columns.now)) out.new) }
{
    write!(out, "| Cache |")?;
    write_titles(columns, out)?;
    write!(out, "\n|---|")?;
    write_rules(columns, out)?;
    writeln!(out)
}

fn write_titles<W: Write>(columns: &[Column], out: &mut W) -> fmt::Result
    ensures { OnOk result
        (WritesInCalls W.write_str_gives out.old (titles_of (columns_of columns.now)) out.new) }
{
    for &(title, _) in columns {
        write!(out, " {title} |")?;
    }
    Ok(())
}

fn write_rules<W: Write>(columns: &[Column], out: &mut W) -> fmt::Result
    ensures { OnOk result
        (WritesInCalls W.write_str_gives out.old (rules_of (columns_of columns.now)) out.new) }
{
    for _ in columns {
        write!(out, "---|")?;
    }
    Ok(())
}

fn write_lines<W: Write>(exclusive: bool, columns: &[Column], out: &mut W) -> fmt::Result
    ensures { OnOk result
        (WritesInCalls W.write_str_gives out.old (lines_of exclusive (columns_of columns.now) all_states) out.new) }
{
    for state in &STATES {
        write_line(exclusive, *state, columns, out)?;
    }
    Ok(())
}

/// Writes nothing of a state to which no copy comes under the setting.
fn write_line<W: Write>(
    exclusive: bool,
    state: CopyState,
    columns: &[Column],
    out: &mut W,
) -> fmt::Result
    ensures { OnOk result
        (WritesInCalls W.write_str_gives out.old (line_of exclusive (columns_of columns.now) state) out.new) }
{
    if !exclusive && matches!(state, CopyState::E) {
        return Ok(());
    }
    write_shown(exclusive, state, columns, out)
}

fn write_shown<W: Write>(
    exclusive: bool,
    state: CopyState,
    columns: &[Column],
    out: &mut W,
) -> fmt::Result
    ensures { OnOk result
        (WritesInCalls W.write_str_gives out.old (shown_line exclusive (columns_of columns.now) state) out.new) }
{
    write!(out, "| {state}{} |", setting_of(state))?;
    write_cells(exclusive, state, columns, out)?;
    writeln!(out)
}

fn write_cells<W: Write>(
    exclusive: bool,
    state: CopyState,
    columns: &[Column],
    out: &mut W,
) -> fmt::Result
    ensures { OnOk result
        (WritesInCalls W.write_str_gives out.old (cells_of exclusive state (columns_of columns.now)) out.new) }
{
    for &(_, event) in columns {
        let cell = Cell {
            exclusive,
            state,
            event,
        };
        write!(out, " {cell} |")?;
    }
    Ok(())
}
