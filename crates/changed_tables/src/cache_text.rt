//! What a printed table of a private cache says. A text is two pieces, one after the other.

ghost use Rattle.std.specs.Prelude.{◌≡◌, ◌++◌, ◌↔◌, IsTrue};
ghost use Rattle.std.specs.Option.{option_map};
ghost use Rattle.cache_table.specs.Name.{name_of};
ghost use Rattle.protocol_tables.specs.Cache.{before_the_table, needs_exclusive, text_of_none};
ghost use Rattle.protocol_tables.specs.CacheRows.{sample_of};
ghost use Rattle.changed_tables.specs.CacheText.{our_text, row_text, title_of};

use super::word::is_joined;
use cache_table::{CacheEvent, CopyState, Row};
use protocol_tables::{CacheCase, cache_rule, sample_of, text_of_effect};

/// The title of a column.
pub(crate) const fn title_of(case: CacheCase) -> &'static str
    ensures { result.now ≡ title_of case }
{
    match case {
        CacheCase::DataE { all_loads: true } => "Data-E (exclusive on), loads alone",
        CacheCase::DataE { all_loads: false } => "Data-E (exclusive on), a write too",
        _ => case.name(),
    }
}

pub(crate) const fn name_of(state: CopyState) -> &'static str
    ensures { result.now ≡ name_of state }
{
    match state {
        CopyState::I => "I",
        CopyState::IS_D => "IS_D",
        CopyState::IM_AD => "IM_AD",
        CopyState::IM_A => "IM_A",
        CopyState::S => "S",
        CopyState::SM_AD => "SM_AD",
        CopyState::SM_A => "SM_A",
        CopyState::M => "M",
        CopyState::E => "E",
        CopyState::MI_A => "MI_A",
        CopyState::SI_A => "SI_A",
        CopyState::II_A => "II_A",
    }
}

/// What becomes of an access or an eviction that never comes to the table.
pub(crate) const fn before_the_table(state: CopyState, event: CacheEvent) -> Option<&'static str>
    ensures { option_map (λ word. word.now) result ≡ before_the_table state event }
{
    match event {
        CacheEvent::Load | CacheEvent::Write if state.is_waiting() => Some("joins"),
        CacheEvent::Load | CacheEvent::Write if state.is_leaving() => Some("stalls"),
        CacheEvent::Eviction if state.is_waiting() || state.is_leaving() => Some("busy"),
        _ => None,
    }
}

/// Whether the event comes to the state only where there is the exclusive state.
const fn needs_exclusive(state: CopyState, event: CacheEvent) -> bool
    ensures { result ≡ needs_exclusive state event }
{
    matches!(state, CopyState::IS_D) && matches!(event, CacheEvent::FwdGetS | CacheEvent::FwdGetM)
}

/// What is said where there is no row.
const fn text_of_none(event: CacheEvent) -> &'static str
    ensures { result.now ≡ text_of_none event }
{
    match event {
        CacheEvent::Eviction => "not held",
        _ => "-",
    }
}

/// What a row says at an event of the case.
pub(crate) fn row_text(case: CacheCase, row: Row) -> (&'static str, &'static str)
    ensures { result.0.now ++ result.1.now ≡ row_text case row }
{
    let event = sample_of(case);
    match row {
        Row::Go(next, sends) => (text_of_effect(event, sends), name_of(next)),
        Row::Blocked => ("", "blocked"),
        Row::NoEntry => ("", text_of_none(event)),
    }
}

/// What our table says at a cell.
pub(crate) fn our_text(
    exclusive: bool,
    state: CopyState,
    case: CacheCase,
) -> (&'static str, &'static str)
    ensures { result.0.now ++ result.1.now ≡ our_text exclusive state case }
{
    let event = sample_of(case);
    if let Some(word) = before_the_table(state, event) {
        return ("", word);
    }
    if !exclusive && needs_exclusive(state, event) {
        return ("", "-");
    }
    row_text(case, cache_rule(state, case))
}

/// Whether a row says this word.
pub(crate) fn says(case: CacheCase, row: Row, word: &[u8]) -> bool
    ensures { IsTrue result ↔ (row_text case row ≡ word.now) }
{
    let (effect, next) = row_text(case, row);
    is_joined(word, effect, next)
}

/// Whether our table says this word.
pub(crate) fn is_ours(exclusive: bool, state: CopyState, case: CacheCase, word: &[u8]) -> bool
    ensures { IsTrue result ↔ (word.now ≡ our_text exclusive state case) }
{
    let (effect, next) = our_text(exclusive, state, case);
    is_joined(word, effect, next)
}
