//! The outcomes of a litmus test's rounds: which requests they come from, how often each came, and their table.
//!
//! - A [`NamedRequest`] says which request of which core in which slice a named reply answers (`named_request_of` of
//!   specs/NamedRequest.antt): a slice numbers the requests of a core from 0, in the order of the core's program. Each
//!   name of a test has one ([`each_name_is_sought`]).
//! - [`Outcomes`] counts the outcomes of rounds. Its value is a table; contracts say of which rounds it is the table
//!   (`IsTableOf` of specs/Table.antt): a row for each outcome, ascending, with how often it came and where first.
//!   Rounds have exactly one table ([`one_table`]), and its rows' counts add up to the rounds. Adding an outcome is a
//!   binary search, and allocates only if it is new. [`Outcomes::append`] adds the table of the rounds after those of
//!   this one: the result is the table of all.
//! - [`write_table`] prints the table byte for byte (`text_of` of specs/OutcomesText.antt). [`write_outcomes`] does so
//!   too, or writes it as one JSON value; [`write_stuck`] writes which round was stuck, and [`write_gave_up`] which was
//!   given up and when (specs/Form.antt). A JSON value has the names, the words of the counters, and for each outcome
//!   its values in this order, how many rounds had it, and the seed of the first, if seeds are known.
pub use ended::Ended;
pub use form::{OutcomeForm, write_gave_up, write_outcomes, write_stuck};
pub use named_request::{NamedRequest, each_name_is_sought};
pub use row::Row;
pub use table::{Outcomes, one_table};
pub use text::write_table;

mod ended;
mod forbid;
mod form;
mod json;
mod named_request;
mod row;
mod table;
mod text;
