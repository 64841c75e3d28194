//! Texts of lines, words and numbers, as scripts and traces are written in.
//!
//! - [`Lines`], [`Words`] and [`Statements`] take a text apart (specs/Text.antt, specs/Statement.antt): a statement is
//!   a line that has words, with its number.
//! - [`ConfigLine`] is a line that configures a machine. If [`ConfigLine::parse`] returns Ok the words write that line,
//!   and if it returns Err they write none. [`ConfigLine::set`] sets what the line names in the [`Settings`], nothing
//!   else (specs/ConfigLine.antt).
//! - [`parse_command`] reads a command of a script. If it returns Ok the words write that command, and the machine has
//!   what it names; if Err there is no such command (specs/Command.antt). Words that have the form of a command, with
//!   any words for numbers, aren't refused as no command; words that write one are refused only as out of range.
//!   [`parse_access`] reads the access in it, which traces write in the same way.
//! - [`Slot::behind`] says what can follow a keyword of a script, to explain a line that can't be read.
//! - [`LineFault`] and [`TextFault`] say what is wrong with a text, and with which status a program ends.
//!
//! No call copies a text or allocates, except `ConfigLine::set` for an initial value or a counter. Each byte is read a
//! few times.
#![tactic(auto)]

pub use command::Command;
pub use config_line::ConfigLine;
pub use fault::{LineFault, TextFault};
pub use field::Count;
pub use json::{Number, is_exact, write_comma};
pub use line::Lines;
pub use look::{Look, MachineLook, Subject};
pub use number::{
    core_in, line_in, no_numbers, one_number, parse_number, three_numbers, two_numbers, word_in,
};
pub use parse::{parse_access, parse_command};
pub use row::{MOST_WORDS, first_words};
pub use settings::Settings;
pub use slot::Slot;
pub use statement::{Statement, Statements};
pub use table::value_named;
pub use word::Words;
pub use writer::{Delivery, write_command, write_settings};

mod channel;
mod command;
mod config_line;
mod fault;
mod field;
mod json;
mod line;
mod look;
mod number;
mod parse;
mod policy;
mod row;
mod settings;
mod slot;
mod statement;
mod table;
mod word;
mod writer;
