//! The queries as a whole.

ghost use Rattle.std.specs.Prelude.{◌≡◌, OnOk};
ghost use Rattle.std.specs.Fmt.{WritesInCalls};
ghost use Rattle.protocol_models.specs.Queries.{end_of, head_of, queries_of, word_of};

use super::cache::write_cache_queries;
use super::directory::{write_directory_queries, write_entries};
use super::fixed::{
    BEGINNING, COVERAGE, EXCLUSIVE_ALONE, INTRODUCTION, INVARIANT, NEVER, ROWS, STATE, TAKEN, WORDS,
};
use std::fmt;
use std::fmt::Write;

/// Writes the queries of a line's protocol, with the exclusive state or without it.
pub fn write_queries<W: Write>(exclusive: bool, out: &mut W) -> fmt::Result
    ensures { OnOk result (WritesInCalls W.write_str_gives out.old (queries_of exclusive) out.new) }
{
    write_head(exclusive, out)?;
    write_entries(out)?;
    write!(out, "{BEGINNING}")?;
    write_cache_queries(exclusive, out)?;
    write_directory_queries(exclusive, out)?;
    let end = end_of(exclusive);
    write!(out, "{COVERAGE}{NEVER}{end}")
}

/// Writes what is before the queries: what a line is, what a row is, and the invariant.
fn write_head<W: Write>(exclusive: bool, out: &mut W) -> fmt::Result
    ensures { OnOk result (WritesInCalls W.write_str_gives out.old (head_of exclusive) out.new) }
{
    let word = word_of(exclusive);
    write!(
        out,
        "{INTRODUCTION}(define-fun exclusive () Bool {word})\n\n{STATE}{ROWS}{WORDS}{INVARIANT}{TAKEN}"
    )
}

/// A truth value in SMT-LIB.
const fn word_of(truth: bool) -> &'static str
    ensures { result.now ≡ word_of truth }
{
    if truth { "true" } else { "false" }
}

/// What comes only with the exclusive state, where there is none.
const fn end_of(exclusive: bool) -> &'static str
    ensures { result.now ≡ end_of exclusive }
{
    if exclusive { "" } else { EXCLUSIVE_ALONE }
}
