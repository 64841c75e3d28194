//! The claims of a contradiction as they are printed.

use super::shown::Shown;
use history_text::{Claim, Reason};
use std::fmt;

/// A claim as a line of text.
impl fmt::Display for Shown {
    fn fmt<W: fmt::Write>(&self, f: &mut fmt::Formatter<W>) -> fmt::Result {
        match &self.claim {
            Claim::Unwritten { line, value } => {
                write!(f, "line {line}: got {value}, which no access left")
            }
            Claim::Before {
                first,
                last,
                reason,
            } => {
                write!(f, "line {first} before line {last}: ")?;
                if self.through == 0 {
                    write_reason(*first, *last, *reason, f)
                } else {
                    write_handed_on(*first, *last, *reason, self.through, f)
                }
            }
            Claim::Follows { first, last } => write!(f, "so line {first} before line {last}"),
        }
    }
}

fn write_reason<W: fmt::Write>(
    first: usize,
    last: usize,
    reason: Reason,
    out: &mut W,
) -> fmt::Result {
    match reason {
        Reason::Core(core) => write!(out, "core {core} asked for both"),
        Reason::Interval => write!(out, "the one had ended when the other began"),
        Reason::Shown => write!(out, "as was shown"),
        Reason::Source(value) => {
            write!(
                out,
                "line {last} got {value}, which line {first} alone left"
            )
        }
        Reason::Initial(value) => write!(
            out,
            "line {first} got {value}, which the word began with, and line {last} changed it"
        ),
        Reason::Overwritten { value, source } => write!(
            out,
            "line {first} got {value}, which line {source} left and line {last} overwrote"
        ),
        Reason::NotBetween { value, reader } => write!(
            out,
            "line {reader} got {value}, which line {last} left, and line {first} was not between"
        ),
    }
}

/// Writes a reason whose value came through a number of accesses, each of which got what one alone had left and changed
/// it.
fn write_handed_on<W: fmt::Write>(
    first: usize,
    last: usize,
    reason: Reason,
    through: usize,
    out: &mut W,
) -> fmt::Result {
    let accesses = if through == 1 { "access" } else { "accesses" };
    match reason {
        Reason::Source(value) => write!(
            out,
            "line {last} got {value}, which goes back to line {first} through {through} {accesses}"
        ),
        Reason::Overwritten { value, source } => {
            write!(
                out,
                "line {first} got {value}, which goes back to line {source} through {through} "
            )?;
            write!(out, "{accesses}, and line {last} overwrote")
        }
        Reason::NotBetween { value, reader } => {
            write!(
                out,
                "line {reader} got {value}, which goes back to line {last} through {through} "
            )?;
            write!(out, "{accesses}, and line {first} was not between")
        }
        _ => write_reason(first, last, reason, out),
    }
}

/// As a JSON object.
#[derive(Clone, Copy)]
pub(super) struct Json(pub Claim);

impl fmt::Display for Json {
    fn fmt<W: fmt::Write>(&self, f: &mut fmt::Formatter<W>) -> fmt::Result {
        match self.0 {
            Claim::Unwritten { line, value } => {
                write!(
                    f,
                    "{{\"line\":{line},\"reason\":\"unwritten\",\"value\":\"{value}\"}}"
                )
            }
            Claim::Before {
                first,
                last,
                reason,
            } => {
                write!(f, "{{\"first\":{first},\"last\":{last},\"reason\":")?;
                write_members(reason, f)?;
                write!(f, "}}")
            }
            Claim::Follows { first, last } => {
                write!(
                    f,
                    "{{\"first\":{first},\"last\":{last},\"reason\":\"follows\"}}"
                )
            }
        }
    }
}

fn write_members<W: fmt::Write>(reason: Reason, out: &mut W) -> fmt::Result {
    match reason {
        Reason::Core(core) => write!(out, "\"core\",\"core\":{core}"),
        Reason::Interval => write!(out, "\"interval\""),
        Reason::Shown => write!(out, "\"shown\""),
        Reason::Source(value) => write!(out, "\"source\",\"value\":\"{value}\""),
        Reason::Initial(value) => write!(out, "\"initial\",\"value\":\"{value}\""),
        Reason::Overwritten { value, source } => {
            write!(
                out,
                "\"overwritten\",\"value\":\"{value}\",\"source\":{source}"
            )
        }
        Reason::NotBetween { value, reader } => {
            write!(
                out,
                "\"not_between\",\"value\":\"{value}\",\"reader\":{reader}"
            )
        }
    }
}
