//! A litmus test that forbids nothing.

use super::streams::{Streams, complain};
use litmus_text::Statements;

/// Reports on standard error that a test that was run forbids nothing, so that none of its outcomes could be forbidden.
pub fn tell_unforbidden<R: Eprint>(rt: &R, streams: Streams, input: &[u8]) {
    if !forbids(input) {
        complain(
            rt,
            streams,
            "nothing is forbidden: the test has no line 'forbid'",
        );
    }
}

fn forbids(input: &[u8]) -> bool {
    for statement in Statements::of(input) {
        if statement.words.as_slice().first() == Some(&b"forbid".as_slice()) {
            return true;
        }
    }
    false
}
