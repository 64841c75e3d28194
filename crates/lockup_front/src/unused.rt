//! Lines of a text of programs that change nothing of its run, and settings of a sweep that change nothing of its runs.

use super::streams::{Streams, complain};
use litmus_text::{Lines, Words, parse_number};
use program_sweep::Setting;
use program_text::Limits;

/// What bounds the accesses of a core that wait. Where one is under way at a time, none finds a bound.
const BOUNDS: [&str; 3] = ["mshrs", "targets", "misses"];

const OUTSTANDING: &[u8] = b"outstanding";

const PACE: &[u8] = b"pace";

const CORE: &[u8] = b"core";

/// Why what bounds waiting accesses changes nothing.
const SINGLE: &str = "each core has one access under way";

/// Reports on standard error which lines of a text that was run changed nothing: those that bound what waits of a core,
/// where it has one access under way at a time, and an `outstanding` or a `pace` that another given number replaced.
pub fn tell_unused<R: Eprint>(rt: &R, streams: Streams, input: &[u8], given: Limits) {
    let is_single = is_single(input, given.outstanding);
    let mut number: u64 = 0;
    for line in Lines::of(input) {
        number = number.saturating_add(1);
        let Some(word) = Words::of_line(line).next() else {
            continue;
        };
        if word == CORE {
            return;
        }
        if given.is_limited() && word == OUTSTANDING {
            tell(
                rt,
                streams,
                number,
                "outstanding",
                "--outstanding stands in its place",
            );
        }
        if given.is_paced() && word == PACE {
            tell(rt, streams, number, "pace", "--pace stands in its place");
        }
        if is_single {
            tell_bound(rt, streams, number, word);
        }
    }
}

/// Reports on standard error the same of a text that is swept, and of the settings that vary. If one of these is
/// `outstanding`, each line may change something, and nothing is reported.
pub fn tell_unused_settings<R: Eprint>(
    rt: &R,
    streams: Streams,
    input: &[u8],
    settings: &[Setting<'_>],
    given: Limits,
) {
    if varies_outstanding(settings) {
        return;
    }
    tell_unused(rt, streams, input, given);
    if !is_single(input, given.outstanding) {
        return;
    }
    for setting in settings {
        if let Some(name) = bound_named(setting.name.as_bytes()) {
            tell_setting(rt, streams, name);
        }
    }
}

fn varies_outstanding(settings: &[Setting<'_>]) -> bool {
    settings
        .iter()
        .any(|setting| setting.name.as_bytes() == OUTSTANDING)
}

fn tell_bound<R: Eprint>(rt: &R, streams: Streams, number: u64, word: &[u8]) {
    if let Some(name) = bound_named(word) {
        tell(rt, streams, number, name, SINGLE);
    }
}

fn bound_named(word: &[u8]) -> Option<&'static str> {
    BOUNDS
        .iter()
        .find(|bound| bound.as_bytes() == word)
        .copied()
}

fn tell_setting<R: Eprint>(rt: &R, streams: Streams, name: &str) {
    complain(
        rt,
        streams,
        format_args!("--set {name} changes nothing: {SINGLE}"),
    );
}

fn tell<R: Eprint>(rt: &R, streams: Streams, number: u64, name: &str, why: &str) {
    complain(
        rt,
        streams,
        format_args!("line {number}: {name} changes nothing: {why}"),
    );
}

// Whether each core has at most one access under way.
fn is_single(input: &[u8], given: Option<u64>) -> bool {
    given.or(said(input)).unwrap_or(1) <= 1
}

// Returns how many accesses of a core may be under way by the text, if it says so.
fn said(input: &[u8]) -> Option<u64> {
    for line in Lines::of(input) {
        let mut words = Words::of_line(line);
        let Some(word) = words.next() else {
            continue;
        };
        if word == CORE {
            return None;
        }
        if word == OUTSTANDING {
            return parse_number(words.next()?);
        }
    }
    None
}
