ghost use Rattle.std.specs.Prelude.{◌≡◌, ◌==◌, ◌<◌, ◌++◌, ◌∷◌, [], IfOk, OnOk, length, map};
ghost use Rattle.std.specs.List.{slice_split};

use super::fault::SweepFault;
use super::name::{Bound, bounds, is_bound, is_name, may_vary};
use litmus_text::{ConfigLine, Settings, first_words, parse_number};
use program_text::{MOST_OUTSTANDING, MOST_PACE};
use std::alloc::{AllocError, Global};

/// A setting that varies: the word that its lines begin with, and its values in their order.
#[derive(Debug, Drop)]
pub struct Setting<'a> {
    pub name: &'a str,
    pub values: Vec<&'a str>,
    /// How many adjacent rows have the same value.
    pub span: u64,
    ghost spans: { 0 < span },
    ghost some: { 0 < length values.items },
}

impl<'a> Setting<'a> {
    ghost use Rattle.program_sweep.specs.Read.{IsSetting};

    /// Reads NAME=VALUE,VALUE..
    pub(crate) fn read(alloc: Global, text: &'a str) -> Result<Setting<'a>, SweepFault<'a>>
        ensures { IfOk result (IsSetting text.entry.now) }
    {
        let Some((name, listed)) = text.split_once('=') else {
            return Err(SweepFault::NoValue(text));
        };
        if !may_vary(name.as_bytes()) {
            return Err(unfit(name));
        }
        if listed.is_empty() {
            return Err(SweepFault::NoValue(text));
        }
        let values = read_values(alloc, name, listed)?;
        if values.is_empty() {
            return Err(SweepFault::NoValue(text));
        }
        Ok(Setting {
            name,
            values,
            span: 1,
        })
    }
}

// Why a setting of this name can't vary.
fn unfit<'a>(name: &'a str) -> SweepFault<'a> {
    if is_name(name.as_bytes()) {
        SweepFault::AddsUp(name)
    } else {
        SweepFault::Unknown(name)
    }
}

fn read_values<'a>(
    alloc: Global,
    name: &'a str,
    listed: &'a str,
) -> Result<Vec<&'a str>, SweepFault<'a>>
    ensures { IfOk result
        (λ values. map (λ value. value.now) values.items ≡ slice_split (λ b. b == 44) listed.entry.now) }
{
    let mut values = Vec::new(alloc);
    let mut rest = listed;
    while let Some((value, behind)) = rest.split_once(',') {
        push_value(alloc, name, value, &mut values)?;
        rest = behind;
    }
    push_value(alloc, name, rest, &mut values)?;
    Ok(values)
}

fn push_value<'a>(
    alloc: Global,
    name: &'a str,
    value: &'a str,
    values: &mut Vec<&'a str>,
) -> Result<(), SweepFault<'a>>
    ensures { OnOk result (values.new.items ≡ values.old.items ++ value.entry ∷ []) }
{
    if !is_value(alloc, name, value)? {
        return Err(SweepFault::BadValue { name, value });
    }
    if values.as_slice().iter().any(|other| *other == value) {
        return Err(SweepFault::SameValue { name, value });
    }
    values.push(value)?;
    Ok(())
}

// Whether the name and the value write a line that configures a machine, or the value bounds a run. It is written in one
// way, so that rows with the same value show the same text.
fn is_value(alloc: Global, name: &str, value: &str) -> Result<bool, AllocError> {
    if !is_canonical(value.as_bytes()) {
        return Ok(false);
    }
    if is_bound(name.as_bytes()) {
        return Ok(may_bound(name, parse_number(value.as_bytes())));
    }
    let mut line = Vec::from_slice(alloc, name.as_bytes())?;
    line.extend_from_slice(b" ")?;
    line.extend_from_slice(value.as_bytes())?;
    is_allowed(alloc, line.as_slice())
}

// Whether a value has no blanks around it, and no leading zeros.
fn is_canonical(value: &[u8]) -> bool {
    match value {
        [b' ' | b'\t', ..] | [.., b' ' | b'\t'] => false,
        [b'0', next, ..] => !next.is_ascii_digit(),
        _ => true,
    }
}

// Whether there is a machine with this line and the defaults of all else.
fn is_allowed(alloc: Global, line: &[u8]) -> Result<bool, AllocError> {
    let words = first_words(line);
    let Ok(line) = ConfigLine::parse(words.as_slice()) else {
        return Ok(false);
    };
    let mut settings = Settings::new(alloc);
    line.set(&mut settings)?;
    let Settings { config, .. } = settings;
    match config.check() {
        Ok(checked) => {
            drop(checked);
            Ok(true)
        }
        Err(_) => Ok(false),
    }
}

// Whether the number bounds a run as the name says.
fn may_bound(name: &str, number: Option<u64>) -> bool {
    let Some(number) = number else {
        return false;
    };
    if bounds(Bound::Pace, name.as_bytes()) {
        number <= MOST_PACE
    } else {
        1 <= number && number <= MOST_OUTSTANDING
    }
}
