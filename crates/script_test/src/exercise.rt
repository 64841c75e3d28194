ghost use Rattle.std.specs.Prelude.{◌≡◌, ◌==◌, ◌++◌, IfOk, OnOk, false, map, if◌then◌else◌};
ghost use Rattle.std.specs.List.{position};
ghost use Rattle.std.specs.Option.{option_map};
ghost use Rattle.std.specs.Str.Lines.{lines};
ghost use Rattle.script_test.specs.Exercise.{behind_equals, from_words, hides, one_wanted, script_in, wanted_in};
ghost use Rattle.script_test.specs.Exercise.{wants_from};

use litmus_text::Lines;
use std::alloc::{AllocError, Global};

/// A wanted line of an answer.
#[derive(Clone, Copy)]
pub struct Want<'a> {
    /// The number of the line that it is in.
    pub line: usize,
    pub text: &'a [u8],
}

/// Returns the script in a text with wanted answers.
pub fn script_of(alloc: Global, text: &[u8]) -> Result<Vec<u8>, AllocError>
    ensures { IfOk result (λ script. script.items ≡ script_in false text.now) }
{
    let mut script = Vec::with_capacity(alloc, text.len())?;
    let mut hidden = false;
    for byte in text {
        hidden = hides(hidden, *byte);
        script.push(shown(hidden, *byte))?;
    }
    Ok(script)
}

/// Returns what replaces a byte in the script.
fn shown(hidden: bool, byte: u8) -> u8
    ensures { result ≡ (if hidden then 32 else byte) }
{
    if hidden { b' ' } else { byte }
}

/// Whether a byte is hidden, after one that is or isn't.
fn hides(hidden: bool, byte: u8) -> bool
    ensures { result ≡ hides hidden byte }
{
    byte != b'\n' && (hidden || byte == b'=')
}

/// Returns the wanted lines of a text, in order.
pub fn wants_of(alloc: Global, text: &[u8]) -> Result<Vec<Want<'_>>, AllocError>
    ensures { IfOk result
        (λ wants. map (λ w. (w.line, w.text.now)) wants.items ≡ wants_from 0 (lines text.now)) }
{
    let mut wants = Vec::new(alloc);
    let mut number = 0;
    for line in Lines::of(text) {
        number += 1;
        push_wanted(number, line, &mut wants)?;
    }
    Ok(wants)
}

/// Adds what a line wants.
fn push_wanted<'a>(
    number: usize,
    line: &'a [u8],
    wants: &mut Vec<Want<'a>>,
) -> Result<(), AllocError>
    ensures { OnOk result (map (λ w. (w.line, w.text.now)) wants.new.items
        ≡ map (λ w. (w.line, w.text.now)) wants.old.items ++ one_wanted number (wanted_in line.now)) }
{
    match wanted_in(line) {
        Some(text) => {
            wants.push(Want { line: number, text })?;
            Ok(())
        }
        None => Ok(()),
    }
}

/// Returns what a line wants.
fn wanted_in(line: &[u8]) -> Option<&[u8]>
    ensures { option_map (λ t. t.now) result ≡ wanted_in line.now }
{
    if line.first() == Some(&b'#') {
        return None;
    }
    behind_equals(line)
}

/// Returns what follows the first `=` of a line.
fn behind_equals(line: &[u8]) -> Option<&[u8]>
    ensures { option_map (λ t. t.now) result ≡ behind_equals line.now }
{
    match equals_at(line) {
        Some(at) => Some(from_words(&line[at + 1..])),
        None => None,
    }
}

fn from_words(text: &[u8]) -> &[u8]
    ensures { result.now ≡ from_words text.now }
{
    text.trim_ascii_start()
}

fn equals_at(line: &[u8]) -> Option<usize>
    ensures { result ≡ position (λ b. b == 61) line.now }
{
    line.iter().position(|byte| *byte == b'=')
}
