//! A text of programs with other settings: their lines follow the text's own, and of lines of one name the last
//! counts.
ghost use Rattle.std.specs.Prelude.{◌≡◌, ◌++◌, ◌&&◌, IfOk, OnOk, not};
ghost use Rattle.std.specs.Str.Lines.{lines};
ghost use Rattle.program_sweep.specs.Text.{added_if, configures, ended, ends_settings, line_of_setting, lines_of_settings, with_settings};

use super::name::{is_bound, is_name};
use super::setting::Setting;
use litmus_text::{Lines, Words};
use std::alloc::{AllocError, Global};

/// Returns the text with the settings of a row.
pub(crate) fn with_settings(
    alloc: Global,
    input: &[u8],
    settings: &[Setting<'_>],
    row: u64,
) -> Result<Vec<u8>, AllocError>
    ensures { IfOk result (λ text. text.items ≡ with_settings (lines_of_settings settings.now row) (lines input.now)) }
{
    let added = lines_of_settings(alloc, settings, row)?;
    insert(alloc, input, added.as_slice())
}

// Returns the text with lines added before its first line that doesn't configure.
fn insert(alloc: Global, input: &[u8], added: &[u8]) -> Result<Vec<u8>, AllocError>
    ensures { IfOk result (λ text. text.items ≡ with_settings added.now (lines input.now)) }
{
    let mut text = Vec::new(alloc);
    let mut is_before = true;
    for line in Lines::of(input) {
        let ends = ends_settings(is_before, line);
        push_added(&mut text, added, ends)?;
        push_line(&mut text, line)?;
        is_before = is_still_before(is_before, ends);
    }
    push_added(&mut text, added, is_before)?;
    Ok(text)
}

// Whether it is the first line that doesn't configure, where none was before.
fn ends_settings(is_before: bool, line: &[u8]) -> bool
    ensures { result ≡ ends_settings is_before line.now }
{
    is_before && !configures(line)
}

fn is_still_before(is_before: bool, ends: bool) -> bool
    ensures { result ≡ (is_before && not ends) }
{
    is_before && !ends
}

fn push_added(text: &mut Vec<u8>, added: &[u8], passes: bool) -> Result<(), AllocError>
    ensures { OnOk result (text.new.items ≡ text.old.items ++ added_if added.now passes) }
{
    if !passes {
        return Ok(());
    }
    text.extend_from_slice(added)
}

fn push_line(text: &mut Vec<u8>, line: &[u8]) -> Result<(), AllocError>
    ensures { OnOk result (text.new.items ≡ text.old.items ++ ended line.now) }
{
    text.extend_from_slice(line)?;
    text.extend_from_slice(b"\n")
}

/// Whether a line configures, or has no words.
pub(crate) fn configures(line: &[u8]) -> bool
    ensures { result ≡ configures line.now }
{
    match Words::of_line(line).next() {
        Some(word) => is_name(word),
        None => true,
    }
}

fn lines_of_settings(
    alloc: Global,
    settings: &[Setting<'_>],
    row: u64,
) -> Result<Vec<u8>, AllocError>
    ensures { IfOk result (λ text. text.items ≡ lines_of_settings settings.now row) }
{
    let mut text = Vec::new(alloc);
    for setting in settings {
        push_setting(&mut text, setting, row)?;
    }
    Ok(text)
}

fn push_setting(text: &mut Vec<u8>, setting: &Setting<'_>, row: u64) -> Result<(), AllocError>
    ensures { OnOk result (text.new.items ≡ text.old.items ++ line_of_setting row setting.now) }
{
    if is_bound(setting.name.as_bytes()) {
        return Ok(());
    }
    text.extend_from_slice(setting.name.as_bytes())?;
    text.extend_from_slice(b" ")?;
    text.extend_from_slice(setting.value_in(row).as_bytes())?;
    text.extend_from_slice(b"\n")
}
