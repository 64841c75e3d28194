//! The items of an answer.
ghost use Rattle.std.specs.Prelude.{◌++◌, IfErr, OnOk, codes, map};
ghost use Rattle.std.specs.Fmt.{WritesInCalls};
ghost use Rattle.std.specs.Io.KnownBytes.{Appends};
ghost use Rattle.std.specs.Option.{option_map};
ghost use Rattle.std.specs.Str.Lines.{lines};
ghost use Rattle.litmus_text.specs.JsonList.{with_commas};
ghost use Rattle.litmus_script.specs.Play.{IsOfRun};
ghost use Rattle.litmus_text.specs.Text.{words_of_line};
ghost use Rattle.script_json.specs.Answer.{members_of};
ghost use Rattle.script_json.specs.Text.{quoted, value_of};
ghost use Rattle.script_json.specs.Value.{happened_of, item_of, item_of_line, items_of_lines};

use super::answer::Answer;
use super::text::{write_before, write_quoted, write_words};
use litmus_script::{TextWriter, written};
use litmus_text::{Lines, TextFault};
use stats_report::{Cut, write_text};
use std::fmt;
use std::io::Write;

/// Writes what became of a command, and what happened after it, if that is reported.
pub(crate) fn write_item<W: Write>(
    answer: Answer,
    told: Option<&[u8]>,
    out: &mut W,
) -> Result<(), TextFault>
    ensures written { OnOk result (Appends (W.contents out.old) (W.contents out.new)
        (item_of (members_of answer) (option_map (λ text. text.now) told.entry))) }
    ensures fault { IfErr result IsOfRun }
{
    begin(answer, out)?;
    end(told, out)
}

fn begin<W: Write>(answer: Answer, out: &mut W) -> Result<(), TextFault>
    ensures begun { OnOk result (Appends (W.contents out.old) (W.contents out.new) (codes "{" ++ members_of answer)) }
    ensures fault { IfErr result IsOfRun }
{
    let mut answers = TextWriter { out };
    written(write_members(answer, &mut answers))
}

fn write_members<W: fmt::Write>(answer: Answer, out: &mut W) -> fmt::Result
    ensures { OnOk result (WritesInCalls W.write_str_gives out.old (codes "{" ++ members_of answer) out.new) }
{
    write!(out, "{{{answer}")
}

fn end<W: Write>(told: Option<&[u8]>, out: &mut W) -> Result<(), TextFault>
    ensures ended { OnOk result (Appends (W.contents out.old) (W.contents out.new)
        (happened_of (option_map (λ text. text.now) told.entry) ++ codes "}")) }
    ensures fault { IfErr result IsOfRun }
{
    match write_end(told, out) {
        Ok(()) => Ok(()),
        Err(_) => Err(TextFault::CannotWrite),
    }
}

fn write_end<W: Write>(told: Option<&[u8]>, out: &mut W) -> Result<(), Cut>
    ensures { OnOk result (Appends (W.contents out.old) (W.contents out.new)
        (happened_of (option_map (λ text. text.now) told.entry) ++ codes "}")) }
{
    match told {
        Some(told) => write_happened(told, out),
        None => write_text(out, b"}"),
    }
}

fn write_happened<W: Write>(told: &[u8], out: &mut W) -> Result<(), Cut>
    ensures { OnOk result (Appends (W.contents out.old) (W.contents out.new)
        (codes ",\"happened\":" ++ quoted told.now ++ codes "}")) }
{
    write_text(out, b",\"happened\":")?;
    write_quoted(told, out)?;
    write_text(out, b"}")
}

/// Writes the lines of what a command shows, each by its words.
pub(crate) fn write_shown<W: Write>(text: &[u8], out: &mut W) -> Result<(), TextFault>
    ensures written { OnOk result (Appends (W.contents out.old) (W.contents out.new) (items_of_lines (lines text.now))) }
    ensures fault { IfErr result IsOfRun }
{
    match write_lines(Lines::of(text), out) {
        Ok(()) => Ok(()),
        Err(_) => Err(TextFault::CannotWrite),
    }
}

fn write_lines<W: Write>(shown: Lines<'_>, out: &mut W) -> Result<(), Cut>
    ensures { OnOk result (Appends (W.contents out.old) (W.contents out.new)
        (with_commas (map item_of_line shown.entry))) }
{
    let mut is_first = true;
    for line in shown {
        write_before(is_first, out)?;
        is_first = false;
        write_line(line, out)?;
    }
    Ok(())
}

fn write_line<W: Write>(line: &[u8], out: &mut W) -> Result<(), Cut>
    ensures { OnOk result (Appends (W.contents out.old) (W.contents out.new) (item_of_line line.now)) }
{
    write_text(out, b"{\"words\":[")?;
    write_words(line, out)?;
    write_text(out, b"]}")
}
