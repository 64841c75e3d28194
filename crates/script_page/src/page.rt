//! A script's page.
ghost use Rattle.std.specs.Prelude.{◌≡◌, ◌⊎◌, List, [], true, IfErr, IfOk, OnOk};
ghost use Rattle.std.specs.Fmt.{WritesInCalls};
ghost use Rattle.std.specs.Io.KnownBytes.{Appends};
ghost use Rattle.std.specs.Str.Lines.{lines};
ghost use Rattle.litmus_script.specs.Machine.{IsNewMachine};
ghost use Rattle.mshr_file.specs.Miss.{bound_of};
ghost use Rattle.litmus_script.specs.Play.{IsOfRun};
ghost use Rattle.litmus_script.specs.Script.{commands_of};
ghost use Rattle.litmus_text.specs.Statement.{statements_from};
ghost use Rattle.protocol_tables.specs.Cache.{table_of as cache_table};
ghost use Rattle.protocol_tables.specs.Directory.{table_of as directory_table};
ghost use Rattle.script_page.specs.Page.{HasSteps, IsPage, IsPageFault, IsPageOf, PageStopsAt, code_if};
ghost use Rattle.script_page.specs.Page.{code_of_diagram, code_of_page, text_of_begin, text_of_end};
ghost use Rattle.slice_core_spec.specs.Calls.{PartsView};

use super::core_part::write_whole;
use super::frame::arrows::ARROWS;
use super::frame::controls::{STORY, TAIL};
use super::frame::diagram::DIAGRAM;
use super::frame::focus::FOCUS;
use super::frame::guess::GUESS;
use super::frame::head::{BODY, HEAD};
use super::frame::labels::LABELS;
use super::frame::lanes::LANES;
use super::frame::legend::LEGEND;
use super::frame::marks::MARKS;
use super::frame::place::PLACE;
use super::frame::run::RUN;
use super::frame::time::TIME;
use super::writer::PageWriter;
use address_map::Checked;
use litmus_script::{Commands, Machine, Script, TextWriter, written};
use litmus_text::TextFault;
use protocol_tables::{write_cache_table, write_directory_table};
use script_explained::play_steps;
use slice_json::write_json;
use std::alloc::Global;
use std::fmt;
use std::io::Write;

/// Writes a script's run as a page for a browser: a step for each command. With `guess` the page asks for each answer
/// before it shows it. Returns the exit status. A line that can't be taken ends the steps, and the page reports it too.
pub fn run_page<W: Write>(
    alloc: Global,
    input: &[u8],
    guess: bool,
    out: &mut W,
) -> Result<u8, TextFault>
    ensures status { IfOk result (λ status. status ≡ 0) }
    ensures printed { OnOk result (IsPage guess input.now (statements_from 0 (lines input.now))
        (W.contents out.old) (W.contents out.new)) }
    ensures fault { IfErr result (IsPageFault (statements_from 0 (lines input.now))) }
{
    match Script::read(alloc, input)? {
        Some(script) => page_of(alloc, input, script, guess, out)?,
        None => page_of_nothing(alloc, input, guess, out)?,
    }
    Ok(0)
}

fn page_of_nothing<W: Write>(
    alloc: Global,
    input: &[u8],
    guess: bool,
    out: &mut W,
) -> Result<(), TextFault>
    ensures written { OnOk result (IsPage guess input.now [] (W.contents out.old) (W.contents out.new)) }
    ensures fault { IfErr result IsOfRun }
{
    begin(alloc, input, out)?;
    end(guess, out)
}

fn page_of<W: Write>(
    alloc: Global,
    input: &[u8],
    script: Script<'_>,
    guess: bool,
    out: &mut W,
) -> Result<(), TextFault>
    ensures page { OnOk result (IsPageOf guess input.now script.entry.config
        (bound_of script.entry.misses script.entry.config)
        (commands_of script.entry.commands) (W.contents out.old) (W.contents out.new)) }
    ensures fault { IfErr result (λ fault. IsOfRun fault ⊎ ((start : List PartsView)
        × IsNewMachine script.entry.config (bound_of script.entry.misses script.entry.config) start
        × PageStopsAt script.entry.config (commands_of script.entry.commands) start fault)) }
{
    let Script {
        config,
        misses,
        commands,
    } = script;
    let machine = Machine::build(alloc, config, misses)?;
    begin(alloc, input, out)?;
    steps(alloc, machine, commands, guess, out)
}

/// The steps, and what follows them.
fn steps<W: Write>(
    alloc: Global,
    machine: Machine,
    commands: Commands<'_>,
    guess: bool,
    out: &mut W,
) -> Result<(), TextFault>
    ensures steps { OnOk result (HasSteps guess machine.config (commands_of commands.entry) machine.slices.items
        (W.contents out.old) (W.contents out.new)) }
    ensures fault { IfErr result (λ fault. IsOfRun fault
        ⊎ PageStopsAt machine.config (commands_of commands.entry) machine.slices.items fault) }
{
    match play_steps(alloc, machine, PageWriter { alloc }, commands, out) {
        Ok(()) => end(guess, out),
        Err(fault) => {
            // if this can't be written either, there is no way left to report it
            let _ = end_at(&fault, guess, &mut TextWriter { out });
            Err(fault)
        }
    }
}

/// Writes what is before the steps.
fn begin<W: Write>(alloc: Global, script: &[u8], out: &mut W) -> Result<(), TextFault>
    ensures begun { OnOk result (Appends (W.contents out.old) (W.contents out.new) (text_of_begin script.now)) }
    ensures fault { IfErr result IsOfRun }
{
    let cache = cache_table(alloc)?;
    let directory = directory_table(alloc)?;
    let mut answers = TextWriter { out };
    written(write_begin(script, cache.as_slice(), directory.as_slice(), &mut answers))
}

fn write_begin<W: fmt::Write>(
    script: &[u8],
    cache: &[u8],
    directory: &[u8],
    out: &mut W,
) -> fmt::Result
    requires cache { cache.now ≡ cache_table true }
    requires directory { directory.now ≡ directory_table true }
    ensures { OnOk result (WritesInCalls W.write_str_gives out.old (text_of_begin script.now) out.new) }
{
    out.write_str(HEAD)?;
    out.write_str(BODY)?;
    out.write_str("{\"script\":")?;
    write_json(script, out)?;
    out.write_str(",\"cache\":")?;
    write_json(cache, out)?;
    out.write_str(",\"directory\":")?;
    write_json(directory, out)?;
    out.write_str(",\"steps\":[\n")
}

/// Returns the table of a cache.
fn cache_table(alloc: Global) -> Result<Vec<u8>, TextFault>
    ensures table { IfOk result (λ table. table.items ≡ cache_table true) }
    ensures fault { IfErr result IsOfRun }
{
    let mut table = Vec::new(alloc);
    match print_cache_table(&mut table) {
        Ok(()) => Ok(table),
        Err(_) => Err(TextFault::NoMemory),
    }
}

fn print_cache_table<W: Write>(out: &mut W) -> fmt::Result
    ensures { OnOk result (Appends (W.contents out.old) (W.contents out.new) (cache_table true)) }
{
    let mut answers = TextWriter { out };
    write_cache_table(true, &mut answers)
}

/// Returns the table of a directory.
fn directory_table(alloc: Global) -> Result<Vec<u8>, TextFault>
    ensures table { IfOk result (λ table. table.items ≡ directory_table true) }
    ensures fault { IfErr result IsOfRun }
{
    let mut table = Vec::new(alloc);
    match print_directory_table(&mut table) {
        Ok(()) => Ok(table),
        Err(_) => Err(TextFault::NoMemory),
    }
}

fn print_directory_table<W: Write>(out: &mut W) -> fmt::Result
    ensures { OnOk result (Appends (W.contents out.old) (W.contents out.new) (directory_table true)) }
{
    let mut answers = TextWriter { out };
    write_directory_table(true, &mut answers)
}

/// Writes what follows the steps.
fn end<W: Write>(guess: bool, out: &mut W) -> Result<(), TextFault>
    ensures ended { OnOk result (Appends (W.contents out.old) (W.contents out.new) (text_of_end guess)) }
    ensures fault { IfErr result IsOfRun }
{
    let mut answers = TextWriter { out };
    written(write_end(guess, &mut answers))
}

fn write_end<W: fmt::Write>(guess: bool, out: &mut W) -> fmt::Result
    ensures { OnOk result (WritesInCalls W.write_str_gives out.old (text_of_end guess) out.new) }
{
    out.write_str("null]}\n")?;
    write_code(guess, out)
}

/// Writes the page's code.
fn write_code<W: fmt::Write>(guess: bool, out: &mut W) -> fmt::Result
    ensures { OnOk result (WritesInCalls W.write_str_gives out.old (code_of_page guess) out.new) }
{
    out.write_str(RUN)?;
    out.write_str(TIME)?;
    write_diagram(out)?;
    out.write_str(FOCUS)?;
    out.write_str(STORY)?;
    write_if(guess, GUESS, out)?;
    out.write_str(TAIL)
}

/// Writes the code of the diagram.
fn write_diagram<W: fmt::Write>(out: &mut W) -> fmt::Result
    ensures { OnOk result (WritesInCalls W.write_str_gives out.old code_of_diagram out.new) }
{
    out.write_str(PLACE)?;
    out.write_str(LABELS)?;
    out.write_str(LANES)?;
    out.write_str(ARROWS)?;
    out.write_str(MARKS)?;
    out.write_str(DIAGRAM)?;
    out.write_str(LEGEND)
}

/// Writes code that a page has only if it is asked for.
fn write_if<W: fmt::Write>(is_wanted: bool, code: &str, out: &mut W) -> fmt::Result
    ensures { OnOk result (WritesInCalls W.write_str_gives out.old (code_if is_wanted code.now) out.new) }
{
    if is_wanted {
        return write_whole(code, out);
    }
    Ok(())
}

/// .. where a line can't be taken.
fn end_at<W: fmt::Write>(fault: &TextFault, guess: bool, out: &mut W) -> fmt::Result {
    writeln!(out, "null],\"fault\":\"{fault}\"}}")?;
    write_code(guess, out)
}
