//! What a core has in a slice, as data.
ghost use Rattle.std.specs.Prelude.{◌≡◌, ◌<◌, IfErr, IfOk, OnOk, codes, length};
ghost use Rattle.std.specs.Fmt.{WritesInCalls};
ghost use Rattle.std.specs.Io.KnownBytes.{Appends};
ghost use Rattle.litmus_script.specs.Play.{IsOfRun};
ghost use Rattle.script_page.specs.Core.{list_of_replies, set_lines, text_of_begin, text_of_core, text_of_core_in};
ghost use Rattle.script_page.specs.Core.{text_of_reply, text_with, victim_of};

use super::scope::Scope;
use address_map::{CoreId, LineAddr};
use litmus_script::{TextWriter, written};
use litmus_text::{TextFault, write_comma};
use mshr_file::EitherFile;
use slice_core::{CoreLines, SliceState, TagState};
use slice_json::{write_copy_in, write_lines};
use std::alloc::{AllocError, Global};
use std::fmt;
use std::io::Write;

/// How many tags a core has.
const TAGS: u8 = 64;

/// Returns the line that was last evicted for another, if an access can have evicted one.
pub(crate) fn victim_of(state: &SliceState<EitherFile>, scope: Scope) -> Option<LineAddr>
    ensures { result ≡ victim_of state.now.view scope }
{
    let core = scope.core?;
    if !scope.evicts || core.0 as usize >= state.cores() {
        return None;
    }
    state.last_written_back(core)
}

/// Writes what the core of a scope has, or null where there is none.
pub(crate) fn write_core_in<W: Write>(
    alloc: Global,
    state: &SliceState<EitherFile>,
    scope: Scope,
    out: &mut W,
) -> Result<(), TextFault>
    ensures written { OnOk result (Appends (W.contents out.old) (W.contents out.new)
        (text_of_core_in state.now.view scope)) }
    ensures fault { IfErr result IsOfRun }
{
    let Some(core) = scope.core else {
        return write_null(out);
    };
    if core.0 as usize >= state.cores() {
        return write_null(out);
    }
    write_core(alloc, state, core, scope, out)
}

/// Writes `null`.
pub(crate) fn write_null<W: Write>(out: &mut W) -> Result<(), TextFault>
    ensures written { OnOk result (Appends (W.contents out.old) (W.contents out.new) (codes "null")) }
    ensures fault { IfErr result IsOfRun }
{
    let mut answers = TextWriter { out };
    written(write_whole("null", &mut answers))
}

/// Writes a fixed text.
pub(crate) fn write_whole<W: fmt::Write>(text: &str, out: &mut W) -> fmt::Result
    ensures { OnOk result (WritesInCalls W.write_str_gives out.old text.now out.new) }
{
    write!(out, "{text}")
}

fn write_core<W: Write>(
    alloc: Global,
    state: &SliceState<EitherFile>,
    core: CoreId,
    scope: Scope,
    out: &mut W,
) -> Result<(), TextFault>
    requires { core.0 < length state.now.view.caches }
    ensures written { OnOk result (Appends (W.contents out.old) (W.contents out.new)
        (text_of_core state.now.view core scope)) }
    ensures fault { IfErr result IsOfRun }
{
    let victim = victim_of(state, scope);
    let registers = state.core_lines(alloc, core, CoreLines::Waiting)?;
    let leaving = state.core_lines(alloc, core, CoreLines::Leaving)?;
    let set = set_lines(alloc, state, core, scope.line)?;
    let lists = Lists {
        registers: registers.as_slice(),
        leaving: leaving.as_slice(),
        set: set.as_slice(),
    };
    let mut answers = TextWriter { out };
    written(write_with(state, core, scope.line, victim, &lists, &mut answers))
}

/// Returns the lines in the set of a line, in the order that the policy keeps.
fn set_lines(
    alloc: Global,
    state: &SliceState<EitherFile>,
    core: CoreId,
    line: Option<LineAddr>,
) -> Result<Vec<LineAddr>, AllocError>
    requires { core.0 < length state.now.view.caches }
    ensures { IfOk result (λ lines. lines.items ≡ set_lines state.now.view core line) }
{
    match line {
        Some(line) => state.core_lines(alloc, core, CoreLines::InSetOf(line)),
        None => Ok(Vec::new(alloc)),
    }
}

/// The lines of a core that are waited for, those being written back, and those of one set.
#[derive(Clone, Copy)]
struct Lists<'a> {
    registers: &'a [LineAddr],
    leaving: &'a [LineAddr],
    set: &'a [LineAddr],
}

fn write_with<W: fmt::Write>(
    state: &SliceState<EitherFile>,
    core: CoreId,
    line: Option<LineAddr>,
    victim: Option<LineAddr>,
    lists: &Lists<'_>,
    out: &mut W,
) -> fmt::Result
    requires { core.0 < length state.now.view.caches }
    ensures { OnOk result (WritesInCalls W.write_str_gives out.old
        (text_with state.now.view core line victim lists.now.registers.now lists.now.leaving.now lists.now.set.now)
        out.new) }
{
    write_begin(core, out)?;
    write_copy_in(state, core, line, out)?;
    write!(out, ",\"victim\":")?;
    write_copy_in(state, core, victim, out)?;
    write!(out, ",\"registers\":")?;
    write_lines(lists.registers, out)?;
    write!(out, ",\"leaving\":")?;
    write_lines(lists.leaving, out)?;
    write!(out, ",\"set\":")?;
    write_lines(lists.set, out)?;
    write!(out, ",\"replies\":[")?;
    write_replies(state, core, out)?;
    write!(out, "]}}")
}

fn write_begin<W: fmt::Write>(core: CoreId, out: &mut W) -> fmt::Result
    ensures { OnOk result (WritesInCalls W.write_str_gives out.old (text_of_begin core) out.new) }
{
    let CoreId(core) = core;
    write!(out, "{{\"core\":{core},\"copy\":")
}

/// Writes the replies to a core that aren't handed out, by their tags.
fn write_replies<W: fmt::Write>(
    state: &SliceState<EitherFile>,
    core: CoreId,
    out: &mut W,
) -> fmt::Result
    requires { core.0 < length state.now.view.caches }
    ensures { OnOk result (WritesInCalls W.write_str_gives out.old (list_of_replies state.now.view core) out.new) }
{
    let mut is_first = true;
    for tag in 0..TAGS {
        let TagState::Performed(number) = state.tag(core, tag) else {
            continue;
        };
        write_comma(is_first, out)?;
        is_first = false;
        write_reply(tag, number, out)?;
    }
    Ok(())
}

fn write_reply<W: fmt::Write>(tag: u8, number: u64, out: &mut W) -> fmt::Result
    ensures { OnOk result (WritesInCalls W.write_str_gives out.old (text_of_reply tag number) out.new) }
{
    write!(out, "{{\"tag\":{tag},\"number\":{number}}}")
}
