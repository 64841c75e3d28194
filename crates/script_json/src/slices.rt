//! Slices as data: what `show` prints of each besides its lines.
ghost use Rattle.std.specs.Prelude.{◌≡◌, ◌*◌, ◌/◌, ◌<◌, ◌≤◌, OnOk, decimal, length};
ghost use Rattle.std.specs.Fmt.{WritesInCalls};
ghost use Rattle.litmus_text.specs.JsonList.{with_commas};
ghost use Rattle.script_json.specs.Slices.{list_of_replies, list_of_ring, text_of_number, text_of_reply, text_of_slice};
ghost use Rattle.script_json.specs.Slices.{texts_of_slices};
ghost use Rattle.slice_core_cache.specs.CoreCache.{tag_at};
ghost use Rattle.slice_core_spec.specs.View.{cache_at};
ghost use Rattle.slice_text.specs.Shown.{HaveCores};

use address_map::{Checked, CoreId, LineAddr};
use litmus_text::write_comma;
use mshr_file::EitherFile;
use slice_core::{SliceState, TagState};
use std::fmt;
use std::fmt::Write;

/// How many tags a core has.
const TAGS: u16 = 64;

/// Writes the slices of a machine, each with its replies that aren't handed out and its ring.
pub(crate) fn write_slices<W: Write>(
    config: &Checked,
    slices: &[SliceState<EitherFile>],
    out: &mut W,
) -> fmt::Result
    requires { HaveCores config.now.cores slices.now }
    ensures { OnOk result (WritesInCalls W.write_str_gives out.old
        (with_commas (texts_of_slices config.now.cores config.now.lines 0 slices.now)) out.new) }
{
    let cores = core_count(config);
    let lines = config.lines();
    let mut is_first = true;
    for (number, state) in slices.iter().enumerate() {
        write_comma(is_first, out)?;
        is_first = false;
        write_slice(cores, lines, number, state, out)?;
    }
    Ok(())
}

fn core_count(config: &Checked) -> u16
    ensures cores { result ≡ config.now.cores }
    ensures few { result ≤ 64 }
{
    config.cores() as u16
}

fn write_slice<W: Write>(
    cores: u16,
    lines: usize,
    number: usize,
    state: &SliceState<EitherFile>,
    out: &mut W,
) -> fmt::Result
    requires cores { cores ≡ length state.now.view.caches }
    requires few { cores ≤ 64 }
    ensures { OnOk result (WritesInCalls W.write_str_gives out.old
        (text_of_slice cores lines number state.now) out.new) }
{
    write_number(number, out)?;
    write_replies(state, cores, out)?;
    write!(out, "],\"ring\":[")?;
    write_ring(state, lines, out)?;
    write!(out, "]}}")
}

fn write_number<W: Write>(number: usize, out: &mut W) -> fmt::Result
    ensures { OnOk result (WritesInCalls W.write_str_gives out.old (text_of_number number) out.new) }
{
    write!(out, "{{\"slice\":{number},\"replies\":[")
}

/// Writes the replies of all cores that aren't handed out.
fn write_replies<W: Write>(state: &SliceState<EitherFile>, cores: u16, out: &mut W) -> fmt::Result
    requires cores { cores ≡ length state.now.view.caches }
    requires few { cores ≤ 64 }
    ensures { OnOk result (WritesInCalls W.write_str_gives out.old
        (list_of_replies state.now.view cores) out.new) }
{
    let mut is_first = true;
    for place in 0..TAGS * cores {
        let core = CoreId((place / TAGS) as u8);
        let tag = (place % TAGS) as u8;
        let TagState::Performed(number) = state.tag(core, tag) else {
            continue;
        };
        write_comma(is_first, out)?;
        is_first = false;
        write_reply(core, tag, number, out)?;
    }
    Ok(())
}

fn write_reply<W: Write>(core: CoreId, tag: u8, number: u64, out: &mut W) -> fmt::Result
    ensures { OnOk result (WritesInCalls W.write_str_gives out.old (text_of_reply core.0 tag number) out.new) }
{
    let CoreId(core) = core;
    write!(out, "{{\"core\":{core},\"tag\":{tag},\"number\":{number}}}")
}

/// Writes the lines of the ring, the front first.
fn write_ring<W: Write>(state: &SliceState<EitherFile>, lines: usize, out: &mut W) -> fmt::Result
    ensures { OnOk result (WritesInCalls W.write_str_gives out.old (list_of_ring state.now lines) out.new) }
{
    let mut is_first = true;
    for place in 0..lines {
        let Some(line) = state.ring_line(place) else {
            continue;
        };
        write_comma(is_first, out)?;
        is_first = false;
        write_line_number(line, out)?;
    }
    Ok(())
}

fn write_line_number<W: Write>(line: LineAddr, out: &mut W) -> fmt::Result
    ensures { OnOk result (WritesInCalls W.write_str_gives out.old (decimal line.0) out.new) }
{
    let LineAddr(line) = line;
    write!(out, "{line}")
}
