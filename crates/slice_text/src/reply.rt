//! The replies that weren't delivered to their cores.
ghost use Rattle.std.specs.Prelude.{◌≡◌, ◌<◌, ◌≤◌, OnOk, length};
ghost use Rattle.std.specs.Fmt.{WritesInCalls};
ghost use Rattle.slice_text.specs.Shown.{text_of_replies, text_of_replies_to, text_of_reply, text_under};

use address_map::CoreId;
use mshr_file::MissFile;
use slice_core::{SliceState, TagState};
use std::fmt;
use std::fmt::Write;

/// The number of tags of a core.
const TAGS: u8 = 64;

/// Writes the replies to each core.
pub(crate) fn write_replies<F: MissFile, W: Write>(
    state: &SliceState<F>,
    cores: u8,
    out: &mut W,
) -> fmt::Result
    requires cores { cores ≡ length state.now.view.caches }
    requires few { cores ≤ 64 }
    ensures { OnOk result (WritesInCalls W.write_str_gives out.old (text_of_replies state.now.view cores) out.new) }
{
    for core in 0..cores {
        write_replies_to(state, CoreId(core), out)?;
    }
    Ok(())
}

fn write_replies_to<F: MissFile, W: Write>(
    state: &SliceState<F>,
    core: CoreId,
    out: &mut W,
) -> fmt::Result
    requires { core.0 < length state.now.view.caches }
    ensures { OnOk result (WritesInCalls W.write_str_gives out.old (text_of_replies_to state.now.view core) out.new) }
{
    for tag in 0..TAGS {
        write_reply_under(state, core, tag, out)?;
    }
    Ok(())
}

/// Writes the reply under a tag, if it names one.
fn write_reply_under<F: MissFile, W: Write>(
    state: &SliceState<F>,
    core: CoreId,
    tag: u8,
    out: &mut W,
) -> fmt::Result
    requires core { core.0 < length state.now.view.caches }
    requires tag { tag < 64 }
    ensures { OnOk result (WritesInCalls W.write_str_gives out.old (text_under state.now.view core tag) out.new) }
{
    let named = state.tag(core, tag);
    write_reply(core, tag, named, out)
}

fn write_reply<W: Write>(core: CoreId, tag: u8, state: TagState, out: &mut W) -> fmt::Result
    ensures { OnOk result (WritesInCalls W.write_str_gives out.old (text_of_reply core tag state) out.new) }
{
    let CoreId(core) = core;
    match state {
        TagState::Performed(number) => writeln!(out, "core {core} tag {tag} entry {number}"),
        TagState::Free | TagState::Open => Ok(()),
    }
}
