//! A core's copy of a line as data, with the accesses that wait for it.
ghost use Rattle.std.specs.Prelude.{◌≡◌, ◌<◌, OnOk, length};
ghost use Rattle.std.specs.Fmt.{WritesInCalls};
ghost use Rattle.slice_json.specs.Copy.{block_of, has_block, is_told, text_of_copy, text_of_copy_in, text_of_head};
ghost use Rattle.slice_json.specs.Copy.{text_of_needed};

use super::access::write_targets;
use super::json::write_block;
use address_map::{Block, CoreId, LineAddr};
use mshr_file::MissFile;
use slice_core::{CacheCopy, CopyState, SliceState};
use std::fmt;
use std::fmt::Write;

/// Writes a core's copy of a line, or null if there is none or the line isn't the slice's.
pub fn write_copy_in<F: MissFile, W: Write>(
    state: &SliceState<F>,
    core: CoreId,
    line: Option<LineAddr>,
    out: &mut W,
) -> fmt::Result
    requires { core.0 < length state.now.view.caches }
    ensures { OnOk result (WritesInCalls W.write_str_gives out.old
        (text_of_copy_in state.now.view core line) out.new) }
{
    match line {
        Some(line) => write_copy(state, core, line, out),
        None => write!(out, "null"),
    }
}

fn write_copy<F: MissFile, W: Write>(
    state: &SliceState<F>,
    core: CoreId,
    line: LineAddr,
    out: &mut W,
) -> fmt::Result
    requires { core.0 < length state.now.view.caches }
    ensures { OnOk result (WritesInCalls W.write_str_gives out.old (text_of_copy state.now.view core line) out.new) }
{
    let Some(copy) = state.copy(core, line) else {
        return write!(out, "null");
    };
    write_head(core, line, &copy, out)?;
    write_needed(&copy, out)?;
    write_block(block_of(&copy), out)?;
    write!(out, ",\"targets\":")?;
    write_targets(state.targets(core, line).as_slice(), out)?;
    write!(out, "}}")
}

fn write_head<W: Write>(core: CoreId, line: LineAddr, copy: &CacheCopy, out: &mut W) -> fmt::Result
    ensures { OnOk result (WritesInCalls W.write_str_gives out.old (text_of_head core line copy.now) out.new) }
{
    let CoreId(core) = core;
    let LineAddr(line) = line;
    let CacheCopy { state, counted, .. } = *copy;
    write!(
        out,
        "{{\"core\":{core},\"line\":{line},\"state\":\"{state}\",\"got\":{counted},"
    )
}

fn write_needed<W: Write>(copy: &CacheCopy, out: &mut W) -> fmt::Result
    ensures { OnOk result (WritesInCalls W.write_str_gives out.old (text_of_needed copy.now) out.new) }
{
    let wants = copy.wants;
    if is_told(copy.state) {
        write!(out, "\"needed\":{wants},\"block\":")
    } else {
        write!(out, "\"needed\":null,\"block\":")
    }
}

fn block_of(copy: &CacheCopy) -> Option<Block>
    ensures { result ≡ block_of copy.now }
{
    if has_block(copy.state) {
        Some(copy.block)
    } else {
        None
    }
}

/// Whether a copy in this state has a block: not before its data come, nor after they were passed to another core.
const fn has_block(state: CopyState) -> bool
    ensures { result ≡ has_block state }
{
    !matches!(
        state,
        CopyState::I | CopyState::IS_D | CopyState::IM_AD | CopyState::II_A
    )
}

/// Whether a core knows how many acknowledgements it awaits: not before the data that name them.
const fn is_told(state: CopyState) -> bool
    ensures { result ≡ is_told state }
{
    !matches!(state, CopyState::IM_AD | CopyState::SM_AD)
}
