//! A core's copy of a line, and the accesses that wait for it.
ghost use Rattle.std.specs.Prelude.{◌≡◌, ◌<◌, ◌≤◌, OnOk, length};
ghost use Rattle.std.specs.Fmt.{WritesInCalls};
ghost use Rattle.slice_core_cache.specs.Copy.{is_gone};
ghost use Rattle.slice_text.specs.Shown.{text_of_acks, text_of_copy, text_of_core, text_of_cores_of, text_of_access};
ghost use Rattle.slice_text.specs.Shown.{text_of_held, text_of_name, text_of_order, text_of_target, text_of_targets};

use super::line::write_words;
use crate::Asked;
use address_map::{CoreId, LineAddr, WordAddr};
use mshr_file::{MissFile, Target};
use slice_core::{CacheCopy, CopyState, SliceState};
use std::fmt;
use std::fmt::Write;

/// Writes what each core has of a line.
pub(crate) fn write_cores<F: MissFile, W: Write>(
    state: &SliceState<F>,
    line: LineAddr,
    cores: u8,
    out: &mut W,
) -> fmt::Result
    requires line { line.0 < 65536 }
    requires cores { cores ≡ length state.now.view.caches }
    requires few { cores ≤ 64 }
    ensures { OnOk result (WritesInCalls W.write_str_gives out.old (text_of_cores_of state.now.view line) out.new) }
{
    for core in 0..cores {
        write_core(state, line, CoreId(core), out)?;
    }
    Ok(())
}

fn write_core<F: MissFile, W: Write>(
    state: &SliceState<F>,
    line: LineAddr,
    core: CoreId,
    out: &mut W,
) -> fmt::Result
    requires line { line.0 < 65536 }
    requires core { core.0 < length state.now.view.caches }
    ensures { OnOk result (WritesInCalls W.write_str_gives out.old (text_of_core state.now.view line core) out.new) }
{
    let Some(copy) = state.copy(core, line) else {
        return Ok(());
    };
    if is_gone(copy.state) {
        return Ok(());
    }
    write_held(core, line, &copy, out)?;
    write_targets(core, line, state.targets(core, line).as_slice(), out)
}

/// Whether nothing is left of a copy in this state.
pub(crate) fn is_gone(state: CopyState) -> bool
    ensures { result ≡ is_gone state }
{
    matches!(state, CopyState::I)
}

fn write_held<W: Write>(core: CoreId, line: LineAddr, copy: &CacheCopy, out: &mut W) -> fmt::Result
    ensures { OnOk result (WritesInCalls W.write_str_gives out.old (text_of_held core line copy.now) out.new) }
{
    write_name(core, line, copy.state, out)?;
    write_acks(copy, out)?;
    write!(out, " block")?;
    write_words(&copy.block.words, out)?;
    writeln!(out)
}

fn write_name<W: Write>(core: CoreId, line: LineAddr, state: CopyState, out: &mut W) -> fmt::Result
    ensures { OnOk result (WritesInCalls W.write_str_gives out.old (text_of_name core line state) out.new) }
{
    let CoreId(core) = core;
    let LineAddr(line) = line;
    write!(out, "core {core} line {line} {state}")
}

fn write_acks<W: Write>(copy: &CacheCopy, out: &mut W) -> fmt::Result
    ensures { OnOk result (WritesInCalls W.write_str_gives out.old (text_of_acks copy.now) out.new) }
{
    let CacheCopy { counted, wants, .. } = *copy;
    if counted == 0 && wants == 0 {
        return Ok(());
    }
    write!(out, " acks {counted} of {wants}")
}

fn write_targets<W: Write>(
    core: CoreId,
    line: LineAddr,
    targets: &[Target],
    out: &mut W,
) -> fmt::Result
    requires { line.0 < 65536 }
    ensures { OnOk result (WritesInCalls W.write_str_gives out.old (text_of_targets core line targets.now) out.new) }
{
    for target in targets {
        write_target(core, line, *target, out)?;
    }
    Ok(())
}

fn write_target<W: Write>(core: CoreId, line: LineAddr, target: Target, out: &mut W) -> fmt::Result
    requires { line.0 < 65536 }
    ensures { OnOk result (WritesInCalls W.write_str_gives out.old (text_of_target core line target) out.new) }
{
    let Target {
        op,
        seq,
        since,
        offset,
        tag,
    } = target;
    let word = WordAddr(8 * line.0 + offset.0 as u64);
    write_access(core, tag, Asked { word, op }, out)?;
    write_order(seq, since, out)
}

fn write_access<W: Write>(core: CoreId, tag: u8, asked: Asked, out: &mut W) -> fmt::Result
    ensures { OnOk result (WritesInCalls W.write_str_gives out.old
        (text_of_access core tag asked.word asked.op) out.new) }
{
    let CoreId(core) = core;
    write!(out, "core {core} tag {tag} awaits {asked}")
}

fn write_order<W: Write>(seq: u64, since: u64, out: &mut W) -> fmt::Result
    ensures { OnOk result (WritesInCalls W.write_str_gives out.old (text_of_order seq since) out.new) }
{
    writeln!(out, " seq {seq} since {since}")
}
