//! What the cores have in use of each slice.
ghost use Rattle.std.specs.Prelude.{◌≡◌, ◌<◌, ◌≤◌, ◌+◌, All, IfErr, IfOk, OnOk, length};
ghost use Rattle.std.specs.Fmt.{WritesInCalls};
ghost use Rattle.std.specs.Io.KnownBytes.{Appends};
ghost use Rattle.std.specs.List.{range_with_len};
ghost use Rattle.litmus_script.specs.Play.{IsOfRun};
ghost use Rattle.script_waves.specs.InUse.{in_use, open_of, text_of_core_use, text_of_count};
ghost use Rattle.script_waves.specs.InUse.{target_count, text_of_slice_use, text_of_use, text_of_uses};
ghost use Rattle.slice_core_cache.specs.CoreCache.{tag_at};
ghost use Rattle.slice_core_spec.specs.View.{cache_at};

use super::signal::{Use, UseCode};
use address_map::{Checked, CoreId};
use litmus_script::{Machine, TextWriter, written};
use litmus_text::TextFault;
use mshr_file::EitherFile;
use slice_core::{CoreLines, SliceState, TagState};
use std::alloc::{AllocError, Global};
use std::fmt;
use std::io::Write;

/// How many tags a core has.
const TAGS: u8 = 64;

/// How many a core has in use.
#[derive(Clone, Copy)]
pub(crate) struct InUse {
    registers: usize,
    targets: u8,
    write_backs: usize,
}

/// Writes what each core has in use of each slice.
pub(crate) fn write_uses<W: Write>(
    alloc: Global,
    machine: &Machine,
    out: &mut W,
) -> Result<(), TextFault>
    ensures written { OnOk result (Appends (W.contents out.old) (W.contents out.new)
        (text_of_uses machine.now.config.cores 0 machine.now.slices.items)) }
    ensures fault { IfErr result IsOfRun }
{
    let cores = core_count(&machine.config);
    write_slices(alloc, cores, machine.slices.as_slice(), out)
}

fn core_count(config: &Checked) -> u8
    ensures { result ≡ config.now.cores }
{
    config.cores() as u8
}

fn write_slices<W: Write>(
    alloc: Global,
    cores: u8,
    slices: &[SliceState<EitherFile>],
    out: &mut W,
) -> Result<(), TextFault>
    requires { All (λ state. length state.view.caches ≡ cores) slices.now }
    ensures written { OnOk result (Appends (W.contents out.old) (W.contents out.new)
        (text_of_uses cores 0 slices.now)) }
    ensures fault { IfErr result IsOfRun }
{
    for (slice, state) in slices.iter().enumerate() {
        write_slice(alloc, cores, slice, state, out)?;
    }
    Ok(())
}

fn write_slice<W: Write>(
    alloc: Global,
    cores: u8,
    slice: usize,
    state: &SliceState<EitherFile>,
    out: &mut W,
) -> Result<(), TextFault>
    requires { cores ≡ length state.now.view.caches }
    ensures written { OnOk result (Appends (W.contents out.old) (W.contents out.new)
        (text_of_slice_use cores slice state.now.view)) }
    ensures fault { IfErr result IsOfRun }
{
    for core in 0..cores {
        write_core(alloc, slice, CoreId(core), state, out)?;
    }
    Ok(())
}

fn write_core<W: Write>(
    alloc: Global,
    slice: usize,
    core: CoreId,
    state: &SliceState<EitherFile>,
    out: &mut W,
) -> Result<(), TextFault>
    requires { core.0 < length state.now.view.caches }
    ensures written { OnOk result (Appends (W.contents out.old) (W.contents out.new)
        (text_of_core_use slice state.now.view core.0)) }
    ensures fault { IfErr result IsOfRun }
{
    let used = in_use(alloc, state, core)?;
    let mut answers = TextWriter { out };
    written(write_use(slice, core, used, &mut answers))
}

fn in_use(alloc: Global, state: &SliceState<EitherFile>, core: CoreId) -> Result<InUse, AllocError>
    requires { core.0 < length state.now.view.caches }
    ensures { IfOk result (λ used. used ≡ in_use (cache_at state.now.view core)) }
{
    let registers = state.core_lines(alloc, core, CoreLines::Waiting)?;
    let leaving = state.core_lines(alloc, core, CoreLines::Leaving)?;
    Ok(InUse {
        registers: registers.as_slice().len(),
        targets: target_count(state, core),
        write_backs: leaving.as_slice().len(),
    })
}

/// How many accesses of a core wait.
fn target_count(state: &SliceState<EitherFile>, core: CoreId) -> u8
    requires { core.0 < length state.now.view.caches }
    ensures { result ≡ target_count (cache_at state.now.view core) }
{
    let mut count = 0;
    for tag in 0..TAGS {
        count += open_of(state.tag(core, tag));
    }
    count
}

const fn open_of(state: TagState) -> u8
    ensures open { result ≡ open_of state }
    ensures one { result ≤ 1 }
{
    match state {
        TagState::Open => 1,
        TagState::Free | TagState::Performed(_) => 0,
    }
}

fn write_use<W: fmt::Write>(slice: usize, core: CoreId, used: InUse, out: &mut W) -> fmt::Result
    ensures { OnOk result (WritesInCalls W.write_str_gives out.old (text_of_use slice core.0 used) out.new) }
{
    let core = core.0 as usize;
    write_count(slice, core, Use::Registers, used.registers, out)?;
    write_count(slice, core, Use::Targets, used.targets as usize, out)?;
    write_count(slice, core, Use::WriteBacks, used.write_backs, out)
}

fn write_count<W: fmt::Write>(
    slice: usize,
    core: usize,
    of: Use,
    count: usize,
    out: &mut W,
) -> fmt::Result
    ensures { OnOk result (WritesInCalls W.write_str_gives out.old (text_of_count slice core of count) out.new) }
{
    let code = UseCode { slice, core, of };
    writeln!(out, "b{count:b} {code}")
}
