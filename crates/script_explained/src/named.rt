//! The copies of a core that are named as the reason for an answer.
ghost use Rattle.std.specs.Prelude.{◌≡◌, ◌<◌, length, map, option_to_list, IfOk, OnOk};
ghost use Rattle.std.specs.Fmt.{WritesInCalls};
ghost use Rattle.script_explained.specs.Named.{named_by, named_lines, text_of_copies, text_of_copy, text_of_state};
ghost use Rattle.script_explained.specs.Named.{AreNamed};

use super::look;
use address_map::{CoreId, LineAddr};
use mshr_file::EitherFile;
use slice_core::{AccessKind, CopyState, CoreLines, Decision, Placement, SliceState, Stall};
use std::alloc::{AllocError, Global};
use std::fmt;
use std::fmt::Write;

/// Some of a core's copies.
#[derive(Clone, Copy)]
pub(crate) enum Named {
    Nothing,
    /// The copy that has just been evicted for another line.
    Victim,
    /// Those that are there.
    Lines(CoreLines),
}

impl Named {
    /// Returns those that are in the way of an access to a line, or its victim.
    pub(crate) const fn of(line: LineAddr, decision: Decision) -> Self
        ensures { result ≡ named_by line decision }
    {
        match decision {
            Decision::Access(_, AccessKind::Stall(Stall::NoRegister)) => Named::Lines(
                CoreLines::Waiting,
            ),
            Decision::Access(_, AccessKind::Stall(Stall::NoWay)) => Named::Lines(CoreLines::InSetOf(
                line,
            )),
            Decision::Access(_, AccessKind::Stall(Stall::WriteBackFull)) => Named::Lines(
                CoreLines::Leaving,
            ),
            Decision::Access(
                _,
                AccessKind::PrimaryMiss {
                    placement: Placement::Victim,
                    ..
                },
            ) => Named::Victim,
            _ => Named::Nothing,
        }
    }
}

/// Returns the lines of these copies by their numbers, in ascending order.
pub(crate) fn named_lines(
    alloc: Global,
    which: Named,
    state: &SliceState<EitherFile>,
    core: CoreId,
) -> Result<Vec<u64>, AllocError>
    requires { core.0 < length state.now.view.caches }
    ensures { IfOk result (λ lines. AreNamed which state.now.view core lines.items) }
{
    let lines = lines_of(alloc, which, state, core)?;
    let mut numbers = numbers_of(alloc, lines.as_slice())?;
    numbers.sort()?;
    Ok(numbers)
}

/// The same by their addresses, in any order.
fn lines_of(
    alloc: Global,
    which: Named,
    state: &SliceState<EitherFile>,
    core: CoreId,
) -> Result<Vec<LineAddr>, AllocError>
    requires { core.0 < length state.now.view.caches }
    ensures { IfOk result (λ lines. lines.items ≡ named_lines which state.now.view core) }
{
    match which {
        Named::Nothing => Ok(Vec::new(alloc)),
        Named::Victim => list_of(alloc, state.last_written_back(core)),
        Named::Lines(lines) => state.core_lines(alloc, core, lines),
    }
}

fn list_of(alloc: Global, line: Option<LineAddr>) -> Result<Vec<LineAddr>, AllocError>
    ensures { IfOk result (λ lines. lines.items ≡ option_to_list line) }
{
    let mut lines = Vec::new(alloc);
    if let Some(line) = line {
        lines.push(line)?;
    }
    Ok(lines)
}

fn numbers_of(alloc: Global, lines: &[LineAddr]) -> Result<Vec<u64>, AllocError>
    ensures { IfOk result (λ numbers. numbers.items ≡ map (λ line. line.0) lines.now) }
{
    let mut numbers = Vec::new(alloc);
    for line in lines {
        numbers.push(line.0)?;
    }
    Ok(numbers)
}

/// Writes a core's copies of these lines, each with its state.
pub(crate) fn write_copies<W: Write>(
    which: Named,
    lines: &[u64],
    state: &SliceState<EitherFile>,
    core: CoreId,
    out: &mut W,
) -> fmt::Result
    ensures { OnOk result (WritesInCalls W.write_str_gives out.old
        (text_of_copies which state.now.view core lines.now) out.new) }
{
    for line in lines {
        write_copy(which, *line, state, core, out)?;
    }
    Ok(())
}

fn write_copy<W: Write>(
    which: Named,
    line: u64,
    state: &SliceState<EitherFile>,
    core: CoreId,
    out: &mut W,
) -> fmt::Result
    ensures { OnOk result (WritesInCalls W.write_str_gives out.old
        (text_of_copy which state.now.view core line) out.new) }
{
    let copy = look::copy(state, LineAddr(line), core);
    write!(out, "; line {line}{}", State { which, copy })
}

/// The state of a copy, to which a victim has just gone.
#[derive(Clone, Copy)]
struct State {
    which: Named,
    copy: CopyState,
}

impl fmt::Display for State {
    ghost use Rattle.std.specs.Prelude.{Some};
    ghost use Rattle.script_explained.specs.Named.{text_of_state};

    ghost output = { λ state. Some (text_of_state state.which state.copy) };

    fn fmt<W: fmt::Write>(&self, f: &mut fmt::Formatter<W>) -> fmt::Result {
        let copy = self.copy;
        match self.which {
            Named::Victim => write!(f, " to {copy}"),
            Named::Nothing | Named::Lines(_) => write!(f, " {copy}"),
        }
    }
}
