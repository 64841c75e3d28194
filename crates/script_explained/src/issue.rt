//! Accesses and evictions.
ghost use Rattle.std.specs.Prelude.{◌≡◌, ◌++◌, ◌<◌, length, IfErr, IfOk, OnOk, codes};
ghost use Rattle.litmus_script.specs.Answer.{WritesLine, text_of_issued};
ghost use Rattle.litmus_script.specs.Play.{IsOfRun};
ghost use Rattle.script_explained.specs.Issue.{TellsAccess, TellsEviction, issue_at, named_by_answer};
ghost use Rattle.script_explained.specs.Named.{text_of_copies};
ghost use Rattle.script_explained.specs.Step.{IsAccess, IsEviction};
ghost use Rattle.slice_answer.specs.Text.{text_of_evicted};
ghost use Rattle.slice_core.specs.Facts.{IsSameSlice};
ghost use Rattle.slice_text.specs.Issue.{text_of_eviction, text_of_issue};

use super::look;
use super::named::{Named, named_lines, write_copies};
use super::step::{AccessStep, EvictionStep};
use address_map::{CoreId, LineAddr, Request};
use litmus_script::{TextWriter, written};
use litmus_text::TextFault;
use mshr_file::EitherFile;
use slice_core::{CoreLines, Evicted, Pick, SliceState};
use slice_text::{Case, Event, Eviction, Issue, Who};
use std::alloc::Global;
use std::fmt;
use std::io::Write;

/// Asks for an access of a core in the slice with this number.
pub(crate) fn issue(
    state: &mut SliceState<EitherFile>,
    slice: usize,
    core: CoreId,
    request: Request,
) -> Result<AccessStep, TextFault>
    requires { core.0 < length state.old.view.caches }
    ensures same { IsSameSlice state.old state.new }
    ensures core { IfOk result (λ access. access.core ≡ core) }
    ensures request { IfOk result (λ access. access.decided.request ≡ request) }
    ensures made { IfOk result (λ access. IsAccess slice access state.old state.new) }
    ensures fault { IfErr result IsOfRun }
{
    let decided = decided(state, slice, core, request);
    let issued = litmus_script::issue(state, core, request)?;
    Ok(AccessStep {
        core,
        decided,
        issued,
    })
}

/// Returns the access, as it is decided.
fn decided(state: &SliceState<EitherFile>, slice: usize, core: CoreId, request: Request) -> Issue
    requires { core.0 < length state.now.view.caches }
    ensures { result ≡ issue_at slice state.now.view core request }
{
    Issue {
        slice,
        case: Case {
            who: Who::Core {
                core,
                state: look::copy(state, request.word.line(), core),
            },
            event: Event::of(request.op),
        },
        request,
        decision: state.decide(core, request),
    }
}

/// Writes what became of an access and why, with its copies as the slice has them after it.
pub(crate) fn write_access<W: Write>(
    alloc: Global,
    state: &SliceState<EitherFile>,
    access: AccessStep,
    out: &mut W,
) -> Result<(), TextFault>
    requires { access.core.0 < length state.now.view.caches }
    ensures told { OnOk result (TellsAccess access state.now.view (W.contents out.old) (W.contents out.new)) }
    ensures fault { IfErr result IsOfRun }
{
    let Issue {
        request,
        decision,
        ..
    } = access.decided;
    let which = Named::of(request.word.line(), decision);
    let lines = named_lines(alloc, which, state, access.core)?;
    let mut answers = TextWriter { out };
    written(write_issue(state, &access, which, lines.as_slice(), &mut answers))
}

fn write_issue<W: fmt::Write>(
    state: &SliceState<EitherFile>,
    access: &AccessStep,
    which: Named,
    lines: &[u64],
    out: &mut W,
) -> fmt::Result
    ensures { OnOk result (WritesLine W.write_str_gives out.old
        (text_of_issued access.now.issued ++ codes "   "
        ++ (text_of_issue access.now.decided ++ text_of_copies which state.now.view access.now.core lines.now))
        out.new) }
{
    let issued = access.issued;
    let decided = access.decided;
    write!(out, "{issued}   {decided}")?;
    write_copies(which, lines, state, access.core, out)?;
    writeln!(out)
}

/// Asks for an eviction in the slice with this number.
pub(crate) fn evict(
    state: &mut SliceState<EitherFile>,
    slice: usize,
    core: CoreId,
    line: LineAddr,
) -> EvictionStep
    requires { core.0 < length state.old.view.caches }
    ensures same { IsSameSlice state.old state.new }
    ensures core { result.core ≡ core }
    ensures line { result.line ≡ line }
    ensures made { IsEviction slice result state.old state.new }
{
    let case = Case {
        who: Who::Core {
            core,
            state: look::copy(state, line, core),
        },
        event: Event::Eviction,
    };
    let answer = state.evict(core, line);
    let eviction = Eviction {
        slice,
        case,
        answer,
        state: look::copy(state, line, core),
        sent: state.front(Pick::Req(line, core)),
    };
    EvictionStep {
        core,
        line,
        eviction,
    }
}

/// Writes what became of an eviction and why, with the copies in its way as the slice has them after it.
pub(crate) fn write_evicted<W: Write>(
    alloc: Global,
    state: &SliceState<EitherFile>,
    step: EvictionStep,
    out: &mut W,
) -> Result<(), TextFault>
    requires { step.core.0 < length state.now.view.caches }
    ensures told { OnOk result (TellsEviction step state.now.view (W.contents out.old) (W.contents out.new)) }
    ensures fault { IfErr result IsOfRun }
{
    let which = named(step.eviction.answer);
    let lines = named_lines(alloc, which, state, step.core)?;
    let mut answers = TextWriter { out };
    written(write_eviction(state, &step, which, lines.as_slice(), &mut answers))
}

fn write_eviction<W: fmt::Write>(
    state: &SliceState<EitherFile>,
    step: &EvictionStep,
    which: Named,
    lines: &[u64],
    out: &mut W,
) -> fmt::Result
    ensures { OnOk result (WritesLine W.write_str_gives out.old
        (text_of_evicted step.now.eviction.answer ++ codes "   "
        ++ (text_of_eviction step.now.eviction ++ text_of_copies which state.now.view step.now.core lines.now))
        out.new) }
{
    let eviction = step.eviction;
    let answer = eviction.answer;
    write!(out, "{answer}   {eviction}")?;
    write_copies(which, lines, state, step.core, out)?;
    writeln!(out)
}

/// Returns the copies in the write-back buffer, if it is full.
const fn named(answer: Evicted) -> Named
    ensures { result ≡ named_by_answer answer }
{
    match answer {
        Evicted::WriteBackFull => Named::Lines(CoreLines::Leaving),
        Evicted::Evicting | Evicted::NotHeld | Evicted::Busy => Named::Nothing,
    }
}
