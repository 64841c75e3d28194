//! The calls that a machine makes to one of its slices. The contract of a slice's call is long, and a machine needs
//! little of it: that the slice remains the same slice.
ghost use Rattle.std.specs.Prelude.{◌≡◌, ◌<◌, [], length, IfErr, IfOk, IsSome, Some};
ghost use Rattle.address_map.specs.Locator.{local_at};
ghost use Rattle.address_map.specs.Place.{line_of};
ghost use Rattle.mshr_file.specs.Either.{either_bound, either_misses};
ghost use Rattle.slice_core.specs.Facts.{IsSameSlice, ShowsLine};
ghost use Rattle.slice_core.specs.declared.run.Call.TheVariants as slice_calls;
ghost use Rattle.slice_core.specs.declared.run.CallAnswer.TheVariants as call_answers;
ghost use Rattle.slice_core_spec.specs.Calls.{IsNew};
ghost use Rattle.slice_queues.specs.declared.channel.Class.TheVariants as classes;
ghost use Rattle.litmus_script.specs.Issued.{Issues, LacksMemory};
ghost use Rattle.litmus_script.specs.Machine.{Answers, IsSliceOf, ShowsWord};

use super::answers::Issued;
use address_map::{Checked, CoreId, LineAddr, Request, SliceId, WordAddr};
use litmus_text::TextFault;
use mshr_file::EitherFile;
use slice_core::{Class, DeliveredNext, Evicted, Issue, LineView, Numbered, Refused, SliceState};
use std::alloc::{AllocError, Global};

pub(crate) fn build(
    alloc: Global,
    config: &Checked,
    slice: SliceId,
    empty: &EitherFile,
) -> Result<SliceState<EitherFile>, TextFault>
    requires slice { slice.0 < config.now.slices }
    requires empty { either_misses empty.now ≡ [] }
    ensures slice { IfOk result (IsSliceOf config.now slice.0) }
    ensures new { IfOk result (IsNew config.now (either_bound empty.now) slice) }
    ensures fault { IfErr result (λ fault. fault ≡ TextFault.NoMemory) }
{
    let state = SliceState::build_like(alloc, config, slice, empty)?;
    Ok(state)
}

/// Returns a copy of a slice.
pub(crate) fn copied(
    state: &SliceState<EitherFile>,
    alloc: Global,
) -> Result<SliceState<EitherFile>, AllocError>
    ensures { IfOk result (λ copy. copy ≡ state.now) }
{
    state.try_clone(alloc)
}

/// Issues an access of a core, and returns what became of it.
// inlined, so that a result that is written at once need not be built
#[inline(always)]
pub fn issue(
    state: &mut SliceState<EitherFile>,
    core: CoreId,
    request: Request,
) -> Result<Issued, TextFault>
    requires { core.0 < length state.old.view.caches }
    ensures same { IsSameSlice state.old state.new }
    ensures issued { IfOk result (λ issued. Issues core request issued state.old state.new) }
    ensures memory { IfErr result (λ fault. LacksMemory core request state.old state.new) }
    ensures fault { IfErr result (λ fault. fault ≡ TextFault.NoMemory) }
{
    match state.issue(core, request) {
        Ok(Issue::Done(number)) => {
            let reply = state.log()[number as usize].reply;
            Ok(Issued::Done { number, reply })
        }
        Ok(Issue::Pending(seq)) => Ok(Issued::Pending(seq)),
        Ok(Issue::Stall(stall)) => Ok(Issued::Stall(stall)),
        Err(Refused::Memory) => Err(TextFault::NoMemory),
        Err(refused) => Ok(Issued::Refused(refused)),
    }
}

#[inline(always)]
pub(crate) fn evict(state: &mut SliceState<EitherFile>, core: CoreId, line: LineAddr) -> Evicted
    requires { core.0 < length state.old.view.caches }
    ensures same { IsSameSlice state.old state.new }
    ensures made { Answers (slice_calls.Evict core line) (call_answers.Evict result) state.old state.new }
{
    state.evict(core, line)
}

#[inline(always)]
pub(crate) fn deliver_next(state: &mut SliceState<EitherFile>) -> DeliveredNext
    ensures same { IsSameSlice state.old state.new }
    ensures made { Answers (slice_calls.DeliverNext classes.Any) (call_answers.DeliverNext result) state.old state.new }
{
    state.deliver_next(Class::Any)
}

#[inline(always)]
pub(crate) fn hand(state: &mut SliceState<EitherFile>, core: CoreId) -> Option<Numbered>
    requires { core.0 < length state.old.view.caches }
    ensures same { IsSameSlice state.old state.new }
    ensures made { Answers (slice_calls.Hand core) (call_answers.Hand result) state.old state.new }
{
    state.hand(core)
}

/// Returns a slice's view of a line of its own.
pub(crate) fn line(state: &SliceState<EitherFile>, line: LineAddr) -> LineView
    requires { IsSome (local_at state.now.view.lines line.0) }
    ensures { ShowsLine state.now.view (local_at state.now.view.lines line.0) (Some result) }
{
    match state.line_view(line) {
        Some(shown) => shown,
        None => unreachable!(),
    }
}

/// Returns the value of a word, if the slice is quiet.
pub(crate) fn word(state: &SliceState<EitherFile>, word: WordAddr) -> Option<u64>
    requires { IsSome (local_at state.now.view.lines (line_of word).0) }
    ensures { ShowsWord state.now.view word result }
{
    if !state.is_quiet() {
        return None;
    }
    Some(state.word_now(word))
}
