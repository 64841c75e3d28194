//! What the prompt asks a machine before it plays a line.
ghost use Rattle.std.specs.Prelude.{◌≡◌, ◌<◌, ◌%◌, length};
ghost use Rattle.address_map.specs.Place.{line_of};
ghost use Rattle.litmus_script.specs.Machine.{HasAt};
ghost use Rattle.litmus_text.specs.Command.{HasCore};
ghost use Rattle.script_prompt.specs.Next.{next_of, next_of_all, or_next};
ghost use Rattle.script_prompt.specs.Tag.{IsLowestFree, is_busy};

use address_map::{CoreId, Op, Request, SliceId, WordAddr};
use litmus_script::Machine;
use mshr_file::EitherFile;
use slice_core::{Class, Decision, DeliveredNext, Refused, SliceState};

/// How many tags a core has in a slice.
const TAGS: u8 = 64;

/// Returns the lowest tag that the core has free in the slice of a word.
pub(crate) fn free_tag(machine: &Machine, core: CoreId, op: Op, word: WordAddr) -> Option<u8>
    requires { HasCore machine.now.config core }
    ensures { HasAt machine.now.slices.items ((line_of word).0 % machine.now.config.slices)
        (λ state. IsLowestFree state.view core op word result) }
{
    let slice = machine.slice_of(word.line());
    free_tag_in(&machine.slices[slice], core, op, word)
}

fn free_tag_in(state: &SliceState<EitherFile>, core: CoreId, op: Op, word: WordAddr) -> Option<u8>
    requires { core.0 < length state.now.view.caches }
    ensures { IsLowestFree state.now.view core op word result }
{
    for tag in 0..TAGS {
        let request = Request { op, word, tag };
        if !is_busy(state.decide(core, request)) {
            return Some(tag);
        }
    }
    None
}

/// Whether a request is refused since its tag isn't free.
const fn is_busy(decision: Decision) -> bool
    ensures { result ≡ is_busy decision }
{
    matches!(decision, Decision::Refuse(Refused::TagBusy))
}

/// Returns the next delivery of the slice, or else that of the first slice that has one.
pub(crate) fn next(machine: &Machine, slice: Option<SliceId>) -> DeliveredNext
    ensures { result ≡ next_of machine.now.slices.items slice }
{
    match slice {
        Some(slice) => match machine.slices.get(slice.0 as usize) {
            Some(state) => state.next(Class::Any),
            None => DeliveredNext::Nothing,
        },
        None => next_of_all(machine.slices.as_slice()),
    }
}

fn next_of_all(slices: &[SliceState<EitherFile>]) -> DeliveredNext
    ensures { result ≡ next_of_all slices.now }
{
    let mut found = DeliveredNext::Nothing;
    for state in slices {
        found = or_next(found, state.next(Class::Any));
    }
    found
}

/// Returns the next delivery where slices with the first one are followed by a slice with the other.
const fn or_next(first: DeliveredNext, other: DeliveredNext) -> DeliveredNext
    ensures { result ≡ or_next first other }
{
    match (first, other) {
        (DeliveredNext::Nothing, other) => other,
        (DeliveredNext::Blocked | DeliveredNext::Broken(_), DeliveredNext::Moved(pick)) =>
            DeliveredNext::Moved(pick),
        (first, _) => first,
    }
}
