//! What keeps a next delivery cheap where many lines were used: a line stays in a slice's ring until a next delivery
//! looks at it, also once its messages were all delivered, and each next one has to pass it.
ghost use Rattle.std.specs.Prelude.{◌≡◌, ◌<◌, Some, slice_get};
ghost use Rattle.std.specs.List.{range_with_len};
ghost use Rattle.litmus_script.specs.Machine.{IsAnswered, IsMade};
ghost use Rattle.slice_core.specs.declared.run.Call.TheVariants as slice_calls;
ghost use Rattle.slice_core.specs.declared.run.CallAnswer.TheVariants as call_answers;
ghost use Rattle.program_run.specs.Kept.{Knows};
ghost use Rattle.program_run.specs.Tidy.{Tidies, TidiesAll, TidiesSlice, idle_class, is_moved, tidied_by};

use super::kept::Kept;
use litmus_script::Machine;
use mshr_file::EitherFile;
use slice_core::{Class, DeliveredNext, SliceState};

/// Rings are looked at after every `PERIOD` moves.
const PERIOD: u64 = 32;

/// A ring with more lines is long.
const LONG: usize = 32;

/// Removes the lines without messages from long rings, after every 32nd move.
pub(crate) fn tidy(machine: &mut Machine, made: u64, kept: &mut Kept)
    requires { Knows machine.old.config machine.old.slices.items kept.old }
    ensures config { machine.new.config ≡ machine.old.config }
    ensures tidied { Tidies machine.old.config.slices made machine.old.slices.items machine.new.slices.items }
    ensures kept { Knows machine.old.config machine.new.slices.items kept.new }
{
    if made % PERIOD == PERIOD - 1 {
        tidy_all(machine);
        kept.forget_all();
    }
}

fn tidy_all(machine: &mut Machine)
    ensures config { machine.new.config ≡ machine.old.config }
    ensures tidied { TidiesAll (range_with_len 0 machine.old.config.slices) machine.old.slices.items
        machine.new.slices.items }
{
    for slice in 0..machine.config.slices() {
        tidy_slice(machine, slice);
    }
}

fn tidy_slice(machine: &mut Machine, slice: usize)
    requires { slice < machine.old.config.slices }
    ensures config { machine.new.config ≡ machine.old.config }
    ensures tidied { TidiesSlice slice (tidied_by (slice_get machine.old.slices.items slice))
        machine.old.slices.items machine.new.slices.items }
{
    match tidied_by(&machine.slices[slice]) {
        Some(class) => look_past(machine, slice, class),
        None => {}
    }
}

// All lines of the slice's ring are looked at, where no message of the class can be moved.
fn look_past(machine: &mut Machine, slice: usize, class: Class)
    requires { slice < machine.old.config.slices }
    ensures config { machine.new.config ≡ machine.old.config }
    ensures made { IsMade slice (slice_calls.DeliverNext class) machine.old.slices.items machine.new.slices.items }
{
    let _ = deliver_next(machine, slice, class);
}

fn deliver_next(machine: &mut Machine, slice: usize, class: Class) -> DeliveredNext
    requires { slice < machine.old.config.slices }
    ensures config { machine.new.config ≡ machine.old.config }
    ensures answered { IsAnswered slice (slice_calls.DeliverNext class) (call_answers.DeliverNext result)
        machine.old.slices.items machine.new.slices.items }
{
    machine.slices[slice].deliver_next(class)
}

// Returns a class of which a slice with a long ring has no message that can be moved.
fn tidied_by(state: &SliceState<EitherFile>) -> Option<Class>
    ensures { result ≡ tidied_by (Some state.now) }
{
    if state.ring_line(LONG).is_some() {
        idle_class(state)
    } else {
        None
    }
}

fn idle_class(state: &SliceState<EitherFile>) -> Option<Class>
    ensures { result ≡ idle_class state.now }
{
    if !is_moved(state.next(Class::Home)) {
        Some(Class::Home)
    } else if !is_moved(state.next(Class::Ack)) {
        Some(Class::Ack)
    } else {
        None
    }
}

fn is_moved(next: DeliveredNext) -> bool
    ensures { result ≡ is_moved next }
{
    matches!(next, DeliveredNext::Moved(_))
}
