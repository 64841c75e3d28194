//! Deliveries.
ghost use Rattle.std.specs.Prelude.{◌≡◌, ◌++◌, OnOk, codes};
ghost use Rattle.std.specs.Fmt.{WritesInCalls};
ghost use Rattle.litmus_script.specs.Answer.{WritesLine};
ghost use Rattle.script_explained.specs.Delivery.{case_at, delivery_at, done_at, text_of_made, told_of_delivery};
ghost use Rattle.script_explained.specs.Delivery.{who_takes};
ghost use Rattle.script_explained.specs.Step.{IsDelivery, MakesNext};
ghost use Rattle.slice_core.specs.Facts.{IsSameSlice};
ghost use Rattle.slice_answer.specs.Text.{text_of_delivered};
ghost use Rattle.slice_core_spec.specs.Calls.{core_of, next_pick};
ghost use Rattle.slice_answer.specs.declared.answer.Delivery.TheVariants as deliveries;
ghost use Rattle.slice_queues.specs.Pick.{channel_of};
ghost use Rattle.slice_queues.specs.declared.channel.Class.TheVariants as classes;

use super::look;
use super::step::DeliveryStep;
use address_map::CoreId;
use litmus_text::Delivery;
use mshr_file::EitherFile;
use slice_core::{Class, Delivered, DeliveredNext, Pick, Plan, SliceState};
use slice_text::{Case, Done, Event, ExplainedDelivery, Who};
use std::fmt;

/// Delivers the message in front of a channel of the slice with this number.
pub(crate) fn deliver(state: &mut SliceState<EitherFile>, slice: usize, pick: Pick) -> DeliveryStep
    ensures same { IsSameSlice state.old state.new }
    ensures pick { result.pick ≡ pick }
    ensures made { IsDelivery slice result state.old state.new }
{
    let case = case(state, slice, pick);
    let plan = state.plan(pick);
    let first = state.log().len();
    let delivered = state.deliver(pick);
    let done = done(state, first, pick);
    DeliveryStep {
        pick,
        delivered,
        told: told(slice, pick, case, plan, done),
    }
}

/// Makes the next delivery of the slice with this number, where one can be made. Returns the slice's answer, and the
/// delivery's step.
pub(crate) fn deliver_next(
    state: &mut SliceState<EitherFile>,
    slice: usize,
) -> (DeliveredNext, Option<DeliveryStep>)
    ensures same { IsSameSlice state.old state.new }
    ensures made { MakesNext slice result.0 result.1 state.old state.new }
{
    match state.next(Class::Any) {
        DeliveredNext::Moved(pick) => deliver_picked(state, slice, pick),
        _ => (state.deliver_next(Class::Any), None),
    }
}

/// Makes the next delivery of a slice, which is at this pick.
fn deliver_picked(
    state: &mut SliceState<EitherFile>,
    slice: usize,
    pick: Pick,
) -> (DeliveredNext, Option<DeliveryStep>)
    requires { next_pick state.old classes.Any ≡ deliveries.Moved pick }
    ensures same { IsSameSlice state.old state.new }
    ensures made { MakesNext slice result.0 result.1 state.old state.new }
{
    let case = case(state, slice, pick);
    let plan = state.plan(pick);
    let first = state.log().len();
    let answer = state.deliver_next(Class::Any);
    let done = done(state, first, pick);
    let step = DeliveryStep {
        pick,
        delivered: Delivered::Moved,
        told: told(slice, pick, case, plan, done),
    };
    (answer, Some(step))
}

/// Writes the command that makes a delivery, and what there is to say of it.
pub(crate) fn write_made<W: fmt::Write>(step: DeliveryStep, out: &mut W) -> fmt::Result
    ensures { OnOk result (WritesInCalls W.write_str_gives out.old (text_of_made step.pick step.told) out.new) }
{
    let command = Delivery(step.pick);
    match step.told {
        Some(told) => writeln!(out, "{command}   {told}"),
        None => writeln!(out, "{command}   no message waits"),
    }
}

/// Writes the answer to a delivery, and what there is to say of it.
pub(crate) fn write_delivered<W: fmt::Write>(step: DeliveryStep, out: &mut W) -> fmt::Result
    ensures { OnOk result (WritesLine W.write_str_gives out.old
        (text_of_delivered step.delivered ++ codes "   " ++ told_of_delivery step.told) out.new) }
{
    let delivered = step.delivered;
    match step.told {
        Some(told) => writeln!(out, "{delivered}   {told}"),
        None => writeln!(out, "{delivered}   no message waits"),
    }
}

/// Returns the delivery of the message that met a case, if one did.
fn told(
    slice: usize,
    pick: Pick,
    case: Option<Case>,
    plan: Plan,
    done: Done,
) -> Option<ExplainedDelivery>
    ensures { result ≡ delivery_at slice pick plan done case }
{
    let case = case?;
    Some(ExplainedDelivery {
        slice,
        core: core(pick),
        case,
        plan,
        done,
    })
}

/// Returns the case that the message in front of a channel meets.
fn case(state: &SliceState<EitherFile>, slice: usize, pick: Pick) -> Option<Case>
    ensures { result ≡ case_at slice state.now.view pick }
{
    let message = state.front(pick)?;
    Some(Case {
        who: who(state, slice, pick),
        event: Event::Message(message),
    })
}

/// Returns who takes the messages of a channel.
fn who(state: &SliceState<EitherFile>, slice: usize, pick: Pick) -> Who
    ensures { result ≡ who_takes slice state.now.view pick }
{
    match pick {
        Pick::Req(line, _) | Pick::Home(line) => Who::Directory {
            slice,
            state: look::entry(state, line),
        },
        Pick::Fwd(line, core) | Pick::Data(line, core) | Pick::Ack { line, to: core, .. } => {
            Who::Core {
                core,
                state: look::copy(state, line, core),
            }
        }
    }
}

/// Returns the core at a channel.
fn core(pick: Pick) -> CoreId
    ensures { result ≡ core_of (channel_of pick) }
{
    match pick {
        Pick::Req(_, core)
        | Pick::Fwd(_, core)
        | Pick::Data(_, core)
        | Pick::Ack { to: core, .. } => { core }
        Pick::Home(_) => CoreId(0),
    }
}

/// Returns what was done, where the log had `first` entries before.
fn done(state: &SliceState<EitherFile>, first: usize, pick: Pick) -> Done
    ensures { result ≡ done_at first state.now.view pick }
{
    let line = pick.line();
    let core = core(pick);
    Done {
        first,
        end: state.log().len(),
        asked: state.front(Pick::Req(line, core)),
        state: look::copy(state, line, core),
    }
}
