//! The cell that a step met.
ghost use Rattle.std.specs.Prelude.{◌≡◌};
ghost use Rattle.script_coverage.specs.Cell.{cell_at, cell_of, cell_of_delivery, event_of, event_of_message};
ghost use Rattle.script_coverage.specs.Cell.{outcome_of_access, outcome_of_decision, outcome_of_eviction, outcome_of_plan, state_after, state_of};

use super::table_cell::{Cell, Outcome, TableEvent, TableState};
use cache_table::CopyState;
use script_explained::{DeliveryStep, Step};
use slice_answer::{Evicted, Stall};
use slice_core_cache::AccessKind;
use slice_core_spec::{Decision, Plan, Transition};
use slice_queues::{DataMessage, ForwardedMessage, Message, RequestMessage};
use slice_text::{Case, Event, Who};

/// Returns the cell of a step, if it met one.
pub fn cell_of(step: &Step) -> Option<Cell>
    ensures { result ≡ cell_of step.now }
{
    match step {
        Step::Issue(access) => {
            let decided = access.decided;
            cell_at(decided.case, outcome_of_decision(decided.decision))
        }
        Step::Evict(step) => {
            let eviction = step.eviction;
            cell_at(
                eviction.case,
                outcome_of_eviction(eviction.answer, eviction.state),
            )
        }
        Step::Deliver(delivery) => cell_of_delivery(delivery),
        Step::Hand(_) | Step::Word(_) | Step::Pump { .. } | Step::Show { .. } => None,
    }
}

/// .. of a delivery.
pub(crate) fn cell_of_delivery(delivery: &DeliveryStep) -> Option<Cell>
    ensures { result ≡ cell_of_delivery delivery.now.told }
{
    match delivery.told {
        Some(told) => cell_at(told.case, outcome_of_plan(told.plan)),
        None => None,
    }
}

/// Returns the cell of a case, if it has this outcome.
pub fn cell_at(case: Case, outcome: Option<Outcome>) -> Option<Cell>
    ensures { result ≡ cell_at case outcome }
{
    match outcome {
        Some(outcome) => Some(Cell {
            state: state_of(case.who),
            event: event_of(case.event),
            outcome,
        }),
        None => None,
    }
}

const fn state_of(who: Who) -> TableState
    ensures { result ≡ state_of who }
{
    match who {
        Who::Directory { state, .. } => TableState::Directory(state),
        Who::Core { state, .. } => TableState::Cache(state),
    }
}

const fn event_of(event: Event) -> TableEvent
    ensures { result ≡ event_of event }
{
    match event {
        Event::Message(message) => event_of_message(message),
        Event::Load => TableEvent::Load,
        Event::Write => TableEvent::Write,
        Event::Eviction => TableEvent::Eviction,
    }
}

const fn event_of_message(message: Message) -> TableEvent
    ensures { result ≡ event_of_message message }
{
    match message {
        Message::Request(RequestMessage::GetS) => TableEvent::GetS,
        Message::Request(RequestMessage::GetM) => TableEvent::GetM,
        Message::Request(RequestMessage::PutS) => TableEvent::PutS,
        Message::Request(RequestMessage::PutM(_)) => TableEvent::PutM,
        Message::Forwarded(ForwardedMessage::FwdGetS(_)) => TableEvent::FwdGetS,
        Message::Forwarded(ForwardedMessage::FwdGetM(_)) => TableEvent::FwdGetM,
        Message::Forwarded(ForwardedMessage::Inv(_)) => TableEvent::Inv,
        Message::Forwarded(ForwardedMessage::PutAck) => TableEvent::PutAck,
        Message::Data(DataMessage::Data { .. }) => TableEvent::Data,
        Message::Data(DataMessage::DataE(_)) => TableEvent::DataE,
        Message::InvAck => TableEvent::InvAck,
        Message::Home(_) => TableEvent::DataHome,
    }
}

const fn state_after(transition: Transition) -> TableState
    ensures { result ≡ state_after transition }
{
    match transition {
        Transition::Directory(step) => TableState::Directory(step.state),
        Transition::Home(step) => TableState::Directory(step.state),
        Transition::Forwarded(step) => TableState::Cache(step.next),
        Transition::Fill(step) | Transition::Acknowledge(step) => TableState::Cache(step.next),
    }
}

/// Returns what is planned for a message.
pub const fn outcome_of_plan(plan: Plan) -> Option<Outcome>
    ensures { result ≡ outcome_of_plan plan }
{
    match plan {
        Plan::Moved(transition) => Some(Outcome::To(state_after(transition))),
        Plan::Blocked => Some(Outcome::Blocked),
        Plan::Nothing | Plan::Broken(_) => None,
    }
}

/// Returns what is decided of a request.
pub const fn outcome_of_decision(decision: Decision) -> Option<Outcome>
    ensures { result ≡ outcome_of_decision decision }
{
    match decision {
        Decision::Access(_, access) => outcome_of_access(access),
        Decision::Refuse(_) => None,
    }
}

const fn outcome_of_access(access: AccessKind) -> Option<Outcome>
    ensures { result ≡ outcome_of_access access }
{
    match access {
        AccessKind::Hit { next, .. } | AccessKind::PrimaryMiss { next, .. } => {
            Some(Outcome::To(TableState::Cache(next)))
        }
        AccessKind::SecondaryMiss => Some(Outcome::Joins),
        AccessKind::Stall(Stall::WriteBackBusy) => Some(Outcome::Stalls),
        AccessKind::Stall(_) => None,
    }
}

const fn outcome_of_eviction(answer: Evicted, state: CopyState) -> Option<Outcome>
    ensures { result ≡ outcome_of_eviction answer state }
{
    match answer {
        Evicted::Evicting => Some(Outcome::To(TableState::Cache(state))),
        Evicted::NotHeld => Some(Outcome::NotHeld),
        Evicted::Busy => Some(Outcome::Busy),
        Evicted::WriteBackFull => None,
    }
}
