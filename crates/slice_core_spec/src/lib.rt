//! What a slice decides, and what each of its steps leaves: definitions, and what is decided.
//!
//! A slice is seen as one value (`View` of specs/View.antt): the directory's entries and the channels by line, each
//! core's cache, and the log. A request is judged by `decision_of` (specs/Decision.antt), and the message in front of
//! a channel by `plan_of` (specs/Plan.antt), which ask the two tables. What is then done has a page each:
//! specs/Hit.antt, Join.antt, PrimaryMiss.antt, Eviction.antt and Delivery.antt. specs/Calls.antt says what each call
//! of a slice returns and leaves: a delivery does what is planned for its pick (`planned_at`). specs/Ring.antt says
//! which pick is next and how the ring of lines with pending messages turns, and specs/Turn.antt what that means for
//! each line ([`lines_are_served_in_turn`]). [`Decision`] is what is decided of a request; what is planned for a message is a
//! [`Plan`]: a `Delivery` of `slice_answer`, by a [`Transition`].
#![tactic(auto)]

pub use decision::{Decision, overwrites};
pub use transition::{
    CopyStep, ForwardedStep, HomeStep, Plan, Transition, event_of_forwarded, event_of_request,
    is_put_ack, requester_of,
};
pub use turn::lines_are_served_in_turn;

mod decision;
mod transition;
mod turn;
