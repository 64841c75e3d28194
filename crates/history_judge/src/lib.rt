//! Judges a history of one word, or of several words that must have one order: the requests and replies of each core,
//! in the core's own order, without the order in which accesses of several cores were performed. Is there an order
//! of all of them that explains each reply, keeps each core's own, and has an access that ended before another began
//! before it?
//!
//! - [`judge`] returns [`Judgement::Coherent`] with such an order (`IsOrderOf` of specs/Order.antt),
//!   [`Judgement::Incoherent`] with the contradiction if there is none, or [`Judgement::Undecided`].
//! - [`is_order`] and [`is_refuted`] check any order and any contradiction: `judge` proposes one of the two, by a
//!   search about which nothing is proved, and returns it only once it is checked.
//! - [`trace`] is the trace of an order, which is legal and ordered in `slice_log`'s sense.
//!
//! If each value that is read was left by one access alone and isn't the initial one, `judge` goes over the history of
//! a word a few times, sorts it, and decides. Else, and if several words must have one order, it tries orders, up to a
//! limit.
#![tactic(auto)]

pub use access::Access;
pub use order::{is_order, trace};
pub use refutation::{Chain, Contradiction, Link, Step, Why, is_refuted};
pub use verdict::{Judgement, judge};

mod access;
mod initial;
mod order;
mod refutation;
mod search;
mod verdict;
mod writers;
