//! The receipts that a slice's callers hold, and the book that goes with them.
//!
//! Through a [`Port`] one core asks one slice: it counts the requests that were accepted, and keeps a
//! [`Receipt`] of each one that was handed out. A [`Book`] is next to the slice's state and has the totals of all its
//! ports. Each port holds a share of every total, and a share moves only with the book, so what the ports hold together
//! is what the slice accepted and handed out: no request is lost, doubled or made up, and no sum of a counter is off.
//!
//! A slice counts three things: the requests accepted, those handed out, and for each of its counters the whole-number
//! sum of what these added. Each count is a ledger of std's `sync::ledger`, ten in all. A [`Books`] has the totals, and
//! each port has a [`Shares`], which takes no bytes: `Books::accept` and `Books::hand` change both, so the shares of all
//! ports add up to the books, as `Books::audit` says. Which ledgers these are, and of which slice of which configuration,
//! is named by the type ([`SliceNames`]). Contracts see a `Books` as its `Totals` and a `Shares` as its `Amounts`
//! (`specs/Totals.antt`). None of these calls allocates, and none does anything at run time but finding the place of a
//! word.
//!
//! - [`Book::open`] makes a slice, its book and a port for each core; [`Port::idle_ports`] makes ports for a slice that
//!   isn't there.
//! - [`Book::accept`] asks the slice for a port. Its contract says that state and answer are those of the slice's own
//!   call, and what the port has then. [`Book::ask`] leaves the receipt to be copied later, from the port
//!   ([`Port::last`]).
//! - [`Book::hand_out`] hands out a reply, as the slice does.
//! - [`Book::learn`] notifies a port of a receipt that another port got.
//! - [`Book::settle`] looks at a quiet slice with all its ports, each borrowed from its holder ([`Lends`]): the ports
//!   hold a receipt of each entry of the log, as they asked for it, and the value of each counter is its initial value
//!   and the sum of what their receipts add to it, modulo 2^64.
//!
//! That a state and a book belong together (`IsTied` of `specs/Booked.antt`) is required of the caller, and kept. The
//! slice is seen there as the small machine of `slice_core_theory`: how many requests wait and were performed, and
//! which entries of the log are handed out. Deliveries and evictions of the state keep it too
//! ([`deliveries_keep_the_book`]). What the book counts as accepted is what the cores had accepted
//! ([`accepted_are_the_cores_own`]).
#![tactic(auto)]

pub use blanks::Blanks;
pub use book::Book;
pub use laws::{accepted_are_the_cores_own, deliveries_keep_the_book};
pub use lends::{Alone, Lends};
pub use names::{Led, SliceNames};
pub use port::Port;
pub use receipt::{Answer, Ask, LearnError, Receipt};
pub use shares::{Books, Shares};

mod account;
mod blanks;
mod book;
mod counters;
mod gather;
mod held;
mod idle;
mod laws;
mod lends;
mod names;
mod open;
mod place;
mod port;
mod receipt;
mod settle;
mod shares;
