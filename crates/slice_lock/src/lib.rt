//! A slice that many threads share: its state and its book behind one lock.
//!
//! A [`Slice`] is asked through the ports of its cores (`receipt_ledger`), each in the hands of one thread. Every call
//! takes the lock, makes one call on the state or the book, and lets go. What the port has then is said by the contract
//! of each call; what the state is at that moment isn't, since other threads change it, but whenever the lock is free
//! state and book belong together: the state is one of the named slice, coherent, and no request of it is lost, doubled
//! or made up. [`Slice::look`] shows it to the caller, and
//! [`Slice::settle`] says of a quiet slice and all its ports that the receipts are all, and what they make of each
//! counter.
#![tactic(auto)]

pub use slice::{Look, Question, Slice, Unsettled};

mod booked;
mod slice;
