//! A machine of several slices that threads share, and the cores that ask it.
//!
//! A [`System`] has each slice of the configured machine behind a lock of its own (`slice_lock`). [`System::build`]
//! makes it, and for each core a [`PortSet`]: its port of each slice, of which there are always four. A [`Core`] is
//! such a set owned by one thread, with the system that it asks. It knows the slice of each word, and which of
//! its tags are in flight.
//!
//! - [`Core::issue`] asks the word's slice. A word past the memory, a tag above 63 and a tag in flight are refused by
//!   the core itself.
//! - [`Core::collect`] takes the next reply, from whichever slice has one; [`Core::turn`] also moves messages on.
//! - [`Core::run`] runs a program of such calls, and notifies a [`Gate`] of each request.
//! - [`Core::settle`] settles a slice with the ports borrowed from all cores.
//! - [`System::look`] keeps a slice's lock for a look at its state.
//!
//! A contract sees a core as a `CoreView` (`specs/Core.antt`): its four ports, its tags and the slice that it asks
//! first. `specs/Answers.antt` says what each call leaves of it, and `specs/Program.antt` what a program has made. The
//! type says of which machine all this is: a [`SystemNames`], which the caller that builds a system gets from
//! [`SystemKeys`] by picking the configuration and the names of the ledgers.
#![tactic(auto)]

pub use blanks::SystemBlanks;
pub use cores::Core;
pub use error::BuildError;
pub use look::SystemLook;
pub use names::{All, Nth, SystemKeys, SystemNames};
pub use port_set::PortSet;
pub use program::{Gate, Open, Outcome, Step};
pub use system::System;

mod blanks;
mod cores;
mod error;
mod lends;
mod look;
mod names;
mod port_set;
mod program;
mod run;
mod settle;
mod system;
mod tags;
