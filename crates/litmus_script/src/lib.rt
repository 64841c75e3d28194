//! Runs scripts on a machine, on one thread.
//!
//! - [`run_script`] runs a script line by line on one slice's state for each slice. It writes each answer as it comes
//!   and keeps none: a call allocates only for the machine, for the log's growth and for a report's text.
//! - [`Script`] is a script whose configuration was read. Its [`Commands`] are played in order by a [`Player`]: the
//!   [`Machine`] itself, or another on it, chosen by the [`Style`] in which the script is run ([`run_in_style`]).
//! - [`TextWriter`] writes answers, and the functions next to it the text of each. [`write_trace`] writes a log.
//! - [`issue`] is an access of one slice, and returns what became of it as it is printed.
//! - [`pump_slices`] delivers waiting messages, round and round over the slices, by a [`Deliverer`] such as the
//!   [`Machine`].
#![tactic(auto)]

pub use answers::{
    Issued, Pumped, TextWriter, write_delivered, write_evicted, write_handed, write_issued,
    write_pumped, written,
};
pub use calls::issue;
pub use deliverer::Deliverer;
pub use echo::Echo;
pub use machine::Machine;
pub use player::Player;
pub use pump::pump_slices;
pub use script::{Commands, Plain, Script, Style, run_in_style, run_script};
pub use trace::write_trace;

mod answers;
mod calls;
mod deliverer;
mod echo;
mod machine;
mod player;
mod pump;
mod run;
mod script;
mod show;
mod trace;
mod trace_text;
mod waiting;
