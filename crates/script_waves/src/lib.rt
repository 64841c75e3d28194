//! Writes a script's run as waves, in the form that wave viewers read (a value change dump, IEEE 1364).
//!
//! [`run_waves`] plays a script as `litmus_script` does. The file has a signal for each copy, directory entry and set
//! of channels of the lines that the script names, one for the command, and for each core and slice the numbers of miss
//! registers, targets and entries of the write-back buffer in use. Each command is one unit of time, and so is each delivery
//! of a pump: after it is what it changed (specs/Changes.antt) of what the cores have in use (specs/InUse.antt), and of
//! what the slices have of each line named so far (specs/Values.antt).
#![tactic(auto)]

pub use waves::run_waves;

mod changes;
mod channel;
mod command;
mod core_header;
mod header;
mod in_use;
mod named;
mod player;
mod signal;
mod values;
mod waves;
