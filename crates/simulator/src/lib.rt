//! The machine of a script, call by call.
//!
//! - [`Simulator`] is a machine with either kind of miss file. Its calls do what the commands of a script do, and each
//!   contract restates the promise of the slice's own call (`slice_core_spec`); the others report what a call would do,
//!   which cell of the protocol's tables it would meet (specs/Cells.antt), and what there is. [`Simulator::build`] takes
//!   what the lines of a script configure.
//!
//! Only these allocate: [`Simulator::build`], [`Simulator::try_clone`], [`Simulator::issue`], [`Simulator::begin_log`],
//! [`Simulator::register_at`], [`Simulator::core_lines`] and [`Simulator::set_lines`].
#![tactic(auto)]

pub use looks::MissRegister;
pub use simulator::Simulator;

mod cells;
mod looks;
mod simulator;
