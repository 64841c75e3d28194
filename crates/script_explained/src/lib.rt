//! Runs scripts step by step, and reports what happened after each answer.
//!
//! A [`Step`] is a command that was played, as a value: what it names, what the slice had planned or decided, and what
//! it came to (specs/Step.antt). [`make_step`] makes one on a machine; what it says is read from the slice just before the call
//! and just after it, so a call is made as without it. A [`Stepper`] plays a script's commands as steps, each delivery
//! of a pump as one, and passes each to a [`StepWriter`]. [`Stepwise`] is the style of that.
//!
//! [`run_explained`] writes each step as its answer with what happened after it, as `slice_text` says it
//! (specs/Explains.antt); [`Explaining`] is that writer.
//!
//! [`run_beside`] writes the lines of each answer next to the command's own line (specs/Rows.antt).
//!
//! [`delivery_text`] is a delivery's command. [`expected`] reports the word of a line at fault that fits nothing, and
//! what could be there.
#![tactic(auto)]

pub use beside_style::run_beside;
pub use delivery_command::delivery_text;
pub use explaining::Explaining;
pub use machine_step::make_step;
pub use misfit::{Misfit, expected};
pub use step::{AccessStep, DeliveryStep, EvictionStep, HandStep, Step, WordStep};
pub use stepper::{StepWriter, Stepper};
pub use style::{Stepwise, play_steps, run_explained};
pub use unrest::Unrest;

mod beside;
mod beside_style;
mod delivery;
mod delivery_command;
mod explaining;
mod hand;
mod issue;
mod look;
mod machine_step;
mod misfit;
mod named;
mod rows;
mod step;
mod stepper;
mod style;
mod unrest;
