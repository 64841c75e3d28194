//! Reads what a model checker prints of a run of the protocol's model, and writes the run as a script.
//!
//! [`run_trace`] takes each line that reports a rule which fired (specs/Fired.antt), by the rule's name and its cores
//! (specs/Rule.antt), and writes the command that does the same on a machine (specs/Script.antt): so a counterexample
//! or a walk of the model can be replayed. The names are those that `protocol_models` gives the rules. [`rule_told_by`]
//! reads one line.
#![tactic(auto)]

pub use replay::{rule_told_by, run_trace};
pub use rule::Rule;

mod event;
mod fired;
mod output;
mod replay;
mod rule;
mod tag;
