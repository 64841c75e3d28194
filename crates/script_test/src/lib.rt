//! Tests scripts against wanted answers.
//!
//! A text is a script whose lines may end in `=` and the answer that is wanted. [`run_test`] plays the script in it as
//! [`litmus_script::run_script`] does, and reports where each answer first isn't the wanted one, or how many lines
//! are as wanted (specs/Judged.antt). [`script_of`] is that script.
//!
//! - `exercise` takes the text apart: the script in it, and what is wanted (specs/Exercise.antt).
//! - `recorder` plays the script and keeps what each command answers (specs/Answers.antt).
//! - `judge` compares, and `print` prints the result.
#![tactic(auto)]

pub use exercise::script_of;
pub use run::run_test;

mod answer;
mod exercise;
mod judge;
mod print;
mod recorder;
mod run;
