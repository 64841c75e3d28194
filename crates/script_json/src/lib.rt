//! Prints a script's run as values of JSON, one a line and one for each command.
//!
//! [`run_json`] plays a script step by step, as `script_explained` does. The items of a command's answer go to memory
//! first, each made of its step (specs/Values.antt): what became of it, by words and names (specs/Answer.antt), and what
//! happened; where the command only shows something, slices and lines of the machine (specs/Slices.antt, specs/Held.antt),
//! or the words that are printed. Then the number of the command's line, the line itself, the command as data
//! (specs/Call.antt) and the items are written as one value (`object_of` of specs/Value.antt). A contract says what a
//! value has, but not that its number is that of the line.
#![tactic(auto)]

pub use style::run_json;

mod access;
mod answer;
mod call;
mod held;
mod item;
mod look;
mod object;
mod player;
mod slices;
mod style;
mod text;
mod told;
mod writer;
