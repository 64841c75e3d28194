//! Writes a script's run as a page that a browser shows.
//!
//! [`run_page`] plays a script as `script_explained` does, and writes a step for each command and for each delivery of
//! a pump: its line, its answer with what happened, and as data what it can have changed of the machine, as the machine
//! has it then (specs/Step.antt), as `slice_json` writes it: a line with its messages, what a core has of it and besides
//! ([`core_part`]), and what was performed. The steps are one value of JSON in a page whose own code
//! (`src/frame`) shows them: `head` its look and parts, `run` reads the value, `time` finds what happened when, `diagram`
//! draws it (`place`, `labels`, `lanes`, `arrows`, `marks`), `legend` explains its signs, `focus` describes one step,
//! and `controls` moves through the steps and prints them; `guess` is there where answers are to be guessed: it shows
//! each only once it was.
//!
//! What a step doesn't give is as it was, as the machine's calls leave it ([`what_is_not_given_stays`]).
#![tactic(auto)]

pub use page::run_page;
pub use rest::what_is_not_given_stays;

mod call;
mod core_part;
mod frame;
mod page;
mod rest;
mod scope;
mod step;
mod writer;
