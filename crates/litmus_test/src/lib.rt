//! Litmus tests: a program for each of some cores, over few words, and outcomes that must not occur.
//!
//! A [`LitmusTest`] is what a litmus text says. Its threads are numbered in the order of the text, and so are the steps
//! of each. A [`NamedReply`] is a step whose reply an outcome has under a name. All that a test names exists, which is
//! an invariant of each test (specs/Sound.antt).
//!
//! [`LitmusTest::read`] reads a text. If it returns Ok the lines say this test and no other, and a text is refused only
//! if it says none. The line that a fault names is the first with which it can say none (`IsFaultAt`); running out of
//! memory is a fault of its own (specs/Text.antt).
#![tactic(auto)]

pub use outcomes::{
    Ended, NamedRequest, OutcomeForm, Outcomes, Row, each_name_is_sought, one_table, write_gave_up,
    write_outcomes, write_stuck, write_table,
};
pub use progress::{Progress, Silent};
pub use test::{
    Action, Forbidden, LONGEST_NAME, LitmusTest, MOST_MOVERS, MOST_NAMES, MOST_PAIRS, MOST_ROUNDS,
    MOST_STEPS, NamedReply, Pair, Thread,
};

mod body;
mod claim;
mod keyword;
mod line;
mod name;
mod outcomes;
mod preamble;
mod progress;
mod reader;
mod setting;
mod test;
mod version;
