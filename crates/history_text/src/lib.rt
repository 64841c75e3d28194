//! Reads the histories of words, and judges each: whether the word's accesses have an order that keeps each core's own
//! and explains each reply.
//!
//! - [`read_histories`] reads a text. If it returns Ok the text is a history or a trace, and the histories are those in
//!   its lines (`AreHistoriesOf` of specs/Judged.antt). A text is refused only if a line of it can't be read, and the
//!   fault names the first such line (`IsFaultOf`); for a trace it is the one that `trace_check` names.
//! - [`Histories::take`] takes accesses from elsewhere, one by one.
//! - [`judge_text`] reads and judges (`IsJudgedText`). [`Histories::judge`] judges histories, by `history_judge`, word
//!   by word: [`Verdict::Coherent`] has an order for each word, [`Verdict::Incoherent`] a word that has none, and why.
//!
//! Accesses are kept by word or by line, up to the greatest that has a history. [`claims_of`] says why some have no
//! order, with the numbers under which they are reported.
#![tactic(auto)]

pub use claims::{Claim, Reason, claims_of};
pub use extent::Extent;
pub use histories::{Histories, History};
pub use history_line::HistoryLine;
pub use judged::{Judged, judge_text};
pub use read::read_histories;
pub use verdict::Verdict;

mod claims;
mod extent;
mod histories;
mod history_line;
mod interval;
mod judged;
mod read;
mod verdict;
