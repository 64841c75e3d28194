//! Reads and judges traces: whether the log of a trace is legal and ordered, and otherwise which entry is the first
//! invalid one, and why.
//!
//! - [`check_trace`] judges a text. If it returns Ok the lines write a trace's initial values and entries, and the
//!   verdict is that on these entries. A text is refused only if it is no trace, with any initial values and entries.
//!   The line that the fault names is the first with which it can be none (`IsFaultAt`), and the fault is what is wrong
//!   with it there (`IsFaultOfTrace`); running out of memory is a fault of its own (specs/Trace.antt).
//!   [`one_judgement`] says that no text has two verdicts, and [`none_by_since`] that if entries don't give the log's
//!   length, none is judged by it.
//! - [`one_verdict`] says that no log has two verdicts (specs/Verdict.antt).
//! - [`TraceLine`] is a line of a trace. If [`TraceLine::parse`] returns Ok the words write that line, and it names
//!   only what a trace of this version can; they are refused only if they write no such line, and the fault is what is
//!   wrong with them (`IsFaultOfLine` in specs/TraceLine.antt).
//! - [`TraceJudge`] judges a trace entry by entry, as it comes (`Stands` in specs/SoFar.antt). [`Judge`] has the value
//!   of each word and the greatest seq of each core and line (specs/Judge.antt), so an entry is judged without reading
//!   earlier ones.
//!
//! `check_trace` goes over the text once and keeps no entry. Its memory grows with the greatest word that is named, and
//! each line with entries has room for the seqs of its cores, up to the last of them.
#![tactic(auto)]

pub use check::{check_trace, none_by_since, one_judgement};
pub use judge::{Judge, MOST_CORES, MOST_WORDS, one_verdict};
pub use trace_judge::TraceJudge;
pub use trace_line::{MOST_TAGS, TraceLine, Version};
pub use verdict::{Reason, Verdict};

mod check;
mod judge;
mod latest;
mod slots;
mod trace_judge;
mod trace_line;
mod verdict;
