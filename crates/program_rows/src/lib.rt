//! Rows of several files, put together.
//!
//! A sweep that is split over machines leaves files of rows (`program_sweep`). [`Rows`] reads them, holds each row
//! once, and prints them as one file would have them, or the means of each combination of settings over its seeds.
//!
//! - src/field.rt: the fields of a line. src/heading.rt: the heading: which of them are settings and which
//!   are counts. src/line.rt: what a line holds.
//! - src/rows.rt: the rows that are held. src/write.rt: their text.
//! - src/summary.rt: what the numbers of a column come to. src/interval.rt: their mean and its confidence interval
//!   (`AreFigures` of specs/Figures.antt). src/quantile.rt: the quantiles of Student's distribution.
//! - src/means.rt: the text of means.
//!
//! Reading takes time in proportion to the text, times the logarithm of the number of seeds. A count takes 16 bytes, and
//! the settings of a combination are held once.
#![tactic(auto)]

pub use fault::RowsFault;
pub use heading::are_rows;
pub use rows::Rows;

mod fault;
mod field;
mod heading;
mod interval;
mod line;
mod means;
mod quantile;
mod rows;
mod summary;
mod write;
