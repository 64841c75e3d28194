//! What runs of rounds of a litmus test share.

use litmus::{OutcomeForm, processors};
use std::thread::Threads;

/// How many jobs a processor has where no number of them is given. They walk stretches of one length, and are joined once
/// all have: with one job each, every processor would wait for the slowest.
const JOBS_OF_A_PROCESSOR: usize = 8;

/// Returns how many jobs are asked for, or else some for each processor.
pub(super) fn jobs_of<R: Threads>(rt: &R, jobs: Option<u64>) -> usize {
    match jobs {
        Some(jobs) => usize::try_from(jobs).unwrap_or(usize::MAX),
        None => processors(rt).saturating_mul(JOBS_OF_A_PROCESSOR),
    }
}

/// Returns how the outcomes of a litmus test are printed.
pub(super) const fn outcome_form(json: bool) -> OutcomeForm {
    if json {
        OutcomeForm::Json
    } else {
        OutcomeForm::Table
    }
}
