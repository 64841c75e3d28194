//! How far a long run is.

use super::streams::Streams;
use litmus_test::Progress;

/// How many rounds lie between two reports of how far a run has got. Before the first, rounds that take long
/// are reported at 1, 2, 5, 10 and so on.
const BETWEEN: u64 = 500;

/// What a long run counts on its way.
#[derive(Clone, Copy)]
pub enum Counted {
    /// Rounds of a litmus test.
    Rounds,
    /// Steps of programs.
    Steps,
    /// Rows of a sweep.
    Rows,
}

impl Counted {
    fn name(self) -> &'static str {
        match self {
            Counted::Rounds => "rounds",
            Counted::Steps => "steps",
            Counted::Rows => "rows",
        }
    }

    /// Whether it is reported that `done` are done.
    fn is_told(self, done: u64) -> bool {
        match self {
            Counted::Rounds => {
                done % BETWEEN == 0 || matches!(done, 1 | 2 | 5 | 10 | 20 | 50 | 100 | 200)
            }
            Counted::Steps | Counted::Rows => true,
        }
    }
}

/// Shows on standard error how much of a long run is done, if somebody watches.
#[derive(Drop)]
pub struct Shown<'a, R: Eprint> {
    rt: &'a R,
    is_watched: bool,
    counted: Counted,
}

impl<'a, R: Eprint> Shown<'a, R> {
    /// Returns what shows there how many are done.
    pub const fn new(rt: &'a R, streams: Streams, counted: Counted) -> Self {
        Shown {
            rt,
            is_watched: streams.is_watched,
            counted,
        }
    }
}

impl<R: Eprint> Progress for Shown<'_, R> {
    fn done(&mut self, done: u64, all: u64) {
        if self.is_watched && self.counted.is_told(done) && done < all {
            let name = self.counted.name();
            let _ = eprint!(self.rt; "{done} of {all} {name}\r");
        }
    }
}
