ghost use Rattle.receipt_ledger.specs.Answers.{IsUndone, Tells};

use address_map::{Request, SliceId};
use slice_answer::{Issue, Refused, Stall};
use slice_log::Entry;
use std::fmt;

/// A request that was accepted through a port.
#[derive(Clone, Copy, Debug, PartialEq, Eq)]
pub struct Ask {
    pub request: Request,
    /// How much of the slice's log the port had seen by then.
    pub seen: u64,
}

/// A performed request in the hands of the core that made it.
#[derive(Clone, Copy, Debug, PartialEq, Eq)]
pub struct Receipt {
    pub entry: Entry,
    /// Its place in the slice's log, from 0.
    pub number: u64,
    pub slice: SliceId,
}

/// What became of a request that wasn't refused.
#[derive(Clone, Copy, Debug, PartialEq, Eq)]
pub enum Answer {
    /// It hit: it is performed, and this is its receipt.
    Done(Receipt),
    /// It missed: its receipt is handed out later.
    Pending,
    /// It has to wait, and wasn't accepted.
    Stall(Stall),
}

impl Answer {
    /// Returns the answer to a request that wasn't done at once. It isn't inlined, so that a caller whose request was
    /// done at once prepares no room for these answers.
    #[inline(never)]
    pub fn of_undone(asked: Result<Issue, Refused>) -> Result<Answer, Refused>
        requires { IsUndone asked }
        ensures { Tells asked result }
    {
        match asked {
            Ok(Issue::Done(_)) => unreachable!(),
            Ok(Issue::Pending(_)) => Ok(Answer::Pending),
            Ok(Issue::Stall(stall)) => Ok(Answer::Stall(stall)),
            Err(refused) => Err(refused),
        }
    }
}

/// Why a port doesn't learn from a receipt.
#[derive(Clone, Copy, Debug, PartialEq, Eq)]
pub enum LearnError {
    /// The slice's log has no such entry at that number, or the receipt is of another slice.
    Unknown,
}

impl fmt::Display for LearnError {
    ghost use Rattle.std.specs.Prelude.{Some, codes};

    ghost output = { λ error. Some (codes "7 Unknown") };

    fn fmt<W: fmt::Write>(&self, f: &mut fmt::Formatter<W>) -> fmt::Result {
        f.write_str(match self {
            LearnError::Unknown => "7 Unknown",
        })
    }
}
