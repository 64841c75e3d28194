ghost use Rattle.std.specs.Prelude.{IfOk};
ghost use Rattle.slice_log.specs.Log.{initially};
ghost use Rattle.history_judge.specs.Judged.{IsJudged};

use super::access::Access;
use super::order::is_order;
use super::refutation::{Contradiction, is_refuted};
use super::search::proposed;
use address_map::WordAddr;
use std::alloc::{AllocError, Global};

/// The judgement of a history.
#[derive(Debug, Drop)]
pub enum Judgement {
    /// The accesses may have been performed in this order, which names them by their places in the history.
    Coherent(Vec<usize>),
    /// There is no such order, for this reason.
    Incoherent(Contradiction),
    /// Neither was found.
    Undecided,
}

/// Judges a history of a word, or of several words that must have one order, like those of a line. Words begin with
/// these values, and others with 0. Each core's accesses are in its order, and those of several cores are mixed in any
/// way. At most `limit` steps are taken to try orders, if values repeat or several words are judged.
pub fn judge(
    alloc: Global,
    initial: &[(WordAddr, u64)],
    history: &[Access],
    limit: usize,
) -> Result<Judgement, AllocError>
    ensures { IfOk result (IsJudged (initially initial.now) history.now) }
{
    match proposed(alloc, initial, history, limit)? {
        Judgement::Coherent(order) => {
            if is_order(alloc, initial, history, &order)? {
                return Ok(Judgement::Coherent(order));
            }
        }
        Judgement::Incoherent(reason) => {
            if is_refuted(alloc, initial, history, &reason)? {
                return Ok(Judgement::Incoherent(reason));
            }
        }
        Judgement::Undecided => {}
    }
    Ok(Judgement::Undecided)
}
