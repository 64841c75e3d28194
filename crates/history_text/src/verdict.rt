//! The verdict on the histories of all words or lines.
ghost use Rattle.std.specs.Prelude.{◌≡◌, ◌<◌, IfOk, length};
ghost use Rattle.slice_log.specs.Log.{initially};
ghost use Rattle.history_judge.specs.Judged.{IsJudged};
ghost use Rattle.history_text.specs.Histories.{accesses_at, inits_at};
ghost use Rattle.history_text.specs.Judged.{IsVerdictOn};

use super::histories::Histories;
use history_judge::{Contradiction, Judgement, judge};
use std::alloc::AllocError;

/// The verdict on the histories of all words or lines.
#[derive(Debug, Drop)]
pub enum Verdict {
    /// The accesses of each may have been performed in this order, which names them by their places among the word's or
    /// the line's. Those past the last have no accesses.
    Coherent(Vec<Vec<usize>>),
    /// The accesses of the word or the line with this number have no order, for this reason, which names them so too.
    Incoherent(u64, Contradiction),
    /// Neither was found for this one, and none was found incoherent.
    Undecided(u64),
}

impl Histories {
    /// Judges the history of each word or line. Takes at most `limit` steps to try orders of one.
    pub fn judge(&self, limit: usize) -> Result<Verdict, AllocError>
        ensures { IfOk result (IsVerdictOn (inits_at self.now) (accesses_at self.now)) }
    {
        let mut orders = Vec::new(self.alloc);
        let mut undecided = None;
        for number in 0..self.rows.len() {
            match self.judged(number, limit)? {
                Judgement::Coherent(order) => orders.push(order)?,
                Judgement::Incoherent(reason) => {
                    return Ok(Verdict::Incoherent(number as u64, reason));
                }
                Judgement::Undecided => undecided = Some(number as u64),
            }
        }
        Ok(match undecided {
            Some(number) => Verdict::Undecided(number),
            None => Verdict::Coherent(orders),
        })
    }

    // Judges the history in this row.
    fn judged(&self, row: usize, limit: usize) -> Result<Judgement, AllocError>
        requires { row < length self.now.rows.items }
        ensures { IfOk result (IsJudged (initially (inits_at self.now row)) (accesses_at self.now row)) }
    {
        let history = &self.rows[row];
        judge(self.alloc, &history.given, &history.accesses, limit)
    }
}
