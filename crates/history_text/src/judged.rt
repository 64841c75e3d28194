ghost use Rattle.std.specs.Prelude.{IfErr, IfOk};
ghost use Rattle.history_text.specs.Judged.{IsFaultOf, IsJudgedText};

use super::extent::Extent;
use super::histories::Histories;
use super::read::read_histories;
use super::verdict::Verdict;
use litmus_text::TextFault;
use std::alloc::Global;

/// The histories in a text, and the verdict on them.
#[derive(Debug, Drop)]
pub struct Judged {
    pub histories: Histories,
    pub verdict: Verdict,
}

/// Reads a text, and judges the histories in it: each word's by itself, or each line's. Takes at most `limit` steps to
/// try orders of one.
#[tactic(auto, unfolding(crate::specs::Judged::IsFaultOf))]
pub fn judge_text(
    alloc: Global,
    input: &[u8],
    extent: Extent,
    limit: usize,
) -> Result<Judged, TextFault>
    ensures judged { IfOk result (λ it. IsJudgedText input.now extent it.verdict) }
    ensures fault { IfErr result (IsFaultOf input.now) }
{
    let histories = read_histories(alloc, input, extent)?;
    let verdict = histories.judge(limit)?;
    Ok(Judged { histories, verdict })
}
