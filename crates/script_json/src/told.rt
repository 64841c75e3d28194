//! What happened, as a text.
ghost use Rattle.std.specs.Prelude.{◌≡◌, ◌++◌, IfOk, List, codes, length, string_bytes, ℕ};
ghost use Rattle.litmus_script.specs.Answer.{text_of_issued};
ghost use Rattle.script_explained.specs.Delivery.{told_of_delivery};
ghost use Rattle.script_explained.specs.Hand.{told_of_hand};
ghost use Rattle.script_explained.specs.Unrest.{text_of_unrest};
ghost use Rattle.slice_answer.specs.Text.{text_of_evicted};

use litmus_script::Issued;
use script_explained::{HandStep, Unrest};
use slice_answer::Evicted;
use slice_text::{ExplainedDelivery, Performed};
use std::alloc::{AllocError, Global};

/// What happened at a delivery.
pub(crate) fn of_delivery(
    alloc: Global,
    delivery: Option<ExplainedDelivery>,
) -> Result<String, AllocError>
    ensures { IfOk result (λ told. string_bytes told ≡ told_of_delivery delivery) }
{
    match delivery {
        Some(delivery) => format!(in alloc; "{delivery}"),
        None => format!(in alloc; "no message waits"),
    }
}

/// What happened at a reply that was handed out, or that there was none.
pub(crate) fn of_hand(alloc: Global, hand: HandStep) -> Result<String, AllocError>
    ensures { IfOk result (λ told. string_bytes told ≡ told_of_hand hand.core hand.handed) }
{
    let core = hand.core.0;
    match hand.handed {
        Some(given) => format!(in alloc; "{}", Performed(given.entry)),
        None => format!(in alloc; "core {core}: no reply waits"),
    }
}

/// What keeps a slice from being quiet.
pub(crate) fn of_unrest(alloc: Global, unrest: Unrest) -> Result<String, AllocError>
    ensures { IfOk result (λ told. string_bytes told ≡ text_of_unrest unrest) }
{
    format!(in alloc; "{unrest}")
}

/// How long the answer to an access is as a text.
pub(crate) fn length_of_issued(alloc: Global, issued: Issued) -> Result<usize, AllocError>
    ensures { IfOk result (λ count. count ≡ length (text_of_issued issued)) }
{
    let text = format!(in alloc; "{issued}")?;
    Ok(text.len())
}

/// .. that to an eviction.
pub(crate) fn length_of_evicted(alloc: Global, evicted: Evicted) -> Result<usize, AllocError>
    ensures { IfOk result (λ count. count ≡ length (text_of_evicted evicted)) }
{
    let text = format!(in alloc; "{evicted}")?;
    Ok(text.len())
}

/// Returns what a line reports after an answer of this length.
pub(crate) fn behind(line: &[u8], answer: usize) -> &[u8]
    ensures { (said told : List ℕ) → answer ≡ length said
        → line.now ≡ (said ++ codes "   " ++ told) ++ codes "\n" → result.now ≡ told }
{
    let (_, happened) = line.split_at(answer.min(line.len()));
    let (_, happened) = happened.split_at(happened.len().min(3));
    let (happened, _) = happened.split_at(happened.len().saturating_sub(1));
    happened
}
