ghost use Rattle.std.specs.Prelude.{◌≡◌, ◌++◌, IfOk, MatchOption, OnOk, map};
ghost use Rattle.litmus_threads.specs.Found.{HasReply, IsOutcomeIn, LacksReply, LacksAReply};

use drain::{Audit, CounterValue};
use litmus_test::NamedRequest;
use receipt_ledger::Receipt;
use std::alloc::{AllocError, Global};

/// Returns the outcome that an audit found: the reply of each named request, and then each counter's value. Returns
/// none if a request has no receipt.
pub(crate) fn outcome_of(
    alloc: Global,
    named_requests: &[Option<NamedRequest>],
    audit: &Audit,
) -> Result<Option<Vec<u64>>, AllocError>
    ensures { IfOk result (λ found. MatchOption found (LacksAReply audit.now.receipts.items named_requests.now)
        (λ values. IsOutcomeIn audit.now.receipts.items audit.now.counters.items named_requests.now values.items)) }
{
    let mut values = Vec::new(alloc);
    for named_request in named_requests {
        match reply_to(&audit.receipts, *named_request) {
            Some(reply) => values.push(reply)?,
            None => return Ok(None),
        }
    }
    append_values(&mut values, &audit.counters)?;
    Ok(Some(values))
}

// Returns the reply of the request's receipt.
fn reply_to(receipts: &[Receipt], named_request: Option<NamedRequest>) -> Option<u64>
    ensures { MatchOption result (LacksReply receipts.now named_request) (HasReply receipts.now named_request) }
{
    let named_request = named_request?;
    receipts
        .iter()
        .find(|receipt| named_request.is_of(receipt.slice, &receipt.entry))
        .map(|receipt| receipt.entry.reply)
}

// Appends the counters' values.
fn append_values(values: &mut Vec<u64>, counters: &[CounterValue]) -> Result<(), AllocError>
    ensures { OnOk result (values.new.items ≡ values.old.items ++ map (λ counter. counter.value) counters.now) }
{
    for counter in counters {
        values.push(counter.value)?;
    }
    Ok(())
}
