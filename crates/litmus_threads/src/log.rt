ghost use Rattle.std.specs.Prelude.{◌≡◌, All, Contains, IfOk, List, MatchOption};
ghost use Rattle.litmus_threads.specs.Log.{AreEntriesOf, IsNumbered};
ghost use Rattle.slice_log.specs.declared.entry.Entry.{Entry};

use address_map::SliceId;
use receipt_ledger::Receipt;
use slice_log::Entry;
use std::alloc::{AllocError, Global};

/// Returns the log of a slice, built from its receipts by their numbers.
pub(crate) fn log_of(
    alloc: Global,
    receipts: &[Receipt],
    slice: SliceId,
) -> Result<Vec<Entry>, AllocError>
    ensures { IfOk result (λ log. (whole : List Entry) → AreEntriesOf slice receipts.now whole → log.items ≡ whole) }
{
    let mut log = Vec::new(alloc);
    for number in 0..receipts.len() {
        match receipt_at(receipts, slice, number as u64) {
            Some(receipt) => log.push(receipt.entry)?,
            None => return Ok(log),
        }
    }
    Ok(log)
}

// Returns the receipt of this number.
fn receipt_at(receipts: &[Receipt], slice: SliceId, number: u64) -> Option<&Receipt>
    ensures { MatchOption result (All (λ r. ¬ IsNumbered slice number r) receipts.now)
        (λ receipt. Contains receipts.now receipt.now × IsNumbered slice number receipt.now) }
{
    receipts.iter().find(|receipt| receipt.slice == slice && receipt.number == number)
}
