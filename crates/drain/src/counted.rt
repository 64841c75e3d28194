ghost use Rattle.std.specs.Prelude.{◌≡◌, IfOk, map};
ghost use Rattle.drain.specs.Valued.{unset_counter};

use super::report::CounterValue;
use address_map::Checked;
use arrayvec::ArrayVec;
use std::alloc::{AllocError, Global};

/// Returns the counters, in the configured order, before any slice is settled.
pub(crate) fn unsettled(config: &Checked) -> ArrayVec<CounterValue, 8>
    ensures { result.items ≡ map unset_counter config.now.counters }
{
    let _few = config.slices();
    let mut counters = ArrayVec::new();
    for word in config.counters() {
        counters.push(CounterValue {
            word: *word,
            value: 0,
        });
    }
    counters
}

/// The same counters in a list of their own.
pub(crate) fn listed(
    alloc: Global,
    counters: &[CounterValue],
) -> Result<Vec<CounterValue>, AllocError>
    ensures { IfOk result (λ list. list.items ≡ counters.now) }
{
    let mut list = Vec::new(alloc);
    list.extend_from_slice(counters)?;
    Ok(list)
}
