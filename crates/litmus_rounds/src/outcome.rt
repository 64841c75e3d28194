ghost use Rattle.std.specs.Prelude.{◌≡◌, ℕ, List, [], IfNone, IfOk, IfSome, IsTrue, false};
ghost use Rattle.litmus_rounds.specs.Outcome.{AddsMatch, HasReply, HasWord, IsOutcome, LacksReply, Match, all_named_requests};

use litmus_test::{LitmusTest, NamedRequest};
use litmus_walk::Recorded;
use std::alloc::AllocError;

/// Writes the outcome of a walk to `values`: the replies of all named steps, and then the counters' values. There is
/// none before the walk is over.
pub(crate) fn read_outcome(
    test: &LitmusTest<'_>,
    named_requests: &[Option<NamedRequest>],
    recorded: &Recorded,
    values: &mut Vec<u64>,
) -> Result<bool, AllocError>
    requires config { recorded.now.config ≡ test.now.config }
    requires named_requests { named_requests.now ≡ all_named_requests test.now }
    ensures read { IfOk result (λ read. IsTrue read → IsOutcome test.now recorded.now.slices values.new.items) }
    ensures none { IfOk result (λ read. read ≡ false
        → (values : List ℕ) → ¬ IsOutcome test.now recorded.now.slices values) }
{
    values.clear();
    if !read_replies(named_requests, recorded, values)? {
        return Ok(false);
    }
    let read = read_counters(test, recorded, values)?;
    Ok(read)
}

// Adds the replies of the named requests, in order.
fn read_replies(
    named_requests: &[Option<NamedRequest>],
    recorded: &Recorded,
    values: &mut Vec<u64>,
) -> Result<bool, AllocError>
    requires { values.old.items ≡ [] }
    ensures read { IfOk result (λ read. IsTrue read → Match (HasReply recorded.now.slices) named_requests.now values.new.items) }
    ensures none { IfOk result (λ read. read ≡ false
        → (values : List ℕ) → ¬ Match (HasReply recorded.now.slices) named_requests.now values) }
{
    for request in named_requests {
        let Some(reply) = reply_to(request, recorded) else {
            return Ok(false);
        };
        values.push(reply)?;
    }
    Ok(true)
}

fn reply_to(request: &Option<NamedRequest>, recorded: &Recorded) -> Option<u64>
    ensures reply { IfSome result (HasReply recorded.now.slices request.now) }
    ensures none { IfNone result (LacksReply recorded.now.slices request.now) }
{
    let Some(request) = request else {
        return None;
    };
    let slice = request.slice;
    let entry = recorded
        .log_of(slice)
        .iter()
        .find(|entry| request.is_of(slice, entry))?;
    Some(entry.reply)
}

// Adds the counters' values, in order.
fn read_counters(
    test: &LitmusTest<'_>,
    recorded: &Recorded,
    values: &mut Vec<u64>,
) -> Result<bool, AllocError>
    requires { recorded.now.config ≡ test.now.config }
    ensures read { IfOk result (λ read. IsTrue read
        → AddsMatch (HasWord test.now.config recorded.now.slices) test.now.config.counters
        values.old.items values.new.items) }
    ensures none { IfOk result (λ read. read ≡ false
        → (values : List ℕ) → ¬ Match (HasWord test.now.config recorded.now.slices) test.now.config.counters values) }
{
    for counter in test.config.counters() {
        let Some(value) = recorded.word_now(*counter) else {
            return Ok(false);
        };
        values.push(value)?;
    }
    Ok(true)
}
