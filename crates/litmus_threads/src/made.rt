ghost use Rattle.std.specs.Prelude.{◌≡◌, [], ◌∷◌, IsSomeAnd, IsTrue, MatchOption};
ghost use Rattle.core_thread_system.specs.Core.{asked_of};
ghost use Rattle.core_thread_system.specs.Program.{accesses_of};
ghost use Rattle.litmus_test.specs.NamedRequest.{requests_in};
ghost use Rattle.drain.specs.Owned.{HasItsOwn};
ghost use Rattle.litmus_threads.specs.Made.{AreOwners, HasMadeBelow, HaveMadeAll};

use super::threads::steps_at;
use address_map::{Checked, Op, SliceId, WordAddr, is_of_slice};
use core_thread_system::{Core, SystemNames};
use litmus_test::{Action, Thread};
use mshr_file::MissFile;
use receipt_ledger::Ask;

/// Whether each core has made exactly its thread's requests. A core without a thread makes none. Also checks what the
/// cores are and have.
pub(crate) fn have_made_all<F: MissFile, M: SystemNames>(
    config: &Checked,
    threads: &[Thread],
    cores: &[Core<'_, F, M>],
) -> bool
    requires { config.now ≡ M.setup }
    ensures made { IsTrue result → HaveMadeAll M.setup threads.now cores.now }
    ensures owners { IsTrue result → AreOwners M.setup cores.now }
{
    for core in cores {
        if !has_made(config, steps_at(threads, core.core()), core) {
            return false;
        }
    }
    true
}

// Whether the core has made exactly the requests of the steps to each slice, in their order.
fn has_made<F: MissFile, M: SystemNames>(
    config: &Checked,
    steps: &[Action],
    core: &Core<'_, F, M>,
) -> bool
    requires { config.now ≡ M.setup }
    ensures made { IsTrue result → HasMadeBelow M.setup M.setup.slices steps.now core.now }
    ensures own { IsTrue result → HasItsOwn M.setup M.setup.slices core.now }
{
    for slice in 0..config.slices() {
        let slice = SliceId(slice as u8);
        let _own = core.receipts(slice);
        if !are_asked(config, slice, steps, core) {
            return false;
        }
    }
    true
}

// Whether the core has made exactly the requests of the steps to the slice.
fn are_asked<F: MissFile, M: SystemNames>(
    config: &Checked,
    slice: SliceId,
    steps: &[Action],
    core: &Core<'_, F, M>,
) -> bool
    ensures { IsTrue result → accesses_of (asked_of core.now slice.0) ≡ requests_in config.now slice.0 steps.now }
{
    let accepted = core.accepted(slice);
    let mut next = 0;
    for step in steps {
        if let Some((word, op)) = access_in(config, slice, *step) {
            if !is_asked(core.asked(slice, next), word, op) {
                return false;
            }
            next += 1;
        }
    }
    next == accepted
}

// Returns the access of the step to the slice, if it has one.
fn access_in(config: &Checked, slice: SliceId, step: Action) -> Option<(WordAddr, Op)>
    ensures { MatchOption result (requests_in config.now slice.0 (step ∷ []) ≡ [])
        (λ access. requests_in config.now slice.0 (step ∷ []) ≡ access ∷ []) }
{
    match step {
        Action::Access(word, op) if is_of_slice(config, slice, word) => Some((word, op)),
        Action::Access(..) | Action::Settle | Action::Evict(_) => None,
    }
}

// Whether the access is what was requested.
fn is_asked(asked: Option<Ask>, word: WordAddr, op: Op) -> bool
    ensures { IsTrue result → IsSomeAnd asked (λ ask. (ask.request.word ≡ word) × (ask.request.op ≡ op)) }
{
    match asked {
        Some(ask) => ask.request.word == word && ask.request.op == op,
        None => false,
    }
}
