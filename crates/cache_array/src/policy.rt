ghost use Rattle.std.specs.Prelude.{◌≡◌, ◌<◌, ℕ, Bool, List, Option, IfSome, length, slice_get};
ghost use Rattle.address_map.specs.declared.address.Local.{Local};
ghost use Rattle.address_map.specs.declared.config.PolicyKind.TheVariants as policy_kinds;
ghost use Rattle.cache_array.specs.History.{Event};
ghost use Rattle.cache_array.specs.Policy.{allowed_slots, first_allowed, picked_by, choice_of, moves_of, prefers_of};
ghost use Rattle.cache_array.specs.Policy.{IsAllowed, IsPreferred, CanPickEach};

use address_map::PolicyKind;

/// Which slot of a set is evicted. A set keeps its slots in a list, and a line comes in at its end.
pub trait Policy {
    // whether a use moves the slot
    ghost moves: { Self → Bool };

    // the slot that is evicted
    ghost choice: { Self → List Bool → ℕ → Option ℕ };

    // what is known of the line evicted, after a history of its set, and another that might have been
    ghost prefers: { Self → List Event → Local → Local → Type 0 };

    /// Whether a use takes a slot to the end of its set.
    fn moves_on_use(&self) -> bool
        ensures { result ≡ moves self.now };

    /// The place in the set's list of the slot to evict, where `allowed` says for each slot whether it may go. A
    /// policy that needs randomness takes it from `word`.
    fn choose(&self, allowed: &[bool], word: u64) -> Option<usize>
        ensures choice { result ≡ choice self.now allowed.now word }
        ensures allowed { IsAllowed allowed.now result }
        ensures preferred { IfSome result (IsPreferred (moves self.now) (prefers self.now) allowed.now) };
}

/// The policies that a configuration names.
impl Policy for PolicyKind {
    ghost moves = { moves_of };

    ghost choice = { choice_of };

    ghost prefers = { prefers_of };

    fn moves_on_use(&self) -> bool {
        matches!(self, PolicyKind::Lru)
    }

    fn choose(&self, allowed: &[bool], word: u64) -> Option<usize>
        ensures choice { result ≡ choice_of self.now allowed.now word }
        ensures allowed { IsAllowed allowed.now result }
        ensures preferred { IfSome result (IsPreferred (moves_of self.now) (prefers_of self.now) allowed.now) }
        ensures random { (seed : ℕ) → self.now ≡ policy_kinds.Random seed → CanPickEach allowed.now }
    {
        match self {
            PolicyKind::Lru | PolicyKind::Fifo => first_allowed(allowed),
            PolicyKind::Random(_) => pick(allowed, word),
        }
    }
}

// The first slot that may go.
fn first_allowed(allowed: &[bool]) -> Option<usize>
    ensures { result ≡ first_allowed allowed.now }
{
    allowed.iter().position(|may_go| *may_go)
}

// The slot that the word picks among those that may go.
#[tactic(auto, using(crate::proofs::Choices::none_to_pick))]
fn pick(allowed: &[bool], word: u64) -> Option<usize>
    ensures { result ≡ picked_by allowed.now word }
{
    let count = count_allowed(allowed);
    if count == 0 {
        return None;
    }
    nth_allowed(allowed, (word % count as u64) as usize)
}

#[tactic(auto, using(crate::proofs::Choices::count_is))]
fn count_allowed(allowed: &[bool]) -> usize
    ensures { result ≡ length (allowed_slots allowed.now) }
{
    allowed.iter().filter(|may_go| **may_go).count()
}

// The slot that has `rank` slots that may go before it.
fn nth_allowed(allowed: &[bool], rank: usize) -> Option<usize>
    ensures { result ≡ slice_get (allowed_slots allowed.now) rank }
{
    let mut before = rank;
    for (slot, may_go) in allowed.iter().enumerate() {
        if *may_go {
            if before == 0 {
                return Some(slot);
            }
            before -= 1;
        }
    }
    None
}
