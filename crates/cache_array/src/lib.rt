//! The array of a private cache: sets of slots, each with a line and its value, and a policy that says which slot a
//! full set evicts.
//!
//! Lines are named by their place in their slice. Line l has the set l % `sets`, and a set has room for `ways` lines. A
//! set keeps its slots in a list: a line comes in last, and where one leaves, those after it close up. Under LRU a use
//! takes the slot to the end of the list; under FIFO and Random nothing moves.
//!
//! - A set is seen as its list of slots (specs/Set.antt), and the array as its sets and policy (specs/Array.antt). Each
//!   line is in its own set alone, no line occurs twice, and no set has more lines than ways (`IsArray`).
//! - [`CacheArray::find`] says where a line is in its set. [`CacheArray::value`], [`CacheArray::value_mut`] and
//!   [`CacheArray::touch_at`] go there without another search, so a hit looks for its line once. The value left in
//!   the `&mut` of `value_mut` is the line's value, in the same slot (specs/Lending.antt). [`CacheArray::slots`] shows
//!   all lines of a set.
//! - [`CacheArray::insert`], [`CacheArray::write`], [`CacheArray::touch`] and [`CacheArray::remove`] each say what list
//!   they leave (`after`), that no other line's value changes (`held`), and the order of the set's lines as one more
//!   event of their history leaves it (`order`, specs/History.antt).
//! - What each change leaves of every line's value follows from the list that it leaves alone (proofs/Held.antt, to be
//!   named by callers).
//! - [`CacheArray::has_victim`] says whether some line of the set may go: that is where [`CacheArray::victim`] gives
//!   one, whatever the word. `victim` gives a line of the set that the caller allows to go, and none exactly where none
//!   may (specs/Victim.antt). Under LRU no other line that may go was used longer ago, whatever happened before; under
//!   FIFO none came in earlier (`prefers_of` of specs/Policy.antt).
//! - [`Policy`] is what a policy has to say for this. `PolicyKind` of a configuration is one: [`Policy::choose`] takes
//!   the first slot that may go, or under Random the one that the word picks, and some word picks each.
//!
//! Only [`CacheArray::make`] and [`CacheArray::try_clone`] allocate, and only they can fail: for each set, `ways` slots,
//! which are 8 bytes larger than a value. There is a power of two of sets, and a line's set is found by a mask. A call looks for
//! its line among those of one set, or goes to the place that it is given. A reference copies no value. A use under
//! LRU and a removal move the slots after the line's by one place, and a use of the last slot moves nothing.
//!
//! No call can let an array grow: its sets are in a boxed slice, and the capacity of a set's list is, by its type, the
//! number of its ways.
#![tactic(auto)]

pub use array::CacheArray;
pub use policy::Policy;
pub use set::Slot;

mod array;
mod policy;
mod set;
