ghost use Rattle.std.specs.Prelude.{◌≡◌, ◌↔◌, ◌<◌, ℕ, IfOk, IsSome, IsTrue, length, map};
ghost use Rattle.litmus_test.specs.declared.test.LitmusTest.{LitmusTest};
ghost use Rattle.std.specs.List.{range_with_len};
ghost use Rattle.address_map.specs.Place.{line_of, slice_of};
ghost use Rattle.litmus_test.specs.NamedRequest.{requests_in, named_request_at, named_request_of, IsOf, IsIn};

use crate::{Action, LitmusTest, Thread};
use address_map::{Checked, CoreId, SliceId, WordAddr, is_of_slice, slice_of};
use slice_log::Entry;
use std::alloc::{AllocError, Global};

/// A request of a litmus test, identified by its entry in the log of a slice.
#[derive(Clone, Copy, Debug, PartialEq, Eq)]
pub struct NamedRequest {
    pub core: CoreId,
    pub slice: SliceId,
    /// The number of requests that the core makes to the slice before this one.
    pub seq: u64,
}

impl NamedRequest {
    /// Returns the request whose reply has the name of this number, or none if the test has no such name, or the name
    /// is of no access.
    pub fn of(test: &LitmusTest<'_>, name: usize) -> Option<Self>
        ensures { result ≡ named_request_of test.now name }
    {
        let named = test.names.get(name)?;
        let thread = test.threads.get(named.thread)?;
        NamedRequest::at(&test.config, thread, named.step)
    }

    /// Returns the requests of all names, in their order.
    pub fn all(alloc: Global, test: &LitmusTest<'_>) -> Result<Vec<Option<Self>>, AllocError>
        ensures { IfOk result
            (λ all. all.items ≡ map (named_request_of test.now) (range_with_len 0 (length test.now.names.items))) }
    {
        let mut all = Vec::new(alloc);
        for name in 0..test.names.len() {
            all.push(NamedRequest::of(test, name))?;
        }
        Ok(all)
    }

    // Returns the request of a step of a thread.
    fn at(config: &Checked, thread: &Thread, step: usize) -> Option<Self>
        ensures { result ≡ named_request_at config.now thread.now step }
    {
        let Action::Access(word, _) = *thread.steps.get(step)? else {
            return None;
        };
        let slice = slice_of(config, word.line());
        Some(NamedRequest {
            core: thread.core,
            slice,
            seq: count_in(config, slice, &thread.steps[..step]),
        })
    }

    /// Whether an entry in the log of this slice is of the request.
    pub fn is_of(&self, slice: SliceId, entry: &Entry) -> bool
        ensures { IsTrue result ↔ IsOf self.now slice entry.now }
    {
        entry.core == self.core && slice == self.slice && entry.seq == self.seq
    }
}

/// Each name of a litmus test is of an access, so there is a request whose reply has it.
pub fn each_name_is_sought()
    ensures { (test : LitmusTest) (name : ℕ) → name < length test.names.items → IsSome (named_request_of test name) }
{}

// Returns the number of steps that are accesses to words of the slice.
fn count_in(config: &Checked, slice: SliceId, steps: &[Action]) -> u64
    ensures { result ≡ length (requests_in config.now slice.0 steps.now) }
{
    let mut count = 0;
    for step in steps {
        if is_in(config, slice, *step) {
            count += 1;
        }
    }
    count
}

fn is_in(config: &Checked, slice: SliceId, step: Action) -> bool
    ensures { IsTrue result ↔ IsIn config.now slice.0 step }
{
    match step {
        Action::Access(word, _) => is_of_slice(config, slice, word),
        Action::Settle | Action::Evict(_) => false,
    }
}
