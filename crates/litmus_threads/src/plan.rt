ghost use Rattle.std.specs.Prelude.{◌≡◌, IfOk};
ghost use Rattle.litmus_threads.specs.Round.{named_requests_of};

use core_thread::Movers;
use litmus_test::{LitmusTest, NamedRequest};
use std::alloc::{AllocError, Global};

/// What all rounds of a test have in common.
#[derive(Drop)]
pub(crate) struct Plan {
    pub alloc: Global,
    /// The request of each name.
    pub named_requests: Vec<Option<NamedRequest>>,
    /// The threads that move messages.
    pub movers: Movers,
    /// The seed from which the turns of all rounds are drawn.
    pub seed: u64,
    /// The most turns of a thread, calls of a mover, and rounds of a drain.
    pub limit: u64,
}

impl Plan {
    pub(crate) fn new(
        alloc: Global,
        test: &LitmusTest<'_>,
        seed: u64,
        limit: u64,
    ) -> Result<Plan, AllocError>
        ensures named_requests { IfOk result (λ plan. plan.named_requests.items ≡ named_requests_of test.now) }
        ensures movers { IfOk result (λ plan. plan.movers.count ≡ test.now.movers) }
    {
        let named_requests = NamedRequest::all(alloc, test)?;
        let Some(movers) = Movers::new(test.movers) else {
            unreachable!()
        };
        Ok(Plan {
            alloc,
            named_requests,
            movers,
            seed,
            limit,
        })
    }
}
