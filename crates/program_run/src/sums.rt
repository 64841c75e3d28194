ghost use Rattle.std.specs.Prelude.{IfOk};
ghost use Rattle.mshr_file.specs.Miss.{bound_of};
ghost use Rattle.program_run.specs.Sums.{IsCounted};

use super::run::run;
use super::runner::Runner;
use super::tally::Counts;
use super::usage::{Usage, usage_of_all};
use litmus_test::Silent;
use program_text::Programs;
use std::alloc::{AllocError, Global};

/// What a run counted of all lines together, and what was in use of all cores together, where several accesses of each
/// may be under way.
#[derive(Clone, Copy)]
pub struct Sums {
    pub counts: Counts,
    pub usage: Usage,
}

/// Runs programs in the order that the seed draws, and returns the sums of what was counted: none if nothing can
/// move before the end.
pub fn count_programs(
    alloc: Global,
    programs: &Programs,
    seed: u64,
) -> Result<Option<Sums>, AllocError>
    ensures { IfOk result (IsCounted (bound_of programs.now.misses programs.now.config) programs.now seed) }
{
    let mut runner = Runner::new(alloc, programs, false)?;
    let mut silent = Silent;
    run(alloc, programs, seed, &mut runner, &mut silent)?;
    if runner.is_over(programs) {
        let usages = runner.usages(alloc, programs)?;
        let counts = runner.tally().all();
        let usage = usage_of_all(usages.as_slice());
        Ok(Some(Sums { counts, usage }))
    } else {
        Ok(None)
    }
}
