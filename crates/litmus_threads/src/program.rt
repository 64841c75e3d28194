ghost use Rattle.std.specs.Prelude.{◌≡◌, IfOk};
ghost use Rattle.litmus_threads.specs.Program.{program_of, step_of};

use core_thread_system::Step;
use litmus_test::Action;
use rand_core::utils::NextWord;
use rand_xoshiro::Xoshiro256PlusPlus;
use std::alloc::{AllocError, Global};

/// Returns the program of a core that does these steps, each after at most three turns. The turns are drawn, one word
/// per step, so that threads interleave differently in different rounds.
pub(crate) fn program_of(
    alloc: Global,
    steps: &[Action],
    words: &mut Xoshiro256PlusPlus,
) -> Result<Vec<Step>, AllocError>
    ensures { IfOk result (λ program. program.items ≡ program_of words.old steps.now) }
{
    let mut program = Vec::new(alloc);
    for step in steps {
        program.push(Step::Turns((words.next_word() % 4) as u8))?;
        program.push(step_of(*step))?;
    }
    Ok(program)
}

// Returns the step as one of a core's program.
fn step_of(step: Action) -> Step
    ensures { result ≡ step_of step }
{
    match step {
        Action::Access(word, op) => Step::Access(word, op),
        Action::Settle => Step::Settle,
        Action::Evict(line) => Step::Evict(line),
    }
}
