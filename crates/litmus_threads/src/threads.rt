ghost use Rattle.std.specs.Prelude.{◌≡◌};
ghost use Rattle.std.specs.Option.{option_map};
ghost use Rattle.litmus_threads.specs.Threads.{steps_at, thread_at};

use address_map::CoreId;
use litmus_test::{Action, Thread};

/// Returns the thread of a core, if it has one.
pub(crate) fn thread_at(threads: &[Thread], core: CoreId) -> Option<&Thread>
    ensures { option_map (λ thread. thread.now) result ≡ thread_at threads.now core }
{
    threads.iter().find(|thread| thread.core == core)
}

/// Returns its steps. A core without a thread has none.
pub(crate) fn steps_at(threads: &[Thread], core: CoreId) -> &[Action]
    ensures { result.now ≡ steps_at threads.now core }
{
    match thread_at(threads, core) {
        Some(thread) => thread.steps.as_slice(),
        None => &[],
    }
}
