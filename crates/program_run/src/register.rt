ghost use Rattle.std.specs.Prelude.{◌≡◌, ◌==◌, ◌%◌, ◌<◌, length, slice_get};
ghost use Rattle.address_map.specs.Locator.{local_at};
ghost use Rattle.litmus_text.specs.Command.{HasCore};
ghost use Rattle.slice_core.specs.Facts.{targets_at};
ghost use Rattle.program_run.specs.Register.{waits_in};
ghost use Rattle.program_run.specs.Run.{is_closed};

use address_map::{CoreId, LineAddr};
use litmus_script::Machine;
use mshr_file::EitherFile;
use slice_core::{CacheCopy, SliceState};

/// Whether the delivery has closed the register of a core's line: it performs its first access, and none of the core
/// waits for the line any more.
pub(crate) fn is_closed(is_first: bool, machine: &Machine, core: CoreId, line: LineAddr) -> bool
    requires { HasCore machine.now.config core }
    ensures { result ≡ is_closed is_first
        (slice_get machine.now.slices.items (line.0 % machine.now.config.slices)) core line }
{
    if !is_first {
        return false;
    }
    let slice = machine.slice_of(line);
    is_unwaited(&machine.slices[slice], core, line)
}

// Whether no access of the core waits for the line. Its copy says so: a list of its targets is large.
fn is_unwaited(state: &SliceState<EitherFile>, core: CoreId, line: LineAddr) -> bool
    requires { core.0 < length state.now.view.caches }
    ensures { result ≡ (length (targets_at state.now.view core (local_at state.now.view.lines line.0)) == 0) }
{
    let _ = state.log();
    !waits_in(state.copy(core, line))
}

// Whether a copy waits, where there is one.
fn waits_in(copy: Option<CacheCopy>) -> bool
    ensures { result ≡ waits_in copy }
{
    match copy {
        Some(copy) => copy.state.is_waiting(),
        None => false,
    }
}
