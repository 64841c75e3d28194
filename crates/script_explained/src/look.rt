//! What can be seen of a slice's lines.
ghost use Rattle.std.specs.Prelude.{◌≡◌};
ghost use Rattle.script_explained.specs.Look.{copy_at, entry_of};

use address_map::{CoreId, LineAddr};
use mshr_file::EitherFile;
use slice_core::{CopyState, DirState, SliceState};

/// Returns the state of a core's copy of a line.
pub(crate) fn copy(state: &SliceState<EitherFile>, line: LineAddr, core: CoreId) -> CopyState
    ensures { result ≡ copy_at state.now.view line core }
{
    if core.0 as usize >= state.cores() {
        return CopyState::I;
    }
    match state.copy(core, line) {
        Some(copy) => copy.state,
        None => CopyState::I,
    }
}

/// Returns the state of the directory's entry of a line.
pub(crate) fn entry(state: &SliceState<EitherFile>, line: LineAddr) -> DirState
    ensures { result ≡ entry_of state.now.view line }
{
    match state.line_view(line) {
        Some(view) => view.dir,
        None => DirState::I,
    }
}
