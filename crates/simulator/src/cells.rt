//! The cell of the protocol's tables that a call of a slice would meet.
ghost use Rattle.std.specs.Prelude.{◌≡◌, ◌<◌, length};
ghost use Rattle.script_explained.specs.Delivery.{case_at, who_takes};
ghost use Rattle.script_explained.specs.Look.{copy_at, entry_of};
ghost use Rattle.simulator.specs.Cells.{cell_of_delivery, cell_of_eviction, cell_of_issue, outcome_with_room};

use address_map::{CoreId, LineAddr, Request};
use mshr_file::EitherFile;
use script_coverage::{
    Cell, Outcome, TableEvent, TableState, cell_at, outcome_of_decision, outcome_of_plan,
};
use slice_core::{CopyState, DirState, Pick, SliceState};
use slice_text::{Case, Event, Who};

/// .. that an access would meet.
pub(crate) fn of_issue(
    state: &SliceState<EitherFile>,
    core: CoreId,
    request: Request,
) -> Option<Cell>
    requires { core.0 < length state.now.view.caches }
    ensures { result ≡ cell_of_issue state.now.view core request }
{
    let case = Case {
        who: Who::Core {
            core,
            state: copy(state, request.word.line(), core),
        },
        event: Event::of(request.op),
    };
    cell_at(case, outcome_of_decision(state.decide(core, request)))
}

/// .. that an eviction would, where the write-back buffer has room for it.
pub(crate) fn of_eviction(state: &SliceState<EitherFile>, core: CoreId, line: LineAddr) -> Cell
    ensures { result ≡ cell_of_eviction state.now.view core line }
{
    let copy = copy(state, line, core);
    Cell {
        state: TableState::Cache(copy),
        event: TableEvent::Eviction,
        outcome: outcome_with_room(copy),
    }
}

const fn outcome_with_room(copy: CopyState) -> Outcome
    ensures { result ≡ outcome_with_room copy }
{
    match copy {
        CopyState::I => Outcome::NotHeld,
        CopyState::S => Outcome::To(TableState::Cache(CopyState::SI_A)),
        CopyState::M | CopyState::E => Outcome::To(TableState::Cache(CopyState::MI_A)),
        _ => Outcome::Busy,
    }
}

/// .. that the message in front of a channel would.
pub(crate) fn of_delivery(state: &SliceState<EitherFile>, pick: Pick) -> Option<Cell>
    ensures { result ≡ cell_of_delivery state.now.view pick }
{
    let case = case(state, pick)?;
    cell_at(case, outcome_of_plan(state.plan(pick)))
}

/// Returns the case that the message in front of a channel meets.
fn case(state: &SliceState<EitherFile>, pick: Pick) -> Option<Case>
    ensures { result ≡ case_at 0 state.now.view pick }
{
    let message = state.front(pick)?;
    Some(Case {
        who: who(state, pick),
        event: Event::Message(message),
    })
}

/// Returns who takes the messages of a channel.
fn who(state: &SliceState<EitherFile>, pick: Pick) -> Who
    ensures { result ≡ who_takes 0 state.now.view pick }
{
    match pick {
        Pick::Req(line, _) | Pick::Home(line) => Who::Directory {
            slice: 0,
            state: entry(state, line),
        },
        Pick::Fwd(line, core) | Pick::Data(line, core) | Pick::Ack { line, to: core, .. } => {
            Who::Core {
                core,
                state: copy(state, line, core),
            }
        }
    }
}

/// Returns the state of a core's copy of a line.
fn copy(state: &SliceState<EitherFile>, line: LineAddr, core: CoreId) -> CopyState
    ensures { result ≡ copy_at state.now.view line core }
{
    if core.0 as usize >= state.cores() {
        return CopyState::I;
    }
    match state.copy(core, line) {
        Some(copy) => copy.state,
        None => CopyState::I,
    }
}

/// Returns the state of the directory's entry of a line.
fn entry(state: &SliceState<EitherFile>, line: LineAddr) -> DirState
    ensures { result ≡ entry_of state.now.view line }
{
    match state.line_view(line) {
        Some(view) => view.dir,
        None => DirState::I,
    }
}
