ghost use Rattle.std.specs.Prelude.{◌≡◌, ◌++◌, ◌<◌, IfSome, OnOk, Some, false, slice_get, true};
ghost use Rattle.litmus_text.specs.Command.{HasCore};
ghost use Rattle.program_run.specs.Kept.{Knows};
ghost use Rattle.program_text.specs.declared.programs.Step.{Step};
ghost use Rattle.program_run.specs.Run.{
  asks_of,
  decision_on,
  deliveries_of,
  first_place,
  is_tried,
  may_ask,
  may_stall,
  may_step,
  may_step_at,
  may_turn,
  most_of,
  next_by,
  next_of,
  request_of,
  turn_of,
};

use super::front::push_delivery;
use super::kept::Kept;
use super::usage::Usage;
use address_map::{CoreId, Request};
use litmus_script::Machine;
use program_text::{Access, CoreProgram, Programs, Step};
use slice_core::{AccessKind, Decision, Pick};
use std::alloc::AllocError;

/// What may come next.
#[derive(Clone, Copy)]
pub(crate) enum Move {
    /// The next step of the program of this number.
    Ask(usize),
    Deliver(Pick),
}

/// Where a core's program is.
#[derive(Clone, Copy)]
pub(crate) struct Place {
    /// How many steps were taken.
    pub asked: usize,
    /// How many accesses were asked for and aren't performed yet.
    pub waiting: u64,
    /// How many miss registers hold these.
    pub registers: u64,
    /// Whether the next access was asked for, and stalled.
    pub stalled: bool,
    /// What was in use after each move, where that is measured.
    pub usage: Usage,
}

impl Place {
    /// Before the first step.
    pub fn first() -> Self
        ensures { result ≡ first_place }
    {
        Place {
            asked: 0,
            waiting: 0,
            registers: 0,
            stalled: false,
            usage: Usage::none(),
        }
    }
}

/// What an access takes up until it is performed.
#[derive(Clone, Copy)]
pub(crate) enum Takes {
    Nothing,
    /// A target of a miss register that is open.
    Target,
    /// A miss register, and its first target.
    Register,
}

/// How a program goes on.
#[derive(Clone, Copy)]
pub(crate) enum Turn {
    Ask(Request),
    /// Its core has waited for its accesses.
    Settled,
}

/// Lists what may come next after what is listed: steps in the order of the programs, and then a delivery of each
/// slice.
pub(crate) fn list_moves(
    machine: &Machine,
    programs: &Programs,
    places: &[Place],
    kept: &mut Kept,
    moves: &mut Vec<Move>,
) -> Result<(), AllocError>
    requires { Knows machine.now.config machine.now.slices.items kept.old }
    ensures moves { OnOk result (moves.new.items ≡ moves.old.items
        ++ asks_of machine.now.config programs.now machine.now.slices.items places.now
        ++ deliveries_of machine.now.slices.items) }
    ensures kept { OnOk result (Knows machine.now.config machine.now.slices.items kept.new) }
{
    list_asks(machine, programs, places, kept, moves)?;
    list_deliveries(machine, kept, moves)
}

fn list_asks(
    machine: &Machine,
    programs: &Programs,
    places: &[Place],
    kept: &mut Kept,
    moves: &mut Vec<Move>,
) -> Result<(), AllocError>
    requires { Knows machine.now.config machine.now.slices.items kept.old }
    ensures moves { OnOk result (moves.new.items
        ≡ moves.old.items ++ asks_of machine.now.config programs.now machine.now.slices.items places.now) }
    ensures kept { OnOk result (Knows machine.now.config machine.now.slices.items kept.new) }
{
    for number in 0..programs.cores.len() {
        if !may_ask(machine, programs, places, kept, number) {
            continue;
        }
        moves.push(Move::Ask(number))?;
    }
    Ok(())
}

fn list_deliveries(
    machine: &Machine,
    kept: &mut Kept,
    moves: &mut Vec<Move>,
) -> Result<(), AllocError>
    requires { Knows machine.now.config machine.now.slices.items kept.old }
    ensures moves { OnOk result (moves.new.items ≡ moves.old.items ++ deliveries_of machine.now.slices.items) }
    ensures kept { OnOk result (Knows machine.now.config machine.now.slices.items kept.new) }
{
    for slice in 0..machine.slices.len() {
        let next = kept.next(machine, slice);
        push_delivery(next, moves)?;
    }
    Ok(())
}

// Whether the program's next step may be taken: an access neither stalls nor is refused, or its stall is to be counted.
fn may_ask(
    machine: &Machine,
    programs: &Programs,
    places: &[Place],
    kept: &mut Kept,
    number: usize,
) -> bool
    requires { Knows machine.now.config machine.now.slices.items kept.old }
    ensures may { result ≡ may_ask machine.now.config programs.now machine.now.slices.items places.now number }
    ensures kept { Knows machine.now.config machine.now.slices.items kept.new }
{
    if has_to_wait(programs.limits.outstanding, places, number) {
        return false;
    }
    let stalls = may_stall(programs.limits.outstanding, places, number);
    match next_turn(machine.config.cores(), programs, places, number) {
        Some((core, turn)) => may_turn(machine, kept, stalls, core, turn),
        None => false,
    }
}

// Whether a program plainly takes no step: the most accesses allowed wait, or there is no such program. It is checked
// first, since most wait.
fn has_to_wait(most: Option<u64>, places: &[Place], number: usize) -> bool
    ensures { result ≡ true → (step : Step) → may_step_at most (slice_get places.now number) step ≡ false }
{
    match places.get(number) {
        Some(place) => place.waiting > 0 && place.waiting >= most_of(most),
        None => true,
    }
}

// Whether a stall would be counted: once of each access, and only where several may be under way.
fn may_stall(most: Option<u64>, places: &[Place], number: usize) -> bool
    ensures { result ≡ may_stall most (slice_get places.now number) }
{
    match (most, places.get(number)) {
        (Some(_), Some(place)) => !place.stalled,
        _ => false,
    }
}

fn may_turn(machine: &Machine, kept: &mut Kept, stalls: bool, core: CoreId, turn: Turn) -> bool
    requires core { HasCore machine.now.config core }
    requires kept { Knows machine.now.config machine.now.slices.items kept.old }
    ensures may { result ≡ may_turn machine.now.config machine.now.slices.items stalls core turn }
    ensures kept { Knows machine.now.config machine.now.slices.items kept.new }
{
    match turn {
        Turn::Ask(request) => is_tried(stalls, kept.decide(machine, core, request)),
        Turn::Settled => true,
    }
}

fn is_tried(stalls: bool, decision: Decision) -> bool
    ensures { result ≡ is_tried stalls (Some decision) }
{
    match decision {
        Decision::Refuse(_) => false,
        Decision::Access(_, AccessKind::Stall(_)) => stalls,
        Decision::Access(_, _) => true,
    }
}

/// Returns how program `number` goes on, and its core, if it may go on and its core is one of `cores`.
pub(crate) fn next_turn(
    cores: usize,
    programs: &Programs,
    places: &[Place],
    number: usize,
) -> Option<(CoreId, Turn)>
    ensures next { result ≡ next_of cores programs.now places.now number }
    ensures known { IfSome result (λ next. next.0.0 < cores) }
{
    match (programs.cores.get(number), places.get(number)) {
        (Some(program), Some(place)) => {
            next_of_program(cores, programs.limits.outstanding, program, *place)
        }
        _ => None,
    }
}

fn next_of_program(
    cores: usize,
    most: Option<u64>,
    program: &CoreProgram,
    place: Place,
) -> Option<(CoreId, Turn)>
    ensures next { result ≡ next_by cores most (Some program.now) (Some place) }
    ensures known { IfSome result (λ next. next.0.0 < cores) }
{
    if program.core.0 as usize >= cores {
        return None;
    }
    let Some(step) = program.steps.get(place.asked) else {
        return None;
    };
    if !may_step(most, place, *step) {
        return None;
    }
    Some((program.core, turn_of(place, *step)))
}

// Whether a program that is there may take the step.
fn may_step(most: Option<u64>, place: Place, step: Step) -> bool
    ensures { result ≡ may_step most place step }
{
    match step {
        Step::Access(_) => place.waiting < most_of(most),
        Step::Settle => place.waiting == 0,
    }
}

// Returns how many accesses of a core may be under way.
fn most_of(most: Option<u64>) -> u64
    ensures { result ≡ most_of most }
{
    match most {
        Some(most) => most,
        None => 1,
    }
}

fn turn_of(place: Place, step: Step) -> Turn
    ensures { result ≡ turn_of place step }
{
    match step {
        Step::Access(access) => Turn::Ask(request_of(place, access)),
        Step::Settle => Turn::Settled,
    }
}

/// Returns what the machine would decide of a request.
pub(crate) fn decide(machine: &Machine, core: CoreId, request: Request) -> Decision
    requires { HasCore machine.now.config core }
    ensures { decision_on machine.now.config machine.now.slices.items core request ≡ Some result }
{
    let slice = machine.slice_of(request.word.line());
    machine.slices[slice].decide(core, request)
}

// An access has a tag by its place in the program, so that those under way have different ones.
fn request_of(place: Place, access: Access) -> Request
    ensures { result ≡ request_of place access }
{
    Request {
        op: access.op,
        word: access.word,
        tag: (place.asked % 64) as u8,
    }
}
