ghost use Rattle.std.specs.Prelude.{◌≡◌, ◌++◌, ◌↔◌, ◌%◌, ◌<◌, All, IfOk, IsTrue, OnOk, Some, drop, map, position, slice_get, true};
ghost use Rattle.std.specs.Prelude.{◌==◌};
ghost use Rattle.address_map.specs.Locator.{local_at};
ghost use Rattle.litmus_script.specs.Machine.{HasAt, log_at};
ghost use Rattle.litmus_text.specs.Command.{HasCore};
ghost use Rattle.mshr_file.specs.Miss.{bound_of};
ghost use Rattle.slice_core.specs.Facts.{front_at};
ghost use Rattle.slice_core_spec.specs.View.{IsQuiet};
ghost use Rattle.slice_queues.specs.Pick.{channel_of, line_of};
ghost use Rattle.program_run.specs.History.{History, HasSeen};
ghost use Rattle.program_run.specs.Kept.{Knows};
ghost use Rattle.program_run.specs.Tidy.{Tidies};
ghost use Rattle.program_run.specs.Run.{
  Accesses,
  HasEnded,
  HaveEnded,
  Leads,
  Makes,
  Performs,
  PerformsAll,
  Turns,
  after_room,
  after_stall,
  after_wake,
  asks_of,
  deliveries_of,
  fewer_registers,
  gone_on,
  is_access,
  left_in,
  makes_room,
  measured_place,
  measured_runner,
  more_registers,
  more_waiting,
  next_of,
  or_else,
  owed_behind,
  owed_from,
  program_of,
  takes_of,
  usage_in,
  usage_of,
  usages_of,
};

use super::calls::Calls;
use super::kept::Kept;
use super::moves::{Move, Place, Takes, Turn, list_moves, next_turn};
use super::observer::Observer;
use super::owed::{is_none, list_owed, owe_all, owe_less, pace_of};
use super::performed::{hand_out_all, list_performed};
use super::register::is_closed;
use super::tally::Tally;
use super::tidy::tidy;
use super::usage::Usage;
use address_map::{CoreId, LineAddr, Request, SliceId};
use litmus_script::{Issued, Machine};
use litmus_test::Progress;
use litmus_text::Command;
use program_text::{CoreProgram, Programs};
use slice_core::{AccessKind, Decision, Delivered, Entry, Message, Pick, Placement};
use std::alloc::{AllocError, Global};
use std::marker::Model;

/// How many moves lie between two reports of progress.
const BETWEEN: u64 = 65_536;

/// A run in progress: the machine with the calls that are made of it, where each program is, and what was seen.
#[derive(Drop)]
pub(crate) struct Runner {
    machine: Machine,
    calls: Calls,
    places: Vec<Place>,
    observer: Observer,
}

impl Model for Runner {
    ghost use Rattle.program_run.specs.Run.{RunnerView};

    ghost Value = { RunnerView };

    ghost view = { λ r. record {
      config = r.machine.config;
      slices = r.machine.slices.items;
      calls = r.calls;
      places = r.places.items;
      observer = r.observer;
    } };
}

impl Runner {
    ghost use Rattle.program_run.specs.Run.{IsNewRunner};

    /// Each program is before its first step, on a new machine. Its calls are kept if they are wanted.
    pub fn new(alloc: Global, programs: &Programs, wanted: bool) -> Result<Self, AllocError>
        ensures { IfOk result
            (IsNewRunner programs.now.config (bound_of programs.now.misses programs.now.config) programs.now wanted) }
    {
        let config = programs.config.try_clone(alloc)?;
        let observer = Observer::new(alloc, &config)?;
        let places = vec![in alloc; Place::first(); programs.cores.len()]?;
        let Ok(machine) = Machine::build(alloc, config, programs.misses) else {
            return Err(AllocError);
        };
        Ok(Runner {
            machine,
            calls: Calls::new(alloc, wanted),
            places,
            observer,
        })
    }

    /// Returns the calls that were made of the machine.
    pub fn calls(&self) -> &[Command]
        ensures { result.now ≡ self.now.calls.made }
    {
        self.calls.made()
    }

    /// Returns what was counted.
    pub fn tally(&self) -> &Tally
        ensures { result.now ≡ self.now.observer.tally }
    {
        &self.observer.tally
    }

    /// Returns what was measured of each core's accesses.
    pub fn usages(&self, alloc: Global, programs: &Programs) -> Result<Vec<Usage>, AllocError>
        ensures { IfOk result
            (λ usages. usages.items ≡ usages_of self.now.config.cores programs.now self.now.places) }
    {
        list_usages(
            alloc,
            self.machine.config.cores(),
            programs,
            self.places.as_slice(),
        )
    }

    /// Measures what each core's accesses take up, after a move, where their number is given.
    pub fn measure(&mut self, limited: bool)
        ensures { self.new ≡ measured_runner limited self.old }
    {
        if limited {
            measure_all(&mut self.places);
        }
    }

    /// Keeps the rings of the slices short, after a move that follows `made` others.
    pub fn tidy(&mut self, made: u64, kept: &mut Kept)
        requires { Knows self.old.config self.old.slices kept.old }
        ensures tidied { Tidies self.old.config.slices made self.old.slices self.new.slices }
        ensures rest { self.new ≡ record self.old { slices = self.new.slices } }
        ensures kept { Knows self.old.config self.new.slices kept.new }
    {
        tidy(&mut self.machine, made, kept);
    }

    /// Reports now and then how many of all steps are taken.
    pub fn tell<P: Progress>(&self, made: u64, programs: &Programs, progress: &mut P) {
        if made % BETWEEN == BETWEEN - 1 {
            let taken = steps_taken(self.places.as_slice());
            progress.done(taken, steps_of(programs.cores.as_slice()));
        }
    }

    /// Lists what may come next, where slice `i` has `owed[i]` deliveries still to make.
    pub fn list_moves(
        &self,
        programs: &Programs,
        owed: &[u64],
        kept: &mut Kept,
        moves: &mut Vec<Move>,
    ) -> Result<(), AllocError>
        requires { Knows self.now.config self.now.slices kept.old }
        ensures moves { OnOk result (moves.new.items ≡ or_else (owed_from owed.now 0 self.now.slices)
            (asks_of self.now.config programs.now self.now.slices self.now.places
            ++ deliveries_of self.now.slices)) }
        ensures kept { OnOk result (Knows self.now.config self.now.slices kept.new) }
    {
        moves.clear();
        list_owed(&self.machine, owed, kept, moves)?;
        if !is_none(moves.as_slice()) {
            return Ok(());
        }
        list_moves(&self.machine, programs, self.places.as_slice(), kept, moves)
    }

    /// Updates how many deliveries each slice has still to make after the move, before that is made.
    pub fn owe(&self, programs: &Programs, to: Move, owed: &mut Vec<u64>)
        ensures { owed.new.items
            ≡ owed_behind self.now.config programs.now self.now.places to owed.old.items }
    {
        match to {
            Move::Ask(number) => {
                if self.is_access(programs, number) {
                    owe_all(owed, pace_of(programs.limits.pace));
                }
            }
            Move::Deliver(pick) => owe_less(owed, self.machine.slice_of(pick.line())),
        }
    }

    // Whether the next step of the program of this number is an access.
    fn is_access(&self, programs: &Programs, number: usize) -> bool
        ensures { result ≡ is_access (next_of self.now.config.cores programs.now self.now.places number) }
    {
        let cores = self.machine.config.cores();
        matches!(
            next_turn(cores, programs, self.places.as_slice(), number),
            Some((_, Turn::Ask(_)))
        )
    }

    /// Makes the move. What a delivery performs is listed for that.
    pub fn go(
        &mut self,
        programs: &Programs,
        to: Move,
        kept: &mut Kept,
        performed: &mut Vec<Entry>,
    ) -> Result<(), AllocError>
        requires { Knows self.old.config self.old.slices kept.old }
        ensures leads { OnOk result (Leads (Makes self.old.config programs.now to) self.old self.new) }
        ensures kept { OnOk result (Knows self.old.config self.new.slices kept.new) }
    {
        match to {
            Move::Ask(number) => self.ask(programs, number, kept),
            Move::Deliver(pick) => self.deliver(programs, pick, kept, performed),
        }
    }

    fn ask(&mut self, programs: &Programs, number: usize, kept: &mut Kept) -> Result<(), AllocError>
        requires { Knows self.old.config self.old.slices kept.old }
        ensures leads { OnOk result
            (Leads (Makes self.old.config programs.now (Move.Ask number)) self.old self.new) }
        ensures kept { OnOk result (Knows self.old.config self.new.slices kept.new) }
    {
        let cores = self.machine.config.cores();
        match next_turn(cores, programs, self.places.as_slice(), number) {
            Some((core, turn)) => self.take_turn(number, core, turn, kept),
            None => Ok(()),
        }
    }

    fn take_turn(
        &mut self,
        number: usize,
        core: CoreId,
        turn: Turn,
        kept: &mut Kept,
    ) -> Result<(), AllocError>
        requires core { HasCore self.old.config core }
        requires kept { Knows self.old.config self.old.slices kept.old }
        ensures leads { OnOk result (Leads (Turns self.old.config number core turn) self.old self.new) }
        ensures kept { OnOk result (Knows self.old.config self.new.slices kept.new) }
    {
        match turn {
            Turn::Ask(request) => self.access(number, core, request, kept),
            Turn::Settled => {
                go_on(&mut self.places, number, Takes::Nothing);
                Ok(())
            }
        }
    }

    fn access(
        &mut self,
        number: usize,
        core: CoreId,
        request: Request,
        kept: &mut Kept,
    ) -> Result<(), AllocError>
        requires core { HasCore self.old.config core }
        requires kept { Knows self.old.config self.old.slices kept.old }
        ensures leads { OnOk result (Leads (Accesses self.old.config number core request) self.old self.new) }
        ensures kept { OnOk result (Knows self.old.config self.new.slices kept.new) }
    {
        let decision = kept.decide(&self.machine, core, request);
        self.calls.push(Command::Issue { core, request })?;
        let issued = kept.issue(&mut self.machine, core, request)?;
        match issued {
            Issued::Done { reply, .. } => {
                self.observer.hit(core, request.word, request.op, reply);
                go_on(&mut self.places, number, Takes::Nothing);
                Ok(())
            }
            Issued::Pending(_) => {
                let line = request.word.line();
                let room = makes_room(decision);
                make_room(room, &self.machine, &mut self.observer, core, line);
                go_on(&mut self.places, number, takes_of(decision));
                Ok(())
            }
            Issued::Stall(stall) => {
                self.observer.stall(core, request.word, stall);
                stop(&mut self.places, number);
                Ok(())
            }
            Issued::Refused(_) => Ok(()),
        }
    }

    fn deliver(
        &mut self,
        programs: &Programs,
        pick: Pick,
        kept: &mut Kept,
        performed: &mut Vec<Entry>,
    ) -> Result<(), AllocError>
        requires { Knows self.old.config self.old.slices kept.old }
        ensures leads { OnOk result
            (Leads (Makes self.old.config programs.now (Move.Deliver pick)) self.old self.new) }
        ensures kept { OnOk result (Knows self.old.config self.new.slices kept.new) }
    {
        let slice = SliceId(self.machine.slice_of(pick.line()) as u8);
        let front = front_of(&self.machine, pick);
        let before = self.machine.log_of(slice).len();
        self.calls.push(Command::Deliver(pick))?;
        match kept.deliver(&mut self.machine, pick) {
            Delivered::Moved => {
                self.observer.deliver(pick, front);
                self.perform(programs, slice, before, kept, performed)?;
                Ok(())
            }
            Delivered::Blocked | Delivered::Nothing | Delivered::Broken(_) => Ok(()),
        }
    }

    // Hands out what the slice performed after its first `before` entries.
    fn perform(
        &mut self,
        programs: &Programs,
        slice: SliceId,
        before: usize,
        kept: &mut Kept,
        performed: &mut Vec<Entry>,
    ) -> Result<(), AllocError>
        requires slice { slice.0 < self.old.config.slices }
        requires kept { Knows self.old.config self.old.slices kept.old }
        ensures leads { OnOk result (Leads
            (PerformsAll self.old.config programs.now slice.0 true (drop before (log_at self.old.slices slice.0)))
            self.old self.new) }
        ensures kept { OnOk result (Knows self.old.config self.new.slices kept.new) }
    {
        list_performed(&self.machine, slice, before, performed)?;
        hand_out_all(self, programs, slice, kept, performed.as_slice())
    }

    /// An access that waited is performed, as the first of its delivery or after others: its reply is handed out, and
    /// its core waits for one less.
    pub fn hand_out(
        &mut self,
        programs: &Programs,
        slice: SliceId,
        entry: Entry,
        is_first: bool,
        kept: &mut Kept,
    ) -> Result<(), AllocError>
        requires slice { slice.0 < self.old.config.slices }
        requires kept { Knows self.old.config self.old.slices kept.old }
        ensures leads { OnOk result
            (Leads (Performs self.old.config programs.now slice.0 is_first entry) self.old self.new) }
        ensures kept { OnOk result (Knows self.old.config self.new.slices kept.new) }
    {
        let core = entry.core;
        if core.0 as usize >= self.machine.config.cores() {
            return Ok(());
        }
        let closes = is_closed(is_first, &self.machine, core, entry.word.line());
        self.calls.push(Command::Hand { core, slice })?;
        let _ = kept.hand(&mut self.machine, core, slice);
        self.observer.perform(entry, is_first);
        wake(
            &mut self.places,
            closes,
            program_of(programs.cores.as_slice(), core),
        );
        Ok(())
    }

    /// Whether all programs ended, nothing is in flight and each reply is handed out.
    pub fn is_over(&self, programs: &Programs) -> bool
        ensures { IsTrue result ↔ (HaveEnded programs.now.cores.items self.now.places
            × All (λ state. IsQuiet state.view) self.now.slices) }
    {
        have_ended(programs.cores.as_slice(), self.places.as_slice()) && self.machine.is_quiet()
    }
}

fn makes_room(decision: Decision) -> bool
    ensures { result ≡ makes_room decision }
{
    matches!(
        decision,
        Decision::Access(
            _,
            AccessKind::PrimaryMiss {
                placement: Placement::Victim,
                ..
            }
        )
    )
}

// Returns what an access takes up that is pending, by what was decided of it.
fn takes_of(decision: Decision) -> Takes
    ensures { result ≡ takes_of decision }
{
    match decision {
        Decision::Access(_, AccessKind::PrimaryMiss { .. }) => Takes::Register,
        _ => Takes::Target,
    }
}

// Notes the line that was evicted, if room was made.
fn make_room(room: bool, machine: &Machine, observer: &mut Observer, core: CoreId, line: LineAddr)
    requires { HasCore machine.now.config core }
    ensures { (history : History) → HasSeen machine.now.config history observer.old
        → HasSeen machine.now.config (after_room machine.now.config.lines room
        (slice_get machine.now.slices.items (line.0 % machine.now.config.slices)) core history) observer.new }
{
    if !room {
        return;
    }
    match left_in(machine, core, line) {
        Some(left) => observer.evict(core, left),
        None => {}
    }
}

// Returns the line that was evicted last in the slice of this line.
fn left_in(machine: &Machine, core: CoreId, line: LineAddr) -> Option<LineAddr>
    requires { HasCore machine.now.config core }
    ensures { result ≡ left_in (slice_get machine.now.slices.items (line.0 % machine.now.config.slices)) core }
{
    let slice = machine.slice_of(line);
    machine.slices[slice].last_written_back(core)
}

// The program of this number has taken one more step, and what this takes up.
fn go_on(places: &mut Vec<Place>, number: usize, takes: Takes)
    ensures { places.new.items ≡ gone_on number takes (slice_get places.old.items number) places.old.items }
{
    if number >= places.len() {
        return;
    }
    let place = &mut places[number];
    place.asked = place.asked.saturating_add(1);
    place.waiting = more_waiting(takes, place.waiting);
    place.registers = more_registers(takes, place.registers);
    place.stalled = false;
}

fn more_waiting(takes: Takes, waiting: u64) -> u64
    ensures { result ≡ more_waiting takes waiting }
{
    match takes {
        Takes::Nothing => waiting,
        Takes::Target | Takes::Register => waiting.saturating_add(1),
    }
}

fn more_registers(takes: Takes, registers: u64) -> u64
    ensures { result ≡ more_registers takes registers }
{
    match takes {
        Takes::Nothing | Takes::Target => registers,
        Takes::Register => registers.saturating_add(1),
    }
}

// The next access of the program of this number stalled.
fn stop(places: &mut Vec<Place>, number: usize)
    ensures { places.new.items ≡ after_stall number (slice_get places.old.items number) places.old.items }
{
    if number >= places.len() {
        return;
    }
    let place = &mut places[number];
    place.stalled = true;
}

// The program of this number waits for one access less, and has one register less if that was closed.
fn wake(places: &mut Vec<Place>, closes: bool, number: Option<usize>)
    ensures { places.new.items ≡ after_wake closes number places.old.items }
{
    let Some(number) = number else {
        return;
    };
    if number >= places.len() {
        return;
    }
    let place = &mut places[number];
    place.waiting = place.waiting.saturating_sub(1);
    place.registers = fewer_registers(closes, place.registers);
}

fn fewer_registers(closes: bool, registers: u64) -> u64
    ensures { result ≡ fewer_registers closes registers }
{
    if closes {
        registers.saturating_sub(1)
    } else {
        registers
    }
}

fn measure_all(places: &mut Vec<Place>)
    ensures { places.new.items ≡ map measured_place places.old.items }
{
    for number in 0..places.len() {
        let place = &mut places[number];
        place.usage = place.usage.measured(place.registers, place.waiting);
    }
}

fn list_usages(
    alloc: Global,
    cores: usize,
    programs: &Programs,
    places: &[Place],
) -> Result<Vec<Usage>, AllocError>
    ensures { IfOk result (λ usages. usages.items ≡ usages_of cores programs.now places.now) }
{
    let mut usages = Vec::new(alloc);
    for core in 0..cores {
        usages.push(usage_of(programs.cores.as_slice(), places, core))?;
    }
    Ok(usages)
}

// Returns what was measured of a core: nothing if it has no program.
fn usage_of(programs: &[CoreProgram], places: &[Place], core: usize) -> Usage
    ensures { result ≡ usage_of programs.now places.now core }
{
    match number_of(programs, core) {
        Some(number) => usage_in(places, number),
        None => Usage::none(),
    }
}

fn number_of(programs: &[CoreProgram], core: usize) -> Option<usize>
    ensures { result ≡ position (λ program. program.core.0 == core) programs.now }
{
    programs
        .iter()
        .position(|program| program.core.0 as usize == core)
}

fn usage_in(places: &[Place], number: usize) -> Usage
    ensures { result ≡ usage_in (slice_get places.now number) }
{
    match places.get(number) {
        Some(place) => place.usage,
        None => Usage::none(),
    }
}

fn program_of(programs: &[CoreProgram], core: CoreId) -> Option<usize>
    ensures { result ≡ program_of programs.now core }
{
    programs.iter().position(|program| program.core.0 == core.0)
}

fn front_of(machine: &Machine, pick: Pick) -> Option<Message>
    ensures { HasAt machine.now.slices.items ((line_of pick).0 % machine.now.config.slices)
        (λ state. result ≡ front_at state.view (local_at state.view.lines (line_of pick).0) (channel_of pick)) }
{
    let slice = machine.slice_of(pick.line());
    machine.slices[slice].front(pick)
}

fn steps_of(programs: &[CoreProgram]) -> u64 {
    let mut steps: u64 = 0;
    for program in programs {
        steps = steps.saturating_add(program.steps.len() as u64);
    }
    steps
}

fn steps_taken(places: &[Place]) -> u64 {
    let mut taken: u64 = 0;
    for place in places {
        taken = taken.saturating_add(place.asked as u64);
    }
    taken
}

fn have_ended(programs: &[CoreProgram], places: &[Place]) -> bool
    ensures { IsTrue result ↔ HaveEnded programs.now places.now }
{
    for number in 0..programs.len() {
        if !has_ended(&programs[number], places, number) {
            return false;
        }
    }
    true
}

fn has_ended(program: &CoreProgram, places: &[Place], number: usize) -> bool
    ensures { IsTrue result ↔ HasEnded program.now (slice_get places.now number) }
{
    match places.get(number) {
        Some(place) => place.asked == program.steps.len(),
        None => false,
    }
}
