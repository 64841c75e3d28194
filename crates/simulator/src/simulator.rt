ghost use Rattle.std.specs.Prelude.{◌≡◌, ◌/◌, ◌%◌, ◌<◌, ◌↔◌, All, IfErr, IfOk, IfSome, IsTrue, length};
ghost use Rattle.address_map.specs.Locator.{local_at};
ghost use Rattle.address_map.specs.Place.{line_of as line_of_word};
ghost use Rattle.litmus_script.specs.Issued.{IsIssued, IsOutOfMemory};
ghost use Rattle.litmus_script.specs.Machine.{HasAt, IsAnswered, IsLineView, IsShownWord, log_at};
ghost use Rattle.litmus_text.specs.Command.{HasCore};
ghost use Rattle.simulator.specs.Cells.{HasItsCore, MeetsCell};
ghost use Rattle.simulator.specs.Looks.{IsCountOf, message_at, register_at, waiting_at};
ghost use Rattle.simulator.specs.NewLog.{BeginsLogAt};
ghost use Rattle.simulator.specs.Simulator.{IsCopyOf, IsNewSimulator, IsNotBuilt, config_of, slices_of};
ghost use Rattle.slice_core.specs.Facts.{copy_at, targets_at};
ghost use Rattle.slice_core.specs.declared.run.Call.TheVariants as slice_calls;
ghost use Rattle.slice_core.specs.declared.run.CallAnswer.TheVariants as call_answers;
ghost use Rattle.slice_core_spec.specs.Calls.{next_pick};
ghost use Rattle.slice_core_spec.specs.Decision.{decision_of};
ghost use Rattle.slice_core_spec.specs.Plan.{planned_at};
ghost use Rattle.slice_core_spec.specs.View.{IsQuiet};
ghost use Rattle.slice_core_exec.specs.CoreLines.{lines_of_core};
ghost use Rattle.slice_core_exec.specs.declared.core_lines.CoreLines.TheVariants as core_lines;
ghost use Rattle.slice_queues.specs.Pick.{line_of};

use super::looks::MissRegister;
use super::{cells, looks};
use address_map::{Checked, CoreId, LineAddr, Request, SliceId, WordAddr};
use arrayvec::ArrayVec;
use litmus_script::{Issued, Machine};
use litmus_text::{Command, Settings, TextFault};
use mshr_file::Target;
use script_coverage::Cell;
use slice_core::{
    CacheCopy, Class, CoreLines, Decision, Delivered, DeliveredNext, Entry, Evicted, LineView,
    Message, Numbered, Pick, Plan, Stats,
};
use std::alloc::{AllocError, Global};

/// A machine of scripts, called one call at a time.
#[derive(Drop)]
pub struct Simulator {
    pub machine: Machine,
}

impl Simulator {
    /// Builds a machine of these settings, in which nothing was asked for yet.
    pub fn build(alloc: Global, settings: Settings) -> Result<Self, TextFault>
        ensures new { IfOk result (IsNewSimulator settings) }
        ensures fault { IfErr result (IsNotBuilt settings.config) }
    {
        let Settings { config, misses } = settings;
        let config = config.check().map_err(TextFault::Config)?;
        let machine = Machine::build(alloc, config, misses)?;
        Ok(Simulator { machine })
    }

    /// Returns the same machine, in memory of its own: it goes on by itself.
    pub fn try_clone(&self) -> Result<Self, AllocError>
        ensures { IfOk result (IsCopyOf self.now) }
    {
        let machine = self.machine.try_clone()?;
        Ok(Simulator { machine })
    }

    pub fn config(&self) -> &Checked
        ensures { result.now ≡ config_of self.now }
    {
        &self.machine.config
    }

    /// Returns the slice of a line. A remainder by a number that isn't known costs half as much as a hit.
    #[inline(always)]
    fn slice_of(&self, line: LineAddr) -> usize
        ensures slice { result ≡ line.0 % (config_of self.now).slices }
        ensures known { result < length (slices_of self.now) }
    {
        let slices = self.machine.config.slices() as u64;
        let slice = match slices {
            1 => 0,
            2 => line.0 % 2,
            4 => line.0 % 4,
            _ => line.0 % slices,
        };
        slice as usize
    }

    /// A word past the memory goes to slice 0, which refuses it.
    pub fn issue(&mut self, core: CoreId, request: Request) -> Result<Issued, TextFault>
        requires { HasCore (config_of self.old) core }
        ensures config { config_of self.new ≡ config_of self.old }
        ensures issued { IfOk result (λ issued. IsIssued ((line_of_word request.word).0 % (config_of self.old).slices)
            core request issued (slices_of self.old) (slices_of self.new)) }
        ensures memory { IfErr result (λ fault. IsOutOfMemory
            ((line_of_word request.word).0 % (config_of self.old).slices)
            core request (slices_of self.old) (slices_of self.new)) }
    {
        let slice = self.slice_of(request.word.line());
        litmus_script::issue(&mut self.machine.slices[slice], core, request)
    }

    pub fn evict(&mut self, core: CoreId, line: LineAddr) -> Evicted
        requires { HasCore (config_of self.old) core }
        ensures config { config_of self.new ≡ config_of self.old }
        ensures answered { IsAnswered (line.0 % (config_of self.old).slices)
            (slice_calls.Evict core line) (call_answers.Evict result) (slices_of self.old) (slices_of self.new) }
    {
        self.machine.evict(core, line)
    }

    pub fn deliver(&mut self, pick: Pick) -> Delivered
        ensures config { config_of self.new ≡ config_of self.old }
        ensures answered { IsAnswered ((line_of pick).0 % (config_of self.old).slices)
            (slice_calls.Deliver pick) (call_answers.Deliver result) (slices_of self.old) (slices_of self.new) }
    {
        let slice = self.slice_of(pick.line());
        self.machine.slices[slice].deliver(pick)
    }

    /// Delivers the next message of a slice and of these channels that can be moved.
    pub fn deliver_next(&mut self, slice: SliceId, class: Class) -> DeliveredNext
        requires { slice.0 < (config_of self.old).slices }
        ensures config { config_of self.new ≡ config_of self.old }
        ensures answered { IsAnswered slice.0 (slice_calls.DeliverNext class) (call_answers.DeliverNext result)
            (slices_of self.old) (slices_of self.new) }
    {
        self.machine.slices[slice.0 as usize].deliver_next(class)
    }

    pub fn hand(&mut self, core: CoreId, slice: SliceId) -> Option<Numbered>
        requires core { HasCore (config_of self.old) core }
        requires slice { slice.0 < (config_of self.old).slices }
        ensures config { config_of self.new ≡ config_of self.old }
        ensures answered { IsAnswered slice.0 (slice_calls.Hand core) (call_answers.Hand result)
            (slices_of self.old) (slices_of self.new) }
    {
        self.machine.hand(core, slice)
    }

    /// Begins a new log of a slice where it is quiet, and returns whether it is: see `SliceState::begin_log` of `slice_core`.
    pub fn begin_log(&mut self, alloc: Global, slice: SliceId) -> Result<bool, AllocError>
        requires { slice.0 < (config_of self.old).slices }
        ensures config { config_of self.new ≡ config_of self.old }
        ensures begun { BeginsLogAt slice.0 result (slices_of self.old) (slices_of self.new) }
    {
        self.machine.slices[slice.0 as usize].begin_log(alloc)
    }

    /// Returns what [`Simulator::issue`] would decide of the request.
    pub fn decide(&self, core: CoreId, request: Request) -> Decision
        requires { HasCore (config_of self.now) core }
        ensures { HasAt (slices_of self.now) ((line_of_word request.word).0 % (config_of self.now).slices)
            (λ state. result ≡ decision_of state.view core request) }
    {
        self.machine.slices[self.slice_of(request.word.line())].decide(core, request)
    }

    /// Returns what [`Simulator::deliver`] would do.
    pub fn plan(&self, pick: Pick) -> Plan
        ensures { HasAt (slices_of self.now) ((line_of pick).0 % (config_of self.now).slices)
            (λ state. result ≡ planned_at state.view pick) }
    {
        self.machine.slices[self.slice_of(pick.line())].plan(pick)
    }

    /// Returns what [`Simulator::deliver_next`] would deliver.
    pub fn next(&self, slice: SliceId, class: Class) -> DeliveredNext
        requires { slice.0 < (config_of self.now).slices }
        ensures { HasAt (slices_of self.now) slice.0 (λ state. result ≡ next_pick state class) }
    {
        self.machine.slices[slice.0 as usize].next(class)
    }

    /// The cell of the tables that a command would meet: an eviction as where the write-back buffer has room for it.
    pub fn cell(&self, command: Command) -> Option<Cell>
        requires { HasItsCore (config_of self.now) command }
        ensures { MeetsCell (config_of self.now) (slices_of self.now) command result }
    {
        match command {
            Command::Issue { core, request } => {
                let slice = self.slice_of(request.word.line());
                cells::of_issue(&self.machine.slices[slice], core, request)
            }
            Command::Evict { core, line } => {
                let slice = self.slice_of(line);
                Some(cells::of_eviction(&self.machine.slices[slice], core, line))
            }
            Command::Deliver(pick) => {
                let slice = self.slice_of(pick.line());
                cells::of_delivery(&self.machine.slices[slice], pick)
            }
            _ => None,
        }
    }

    /// Returns a core's copy of a line, also one being written back: none of a line that the memory doesn't have.
    pub fn copy(&self, core: CoreId, line: LineAddr) -> Option<CacheCopy>
        requires { HasCore (config_of self.now) core }
        ensures { HasAt (slices_of self.now) (line.0 % (config_of self.now).slices)
            (λ state. result ≡ copy_at state.view core (local_at state.view.lines line.0)) }
    {
        self.machine.slices[self.slice_of(line)].copy(core, line)
    }

    /// Returns what its slice has of a line: none for a line that the memory doesn't have.
    pub fn line(&self, line: LineAddr) -> Option<LineView>
        ensures { IsLineView (slices_of self.now) (line.0 % (config_of self.now).slices) line result }
    {
        self.machine.view(line)
    }

    /// Returns the accesses of a core that wait for a line, the oldest first.
    pub fn targets(&self, core: CoreId, line: LineAddr) -> ArrayVec<Target, 64>
        requires { HasCore (config_of self.now) core }
        ensures { HasAt (slices_of self.now) (line.0 % (config_of self.now).slices)
            (λ state. result.items ≡ targets_at state.view core (local_at state.view.lines line.0)) }
    {
        self.machine.slices[self.slice_of(line)].targets(core, line)
    }

    /// Returns the core's miss register at a place of their order in a slice.
    pub fn register_at(
        &self,
        alloc: Global,
        core: CoreId,
        slice: SliceId,
        nth: usize,
    ) -> Result<Option<MissRegister>, AllocError>
        requires core { HasCore (config_of self.now) core }
        requires slice { slice.0 < (config_of self.now).slices }
        ensures { IfOk result (λ register. HasAt (slices_of self.now) slice.0
            (λ state. register ≡ register_at state.view core nth)) }
    {
        looks::register_at(alloc, &self.machine.slices[slice.0 as usize], core, nth)
    }

    /// The lines of a slice for which a core holds a miss register, or those that it is writing back, the latest last.
    pub fn core_lines(
        &self,
        alloc: Global,
        core: CoreId,
        slice: SliceId,
        which: CoreLines,
    ) -> Result<Vec<LineAddr>, AllocError>
        requires core { HasCore (config_of self.now) core }
        requires slice { slice.0 < (config_of self.now).slices }
        ensures { IfOk result (λ lines. HasAt (slices_of self.now) slice.0
            (λ state. lines.items ≡ lines_of_core state.view core which)) }
    {
        self.machine.slices[slice.0 as usize].core_lines(alloc, core, which)
    }

    /// Returns the lines in the set of a line, in the order of their slots.
    pub fn set_lines(
        &self,
        alloc: Global,
        core: CoreId,
        line: LineAddr,
    ) -> Result<Vec<LineAddr>, AllocError>
        requires { HasCore (config_of self.now) core }
        ensures { IfOk result (λ lines. HasAt (slices_of self.now) (line.0 % (config_of self.now).slices)
            (λ state. lines.items ≡ lines_of_core state.view core (core_lines.InSetOf line))) }
    {
        self.machine.slices[self.slice_of(line)].core_lines(alloc, core, CoreLines::InSetOf(line))
    }

    /// Returns how many channels of a line have a message.
    pub fn count_waiting(&self, line: LineAddr) -> u64
        ensures { HasAt (slices_of self.now) (line.0 % (config_of self.now).slices)
            (λ state. IsCountOf result (waiting_at state.view line)) }
    {
        looks::count_waiting(&self.machine.slices[self.slice_of(line)], line)
    }

    /// Returns the message in front of one of a line's channels, at a place of their order, and its channel.
    pub fn message_at(&self, line: LineAddr, nth: u64) -> Option<(Pick, Message)>
        ensures { HasAt (slices_of self.now) (line.0 % (config_of self.now).slices)
            (λ state. result ≡ message_at state.view line nth) }
    {
        looks::message_at(&self.machine.slices[self.slice_of(line)], line, nth)
    }

    /// Whether nothing is in flight, and each reply is handed out.
    pub fn is_quiet(&self) -> bool
        ensures { IsTrue result ↔ All (λ state. IsQuiet state.view) (slices_of self.now) }
    {
        self.machine.is_quiet()
    }

    /// Returns the value of a word of the memory, if its slice is quiet.
    pub fn word(&self, word: WordAddr) -> Option<u64>
        requires { word.0 / 8 < (config_of self.now).lines }
        ensures { IsShownWord (slices_of self.now) (word.0 / 8 % (config_of self.now).slices) word result }
    {
        self.machine.word_now(word)
    }

    /// Returns what a slice has counted.
    pub fn stats(&self, slice: SliceId) -> &Stats
        requires { slice.0 < (config_of self.now).slices }
        ensures { HasAt (slices_of self.now) slice.0 (λ state. result.now ≡ state.stats) }
    {
        self.machine.slices[slice.0 as usize].stats()
    }

    /// Returns what a slice has performed, in order.
    pub fn log(&self, slice: SliceId) -> &[Entry]
        ensures { result.now ≡ log_at (slices_of self.now) slice.0 }
    {
        self.machine.log_of(slice)
    }
}
