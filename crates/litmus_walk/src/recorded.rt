ghost use Rattle.std.specs.Prelude.{◌≡◌, ◌↔◌, ◌/◌, ◌%◌, ◌<◌, [], All, IfOk, IfSome, IsTrue, None, OnOk, Some, true};
ghost use Rattle.std.specs.Prelude.{unwrap_or};
ghost use Rattle.address_map.specs.Config.{IsAllowed};
ghost use Rattle.address_map.specs.Place.{line_of as line_of_word};
ghost use Rattle.litmus_script.specs.Issued.{IsIssued};
ghost use Rattle.litmus_script.specs.Machine.{IsAnswered, IsNewMachine, IsQuietWord, IsShownWord, log_at};
ghost use Rattle.mshr_file.specs.Miss.{bound_of};
ghost use Rattle.slice_core.specs.declared.run.Call.TheVariants as slice_calls;
ghost use Rattle.slice_core.specs.declared.run.CallAnswer.TheVariants as call_answers;
ghost use Rattle.litmus_text.specs.Command.{HasCore};
ghost use Rattle.litmus_text.specs.declared.command.Command.TheVariants as commands;
ghost use Rattle.slice_core_spec.specs.View.{IsQuiet};
ghost use Rattle.litmus_walk.specs.Done.{is_done};
ghost use Rattle.litmus_walk.specs.Moves.{waiting_at};
ghost use Rattle.litmus_walk.specs.Walk.{Makes, made_of};

use super::place::StepPlace;
use address_map::{Checked, CoreId, LineAddr, Request, SliceId, WordAddr};
use litmus_script::{Issued, Machine};
use litmus_text::Command;
use mshr_file::MissKind;
use slice_core::{Entry, LineWaiting, Numbered, Pick};
use std::alloc::{AllocError, Global};
use std::marker::Model;

/// A call that was made to a machine, and the step that made it, if any.
#[derive(Clone, Copy, Debug, PartialEq, Eq)]
pub struct Made {
    pub command: Command,
    pub step: Option<StepPlace>,
    /// Whether the call completes the step. An access that stalls is retried.
    pub done: bool,
}

impl Made {
    const fn by_step(step: StepPlace, command: Command, done: bool) -> Self
        ensures { result ≡ record { command = command; step = Some step; done = done } }
    {
        Made {
            command,
            step: Some(step),
            done,
        }
    }

    const fn by_nobody(command: Command) -> Self
        ensures { result ≡ record { command = command; step = None; done = true } }
    {
        Made {
            command,
            step: None,
            done: true,
        }
    }
}

/// A machine with the calls that were made to it, in order.
#[derive(Drop)]
pub struct Recorded {
    machine: Machine,
    calls: Vec<Made>,
}

impl Model for Recorded {
    ghost use Rattle.litmus_walk.specs.Walk.{WalkView};

    ghost Value = { WalkView };

    ghost view = { λ r. record { config = r.machine.config; slices = r.machine.slices.items; calls = r.calls.items } };
}

impl Recorded {
    ghost use Rattle.litmus_walk.specs.Walk.{IsFresh};

    /// Creates a new machine, without calls.
    pub fn new(alloc: Global, config: Checked, misses: MissKind) -> Result<Self, AllocError>
        ensures { IfOk result (IsFresh config (bound_of misses config)) }
    {
        let Ok(machine) = Machine::build(alloc, config, misses) else {
            return Err(AllocError);
        };
        Ok(Recorded {
            machine,
            calls: Vec::new(alloc),
        })
    }

    fn push(&mut self, made: Made) -> Result<(), AllocError>
        ensures { OnOk result (self.new ≡ made_of self.old made) }
    {
        self.calls.push(made)?;
        Ok(())
    }

    pub fn issue(
        &mut self,
        step: StepPlace,
        core: CoreId,
        request: Request,
    ) -> Result<Issued, AllocError>
        requires { HasCore self.old.config core }
        ensures made { IfOk result (λ issued. Makes self.old
            (record { command = commands.Issue core request; step = Some step; done = is_done issued }) self.new) }
        ensures issued { IfOk result (λ issued. IsIssued
            ((line_of_word request.word).0 % self.old.config.slices) core request
            issued self.old.slices self.new.slices) }
    {
        let Ok(issued) = self.machine.issue(core, request) else {
            return Err(AllocError);
        };
        let command = Command::Issue { core, request };
        self.push(Made::by_step(step, command, is_done(issued)))?;
        Ok(issued)
    }

    pub fn evict(&mut self, step: StepPlace, core: CoreId, line: LineAddr) -> Result<(), AllocError>
        requires { HasCore self.old.config core }
        ensures { OnOk result (Makes self.old
            (record { command = commands.Evict core line; step = Some step; done = true }) self.new) }
    {
        self.push(Made::by_step(step, Command::Evict { core, line }, true))?;
        self.machine.evict(core, line);
        Ok(())
    }

    pub fn deliver(&mut self, pick: Pick) -> Result<(), AllocError>
        ensures { OnOk result (Makes self.old
            (record { command = commands.Deliver pick; step = None; done = true }) self.new) }
    {
        self.push(Made::by_nobody(Command::Deliver(pick)))?;
        self.machine.deliver(pick);
        Ok(())
    }

    pub fn hand(&mut self, core: CoreId, slice: SliceId) -> Result<Option<Numbered>, AllocError>
        requires core { HasCore self.old.config core }
        requires slice { slice.0 < self.old.config.slices }
        ensures made { OnOk result (Makes self.old
            (record { command = commands.Hand core slice; step = None; done = true }) self.new) }
        ensures answered { IfOk result (λ given. IsAnswered slice.0 (slice_calls.Hand core) (call_answers.Hand given)
            self.old.slices self.new.slices) }
    {
        self.push(Made::by_nobody(Command::Hand { core, slice }))?;
        Ok(self.machine.hand(core, slice))
    }

    /// Returns the calls that were made.
    pub fn calls(&self) -> &[Made]
        ensures { result.now ≡ self.now.calls }
    {
        &self.calls
    }

    /// Returns the channels of a line in which a message waits.
    pub fn waiting_at(&self, line: LineAddr) -> Option<LineWaiting<'_>>
        ensures { unwrap_or result [] ≡ waiting_at self.now.config self.now.slices line }
    {
        self.machine.waiting_at(line)
    }

    /// Returns the slice of a line.
    pub fn slice_of(&self, line: LineAddr) -> SliceId
        ensures slice { result.0 ≡ line.0 % self.now.config.slices }
        ensures known { result.0 < self.now.config.slices }
    {
        SliceId(self.machine.slice_of(line) as u8)
    }

    /// Returns what a slice has performed.
    pub fn log_of(&self, slice: SliceId) -> &[Entry]
        ensures { result.now ≡ log_at self.now.slices slice.0 }
    {
        self.machine.log_of(slice)
    }

    /// Returns the value of a word of the memory, if its slice is quiet.
    pub fn word_now(&self, word: WordAddr) -> Option<u64>
        requires { word.0 / 8 < self.now.config.lines }
        ensures quiet { IfSome result (IsQuietWord self.now.slices (word.0 / 8 % self.now.config.slices) word) }
        ensures shown { IsShownWord self.now.slices (word.0 / 8 % self.now.config.slices) word result }
    {
        self.machine.word_now(word)
    }

    /// Whether nothing is in flight and each reply was delivered to its core.
    pub fn is_quiet(&self) -> bool
        ensures { IsTrue result ↔ All (λ state. IsQuiet state.view) self.now.slices }
    {
        self.machine.is_quiet()
    }
}

// Whether an access is done: it is performed, or waits for messages.
const fn is_done(issued: Issued) -> bool
    ensures { result ≡ is_done issued }
{
    matches!(issued, Issued::Done { .. } | Issued::Pending(_))
}
