ghost use Rattle.std.specs.Prelude.{◌≡◌, ◌/◌, ◌%◌, ◌<◌, ◌↔◌, [], length, All, IfErr, IfNone, IfOk, IfSome, IsTrue};
ghost use Rattle.litmus_text.specs.Command.{IsInRange, HasCore, HasLine};
ghost use Rattle.address_map.specs.Config.{IsAllowed};
ghost use Rattle.stats_report.specs.Report.{AreAlike, views_of};
ghost use Rattle.address_map.specs.Place.{line_of as line_of_word};
ghost use Rattle.mshr_file.specs.Either.{either_bound, either_misses};
ghost use Rattle.mshr_file.specs.Miss.{bound_of};
ghost use Rattle.slice_core.specs.declared.run.Call.TheVariants as slice_calls;
ghost use Rattle.slice_core.specs.declared.run.CallAnswer.TheVariants as call_answers;
ghost use Rattle.slice_core_spec.specs.View.{IsQuiet};
ghost use Rattle.slice_queues.specs.Pick.{line_of};
ghost use Rattle.litmus_script.specs.Issued.{IsIssued, IsOutOfMemory};
ghost use Rattle.litmus_script.specs.Machine.{AreWaiting, HasNoLine, IsAnswered, IsFront, IsLineView, IsMachine};
ghost use Rattle.litmus_script.specs.Machine.{IsNewMachine};
ghost use Rattle.litmus_script.specs.Machine.{IsQuietWord, IsShownLine, IsShownWord, counts_in, init_at, log_at};

use super::answers::Issued;
use super::calls;
use super::player::Player;
use address_map::{Checked, CoreId, LineAddr, Request, SliceId, WordAddr};
use litmus_text::{Command, Statement, TextFault};
use mshr_file::{EitherFile, MissKind};
use slice_core::{
    Delivered, Entry, Evicted, LineView, LineWaiting, Message, Numbered, Pick, SliceState, Stats,
};
use std::alloc::{AllocError, Global};
use std::io::Write;

/// A machine on one thread: the state of each slice.
#[derive(Drop)]
pub struct Machine {
    pub config: Checked,
    pub slices: Vec<SliceState<EitherFile>>,
    pub(crate) alloc: Global,
    ghost shaped: { IsMachine config slices.items },
}

impl Player for Machine {
    ghost use Rattle.std.specs.Prelude.{◌≡◌};
    ghost use Rattle.litmus_script.specs.Prints.{IsPrinted};

    ghost config_of = { λ machine. machine.config };

    ghost plays = { λ old line command before after new. (new.config ≡ old.config)
        × IsPrinted old.config command old.slices.items new.slices.items before after };

    fn config(&self) -> &Checked {
        &self.config
    }

    fn play<W: Write>(
        &mut self,
        _statement: &Statement<'_>,
        command: Command,
        out: &mut W,
    ) -> Result<(), TextFault> {
        self.run(command, out)
    }
}

impl Machine {
    pub fn build(alloc: Global, config: Checked, misses: MissKind) -> Result<Self, TextFault>
        ensures config { IfOk result (λ machine. machine.config ≡ config) }
        ensures fault { IfErr result (λ fault. fault ≡ TextFault.NoMemory) }
        ensures new { IfOk result (λ machine. IsNewMachine config (bound_of misses config) machine.slices.items) }
    {
        let empty = EitherFile::of_kind(alloc, &config, misses)?;
        let slices = new_slices(alloc, &config, &empty)?;
        Ok(Machine {
            config,
            slices,
            alloc,
        })
    }

    /// Returns a copy of the machine.
    pub fn try_clone(&self) -> Result<Self, AllocError>
        ensures config { IfOk result (λ copy. copy.config ≡ self.now.config) }
        ensures slices { IfOk result (λ copy. copy.slices.items ≡ self.now.slices.items) }
    {
        let alloc = self.alloc;
        let config = self.config.try_clone(alloc)?;
        let mut slices = Vec::with_capacity(alloc, self.slices.len())?;
        for slice in 0..self.slices.len() {
            slices.push(calls::copied(&self.slices[slice], alloc)?)?;
        }
        Ok(Machine {
            config,
            slices,
            alloc,
        })
    }

    /// A word past the memory goes to slice 0, which refuses it.
    // Most commands are accesses: inlined, so that a result that is written at once need not be built.
    #[inline(always)]
    pub fn issue(&mut self, core: CoreId, request: Request) -> Result<Issued, TextFault>
        requires { HasCore self.old.config core }
        ensures config { self.new.config ≡ self.old.config }
        ensures issued { IfOk result (λ issued. IsIssued ((line_of_word request.word).0 % self.old.config.slices)
            core request issued self.old.slices.items self.new.slices.items) }
        ensures memory { IfErr result (λ fault. IsOutOfMemory ((line_of_word request.word).0 % self.old.config.slices)
            core request self.old.slices.items self.new.slices.items) }
        ensures fault { IfErr result (λ fault. fault ≡ TextFault.NoMemory) }
    {
        let slice = self.slice_of(request.word.line());
        calls::issue(&mut self.slices[slice], core, request)
    }

    pub fn evict(&mut self, core: CoreId, line: LineAddr) -> Evicted
        requires { HasCore self.old.config core }
        ensures config { self.new.config ≡ self.old.config }
        ensures answered { IsAnswered (line.0 % self.old.config.slices)
            (slice_calls.Evict core line) (call_answers.Evict result)
            self.old.slices.items self.new.slices.items }
    {
        let slice = self.slice_of(line);
        calls::evict(&mut self.slices[slice], core, line)
    }

    pub fn deliver(&mut self, pick: Pick) -> Delivered
        ensures config { self.new.config ≡ self.old.config }
        ensures answered { IsAnswered ((line_of pick).0 % self.old.config.slices) (slice_calls.Deliver pick)
            (call_answers.Deliver result) self.old.slices.items self.new.slices.items }
    {
        let slice = self.slice_of(pick.line());
        self.slices[slice].deliver(pick)
    }

    pub fn hand(&mut self, core: CoreId, slice: SliceId) -> Option<Numbered>
        requires core { HasCore self.old.config core }
        requires slice { slice.0 < self.old.config.slices }
        ensures config { self.new.config ≡ self.old.config }
        ensures answered { IsAnswered slice.0 (slice_calls.Hand core) (call_answers.Hand result)
            self.old.slices.items self.new.slices.items }
    {
        calls::hand(&mut self.slices[slice.0 as usize], core)
    }

    /// Returns the message that a delivery at the pick would take.
    pub fn front(&self, pick: Pick) -> Option<Message>
        ensures { IsFront self.now.slices.items ((line_of pick).0 % self.now.config.slices) pick result }
    {
        self.slices[self.slice_of(pick.line())].front(pick)
    }

    /// Returns the channels of a line in which a message waits, kind by kind.
    pub fn waiting_at(&self, line: LineAddr) -> Option<LineWaiting<'_>>
        ensures there { IfNone result (HasNoLine self.now.slices.items (line.0 % self.now.config.slices) line) }
        ensures waiting { IfSome result (AreWaiting self.now.slices.items (line.0 % self.now.config.slices) line) }
    {
        self.slices[self.slice_of(line)].waiting_at(line)
    }

    /// Returns the slice's view of a line: none for a line outside the memory.
    pub fn view(&self, line: LineAddr) -> Option<LineView>
        ensures { IsLineView self.now.slices.items (line.0 % self.now.config.slices) line result }
    {
        self.slices[self.slice_of(line)].line_view(line)
    }

    /// Returns what a slice has performed, in order.
    pub fn log_of(&self, slice: SliceId) -> &[Entry]
        ensures { result.now ≡ log_at self.now.slices.items slice.0 }
    {
        match self.slices.get(slice.0 as usize) {
            Some(state) => state.log(),
            None => &[],
        }
    }

    /// Returns the initial values of a slice's words.
    pub(crate) fn init_of(&self, slice: SliceId) -> &[(WordAddr, u64)]
        ensures { result.now ≡ init_at self.now.slices.items slice.0 }
    {
        match self.slices.get(slice.0 as usize) {
            Some(state) => state.init(),
            None => &[],
        }
    }

    /// Whether nothing is in flight, and each reply was delivered to its core.
    pub fn is_quiet(&self) -> bool
        ensures { IsTrue result ↔ All (λ state. IsQuiet state.view) self.now.slices.items }
    {
        for state in &self.slices {
            if !state.is_quiet() {
                return false;
            }
        }
        true
    }

    /// Returns the value of a word of the memory, if its slice is quiet.
    pub fn word_now(&self, word: WordAddr) -> Option<u64>
        requires { word.0 / 8 < self.now.config.lines }
        ensures quiet { IfSome result (IsQuietWord self.now.slices.items (word.0 / 8 % self.now.config.slices) word) }
        ensures shown { IsShownWord self.now.slices.items (word.0 / 8 % self.now.config.slices) word result }
    {
        calls::word(&self.slices[self.slice_of(word.line())], word)
    }

    /// Returns the slice's view of a line. Each line has a slice.
    pub(crate) fn line_now(&self, line: LineAddr) -> LineView
        requires { HasLine self.now.config line }
        ensures { IsShownLine self.now.slices.items (line.0 % self.now.config.slices) line result }
    {
        calls::line(&self.slices[self.slice_of(line)], line)
    }

    /// Returns the counters of each slice, in order.
    pub(crate) fn stats(&self) -> Result<Vec<&Stats>, AllocError>
        ensures alike { IfOk result (λ stats. AreAlike (views_of stats.items)) }
        ensures counts { IfOk result (λ stats. views_of stats.items ≡ counts_in self.now.slices.items) }
    {
        let mut stats = Vec::with_capacity(self.alloc, self.slices.len())?;
        for slice in 0..self.config.slices() {
            stats.push(self.slices[slice].stats())?;
        }
        Ok(stats)
    }

    /// Returns the slice of a line. Lines are interleaved among the slices. With 1, 2 or 4 slices no division is made,
    /// which would cost more than much else of a call.
    pub fn slice_of(&self, line: LineAddr) -> usize
        ensures slice { result ≡ line.0 % self.now.config.slices }
        ensures known { result < length self.now.slices.items }
        ensures allowed { IsAllowed self.now.config }
    {
        let slices = self.config.slices() as u64;
        match slices {
            1 => 0,
            2 => (line.0 % 2) as usize,
            4 => (line.0 % 4) as usize,
            _ => (line.0 % slices) as usize,
        }
    }
}

/// Returns the slices of a new machine, whose cores keep their misses in copies of this empty file.
fn new_slices(
    alloc: Global,
    config: &Checked,
    empty: &EitherFile,
) -> Result<Vec<SliceState<EitherFile>>, TextFault>
    requires { either_misses empty.now ≡ [] }
    ensures machine { IfOk result (λ slices. IsMachine config.now slices.items) }
    ensures new { IfOk result (λ slices. IsNewMachine config.now (either_bound empty.now) slices.items) }
    ensures fault { IfErr result (λ fault. fault ≡ TextFault.NoMemory) }
{
    let mut slices = Vec::new(alloc);
    for slice in 0..config.slices() {
        let state = calls::build(alloc, config, SliceId(slice as u8), empty)?;
        slices.push(state)?;
    }
    Ok(slices)
}
