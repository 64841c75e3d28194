ghost use Rattle.std.specs.Prelude.{◌≡◌, ◌<◌, [], ◌∷◌, IfErr, IfOk, IfSome, None, OnErr, OnOk, Some, if◌then◌else◌};
ghost use Rattle.address_map.specs.CoreSet.{has};
ghost use Rattle.core_thread_system.specs.Answers.{IsAtItsSlice, IsJudgedThere};
ghost use Rattle.core_thread_system.specs.Moves.{HasRun};
ghost use Rattle.core_thread_system.specs.Program.{EndsSettled, HasMade, IsSettledBy, IsStepOf, done_of};
ghost use Rattle.core_thread_system.specs.Running.{IsHaltOf, IsLowestFree, accepted_steps};
ghost use Rattle.core_thread_system.specs.declared.program.Step.TheVariants as steps;
ghost use Rattle.core_thread_system.specs.declared.run.Halt.TheVariants as halts;

use super::cores::Core;
use super::names::SystemNames;
use super::program::{Gate, Outcome, Step};
use super::tags::free_tag;
use address_map::{Op, Request, WordAddr};
use mshr_file::MissFile;
use receipt_ledger::Answer;
use slice_answer::Refused;
use std::sync::Wait;

// How far a run has got: how many turns it has left, and how many requests it made.
#[derive(Drop)]
struct Pace<'g, G: Gate> {
    gate: &'g G,
    left: u64,
    calls: u64,
}

// Why a step isn't done.
#[derive(Clone, Copy)]
enum Halt {
    Limit,
    Refused(Refused),
}

impl<'a, F: MissFile, M: SystemNames> Core<'a, F, M> {
    /// Runs a program, each access under the lowest tag that is free. The gate is notified of each request. A run that
    /// would need more turns than `limit` ends before the step that needs one more is done.
    pub fn run<R: Wait, G: Gate>(
        &mut self,
        rt: &R,
        program: &[Step],
        gate: &G,
        limit: u64,
    ) -> Outcome
        ensures made { HasMade M.setup self.old (done_of program.now result) self.new }
        ensures ran { HasRun M.setup self.old (done_of program.now result) self.new }
        ensures step { IsStepOf M.setup program.now result }
        ensures settled { EndsSettled program.now result self.new }
    {
        let _few = self.slices();
        let mut pace = Pace {
            gate,
            left: limit,
            calls: 0,
        };
        for place in 0..program.len() {
            match self.make(rt, program[place], &mut pace) {
                Ok(()) => {}
                Err(Halt::Limit) => return Outcome::Limit(place),
                Err(Halt::Refused(refused)) => return Outcome::Refused(place, refused),
            }
        }
        Outcome::Finished
    }

    // Makes a step.
    fn make<R: Wait, G: Gate>(
        &mut self,
        rt: &R,
        step: Step,
        pace: &mut Pace<'_, G>,
    ) -> Result<(), Halt>
        ensures ran { OnOk result (HasRun M.setup self.old (step ∷ []) self.new) }
        ensures halted { OnErr result (HasRun M.setup self.old [] self.new) }
        ensures reason { IfErr result (IsHaltOf M.setup step) }
        ensures settled { OnOk result (IsSettledBy self.new step) }
    {
        match step {
            Step::Access(word, op) => self.access(rt, word, op, pace),
            Step::Settle => self.land(rt, pace),
            Step::Evict(line) => {
                let _ = self.evict(rt, line);
                Ok(())
            }
            Step::Turns(count) => self.turns(rt, count, pace),
        }
    }

    // Asks for an access until it is accepted or refused.
    fn access<R: Wait, G: Gate>(
        &mut self,
        rt: &R,
        word: WordAddr,
        op: Op,
        pace: &mut Pace<'_, G>,
    ) -> Result<(), Halt>
        ensures ran { OnOk result (HasRun M.setup self.old (steps.Access word op ∷ []) self.new) }
        ensures halted { OnErr result (HasRun M.setup self.old [] self.new) }
        ensures reason { IfErr result (IsHaltOf M.setup (steps.Access word op)) }
    {
        for _ in rt.forever() {
            if self.try_access(rt, word, op, pace)? {
                break;
            }
            self.turn_within(rt, pace)?;
        }
        Ok(())
    }

    // Asks for an access where a tag is free. Returns whether it was accepted.
    fn try_access<R: Wait, G: Gate>(
        &mut self,
        rt: &R,
        word: WordAddr,
        op: Op,
        pace: &mut Pace<'_, G>,
    ) -> Result<bool, Halt>
        ensures ran { IfOk result (λ accepted. HasRun M.setup self.old
            (if accepted then steps.Access word op ∷ [] else []) self.new) }
        ensures halted { OnErr result (HasRun M.setup self.old [] self.new) }
        ensures reason { IfErr result (IsHaltOf M.setup (steps.Access word op)) }
    {
        let Some(tag) = free_tag(self.tags_in_flight()) else {
            return Ok(false);
        };
        match self.call(rt, Request { op, word, tag }, pace) {
            Ok(Answer::Stall(_)) => Ok(false),
            Ok(_) => Ok(true),
            Err(refused) => Err(Halt::Refused(refused)),
        }
    }

    // Makes a request, and notifies the gate of it.
    fn call<R: Wait, G: Gate>(
        &mut self,
        rt: &R,
        request: Request,
        pace: &mut Pace<'_, G>,
    ) -> Result<Answer, Refused>
        requires { IsLowestFree self.old.tags (Some request.tag) }
        ensures ran { HasRun M.setup self.old (accepted_steps request result) self.new }
        ensures judged { IsJudgedThere M.setup request result }
        ensures slice { IsAtItsSlice result }
    {
        pace.calls = pace.calls.saturating_add(1);
        pace.gate.before(rt, self.core(), pace.calls);
        let answer = self.issue(rt, request);
        pace.gate.after(rt, self.core(), pace.calls);
        answer
    }

    // Makes turns until no tag is in flight.
    fn land<R: Wait, G: Gate>(&mut self, rt: &R, pace: &mut Pace<'_, G>) -> Result<(), Halt>
        ensures ran { HasRun M.setup self.old [] self.new }
        ensures landed { OnOk result (self.new.tags ≡ 0) }
        ensures reason { IfErr result (λ halt. halt ≡ halts.Limit) }
    {
        for _ in rt.forever() {
            if self.tags_in_flight() == 0 {
                break;
            }
            self.turn_within(rt, pace)?;
        }
        Ok(())
    }

    // Makes `count` turns.
    fn turns<R: Wait, G: Gate>(
        &mut self,
        rt: &R,
        count: u8,
        pace: &mut Pace<'_, G>,
    ) -> Result<(), Halt>
        ensures ran { HasRun M.setup self.old [] self.new }
        ensures reason { IfErr result (λ halt. halt ≡ halts.Limit) }
    {
        for _ in 0..count {
            self.turn_within(rt, pace)?;
        }
        Ok(())
    }

    // Makes a turn, if the run has one left.
    fn turn_within<R: Wait, G: Gate>(&mut self, rt: &R, pace: &mut Pace<'_, G>) -> Result<(), Halt>
        ensures ran { HasRun M.setup self.old [] self.new }
        ensures reason { IfErr result (λ halt. halt ≡ halts.Limit) }
    {
        if pace.left == 0 {
            return Err(Halt::Limit);
        }
        pace.left -= 1;
        let _ = self.turn(rt);
        Ok(())
    }
}
