ghost use Rattle.std.specs.Prelude.{◌≡◌, ◌+◌, ◌<◌, ◌^◌, ◌↔◌, ◌++◌, [], All, IfOk, IfSome, IsTrue, List, OnOk, Some};
ghost use Rattle.std.specs.Prelude.{drop, filter_map, length, option_and_then, replicate, slice_get, slice_set};
ghost use Rattle.litmus_test.specs.declared.test.Action.TheVariants as actions;
ghost use Rattle.litmus_test.specs.declared.test.Thread.{Thread};
ghost use Rattle.litmus_text.specs.Command.{HasCore};
ghost use Rattle.slice_core_spec.specs.View.{IsQuiet};
ghost use Rattle.litmus_walk.specs.Done.{AreAtEnd, GoesOn, steps_of};
ghost use Rattle.litmus_walk.specs.Drawn.{first_place};
ghost use Rattle.litmus_walk.specs.Moves.{Accesses, Delivers, Goes, Hands, Steps, with_change_at, free_tag, gone_behind, reply_to};
ghost use Rattle.litmus_walk.specs.Moves.{state_of, with_waiting};
ghost use Rattle.litmus_walk.specs.Walk.{Walks};

use super::moves::Move;
use super::place::{Place, StepPlace};
use super::recorded::Recorded;
use address_map::{LineAddr, Op, Request, WordAddr};
use litmus_script::Issued;
use litmus_test::{Action, LitmusTest, Thread};
use slice_core::{Entry, Pick};
use std::alloc::{AllocError, Global};

/// A reply that waits for a thread's core, for an access to a word of the line.
#[derive(Clone, Copy)]
pub(crate) struct Reply {
    pub thread: usize,
    pub line: LineAddr,
}

/// A walk in progress: the machine, where each thread is, and the replies that wait.
#[derive(Drop)]
pub(crate) struct Walker {
    pub recorded: Recorded,
    pub places: Vec<Place>,
    pub replies: Vec<Reply>,
}

impl Walker {
    /// Creates a walk with each thread of the test before its first step.
    pub fn new(alloc: Global, test: &LitmusTest<'_>, recorded: Recorded) -> Result<Self, AllocError>
        ensures recorded { IfOk result (λ walker. walker.recorded ≡ recorded) }
        ensures first { IfOk result (λ walker.
            walker.places.items ≡ replicate (length test.now.threads.items) first_place) }
        ensures none { IfOk result (λ walker. walker.replies.items ≡ []) }
    {
        let places = vec![in alloc; Place::first(); test.threads.len()]?;
        Ok(Walker {
            recorded,
            places,
            replies: Vec::new(alloc),
        })
    }

    /// Makes the move.
    pub fn go(&mut self, test: &LitmusTest<'_>, to: Move) -> Result<(), AllocError>
        requires { self.old.recorded.config ≡ test.now.config }
        ensures walks { OnOk result (Walks test.now.threads.items self.old.recorded self.new.recorded) }
        ensures done { OnOk result (GoesOn test.now.threads.items
            (steps_of self.old.places.items) self.old.recorded.calls
            (steps_of self.new.places.items) self.new.recorded.calls) }
        ensures goes { OnOk result (Goes test.now.threads.items to
            (state_of self.old.recorded self.old.places.items self.old.replies.items)
            (state_of self.new.recorded self.new.places.items self.new.replies.items)) }
    {
        match to {
            Move::Step(thread) => self.step(test, thread),
            Move::Deliver(pick) => self.deliver(test, pick),
            Move::Hand(reply) => self.hand(test, reply),
        }
    }

    fn step(&mut self, test: &LitmusTest<'_>, thread: usize) -> Result<(), AllocError>
        requires { self.old.recorded.config ≡ test.now.config }
        ensures walks { OnOk result (Walks test.now.threads.items self.old.recorded self.new.recorded) }
        ensures done { OnOk result (GoesOn test.now.threads.items
            (steps_of self.old.places.items) self.old.recorded.calls
            (steps_of self.new.places.items) self.new.recorded.calls) }
        ensures goes { OnOk result (Steps thread (slice_get test.now.threads.items thread) (slice_get self.old.places.items thread)
            (state_of self.old.recorded self.old.places.items self.old.replies.items)
            (state_of self.new.recorded self.new.places.items self.new.replies.items)) }
    {
        let (Some(program), Some(place)) = (test.threads.get(thread), self.places.get(thread))
        else {
            return Ok(());
        };
        let step = place.step;
        let at = StepPlace { thread, step };
        match program.steps.get(step) {
            Some(Action::Access(word, op)) => self.access(program, at, *word, *op),
            Some(Action::Evict(line)) => {
                self.recorded.evict(at, program.core, *line)?;
                self.done(at);
                Ok(())
            }
            Some(Action::Settle) => {
                self.done(at);
                Ok(())
            }
            None => Ok(()),
        }
    }

    /// Accesses the word under the lowest free tag. An access that stalls is retried.
    fn access(
        &mut self,
        program: &Thread,
        at: StepPlace,
        word: WordAddr,
        op: Op,
    ) -> Result<(), AllocError>
        requires core { HasCore self.old.recorded.config program.now.core }
        requires asks { slice_get program.now.steps.items at.step ≡ Some (actions.Access word op) }
        requires stands { slice_get (steps_of self.old.places.items) at.thread ≡ Some at.step }
        requires fits { at.step + 1 < 2 ^ 64 }
        ensures walks { (threads : List Thread) → slice_get threads at.thread ≡ Some program.now
            → OnOk result (Walks threads self.old.recorded self.new.recorded) }
        ensures done { (threads : List Thread) → slice_get threads at.thread ≡ Some program.now
            → OnOk result (GoesOn threads (steps_of self.old.places.items) self.old.recorded.calls
            (steps_of self.new.places.items) self.new.recorded.calls) }
        ensures goes { OnOk result (Accesses program.now at word op
            (option_and_then free_tag (slice_get self.old.places.items at.thread))
            (state_of self.old.recorded self.old.places.items self.old.replies.items)
            (state_of self.new.recorded self.new.places.items self.new.replies.items)) }
    {
        let Some(tag) = self.free_tag(at.thread) else {
            return Ok(());
        };
        match self
            .recorded
            .issue(at, program.core, Request { op, word, tag })?
        {
            Issued::Done { .. } => self.done(at),
            Issued::Pending(_) => {
                self.set_waiting(at.thread, tag, true);
                self.done(at);
            }
            Issued::Stall(_) => {}
            Issued::Refused(_) => {}
        }
        Ok(())
    }

    // Returns the lowest tag under which the thread awaits no reply.
    fn free_tag(&self, thread: usize) -> Option<u8>
        ensures tag { result ≡ option_and_then free_tag (slice_get self.now.places.items thread) }
        ensures known { IfSome result (λ tag. tag < 64) }
    {
        self.places.get(thread)?.free_tag()
    }

    // Moves the thread on after the step.
    fn done(&mut self, at: StepPlace)
        requires { at.step + 1 < 2 ^ 64 }
        ensures recorded { self.new.recorded ≡ self.old.recorded }
        ensures steps { steps_of self.new.places.items ≡ slice_set (steps_of self.old.places.items)
            at.thread (at.step + 1) }
        ensures places { self.new.places.items ≡ gone_behind at self.old.places.items }
        ensures replies { self.new.replies.items ≡ self.old.replies.items }
    {
        if let Some(place) = self.places.get_mut(at.thread) {
            place.go_behind(at.step);
        }
    }

    // Sets whether the thread awaits a reply under the tag.
    fn set_waiting(&mut self, thread: usize, tag: u8, waits: bool)
        ensures recorded { self.new.recorded ≡ self.old.recorded }
        ensures steps { steps_of self.new.places.items ≡ steps_of self.old.places.items }
        ensures places { self.new.places.items ≡ with_change_at thread (with_waiting tag waits) self.old.places.items }
        ensures replies { self.new.replies.items ≡ self.old.replies.items }
    {
        if let Some(place) = self.places.get_mut(thread) {
            place.set_waiting(tag, waits);
        }
    }

    /// Delivers a message. The replies of the accesses that this performs wait.
    fn deliver(&mut self, test: &LitmusTest<'_>, pick: Pick) -> Result<(), AllocError>
        ensures walks { OnOk result (Walks test.now.threads.items self.old.recorded self.new.recorded) }
        ensures done { OnOk result (GoesOn test.now.threads.items
            (steps_of self.old.places.items) self.old.recorded.calls
            (steps_of self.new.places.items) self.new.recorded.calls) }
        ensures goes { OnOk result (Delivers test.now.threads.items pick
            (state_of self.old.recorded self.old.places.items self.old.replies.items)
            (state_of self.new.recorded self.new.places.items self.new.replies.items)) }
    {
        let slice = self.recorded.slice_of(pick.line());
        let before = self.recorded.log_of(slice).len();
        self.recorded.deliver(pick)?;
        let performed = behind(self.recorded.log_of(slice), before);
        push_replies(&test.threads, performed, &mut self.replies)?;
        Ok(())
    }

    fn hand(&mut self, test: &LitmusTest<'_>, reply: usize) -> Result<(), AllocError>
        requires { self.old.recorded.config ≡ test.now.config }
        ensures walks { OnOk result (Walks test.now.threads.items self.old.recorded self.new.recorded) }
        ensures done { OnOk result (GoesOn test.now.threads.items
            (steps_of self.old.places.items) self.old.recorded.calls
            (steps_of self.new.places.items) self.new.recorded.calls) }
        ensures goes { OnOk result (Hands test.now.threads.items reply (slice_get self.old.replies.items reply)
            (state_of self.old.recorded self.old.places.items self.old.replies.items)
            (state_of self.new.recorded self.new.places.items self.new.replies.items)) }
    {
        if reply >= self.replies.len() {
            return Ok(());
        }
        let Reply { thread, line } = self.replies.swap_remove(reply);
        let Some(program) = test.threads.get(thread) else {
            return Ok(());
        };
        let slice = self.recorded.slice_of(line);
        if let Some(given) = self.recorded.hand(program.core, slice)? {
            self.set_waiting(thread, given.entry.tag, false);
        }
        Ok(())
    }

    /// Whether all threads are done, nothing is in flight and each reply was delivered to its core.
    pub fn is_over(&self, test: &LitmusTest<'_>) -> bool
        ensures { IsTrue result ↔ AreAtEnd test.now.threads.items (steps_of self.now.places.items)
            × All (λ state. IsQuiet state.view) self.now.recorded.slices }
    {
        self.are_at_end(test) && self.recorded.is_quiet()
    }

    // Whether each thread is past its last step.
    fn are_at_end(&self, test: &LitmusTest<'_>) -> bool
        ensures { IsTrue result ↔ AreAtEnd test.now.threads.items (steps_of self.now.places.items) }
    {
        for number in 0..test.threads.len() {
            if !self.is_at_end(number, &test.threads[number]) {
                return false;
            }
        }
        true
    }

    fn is_at_end(&self, number: usize, thread: &Thread) -> bool
        ensures { IsTrue result ↔ (slice_get (steps_of self.now.places.items) number ≡ Some
            (length thread.now.steps.items)) }
    {
        match self.places.get(number) {
            Some(place) => place.step == thread.steps.len(),
            None => false,
        }
    }
}

// Returns what was performed after the first `before` entries.
fn behind(log: &[Entry], before: usize) -> &[Entry]
    ensures { result.now ≡ drop before log.now }
{
    if before < log.len() {
        &log[before..]
    } else {
        &[]
    }
}

// Adds the replies of what was performed.
fn push_replies(
    threads: &[Thread],
    performed: &[Entry],
    replies: &mut Vec<Reply>,
) -> Result<(), AllocError>
    ensures { OnOk result (replies.new.items
        ≡ replies.old.items ++ filter_map (reply_to threads.now) performed.now) }
{
    for entry in performed {
        let Some(reply) = reply_to(threads, entry) else {
            continue;
        };
        replies.push(reply)?;
    }
    Ok(())
}

// Returns the reply of an access that was performed, if its core has a thread.
fn reply_to(threads: &[Thread], entry: &Entry) -> Option<Reply>
    ensures { result ≡ reply_to threads.now entry.now }
{
    let thread = threads.iter().position(|thread| thread.core == entry.core)?;
    let line = entry.word.line();
    Some(Reply { thread, line })
}
