ghost use Rattle.std.specs.Prelude.{◌≡◌, ◌++◌, ◌∷◌, [], IfOk, OnOk, length, map};
ghost use Rattle.std.specs.List.{flat_map, range_with_len};
ghost use Rattle.std.specs.Option.{option_map};
ghost use Rattle.slice_queues.specs.Pick.{pick_at};
ghost use Rattle.litmus_walk.specs.Drawn.{lines_of, with_line, with_lines};
ghost use Rattle.litmus_walk.specs.Moves.{can_step, deliveries_at, may_step, moves_of, state_of, steps_in};

use super::place::Place;
use super::walker::{Reply, Walker};
use address_map::LineAddr;
use litmus_test::{Action, LitmusTest, Thread};
use slice_core::{LineWaiting, Pick};
use std::alloc::{AllocError, Global};

/// A move that may come next.
#[derive(Clone, Copy)]
pub(crate) enum Move {
    /// The next step of the thread of this number.
    Step(usize),
    Deliver(Pick),
    /// The waiting reply of this number is delivered to its core.
    Hand(usize),
}

impl Walker {
    /// Lists the moves that may come next: the steps in the order of the threads, the deliveries line by line, and
    /// the hand-outs.
    pub fn list_moves(
        &self,
        test: &LitmusTest<'_>,
        lines: &[LineAddr],
        moves: &mut Vec<Move>,
    ) -> Result<(), AllocError>
        ensures { OnOk result (moves.new.items ≡ moves_of test.now.threads.items lines.now
            (state_of self.now.recorded self.now.places.items self.now.replies.items)) }
    {
        moves.clear();
        self.list_steps(&test.threads, moves)?;
        self.list_deliveries(lines, moves)?;
        push_hands(&self.replies, moves)
    }

    fn list_steps(&self, threads: &[Thread], moves: &mut Vec<Move>) -> Result<(), AllocError>
        ensures { OnOk result (moves.new.items ≡ moves.old.items ++ steps_in threads.now self.now.places.items) }
    {
        for number in 0..threads.len() {
            if !self.may_step(threads, number) {
                continue;
            }
            moves.push(Move::Step(number))?;
        }
        Ok(())
    }

    fn may_step(&self, threads: &[Thread], number: usize) -> bool
        ensures { result ≡ may_step threads.now self.now.places.items number }
    {
        match (threads.get(number), self.places.get(number)) {
            (Some(thread), Some(place)) => can_step(place, thread.steps.get(place.step)),
            _ => false,
        }
    }

    fn list_deliveries(&self, lines: &[LineAddr], moves: &mut Vec<Move>) -> Result<(), AllocError>
        ensures { OnOk result (moves.new.items
            ≡ moves.old.items ++ flat_map (deliveries_at self.now.recorded) lines.now) }
    {
        for line in lines {
            self.list_at(*line, moves)?;
        }
        Ok(())
    }

    // Adds the deliveries of a line's messages, kind by kind.
    fn list_at(&self, line: LineAddr, moves: &mut Vec<Move>) -> Result<(), AllocError>
        ensures { OnOk result (moves.new.items ≡ moves.old.items ++ deliveries_at self.now.recorded line) }
    {
        match self.recorded.waiting_at(line) {
            Some(waiting) => push_deliveries(line, waiting, moves),
            None => Ok(()),
        }
    }
}

fn push_deliveries(
    line: LineAddr,
    waiting: LineWaiting<'_>,
    moves: &mut Vec<Move>,
) -> Result<(), AllocError>
    ensures { OnOk result (moves.new.items
        ≡ moves.old.items ++ map (λ channel. Move.Deliver (pick_at line channel)) waiting.entry) }
{
    let mut left = waiting;
    while let Some(channel) = left.next() {
        moves.push(Move::Deliver(channel.at(line)))?;
    }
    Ok(())
}

fn push_hands(replies: &[Reply], moves: &mut Vec<Move>) -> Result<(), AllocError>
    ensures { OnOk result (moves.new.items
        ≡ moves.old.items ++ map Move.Hand (range_with_len 0 (length replies.now))) }
{
    for reply in 0..replies.len() {
        moves.push(Move::Hand(reply))?;
    }
    Ok(())
}

// Whether a thread at this place may make this step, its next: an access needs a free tag, and to settle no reply
// may be awaited.
fn can_step(place: &Place, step: Option<&Action>) -> bool
    ensures { result ≡ can_step place.now (option_map (λ step. step.now) step.entry) }
{
    match step {
        Some(Action::Access(_, _)) => place.free_tag().is_some(),
        Some(Action::Settle) => place.is_settled(),
        Some(Action::Evict(_)) => true,
        None => false,
    }
}

/// Returns the lines that a test names, each once, in the order of their first mention. Messages are for these alone.
pub fn named_lines(alloc: Global, test: &LitmusTest<'_>) -> Result<Vec<LineAddr>, AllocError>
    ensures { IfOk result (λ lines. lines.items ≡ lines_of test.now) }
{
    let mut lines = Vec::new(alloc);
    for thread in &test.threads {
        add_lines(&thread.steps, &mut lines)?;
    }
    Ok(lines)
}

// Adds the lines that these steps name.
fn add_lines(steps: &[Action], lines: &mut Vec<LineAddr>) -> Result<(), AllocError>
    ensures { OnOk result (lines.new.items ≡ with_lines lines.old.items steps.now) }
{
    for step in steps {
        add_line_of(step, lines)?;
    }
    Ok(())
}

fn add_line_of(step: &Action, lines: &mut Vec<LineAddr>) -> Result<(), AllocError>
    ensures { OnOk result (lines.new.items ≡ with_lines lines.old.items (step.now ∷ [])) }
{
    match step {
        Action::Access(word, _) => add_line(word.line(), lines),
        Action::Evict(line) => add_line(*line, lines),
        Action::Settle => Ok(()),
    }
}

fn add_line(line: LineAddr, lines: &mut Vec<LineAddr>) -> Result<(), AllocError>
    ensures { OnOk result (lines.new.items ≡ with_line lines.old.items line) }
{
    if !lines.contains(&line) {
        lines.push(line)?;
    }
    Ok(())
}
