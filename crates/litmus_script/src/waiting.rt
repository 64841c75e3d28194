//! The command `waiting`.
ghost use Rattle.std.specs.Prelude.{◌≡◌, ◌↔◌, ◌++◌, [], codes, map, IfErr, IsTrue, OnOk, Some};
ghost use Rattle.std.specs.Fmt.{WritesInCalls};
ghost use Rattle.address_map.specs.Locator.{local_at};
ghost use Rattle.address_map.specs.declared.address.Local.{Local};
ghost use Rattle.litmus_script.specs.Answer.{WritesLine};
ghost use Rattle.litmus_script.specs.Play.{IsOfRun};
ghost use Rattle.litmus_script.specs.Prints.{IsPrinted};
ghost use Rattle.litmus_script.specs.Waiting.{flights_of, in_flight, lines_of, picks_of, receiver_state, text_at};
ghost use Rattle.litmus_script.specs.Waiting.{text_of_waiting};
ghost use Rattle.litmus_text.specs.declared.command.Command.TheVariants as commands;
ghost use Rattle.litmus_text.specs.declared.look.Look.TheVariants as looks;
ghost use Rattle.litmus_text.specs.declared.look.MachineLook.TheVariants as machine_looks;
ghost use Rattle.slice_core_cache.specs.CoreCache.{state_of};
ghost use Rattle.slice_core_spec.specs.View.{View, cache_at};
ghost use Rattle.slice_queues.specs.Pick.{channel_of, line_of};

use super::answers::{TextWriter, written};
use super::machine::Machine;
use address_map::CoreId;
use arrayvec::ArrayVec;
use litmus_text::{Delivery, TextFault};
use mshr_file::EitherFile;
use slice_core::{CopyState, Pick, Plan, SliceState};
use slice_text::MessageName;
use std::fmt::Write;
use std::{fmt, io};

impl Machine {
    /// Shows the messages in flight.
    pub(crate) fn show_waiting<W: io::Write>(&self, out: &mut W) -> Result<(), TextFault>
        ensures fault { IfErr result IsOfRun }
        ensures printed { OnOk result (IsPrinted self.now.config (commands.Look (looks.Machine machine_looks.Waiting))
            self.now.slices.items self.now.slices.items
            (W.contents out.old) (W.contents out.new)) }
    {
        let mut answers = TextWriter { out };
        written(write_waiting(self.slices.as_slice(), &mut answers))
    }
}

/// Writes a line for each channel in which a message waits, or that none is in flight.
#[tactic(auto, using(crate::proofs::WaitingLemmas::text_of_some))]
fn write_waiting<W: Write>(slices: &[SliceState<EitherFile>], out: &mut W) -> fmt::Result
    ensures { OnOk result (WritesInCalls W.write_str_gives out.old (text_of_waiting slices.now) out.new) }
{
    if is_nothing_in_flight(slices) {
        return writeln!(out, "none");
    }
    write_slices(slices, out)
}

fn is_nothing_in_flight(slices: &[SliceState<EitherFile>]) -> bool
    ensures { IsTrue result ↔ (in_flight slices.now ≡ []) }
{
    for state in slices {
        if state.waiting().next().is_some() {
            return false;
        }
    }
    true
}

fn write_slices<W: Write>(slices: &[SliceState<EitherFile>], out: &mut W) -> fmt::Result
    ensures { OnOk result (WritesInCalls W.write_str_gives out.old (lines_of (in_flight slices.now)) out.new) }
{
    for state in slices {
        write_slice(state, out)?;
    }
    Ok(())
}

fn write_slice<W: Write>(state: &SliceState<EitherFile>, out: &mut W) -> fmt::Result
    ensures { OnOk result (WritesInCalls W.write_str_gives out.old
        (lines_of (flights_of state.now.view (picks_of state.now.view))) out.new) }
{
    let mut left = state.waiting();
    while let Some(pick) = left.next() {
        write_front(state, pick, out)?;
    }
    Ok(())
}

/// Writes the line of the message at the front of a channel, if one waits there.
fn write_front<W: Write>(state: &SliceState<EitherFile>, pick: Pick, out: &mut W) -> fmt::Result
    ensures { OnOk result (WritesInCalls W.write_str_gives out.old (text_at state.now.view pick) out.new) }
{
    let Some(message) = state.front(pick) else {
        return Ok(());
    };
    let delivery = Delivery(pick);
    let name = MessageName(message);
    write!(out, "{delivery}   {name}   ")?;
    match state.plan(pick) {
        Plan::Nothing => writeln!(out, "nothing"),
        Plan::Blocked => write_blocked(state, pick, out),
        Plan::Broken(cell) => writeln!(out, "broken {cell}"),
        _ => writeln!(out, "moves"),
    }
}

/// Writes the state of the receiver, for a message that has to wait.
fn write_blocked<W: Write>(state: &SliceState<EitherFile>, pick: Pick, out: &mut W) -> fmt::Result
    ensures { OnOk result ((local : Local) → local_at state.now.view.lines (line_of pick).0 ≡ Some local
        → WritesLine W.write_str_gives out.old (codes "blocked: "
        ++ receiver_state state.now.view local (channel_of pick)) out.new) }
{
    let Some(view) = state.line_view(pick.line()) else {
        // A line with a message is the slice's own, so this can't occur.
        return Ok(());
    };
    match pick {
        Pick::Req(..) | Pick::Home(_) => {
            let dir = view.dir;
            writeln!(out, "blocked: {dir}")
        }
        Pick::Fwd(_, core) | Pick::Data(_, core) | Pick::Ack { to: core, .. } => {
            let copy = state_in(&view.copies, core);
            writeln!(out, "blocked: {copy}")
        }
    }
}

/// Returns the state of a core's copy.
fn state_in(copies: &ArrayVec<CopyState, 64>, core: CoreId) -> CopyState
    ensures { (v : View) (local : Local) → copies.now.items ≡ map (λ cache. state_of cache local) v.caches
        → result ≡ state_of (cache_at v core) local }
{
    match copies.get(core.0 as usize) {
        Some(copy) => *copy,
        None => CopyState::I,
    }
}
