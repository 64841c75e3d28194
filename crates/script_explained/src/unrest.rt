//! Words whose slice isn't quiet.
ghost use Rattle.std.specs.Prelude.{◌≡◌, ◌++◌, ◌<◌, length, slice_get, OnOk};
ghost use Rattle.std.specs.List.{range_with_len};
ghost use Rattle.litmus_script.specs.Answer.{WritesLine, text_of_word};
ghost use Rattle.script_explained.specs.Unrest.{first_unrest, replies_in, replies_of, told_of_word};

use super::step::WordStep;
use address_map::{Checked, CoreId, WordAddr};
use litmus_text::Delivery;
use mshr_file::EitherFile;
use slice_core::{Pick, SliceState, TagState};
use std::fmt;

/// What keeps a slice from being quiet.
#[derive(Clone, Copy)]
pub enum Unrest {
    /// The message in front of this channel is in flight.
    Message(Pick),
    /// The reply under this tag isn't handed out.
    Reply { core: CoreId, tag: u8 },
}

impl fmt::Display for Unrest {
    ghost use Rattle.std.specs.Prelude.{Some};
    ghost use Rattle.script_explained.specs.Unrest.{text_of_unrest};

    ghost output = { λ unrest. Some (text_of_unrest unrest) };

    fn fmt<W: fmt::Write>(&self, f: &mut fmt::Formatter<W>) -> fmt::Result {
        match *self {
            Unrest::Message(pick) => {
                let delivery = Delivery(pick);
                write!(f, "{delivery} waits to be delivered")
            }
            Unrest::Reply { core, tag } => {
                let core = core.0;
                write!(f, "core {core}'s reply of tag {tag} isn't handed out")
            }
        }
    }
}

/// Returns the step of a word that is asked for, with `shown` as what is shown of it.
pub(crate) fn word(
    config: &Checked,
    state: &SliceState<EitherFile>,
    word: WordAddr,
    shown: Option<u64>,
) -> WordStep
    requires { length state.now.view.caches ≡ config.now.cores }
    ensures word { result.word ≡ word }
    ensures shown { result.shown ≡ shown }
    ensures unrest { result.unrest ≡ first_unrest state.now.view }
{
    WordStep {
        word,
        shown,
        unrest: first(config, state),
    }
}

/// Writes the value of a word, or that its slice isn't quiet, and why.
pub(crate) fn write_word<W: fmt::Write>(step: WordStep, out: &mut W) -> fmt::Result
    ensures { OnOk result (WritesLine W.write_str_gives out.old
        (text_of_word step.shown ++ told_of_word step.shown step.unrest) out.new) }
{
    match (step.shown, step.unrest) {
        (Some(value), _) => writeln!(out, "{value}"),
        (None, Some(unrest)) => writeln!(out, "not quiet   {unrest}"),
        (None, None) => writeln!(out, "not quiet"),
    }
}

/// Returns the first message in flight, and if there is none, the first reply that isn't handed out.
fn first(config: &Checked, state: &SliceState<EitherFile>) -> Option<Unrest>
    requires { length state.now.view.caches ≡ config.now.cores }
    ensures { result ≡ first_unrest state.now.view }
{
    match state.waiting().next() {
        Some(pick) => Some(Unrest::Message(pick)),
        None => first_reply(config, state),
    }
}

fn first_reply(config: &Checked, state: &SliceState<EitherFile>) -> Option<Unrest>
    requires { length state.now.view.caches ≡ config.now.cores }
    ensures { result ≡ slice_get (replies_in state.now.view (range_with_len 0 (length state.now.view.caches))) 0 }
{
    for core in 0..config.cores() {
        let reply = first_reply_of(state, CoreId(core as u8));
        if reply.is_some() {
            return reply;
        }
    }
    None
}

fn first_reply_of(state: &SliceState<EitherFile>, core: CoreId) -> Option<Unrest>
    requires { core.0 < length state.now.view.caches }
    ensures { result ≡ slice_get (replies_of state.now.view core) 0 }
{
    for tag in 0..64 {
        if let TagState::Performed(_) = state.tag(core, tag) {
            return Some(Unrest::Reply { core, tag });
        }
    }
    None
}
