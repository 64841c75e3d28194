//! Accesses and evictions.
ghost use Rattle.std.specs.Prelude.{◌≡◌};
ghost use Rattle.slice_text.specs.Issue.{event_of, text_of_ask, text_of_shortage, text_of_silent};

use super::case::{Case, Event};
use super::effects::awaited;
use super::message::MessageName;
use address_map::{Op, Request};
use cache_table::CopyState;
use slice_answer::{Evicted, Refused, Stall};
use slice_core_cache::{AccessKind, Ask};
use slice_core_spec::Decision;
use slice_queues::Message;
use std::fmt;

impl Event {
    /// Returns the event of the table for an access.
    pub const fn of(op: Op) -> Self
        ensures { result ≡ event_of op }
    {
        match op {
            Op::Load => Event::Load,
            Op::Store(_) | Op::Add(_) | Op::Cas { .. } => Event::Write,
        }
    }
}

/// A request of a core to a slice: the case that its access meets, and what was decided.
#[derive(Clone, Copy)]
pub struct Issue {
    pub slice: usize,
    pub case: Case,
    pub request: Request,
    pub decision: Decision,
}

impl fmt::Display for Issue {
    ghost use Rattle.std.specs.Prelude.{Some};
    ghost use Rattle.slice_text.specs.Issue.{text_of_issue};

    ghost output = { λ issue. Some (text_of_issue issue) };

    fn fmt<W: fmt::Write>(&self, f: &mut fmt::Formatter<W>) -> fmt::Result {
        let case = self.case;
        match self.decision {
            Decision::Refuse(refused) => {
                let request = self.request;
                write!(f, "{}", Reason { request, refused })
            }
            Decision::Access(_, access) => {
                let slice = self.slice;
                write!(f, "{case}: {}", Effect { slice, access })
            }
        }
    }
}

/// What an access does.
#[derive(Clone, Copy)]
struct Effect {
    slice: usize,
    access: AccessKind,
}

impl fmt::Display for Effect {
    ghost use Rattle.std.specs.Prelude.{Some};
    ghost use Rattle.slice_text.specs.Issue.{text_of_access};

    ghost output = { λ effect. Some (text_of_access effect.slice effect.access) };

    fn fmt<W: fmt::Write>(&self, f: &mut fmt::Formatter<W>) -> fmt::Result {
        let slice = self.slice;
        match self.access {
            AccessKind::Hit { next, silent, .. } => write!(
                f,
                "hit; to {next}{}",
                said_of_silent(silent)
            ),
            AccessKind::PrimaryMiss { next, ask, .. } => {
                let sent = name_of(ask);
                write!(f, "primary miss; to {next}; sends {sent} to dir {slice}")
            }
            AccessKind::SecondaryMiss => f.write_str("secondary miss; joins"),
            AccessKind::Stall(stall) => f.write_str(shortage(stall)),
        }
    }
}

/// Why a request is refused.
#[derive(Clone, Copy)]
struct Reason {
    request: Request,
    refused: Refused,
}

impl fmt::Display for Reason {
    ghost use Rattle.std.specs.Prelude.{Some};
    ghost use Rattle.slice_text.specs.Issue.{text_of_reason};

    ghost output = { λ reason. Some (text_of_reason reason.request reason.refused) };

    fn fmt<W: fmt::Write>(&self, f: &mut fmt::Formatter<W>) -> fmt::Result {
        let word = self.request.word.0;
        let tag = self.request.tag;
        match self.refused {
            Refused::OutOfRange => write!(f, "no word {word}"),
            Refused::TagRange => write!(f, "no tag {tag}"),
            Refused::TagBusy => write!(f, "tag {tag} isn't handed out"),
            Refused::CounterStore => write!(f, "word {word} is a counter"),
            Refused::Memory | Refused::WrongSlice | Refused::Ahead(_) => {
                f.write_str("not asked here")
            }
        }
    }
}

/// Returns the name of a miss's request to the directory.
const fn name_of(ask: Ask) -> &'static str
    ensures { result.now ≡ text_of_ask ask }
{
    match ask {
        Ask::GetS => "GetS",
        Ask::GetM => "GetM",
    }
}

/// Returns the text for a write to an exclusive copy, for which no message is sent.
const fn said_of_silent(silent: bool) -> &'static str
    ensures { result.now ≡ text_of_silent silent }
{
    if silent { "; silent" } else { "" }
}

/// Returns what an access has to wait for.
const fn shortage(stall: Stall) -> &'static str
    ensures { result.now ≡ text_of_shortage stall }
{
    match stall {
        Stall::NoRegister => "no miss register is free",
        Stall::NoTarget => "no target of its miss register is free",
        Stall::NoWay => "no way is free",
        Stall::WriteBackFull => "the write-back buffer is full",
        Stall::WriteBackBusy => "waits for Put-Ack",
    }
}

/// An eviction that a core requested: the case that it meets, its answer, and the copy's state and the message that is
/// sent after it.
#[derive(Clone, Copy)]
pub struct Eviction {
    pub slice: usize,
    pub case: Case,
    pub answer: Evicted,
    pub state: CopyState,
    pub sent: Option<Message>,
}

impl fmt::Display for Eviction {
    ghost use Rattle.std.specs.Prelude.{Some};
    ghost use Rattle.slice_text.specs.Issue.{text_of_eviction};

    ghost output = { λ eviction. Some (text_of_eviction eviction) };

    fn fmt<W: fmt::Write>(&self, f: &mut fmt::Formatter<W>) -> fmt::Result {
        write!(f, "{}: {}", self.case, Answer(*self))
    }
}

/// What became of an eviction.
#[derive(Clone, Copy)]
struct Answer(Eviction);

impl fmt::Display for Answer {
    ghost use Rattle.std.specs.Prelude.{Some};
    ghost use Rattle.slice_text.specs.Issue.{text_of_answer};

    ghost output = { λ answer. Some (text_of_answer answer.0 answer.0.answer) };

    fn fmt<W: fmt::Write>(&self, f: &mut fmt::Formatter<W>) -> fmt::Result {
        let Eviction {
            slice,
            case,
            answer,
            state,
            sent,
        } = self.0;
        match answer {
            Evicted::Evicting => {
                let sent = Sent {
                    slice,
                    message: sent,
                };
                write!(f, "to {state}{sent}")
            }
            Evicted::NotHeld => f.write_str("no copy"),
            Evicted::Busy => write!(f, "waits for {}", awaited(case.who)),
            Evicted::WriteBackFull => f.write_str("the write-back buffer is full"),
        }
    }
}

/// The message that a core sends to the directory.
#[derive(Clone, Copy)]
struct Sent {
    slice: usize,
    message: Option<Message>,
}

impl fmt::Display for Sent {
    ghost use Rattle.std.specs.Prelude.{Some};
    ghost use Rattle.slice_text.specs.Issue.{text_of_sent};

    ghost output = { λ sent. Some (text_of_sent sent.slice sent.message) };

    fn fmt<W: fmt::Write>(&self, f: &mut fmt::Formatter<W>) -> fmt::Result {
        let slice = self.slice;
        match self.message {
            Some(message) => write!(f, "; sends {} to dir {slice}", MessageName(message)),
            None => f.write_str(""),
        }
    }
}
