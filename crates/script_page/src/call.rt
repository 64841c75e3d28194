//! A command as data, and what is planned for the message that it delivers.
ghost use Rattle.std.specs.Prelude.{◌≡◌};
ghost use Rattle.slice_core_spec.specs.Calls.{core_of};
ghost use Rattle.slice_queues.specs.Pick.{channel_of};

use address_map::{CoreId, LineAddr, SliceId};
use directory_table::DirSends;
use litmus_text::{Command, Look, Subject};
use slice_core::{DeliveredNext, Pick, Plan, Transition};
use slice_json::{Asked, CoreList, Ends, fate_by};
use std::fmt;

/// A command, by its name and what it names.
#[derive(Clone, Copy)]
pub(crate) struct Call(pub(crate) Command);

impl fmt::Display for Call {
    ghost use Rattle.std.specs.Prelude.{Some};
    ghost use Rattle.script_page.specs.Call.{text_of_call};

    ghost output = { λ call. Some (text_of_call call.0) };

    fn fmt<W: fmt::Write>(&self, f: &mut fmt::Formatter<W>) -> fmt::Result {
        match self.0 {
            Command::Issue { core, request } => {
                let core = core.0;
                let line = request.word.line().0;
                let asked = Asked(request.op);
                write!(
                    f,
                    "{{\"name\":\"issue\",\"core\":{core},\"line\":{line},{asked}}}"
                )
            }
            Command::Evict { core, line } => {
                let core = core.0;
                let line = line.0;
                write!(f, "{{\"name\":\"evict\",\"core\":{core},\"line\":{line}}}")
            }
            Command::Deliver(pick) => {
                let line = pick.line().0;
                let ends = Ends(pick.channel());
                write!(f, "{{\"name\":\"deliver\",\"line\":{line},{ends}}}")
            }
            Command::Hand { core, slice } => {
                let core = core.0;
                let slice = slice.0;
                write!(f, "{{\"name\":\"hand\",\"core\":{core},\"slice\":{slice}}}")
            }
            Command::Look(look) => {
                let shown = Shown(look);
                write!(f, "{shown}")
            }
            Command::Pump(_) => f.write_str("{\"name\":\"pump\"}"),
        }
    }
}

/// What is to be shown, by its name and the line or the slice that it is about.
#[derive(Clone, Copy)]
struct Shown(Look);

impl fmt::Display for Shown {
    ghost use Rattle.std.specs.Prelude.{Some};
    ghost use Rattle.script_page.specs.Call.{text_of_look};

    ghost output = { λ shown. Some (text_of_look shown.0) };

    fn fmt<W: fmt::Write>(&self, f: &mut fmt::Formatter<W>) -> fmt::Result {
        let name = self.0.name();
        match self.0.subject() {
            Subject::Word(word) => {
                let line = word.line().0;
                write!(f, "{{\"name\":\"{name}\",\"line\":{line}}}")
            }
            Subject::Line(LineAddr(line)) => write!(f, "{{\"name\":\"{name}\",\"line\":{line}}}"),
            Subject::Slice(SliceId(slice)) => {
                write!(f, "{{\"name\":\"{name}\",\"slice\":{slice}}}")
            }
            Subject::Machine => write!(f, "{{\"name\":\"{name}\"}}"),
        }
    }
}

/// What was planned for the message in front of a channel before it was to be delivered.
#[derive(Clone, Copy)]
pub(crate) struct Planned {
    pub(crate) pick: Pick,
    pub(crate) plan: Plan,
}

impl fmt::Display for Planned {
    ghost use Rattle.std.specs.Prelude.{Some};
    ghost use Rattle.script_page.specs.Call.{text_of_plan};

    ghost output = { λ planned. Some (text_of_plan planned.pick planned.plan) };

    fn fmt<W: fmt::Write>(&self, f: &mut fmt::Formatter<W>) -> fmt::Result {
        match self.plan {
            Plan::Moved(Transition::Directory(step)) => {
                let next = step.state;
                let forwards = Forwards {
                    pick: self.pick,
                    sends: step.sends,
                };
                write!(
                    f,
                    "{{\"fate\":\"moves\",\"next\":\"{next}\",\"forwards\":{forwards}}}"
                )
            }
            Plan::Moved(Transition::Home(step)) => {
                let next = step.state;
                write!(f, "{{\"fate\":\"moves\",\"next\":\"{next}\"}}")
            }
            Plan::Moved(Transition::Forwarded(step)) => {
                let next = step.next;
                write!(f, "{{\"fate\":\"moves\",\"next\":\"{next}\"}}")
            }
            Plan::Moved(Transition::Fill(step)) => {
                let next = step.next;
                write!(f, "{{\"fate\":\"moves\",\"next\":\"{next}\"}}")
            }
            Plan::Moved(Transition::Acknowledge(step)) => {
                let next = step.next;
                write!(f, "{{\"fate\":\"moves\",\"next\":\"{next}\"}}")
            }
            plan => {
                let fate = fate_by(plan);
                write!(f, "{{\"fate\":\"{fate}\"}}")
            }
        }
    }
}

/// The delivery that a slice would choose next, if it could make one.
#[derive(Clone, Copy)]
pub(crate) struct Next(pub(crate) DeliveredNext);

impl fmt::Display for Next {
    ghost use Rattle.std.specs.Prelude.{Some};
    ghost use Rattle.script_page.specs.Call.{text_of_next};

    ghost output = { λ next. Some (text_of_next next.0) };

    fn fmt<W: fmt::Write>(&self, f: &mut fmt::Formatter<W>) -> fmt::Result {
        match self.0 {
            DeliveredNext::Moved(pick) => {
                let line = pick.line().0;
                let ends = Ends(pick.channel());
                write!(f, "{{\"line\":{line},{ends}}}")
            }
            _ => f.write_str("null"),
        }
    }
}

/// What the directory sends on forwarded channels for the request of a pick: only there can a message follow
/// another.
#[derive(Clone, Copy)]
struct Forwards {
    pick: Pick,
    sends: DirSends,
}

impl fmt::Display for Forwards {
    ghost use Rattle.std.specs.Prelude.{Some};
    ghost use Rattle.script_page.specs.Call.{text_of_forwards};
    ghost use Rattle.slice_core_spec.specs.Calls.{core_of};
    ghost use Rattle.slice_queues.specs.Pick.{channel_of};

    ghost output = { λ sent. Some (text_of_forwards (core_of (channel_of sent.pick)) sent.sends) };

    fn fmt<W: fmt::Write>(&self, f: &mut fmt::Formatter<W>) -> fmt::Result {
        let core = core_of(self.pick).0;
        match self.sends {
            DirSends::FwdGetS {
                owner: CoreId(owner),
            } => write!(
                f,
                "{{\"kind\":\"Fwd-GetS\",\"for\":{core},\"to\":[{owner}]}}"
            ),
            DirSends::FwdGetM {
                owner: CoreId(owner),
            } => write!(
                f,
                "{{\"kind\":\"Fwd-GetM\",\"for\":{core},\"to\":[{owner}]}}"
            ),
            DirSends::DataAndInv { invalidated, .. } => {
                let cores = CoreList(invalidated);
                write!(f, "{{\"kind\":\"Inv\",\"for\":{core},\"to\":{cores}}}")
            }
            DirSends::PutAck => write!(f, "{{\"kind\":\"Put-Ack\",\"to\":[{core}]}}"),
            DirSends::Nothing | DirSends::Data { .. } | DirSends::DataE => f.write_str("null"),
        }
    }
}

/// Returns the core at a channel.
const fn core_of(pick: Pick) -> CoreId
    ensures { result ≡ core_of (channel_of pick) }
{
    match pick {
        Pick::Req(_, core)
        | Pick::Fwd(_, core)
        | Pick::Data(_, core)
        | Pick::Ack { to: core, .. } => core,
        Pick::Home(_) => CoreId(0),
    }
}
