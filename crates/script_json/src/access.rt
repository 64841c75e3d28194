//! What became of an access, as members of an object.
ghost use Rattle.std.specs.Prelude.{◌≡◌};
ghost use Rattle.script_json.specs.Answer.{text_of_reason, text_of_refused, text_of_stall};

use litmus_script::Issued;
use litmus_text::Number;
use slice_answer::{Refused, Stall};
use std::fmt;

/// What became of an access.
#[derive(Clone, Copy)]
pub(crate) struct Access(pub(crate) Issued);

impl fmt::Display for Access {
    ghost use Rattle.std.specs.Prelude.{Some};
    ghost use Rattle.script_json.specs.Answer.{members_of_issued};

    ghost output = { λ access. Some (members_of_issued access.0) };

    fn fmt<W: fmt::Write>(&self, f: &mut fmt::Formatter<W>) -> fmt::Result {
        match self.0 {
            Issued::Done { number, reply } => {
                let exact = Number(number);
                let reply = Number(reply);
                write!(
                    f,
                    "\"words\":[\"done\",{exact},\"reply\",{reply}],\"status\":\"done\",\"number\":{number},\"reply\":{reply}"
                )
            }
            Issued::Pending(seq) => {
                let exact = Number(seq);
                write!(
                    f,
                    "\"words\":[\"pending\",{exact}],\"status\":\"pending\",\"number\":{seq}"
                )
            }
            Issued::Stall(stall) => {
                let reason = stall_reason(stall);
                write!(f, "\"words\":[\"stall\"{reason}")
            }
            Issued::Refused(refused) => {
                let reason = refusal_reason(refused);
                write!(f, "\"words\":[\"refused\"{reason}")
            }
        }
    }
}

/// Why an access isn't accepted, after its status as the first word: the number and the name of the reason.
#[derive(Clone, Copy)]
struct Reason {
    status: &'static str,
    number: u8,
    name: &'static str,
}

impl Reason {
    const fn new(status: &'static str, number: u8, name: &'static str) -> Self
        ensures { text_of_reason result.status.now result.number result.name.now
            ≡ text_of_reason status.now number name.now }
    {
        Reason {
            status,
            number,
            name,
        }
    }
}

impl fmt::Display for Reason {
    ghost use Rattle.std.specs.Prelude.{Some};
    ghost use Rattle.script_json.specs.Answer.{text_of_reason};

    ghost output = { λ reason. Some (text_of_reason reason.status.now reason.number reason.name.now) };

    fn fmt<W: fmt::Write>(&self, f: &mut fmt::Formatter<W>) -> fmt::Result {
        let Reason {
            status,
            number,
            name,
        } = *self;
        write!(
            f,
            ",{number},\"{name}\"],\"status\":\"{status}\",\"number\":{number},\"reason\":\"{name}\""
        )
    }
}

const fn stall_reason(stall: Stall) -> Reason
    ensures { text_of_reason result.status.now result.number result.name.now ≡ text_of_stall stall }
{
    match stall {
        Stall::NoRegister => Reason::new("stall", 1, "NoRegister"),
        Stall::NoTarget => Reason::new("stall", 2, "NoTarget"),
        Stall::NoWay => Reason::new("stall", 3, "NoWay"),
        Stall::WriteBackFull => Reason::new("stall", 4, "WriteBackFull"),
        Stall::WriteBackBusy => Reason::new("stall", 5, "WriteBackBusy"),
    }
}

const fn refusal_reason(refused: Refused) -> Reason
    ensures { text_of_reason result.status.now result.number result.name.now ≡ text_of_refused refused }
{
    match refused {
        Refused::OutOfRange => Reason::new("refused", 1, "OutOfRange"),
        Refused::TagRange => Reason::new("refused", 2, "TagRange"),
        Refused::TagBusy => Reason::new("refused", 3, "TagBusy"),
        Refused::CounterStore => Reason::new("refused", 4, "CounterStore"),
        Refused::Memory => Reason::new("refused", 5, "Memory"),
        Refused::WrongSlice => Reason::new("refused", 6, "WrongSlice"),
        Refused::Ahead(_) => Reason::new("refused", 8, "Ahead"),
    }
}
