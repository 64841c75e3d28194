//! What became of a command, as members of an object: the words of its answer, and the same under names.
ghost use Rattle.std.specs.Prelude.{◌≡◌};
ghost use Rattle.script_json.specs.Answer.{members_of_delivered, members_of_evicted, members_of_pumped};

use super::access::Access;
use address_map::{CoreId, LineAddr};
use litmus_script::{Issued, Pumped};
use litmus_text::Number;
use slice_answer::{Cell, Delivered, Evicted};
use slice_log::Numbered;
use slice_queues::Pick;
use std::fmt;

/// What became of a command.
#[derive(Clone, Copy)]
pub(crate) enum Answer {
    Access(Issued),
    Eviction(Evicted),
    Delivery(Delivered),
    /// The reply that is handed out, if one waits.
    Reply(Option<Numbered>),
    /// The value of a word, if its slice is quiet.
    Word(Option<u64>),
    /// A delivery that a pump made.
    Made(Pick),
    /// What a pump left.
    Pump(Pumped),
}

impl fmt::Display for Answer {
    ghost use Rattle.std.specs.Prelude.{Some};
    ghost use Rattle.script_json.specs.Answer.{members_of};

    ghost output = { λ answer. Some (members_of answer) };

    fn fmt<W: fmt::Write>(&self, f: &mut fmt::Formatter<W>) -> fmt::Result {
        match *self {
            Answer::Access(issued) => write!(f, "{}", Access(issued)),
            Answer::Eviction(evicted) => f.write_str(evicted_members(evicted)),
            Answer::Delivery(delivered) => f.write_str(delivered_members(delivered)),
            Answer::Reply(handed) => write!(f, "{}", Reply(handed)),
            Answer::Word(shown) => write!(f, "{}", Word(shown)),
            Answer::Made(pick) => write!(f, "{}", Made(pick)),
            Answer::Pump(pumped) => f.write_str(pumped_members(pumped)),
        }
    }
}

const fn evicted_members(evicted: Evicted) -> &'static str
    ensures { result.now ≡ members_of_evicted evicted }
{
    match evicted {
        Evicted::Evicting => "\"words\":[\"evicting\"],\"status\":\"evicting\"",
        Evicted::NotHeld => "\"words\":[\"not\",\"held\"],\"status\":\"not held\"",
        Evicted::Busy => "\"words\":[\"busy\"],\"status\":\"busy\"",
        Evicted::WriteBackFull => "\"words\":[\"buffer\",\"full\"],\"status\":\"buffer full\"",
    }
}

const fn delivered_members(delivered: Delivered) -> &'static str
    ensures { result.now ≡ members_of_delivered delivered }
{
    match delivered {
        Delivered::Moved => "\"words\":[\"moved\"],\"status\":\"moved\"",
        Delivered::Blocked => "\"words\":[\"blocked\"],\"status\":\"blocked\"",
        Delivered::Nothing => "\"words\":[\"nothing\"],\"status\":\"nothing\"",
        Delivered::Broken(Cell::Entry) => {
            "\"words\":[\"broken\",\"entry\"],\"status\":\"broken entry\""
        }
        Delivered::Broken(Cell::Full) => {
            "\"words\":[\"broken\",\"full\"],\"status\":\"broken full\""
        }
        Delivered::Broken(Cell::Early) => {
            "\"words\":[\"broken\",\"early\"],\"status\":\"broken early\""
        }
    }
}

const fn pumped_members(pumped: Pumped) -> &'static str
    ensures { result.now ≡ members_of_pumped pumped }
{
    match pumped {
        Pumped::Empty => "\"words\":[\"empty\"]",
        Pumped::Left => "\"words\":[\"left\"]",
    }
}

/// A reply that is handed out, or that there is none.
#[derive(Clone, Copy)]
struct Reply(Option<Numbered>);

impl fmt::Display for Reply {
    ghost use Rattle.std.specs.Prelude.{Some};
    ghost use Rattle.script_json.specs.Answer.{members_of_handed};

    ghost output = { λ reply. Some (members_of_handed reply.0) };

    fn fmt<W: fmt::Write>(&self, f: &mut fmt::Formatter<W>) -> fmt::Result {
        let Some(given) = self.0 else {
            return f.write_str("\"words\":[\"none\"],\"status\":\"none\"");
        };
        let number = given.number;
        let exact = Number(number);
        let tag = given.entry.tag;
        let reply = Number(given.entry.reply);
        write!(
            f,
            "\"words\":[\"receipt\",{exact},\"tag\",{tag},\"reply\",{reply}],\"status\":\"receipt\",\"number\":{number},\"tag\":{tag},\"reply\":{reply}"
        )
    }
}

/// The value of a word, or that its slice isn't quiet.
#[derive(Clone, Copy)]
struct Word(Option<u64>);

impl fmt::Display for Word {
    ghost use Rattle.std.specs.Prelude.{Some};
    ghost use Rattle.script_json.specs.Answer.{members_of_word};

    ghost output = { λ word. Some (members_of_word word.0) };

    fn fmt<W: fmt::Write>(&self, f: &mut fmt::Formatter<W>) -> fmt::Result {
        match self.0 {
            Some(value) => {
                let value = Number(value);
                write!(f, "\"words\":[{value}],\"value\":{value}")
            }
            None => f.write_str("\"words\":[\"not\",\"quiet\"],\"status\":\"not quiet\""),
        }
    }
}

/// A delivery that a pump made, by the words of the command that makes it.
#[derive(Clone, Copy)]
struct Made(Pick);

impl fmt::Display for Made {
    ghost use Rattle.std.specs.Prelude.{Some};
    ghost use Rattle.script_json.specs.Answer.{members_of_made};

    ghost output = { λ made. Some (members_of_made made.0) };

    fn fmt<W: fmt::Write>(&self, f: &mut fmt::Formatter<W>) -> fmt::Result {
        match self.0 {
            Pick::Req(LineAddr(line), CoreId(core)) => {
                write!(f, "\"words\":[\"deliver\",\"req\",{line},{core}]")
            }
            Pick::Fwd(LineAddr(line), CoreId(core)) => {
                write!(f, "\"words\":[\"deliver\",\"fwd\",{line},{core}]")
            }
            Pick::Data(LineAddr(line), CoreId(core)) => {
                write!(f, "\"words\":[\"deliver\",\"data\",{line},{core}]")
            }
            Pick::Ack {
                line: LineAddr(line),
                to: CoreId(to),
                from: CoreId(from),
            } => write!(f, "\"words\":[\"deliver\",\"ack\",{line},{to},{from}]"),
            Pick::Home(LineAddr(line)) => write!(f, "\"words\":[\"deliver\",\"home\",{line}]"),
        }
    }
}
