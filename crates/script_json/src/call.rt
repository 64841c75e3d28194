//! A command as data.
ghost use Rattle.std.specs.Prelude.{OnOk};
ghost use Rattle.std.specs.Fmt.{WritesInCalls};
ghost use Rattle.std.specs.Io.KnownBytes.{Appends};
ghost use Rattle.script_json.specs.Call.{text_of_call};

use address_map::{CoreId, LineAddr, Op, SliceId, WordAddr};
use litmus_script::TextWriter;
use litmus_text::{Command, Look, Number, Subject, TextFault};
use slice_queues::Channel;
use std::fmt;
use std::io::Write;

/// Writes a command: its name, and what it names.
pub(crate) fn write_call<W: Write>(command: Command, out: &mut W) -> Result<(), TextFault>
    ensures { OnOk result (Appends (W.contents out.old) (W.contents out.new) (text_of_call command)) }
{
    let mut answers = TextWriter { out };
    match write_called(command, &mut answers) {
        Ok(()) => Ok(()),
        Err(_) => Err(TextFault::CannotWrite),
    }
}

fn write_called<W: fmt::Write>(command: Command, out: &mut W) -> fmt::Result
    ensures { OnOk result (WritesInCalls W.write_str_gives out.old (text_of_call command) out.new) }
{
    let call = Call(command);
    write!(out, "{call}")
}

/// A command, by its name and what it names.
#[derive(Clone, Copy)]
pub(crate) struct Call(pub(crate) Command);

impl fmt::Display for Call {
    ghost use Rattle.std.specs.Prelude.{Some};
    ghost use Rattle.script_json.specs.Call.{text_of_call};

    ghost output = { λ call. Some (text_of_call call.0) };

    fn fmt<W: fmt::Write>(&self, f: &mut fmt::Formatter<W>) -> fmt::Result {
        match self.0 {
            Command::Issue { core, request } => {
                let core = core.0;
                let tag = request.tag;
                let word = request.word.0;
                let asked = Asked(request.op);
                write!(
                    f,
                    "{{\"name\":\"issue\",\"core\":{core},\"tag\":{tag},\"word\":{word},{asked}}}"
                )
            }
            Command::Evict { core, line } => {
                let core = core.0;
                let line = line.0;
                write!(f, "{{\"name\":\"evict\",\"core\":{core},\"line\":{line}}}")
            }
            Command::Deliver(pick) => {
                let line = pick.line().0;
                let ends = Ends(pick.channel());
                write!(f, "{{\"name\":\"deliver\",\"line\":{line},{ends}}}")
            }
            Command::Hand { core, slice } => {
                let core = core.0;
                let slice = slice.0;
                write!(f, "{{\"name\":\"hand\",\"core\":{core},\"slice\":{slice}}}")
            }
            Command::Look(look) => {
                let shown = Shown(look);
                write!(f, "{shown}")
            }
            Command::Pump(calls) => {
                let calls = Number(calls);
                write!(f, "{{\"name\":\"pump\",\"calls\":{calls}}}")
            }
        }
    }
}

/// What is to be shown, by its name and what it is about.
#[derive(Clone, Copy)]
struct Shown(Look);

impl fmt::Display for Shown {
    ghost use Rattle.std.specs.Prelude.{Some};
    ghost use Rattle.script_json.specs.Call.{text_of_look};

    ghost output = { λ shown. Some (text_of_look shown.0) };

    fn fmt<W: fmt::Write>(&self, f: &mut fmt::Formatter<W>) -> fmt::Result {
        let name = self.0.name();
        match self.0.subject() {
            Subject::Word(WordAddr(word)) => write!(f, "{{\"name\":\"{name}\",\"word\":{word}}}"),
            Subject::Line(LineAddr(line)) => write!(f, "{{\"name\":\"{name}\",\"line\":{line}}}"),
            Subject::Slice(SliceId(slice)) => {
                write!(f, "{{\"name\":\"{name}\",\"slice\":{slice}}}")
            }
            Subject::Machine => write!(f, "{{\"name\":\"{name}\"}}"),
        }
    }
}

/// What an access asks for, with its operands.
#[derive(Clone, Copy)]
struct Asked(Op);

impl fmt::Display for Asked {
    ghost use Rattle.std.specs.Prelude.{Some};
    ghost use Rattle.script_json.specs.Call.{text_of_op};

    ghost output = { λ asked. Some (text_of_op asked.0) };

    fn fmt<W: fmt::Write>(&self, f: &mut fmt::Formatter<W>) -> fmt::Result {
        match self.0 {
            Op::Load => f.write_str("\"op\":\"load\""),
            Op::Store(value) => {
                let value = Number(value);
                write!(f, "\"op\":\"store\",\"value\":{value}")
            }
            Op::Add(value) => {
                let value = Number(value);
                write!(f, "\"op\":\"add\",\"value\":{value}")
            }
            Op::Cas { expect, new } => {
                let expect = Number(expect);
                let new = Number(new);
                write!(f, "\"op\":\"cas\",\"expect\":{expect},\"value\":{new}")
            }
        }
    }
}

/// A channel, by its class and the cores at it.
#[derive(Clone, Copy)]
struct Ends(Channel);

impl fmt::Display for Ends {
    ghost use Rattle.std.specs.Prelude.{Some};
    ghost use Rattle.script_json.specs.Call.{text_of_ends};

    ghost output = { λ ends. Some (text_of_ends ends.0) };

    fn fmt<W: fmt::Write>(&self, f: &mut fmt::Formatter<W>) -> fmt::Result {
        match self.0 {
            Channel::Req(CoreId(core)) => write!(f, "\"class\":\"req\",\"core\":{core}"),
            Channel::Fwd(CoreId(core)) => write!(f, "\"class\":\"fwd\",\"core\":{core}"),
            Channel::Data(CoreId(core)) => write!(f, "\"class\":\"data\",\"core\":{core}"),
            Channel::Ack {
                to: CoreId(to),
                from: CoreId(from),
            } => write!(f, "\"class\":\"ack\",\"to\":{to},\"from\":{from}"),
            Channel::Home => f.write_str("\"class\":\"home\""),
        }
    }
}
