ghost use Rattle.std.specs.Prelude.{◌∷◌, OnOk, codes};
ghost use Rattle.std.specs.Fmt.{WritesInCalls};
ghost use Rattle.litmus_text.specs.Command.{parts_of, parts_of_op};
ghost use Rattle.litmus_text.specs.Form.{key, num};
ghost use Rattle.litmus_text.specs.Look.{name_of_look, parts_of_subject, subject_of};
ghost use Rattle.litmus_text.specs.Line.{line_of_parts};

use super::delivery::Delivery;
use super::line::{write_number, write_pair};
use crate::{Command, Look, Subject};
use address_map::{CoreId, Op, Request, WordAddr};
use std::fmt;
use std::fmt::Write;

/// Writes a command as a line of a script.
pub fn write_command<W: Write>(command: Command, out: &mut W) -> fmt::Result
    ensures { OnOk result (WritesInCalls W.write_str_gives out.old (line_of_parts (parts_of command)) out.new) }
{
    match command {
        Command::Issue { core, request } => write_issue(core, request, out),
        Command::Evict { core, line } => write_pair("evict", u64::from(core.0), line.0, out),
        Command::Deliver(pick) => {
            let delivery = Delivery(pick);
            writeln!(out, "{delivery}")
        }
        Command::Hand { core, slice } => {
            write_pair("hand", u64::from(core.0), u64::from(slice.0), out)
        }
        Command::Look(look) => write_look(look, out),
        Command::Pump(calls) => write_number("pump", calls, out),
    }
}

fn write_look<W: Write>(look: Look, out: &mut W) -> fmt::Result
    ensures { OnOk result (WritesInCalls W.write_str_gives out.old
        (line_of_parts (key (name_of_look look) ∷ parts_of_subject (subject_of look))) out.new) }
{
    let name = look.name();
    match look.subject() {
        Subject::Word(word) => write_number(name, word.0, out),
        Subject::Line(line) => write_number(name, line.0, out),
        Subject::Slice(slice) => write_number(name, u64::from(slice.0), out),
        Subject::Machine => writeln!(out, "{name}"),
    }
}

/// What a request asks for.
#[derive(Clone, Copy)]
struct Access {
    op: Op,
    word: WordAddr,
}

impl fmt::Display for Access {
    ghost use Rattle.std.specs.Prelude.{Some};
    ghost use Rattle.litmus_text.specs.Command.{parts_of_op};
    ghost use Rattle.litmus_text.specs.Line.{text_of_parts};

    ghost output = { λ access. Some (text_of_parts (parts_of_op access.op access.word.0)) };

    #[tactic(auto, unfolding(crate::specs::Command::parts_of_op))]
    fn fmt<W: fmt::Write>(&self, f: &mut fmt::Formatter<W>) -> fmt::Result {
        let word = self.word.0;
        match self.op {
            Op::Load => write!(f, "load {word}"),
            Op::Store(value) => write!(f, "store {word} {value}"),
            Op::Add(delta) => write!(f, "add {word} {delta}"),
            Op::Cas { expect, new } => write!(f, "cas {word} {expect} {new}"),
        }
    }
}

fn write_issue<W: Write>(core: CoreId, request: Request, out: &mut W) -> fmt::Result
    ensures { OnOk result (WritesInCalls W.write_str_gives out.old
        (line_of_parts (key (codes "issue") ∷ num core.0 ∷ num request.tag ∷ parts_of_op request.op request.word.0))
        out.new) }
{
    let (core, tag) = (core.0, request.tag);
    let access = Access {
        op: request.op,
        word: request.word,
    };
    writeln!(out, "issue {core} {tag} {access}")
}
