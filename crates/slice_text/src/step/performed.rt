use address_map::{CoreId, Op, WordAddr};
use slice_log::Entry;
use std::fmt;

/// An access that was performed: its core, which of the core's requests it was, and the access as a script writes it.
#[derive(Clone, Copy)]
pub struct Performed(pub Entry);

impl fmt::Display for Performed {
    ghost use Rattle.std.specs.Prelude.{Some};
    ghost use Rattle.slice_text.specs.Performed.{text_of_performed};

    ghost output = { λ performed. Some (text_of_performed performed.0) };

    fn fmt<W: fmt::Write>(&self, f: &mut fmt::Formatter<W>) -> fmt::Result {
        let CoreId(core) = self.0.core;
        let seq = self.0.seq;
        let asked = Asked {
            word: self.0.word,
            op: self.0.op,
        };
        write!(f, "core {core}: request {seq}, {asked}")
    }
}

/// An access as a script writes it.
#[derive(Clone, Copy)]
pub struct Asked {
    pub word: WordAddr,
    pub op: Op,
}

impl fmt::Display for Asked {
    ghost use Rattle.std.specs.Prelude.{Some};
    ghost use Rattle.slice_text.specs.Performed.{text_of_op};

    ghost output = { λ asked. Some (text_of_op asked.word asked.op) };

    fn fmt<W: fmt::Write>(&self, f: &mut fmt::Formatter<W>) -> fmt::Result {
        let word = self.word.0;
        match self.op {
            Op::Load => write!(f, "load {word}"),
            Op::Store(new) => write!(f, "store {word} {new}"),
            Op::Add(more) => write!(f, "add {word} {more}"),
            Op::Cas { expect, new } => write!(f, "cas {word} {expect} {new}"),
        }
    }
}
