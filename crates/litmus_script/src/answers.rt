ghost use Rattle.std.specs.Prelude.{◌≡◌, ◌↔◌, ◌++◌, IfErr, IsOk, OnOk, codes, decimal};
ghost use Rattle.std.specs.Io.KnownBytes.{Appends};
ghost use Rattle.slice_answer.specs.Text.{text_of_delivered, text_of_evicted};
ghost use Rattle.litmus_script.specs.Answer.{WritesLine, text_of_handed, text_of_issued};
ghost use Rattle.litmus_script.specs.Answer.{text_of_pumped, text_of_word};

use arrayvec::ArrayString;
use itoa::Buffer;
use litmus_text::TextFault;
use slice_core::{Delivered, Evicted, Numbered, Refused, Stall};
use stats_report::{Cut, write_text};
use std::fmt;
use std::io::Write;

/// Writes answers: each piece of text is written whole, or the writing fails.
#[derive(Drop)]
pub struct TextWriter<'a, W> {
    pub out: &'a mut W,
}

impl<W: Write> fmt::Write for TextWriter<'_, W> {
    ghost write_str_gives = { λ old text new. (new.out.ghost_name ≡ old.out.ghost_name)
        × Appends (W.contents old.out.now) (W.contents new.out.now) text };

    fn write_str(&mut self, text: &str) -> fmt::Result {
        write_text(self.out, text.as_bytes()).map_err(|_| fmt::Error)
    }
}

impl<W: Write> TextWriter<'_, W> {
    /// Writes any bytes.
    pub fn write_bytes(&mut self, bytes: &[u8]) -> fmt::Result
        ensures { OnOk result (Appends (W.contents self.old.out.now) (W.contents self.new.out.now) bytes.now) }
    {
        write_text(self.out, bytes).map_err(|_| fmt::Error)
    }
}

/// Writes a line of any bytes, and its end.
pub(crate) fn write_line<W: Write>(line: &[u8], out: &mut W) -> Result<(), Cut>
    ensures { OnOk result (Appends (W.contents out.old) (W.contents out.new) (line.now ++ codes "\n")) }
{
    write_text(out, line)?;
    write_text(out, b"\n")
}

/// Converts the result of a write to that of a text.
pub fn written(wrote: fmt::Result) -> Result<(), TextFault>
    ensures fine { IsOk result ↔ IsOk wrote }
    ensures fault { IfErr result (λ fault. fault ≡ TextFault.CannotWrite) }
{
    wrote.map_err(|_| TextFault::CannotWrite)
}

/// What became of an access.
#[derive(Clone, Copy, Debug, PartialEq, Eq)]
pub enum Issued {
    /// It is performed, as the log's entry of this number.
    Done { number: u64, reply: u64 },
    /// It is the core's request of this number, and waits.
    Pending(u64),
    Stall(Stall),
    Refused(Refused),
}

impl fmt::Display for Issued {
    ghost use Rattle.std.specs.Prelude.{Some};
    ghost use Rattle.litmus_script.specs.Answer.{text_of_issued};

    ghost output = { λ issued. Some (text_of_issued issued) };

    fn fmt<W: fmt::Write>(&self, f: &mut fmt::Formatter<W>) -> fmt::Result {
        match *self {
            Issued::Done { number, reply } => write!(f, "done {number} reply {reply}"),
            Issued::Pending(seq) => write!(f, "pending {seq}"),
            Issued::Stall(stall) => write!(f, "stall {stall}"),
            Issued::Refused(refused) => write!(f, "refused {refused}"),
        }
    }
}

/// What remains after a pump.
#[derive(Clone, Copy, Debug, PartialEq, Eq)]
pub enum Pumped {
    /// No message waited in any slice.
    Empty,
    /// Messages may wait.
    Left,
}

/// Writes what became of an access.
#[inline(always)]
pub fn write_issued<W: fmt::Write>(issued: Issued, out: &mut W) -> fmt::Result
    ensures { OnOk result (WritesLine W.write_str_gives out.old (text_of_issued issued) out.new) }
{
    match issued {
        Issued::Done { number, reply } => write_done(number, reply, out),
        Issued::Pending(_) | Issued::Stall(_) | Issued::Refused(_) => writeln!(out, "{issued}"),
    }
}

/// Writes what became of an eviction.
pub fn write_evicted<W: fmt::Write>(evicted: Evicted, out: &mut W) -> fmt::Result
    ensures { OnOk result (WritesLine W.write_str_gives out.old (text_of_evicted evicted) out.new) }
{
    writeln!(out, "{evicted}")
}

/// Writes what became of a delivery.
pub fn write_delivered<W: fmt::Write>(delivered: Delivered, out: &mut W) -> fmt::Result
    ensures { OnOk result (WritesLine W.write_str_gives out.old (text_of_delivered delivered) out.new) }
{
    match delivered {
        Delivered::Moved => write_whole("moved\n", out),
        Delivered::Blocked | Delivered::Nothing | Delivered::Broken(_) => {
            writeln!(out, "{delivered}")
        }
    }
}

/// Writes the reply that is delivered to the core, or that there is none.
pub fn write_handed<W: fmt::Write>(handed: Option<Numbered>, out: &mut W) -> fmt::Result
    ensures { OnOk result (WritesLine W.write_str_gives out.old (text_of_handed handed) out.new) }
{
    match handed {
        Some(Numbered { number, entry }) => write_receipt(number, entry.tag, entry.reply, out),
        None => writeln!(out, "none"),
    }
}

/// Writes the value of a word, or that its slice isn't quiet.
pub(crate) fn write_word<W: fmt::Write>(shown: Option<u64>, out: &mut W) -> fmt::Result
    ensures { OnOk result (WritesLine W.write_str_gives out.old (text_of_word shown) out.new) }
{
    match shown {
        Some(value) => writeln!(out, "{value}"),
        None => writeln!(out, "not quiet"),
    }
}

/// Writes what remains after a pump.
pub fn write_pumped<W: fmt::Write>(pumped: Pumped, out: &mut W) -> fmt::Result
    ensures { OnOk result (WritesLine W.write_str_gives out.old (text_of_pumped pumped) out.new) }
{
    match pumped {
        Pumped::Empty => writeln!(out, "empty"),
        Pumped::Left => writeln!(out, "left"),
    }
}

/// Writes a fixed answer, with its line end.
fn write_whole<W: fmt::Write>(text: &str, out: &mut W) -> fmt::Result
    ensures { OnOk result (W.write_str_gives out.old text.now out.new) }
{
    out.write_str(text)
}

/// Room for the longest answer to an access that is done: two numbers of twenty digits, and the words around them.
const DONE_ROOM: usize = 64;

/// Writes the answer to an access that is done. Most answers are of this kind, so the text is built before it is
/// written.
fn write_done<W: fmt::Write>(number: u64, reply: u64, out: &mut W) -> fmt::Result
    ensures { OnOk result (W.write_str_gives out.old
        (codes "done " ++ decimal number ++ codes " reply " ++ decimal reply ++ codes "\n") out.new) }
{
    let mut text = ArrayString::<DONE_ROOM>::new();
    let mut digits = Buffer::new();
    text.push_str("done ");
    text.push_str(digits.format(number));
    text.push_str(" reply ");
    text.push_str(digits.format(reply));
    text.push_str("\n");
    out.write_str(text.as_str())
}

/// Room for the longest receipt: two numbers of twenty digits, a tag, and the words around them.
const RECEIPT_ROOM: usize = 80;

/// Writes a receipt. Its text is built before it is written, since there is one for each access.
fn write_receipt<W: fmt::Write>(number: u64, tag: u8, reply: u64, out: &mut W) -> fmt::Result
    ensures { OnOk result (W.write_str_gives out.old
        (codes "receipt " ++ decimal number ++ codes " tag " ++ decimal tag ++ codes " reply " ++ decimal reply
        ++ codes "\n") out.new) }
{
    let mut text = ArrayString::<RECEIPT_ROOM>::new();
    let mut digits = Buffer::new();
    text.push_str("receipt ");
    text.push_str(digits.format(number));
    text.push_str(" tag ");
    text.push_str(digits.format(tag));
    text.push_str(" reply ");
    text.push_str(digits.format(reply));
    text.push_str("\n");
    out.write_str(text.as_str())
}
