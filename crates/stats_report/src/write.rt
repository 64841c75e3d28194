ghost use Rattle.std.specs.Prelude.{OnOk, IfErr};
ghost use Rattle.std.specs.Io.KnownBytes.{Appends};
ghost use Rattle.stats_report.specs.Text.{AppendsFirst};

use std::error::Error;
use std::fmt;
use std::io::Write;

/// A text that wasn't written whole: only its first `taken` bytes were.
#[derive(Clone, Copy, Debug, PartialEq, Eq)]
pub struct Cut {
    pub taken: usize,
}

impl fmt::Display for Cut {
    ghost use Rattle.std.specs.Prelude.{codes, Some};

    ghost output = { λ _. Some (codes "cannot write") };

    fn fmt<W: fmt::Write>(&self, f: &mut fmt::Formatter<W>) -> fmt::Result {
        f.write_str("cannot write")
    }
}

impl Error for Cut {}

/// Writes a whole text, however few bytes the writer takes at a time. It stops only where a write fails, also where it
/// was interrupted, or takes none of the bytes that are left.
pub fn write_text<W: Write>(writer: &mut W, text: &[u8]) -> Result<(), Cut>
    ensures ok { OnOk result (Appends (W.contents writer.old) (W.contents writer.new) text.now) }
    ensures cut { IfErr result (AppendsFirst (W.contents writer.old) (W.contents writer.new) text.now) }
{
    let mut taken = 0;
    while taken < text.len() {
        match writer.write(&text[taken..]) {
            Ok(0) | Err(_) => return Err(Cut { taken }),
            Ok(count) => taken += count,
        }
    }
    Ok(())
}
