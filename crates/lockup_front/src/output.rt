//! Standard output, through one buffer.

ghost use Rattle.std.specs.Prelude.{◌≡◌, IfOk, Ok};

use litmus_text::TextFault;
use std::io;
use std::io::{BufWriter, Printer, Write};

/// Returns a buffer before standard output.
pub fn buffered<R: AllocGlobal + Print>(rt: &R) -> Result<BufWriter<Printer<'_, R>>, TextFault> {
    match BufWriter::new(rt.alloc(), io::writer(rt)) {
        Ok(out) => Ok(out),
        Err(_) => Err(TextFault::NoMemory),
    }
}

/// Writes what is still in the buffer, and returns what came of printing.
pub fn flushed<W: Write>(out: &mut W, printed: Result<u8, TextFault>) -> Result<u8, TextFault>
    ensures { IfOk result (λ status. printed ≡ Ok status) }
{
    match out.flush() {
        Ok(()) => printed,
        Err(_) => Err(TextFault::CannotWrite),
    }
}
