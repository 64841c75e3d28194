//! The prompt, whose lines come from standard input.

use litmus_text::TextFault;
use script_prompt::{Saver, run_prompt};
use std::fs::File;
use std::io;
use std::io::{BufReader, Write};
use std::rt::Files;

/// What is shown if somebody types, while a line is waited for.
const MARK: &str = "> ";

/// The files that the runtime reaches.
#[derive(Drop)]
struct Disk<'a, R: Files> {
    rt: &'a R,
}

impl<R: Files> Saver for Disk<'_, R> {
    fn save(&mut self, name: &str, text: &[u8]) -> io::Result<()> {
        let mut file = File::create_new(self.rt, name)?;
        file.write_all(text)
    }
}

/// Plays a script, and answers each line of standard input at once.
pub fn answer_lines<R, W>(
    rt: &R,
    script: &[u8],
    is_typed: bool,
    out: &mut W,
) -> Result<u8, TextFault>
where
    R: Files + Input + AllocGlobal,
    W: Write,
{
    let Ok(mut input) = BufReader::new(rt.alloc(), rt.reader()) else {
        return Err(TextFault::NoMemory);
    };
    let mark = if is_typed { MARK } else { "" };
    let mut disk = Disk { rt };
    run_prompt(rt.alloc(), script, mark, &mut input, out, &mut disk)
}
