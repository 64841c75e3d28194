//! Colors on a terminal.

use arrayvec::ArrayVec;
use std::io::{self, Write};

/// The words that are colored.
const MOVED: &[u8] = b"moved";

const BLOCKED: &[u8] = b"blocked";

/// What ends a color.
const PLAIN: &[u8] = b"\x1b[0m";

/// The length of the longest word that is colored.
const LONGEST: usize = 7;

/// A writer that colors the words `moved` and `blocked` between blanks, if it is to.
#[derive(Drop)]
pub struct Painted<W: Write> {
    out: W,
    is_colored: bool,
    /// What isn't written yet of a word that may be one of these.
    word: ArrayVec<u8, LONGEST>,
    /// Whether the word that is being written is none of these.
    is_plain: bool,
}

impl<W: Write> Painted<W> {
    /// Returns a writer to `out`, which colors or not.
    pub fn new(out: W, is_colored: bool) -> Painted<W> {
        Painted {
            out,
            is_colored,
            word: ArrayVec::new(),
            is_plain: false,
        }
    }

    /// Takes one byte more.
    fn put(&mut self, byte: u8) -> io::Result<()> {
        if byte == b' ' || byte == b'\n' {
            self.end_word()?;
        } else if !self.is_plain && self.word.try_push(byte).is_ok() {
            return Ok(());
        } else {
            self.begin_plain()?;
        }
        self.out.write_all(&[byte])
    }

    /// Writes the word that ends here, colored if it is one of these.
    fn end_word(&mut self) -> io::Result<()> {
        let color = color_of(self.word.as_slice());
        self.out.write_all(color)?;
        self.out.write_all(self.word.as_slice())?;
        if !color.is_empty() {
            self.out.write_all(PLAIN)?;
        }
        self.word.clear();
        self.is_plain = false;
        Ok(())
    }

    /// Writes what there is of a word that is none of these.
    fn begin_plain(&mut self) -> io::Result<()> {
        self.out.write_all(self.word.as_slice())?;
        self.word.clear();
        self.is_plain = true;
        Ok(())
    }
}

/// Returns what begins a word's color: nothing if it has none.
fn color_of(word: &[u8]) -> &'static [u8] {
    if word == MOVED {
        b"\x1b[32m"
    } else if word == BLOCKED {
        b"\x1b[33m"
    } else {
        b""
    }
}

impl<W: Write> Write for Painted<W> {
    fn write(&mut self, bytes: &[u8]) -> io::Result<usize> {
        if !self.is_colored {
            return self.out.write(bytes);
        }
        for byte in bytes {
            self.put(*byte)?;
        }
        Ok(bytes.len())
    }

    fn flush(&mut self) -> io::Result<()> {
        self.begin_plain()?;
        self.is_plain = false;
        self.out.flush()
    }
}
