//! Reads the text of parts. Lines are read for what they say; the spelling is then checked by writing the parts again.
ghost use Rattle.std.specs.Prelude.{◌≡◌, ◌++◌, [], List, ℕ, IfOk, IfSome, OnOk, false};
ghost use Rattle.litmus_rounds.specs.PartForm.{text_of_parts};

use super::part::{FORMAT, Gap, Part, VERSION};
use super::part_fault::PartFault;
use super::part_form::push_part;
use litmus_test::{Ended, Outcomes};
use litmus_text::parse_number;
use std::alloc::{AllocError, Global};

/// The parts of a text.
#[derive(Debug, Drop)]
pub struct Found {
    pub parts: Vec<Part>,
    /// Whether a part is cut off at the text's end.
    pub is_cut: bool,
    /// .. and its rounds, where its first line is whole.
    pub cut: Option<Gap>,
}

/// What was read so far.
#[derive(Drop)]
struct Reader {
    alloc: Global,
    sum: u64,
    file: usize,
    parts: Vec<Part>,
    /// The part whose last line was not read yet.
    open: Option<Part>,
}

/// Reads the parts of a text, all of the test of this sum. The last one may be cut off at the end.
pub fn read_parts(alloc: Global, sum: u64, file: usize, text: &[u8]) -> Result<Found, PartFault>
    // What is read is spelled so, up to a part that is cut off.
    ensures read { IfOk result (λ found. (rest : List ℕ) × (text.now ≡ text_of_parts found.parts.items ++ rest)
        × (found.is_cut ≡ false → rest ≡ [])) }
{
    let mut reader = Reader {
        alloc,
        sum,
        file,
        parts: Vec::new(alloc),
        open: None,
    };
    read_lines(&mut reader, text)?;
    let Reader { parts, open, .. } = reader;
    found_in(alloc, file, text, parts, cut_of(&open))
}

// Returns the rounds of a part whose last line is missing.
fn cut_of(open: &Option<Part>) -> Option<Gap> {
    match open {
        Some(part) => Some(Gap {
            seed: part.seed,
            rounds: part.count,
        }),
        None => None,
    }
}

// Compares the text with that of the parts that were read.
fn found_in(
    alloc: Global,
    file: usize,
    text: &[u8],
    parts: Vec<Part>,
    cut: Option<Gap>,
) -> Result<Found, PartFault>
    ensures read { IfOk result (λ found. (rest : List ℕ) × (text.now ≡ text_of_parts found.parts.items ++ rest)
        × (found.is_cut ≡ false → rest ≡ [])) }
{
    match text_behind(alloc, text, parts.as_slice())? {
        Some(rest) => Ok(Found {
            parts,
            is_cut: !rest.is_empty(),
            cut,
        }),
        None => Err(PartFault::Changed { file }),
    }
}

// Returns what follows the text of the parts.
fn text_behind<'a>(
    alloc: Global,
    text: &'a [u8],
    parts: &[Part],
) -> Result<Option<&'a [u8]>, AllocError>
    ensures { IfOk result (λ rest. IfSome rest (λ rest. text.now ≡ text_of_parts parts.now ++ rest.now)) }
{
    let mut written = Vec::new(alloc);
    push_parts(&mut written, parts)?;
    match text.strip_prefix(written.as_slice()) {
        Some(rest) => Ok(Some(rest)),
        None => Ok(None),
    }
}

fn push_parts(out: &mut Vec<u8>, parts: &[Part]) -> Result<(), AllocError>
    ensures { OnOk result (out.new.items ≡ out.old.items ++ text_of_parts parts.now) }
{
    for part in parts {
        push_part(out, part)?;
    }
    Ok(())
}

// Reads all whole lines.
fn read_lines(reader: &mut Reader, text: &[u8]) -> Result<(), PartFault> {
    let mut rest = text;
    for line in 1..u64::MAX {
        let Some(end) = rest.iter().position(|byte| *byte == b'\n') else {
            break;
        };
        let (whole, behind) = rest.split_at(end);
        reader.take(line, whole)?;
        rest = match behind.split_first() {
            Some((_, behind)) => behind,
            None => &[],
        };
    }
    Ok(())
}

impl Reader {
    // Reads the next line.
    fn take(&mut self, line: u64, text: &[u8]) -> Result<(), PartFault> {
        let words = words_of(self.alloc, text)?;
        match self.open.take() {
            None => {
                self.open = Some(self.head(line, words.as_slice())?);
                Ok(())
            }
            Some(part) => self.take_in(part, line, words.as_slice()),
        }
    }

    // Reads the next line of a part.
    fn take_in(&mut self, mut part: Part, line: u64, words: &[&[u8]]) -> Result<(), PartFault> {
        if let Some(ended) = end_of(words) {
            part.ended = ended;
            self.parts.push(part)?;
            return Ok(());
        }
        if !add_outcome(self.alloc, &mut part, words)? {
            return Err(self.no_part(line));
        }
        self.open = Some(part);
        Ok(())
    }

    fn no_part(&self, line: u64) -> PartFault {
        PartFault::NotAPart {
            file: self.file,
            line,
        }
    }

    // Reads the first line of a part.
    fn head(&self, line: u64, words: &[&[u8]]) -> Result<Part, PartFault> {
        let file = self.file;
        let [name, format, version, _, sum, _, limit, _, seed, _, rounds] = words else {
            return Err(self.no_part(line));
        };
        if !is_same(name, b"lockup-part") {
            return Err(self.no_part(line));
        }
        if !is_same(format, FORMAT) {
            return Err(PartFault::OtherFormat { file, line });
        }
        if !is_same(version, VERSION) {
            return Err(PartFault::OtherVersion { file, line });
        }
        let numbers = (
            parse_number(sum),
            limit_in(limit),
            parse_number(seed),
            parse_number(rounds),
        );
        let (Some(sum), Some(most), Some(seed), Some(count)) = numbers else {
            return Err(self.no_part(line));
        };
        if sum != self.sum {
            return Err(PartFault::OtherTest { file, line });
        }
        Ok(Part {
            sum,
            most,
            seed,
            count,
            outcomes: Outcomes::new(self.alloc),
            ended: Ended::Done,
        })
    }
}

fn words_of<'a>(alloc: Global, line: &'a [u8]) -> Result<Vec<&'a [u8]>, AllocError> {
    let mut words = Vec::new(alloc);
    for word in line.split(|byte| *byte == b' ') {
        words.push(word)?;
    }
    Ok(words)
}

fn is_same(word: &[u8], name: &[u8]) -> bool {
    word == name
}

fn limit_in(word: &[u8]) -> Option<u64> {
    if is_same(word, b"none") {
        Some(u64::MAX)
    } else {
        parse_number(word)
    }
}

// Returns how the rounds of a part ended, by its last line.
fn end_of(words: &[&[u8]]) -> Option<Ended> {
    match words {
        [end] if is_same(end, b"end") => Some(Ended::Done),
        [_, stuck, _, round] if is_same(stuck, b"stuck") => {
            Some(Ended::Stuck(parse_number(round)?))
        }
        [_, gave, _, _, round] if is_same(gave, b"gave") => {
            Some(Ended::GaveUp(parse_number(round)?))
        }
        _ => None,
    }
}

// Adds an outcome of a part, if the line is one.
fn add_outcome(alloc: Global, part: &mut Part, words: &[&[u8]]) -> Result<bool, AllocError> {
    let [_, rounds, _, seed, _, values @ ..] = words else {
        return Ok(false);
    };
    let (Some(rounds), Some(seed)) = (parse_number(rounds), parse_number(seed)) else {
        return Ok(false);
    };
    let mut numbers = Vec::new(alloc);
    if !push_numbers(&mut numbers, values)? {
        return Ok(false);
    }
    let first = seed.wrapping_sub(part.seed);
    part.outcomes.try_count(numbers.as_slice(), rounds, first)
}

fn push_numbers(numbers: &mut Vec<u64>, words: &[&[u8]]) -> Result<bool, AllocError> {
    for word in words {
        let Some(number) = parse_number(word) else {
            return Ok(false);
        };
        numbers.push(number)?;
    }
    Ok(true)
}
