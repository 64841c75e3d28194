//! What names a schedule at the head of its script.

use super::files::STANDARD_INPUT;
use litmus_text::TextFault;
use std::alloc::Global;

/// Returns a comment with the file's name, without folders and ending, and the seed. A page has it as its title.
pub fn head_of(alloc: Global, file: &str, seed: u64) -> Result<Vec<u8>, TextFault> {
    let name = if file == STANDARD_INPUT {
        "standard input"
    } else {
        stem_of(file)
    };
    match format!(in alloc; "# {name}, seed {seed}\n") {
        Ok(head) => Ok(head.into_bytes()),
        Err(_) => Err(TextFault::NoMemory),
    }
}

/// Returns the last part of a path up to its first point, on one line.
fn stem_of(file: &str) -> &str {
    let name = match file.rsplit_once('/') {
        Some((_, name)) => name,
        None => file,
    };
    before(before(name, '\n'), '.')
}

/// Returns a text up to a mark: all of it if there is none.
fn before(text: &str, mark: char) -> &str {
    match text.split_once(mark) {
        Some((before, _)) => before,
        None => text,
    }
}
