//! The fields of a line of CSV (RFC 4180), as they are written.
ghost use Rattle.std.specs.Prelude.{◌≤◌, IfSome, length};
ghost use Rattle.program_rows.specs.Line.{IsSplit};

use memchr::memchr;

/// A field at the front of a text, and what is after it.
#[derive(Clone, Copy)]
pub(crate) struct Split<'a> {
    pub field: &'a [u8],
    /// What follows the comma after the field: nothing if the line ends with it.
    pub behind: Option<&'a [u8]>,
}

/// Returns the first field of a line with its quotes, unless it has quotes that don't enclose it.
pub(crate) fn first_field<'a>(line: &'a [u8]) -> Option<Split<'a>>
    ensures { IfSome result (IsSplit line.now) }
{
    let (field, rest) = line.split_at(field_len(line)?);
    match rest.split_first() {
        None => Some(Split {
            field,
            behind: None,
        }),
        Some((b',', behind)) => Some(Split {
            field,
            behind: Some(behind),
        }),
        Some(_) => None,
    }
}

fn field_len(line: &[u8]) -> Option<usize>
    ensures { IfSome result (λ len. len ≤ length line.now) }
{
    if line.first() == Some(&b'"') {
        return quoted_len(line);
    }
    let len = memchr(b',', line).unwrap_or(line.len());
    if line[..len].contains(&b'"') {
        return None;
    }
    Some(len)
}

// Returns the length up to the quote that closes the field: the first that is no half of a pair.
fn quoted_len(line: &[u8]) -> Option<usize>
    ensures { IfSome result (λ len. len ≤ length line.now) }
{
    let mut is_open = false;
    for (place, byte) in line.iter().enumerate() {
        if *byte == b'"' {
            is_open = !is_open;
        } else if !is_open {
            return Some(place);
        }
    }
    if is_open { None } else { Some(line.len()) }
}

/// Returns a field without the quotes around it.
pub(crate) fn unquoted<'a>(field: &'a [u8]) -> &'a [u8] {
    match field {
        [b'"', inner @ .., b'"'] => inner,
        _ => field,
    }
}
