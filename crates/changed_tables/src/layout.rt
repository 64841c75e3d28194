//! The cells of a text that shows tables.

ghost use Rattle.std.specs.Prelude.{◌≡◌, ◌++◌, [], IfOk, OnOk, map};
ghost use Rattle.std.specs.Option.{option_to_list};
ghost use Rattle.changed_tables.specs.Layout.{cell_at, cell_of, cells_along, cells_in, cells_of_kind, cells_of_lines};
ghost use Rattle.changed_tables.specs.Layout.{has_bar, is_rule, is_table, kind_of, titles_after, word_at, words_at, words_of};

use super::fault::{CellFault, TableFault};
use super::word::{pieces, trimmed};
use std::alloc::{AllocError, Global};

/// What a line is.
#[derive(Clone, Copy)]
pub(crate) enum Kind {
    /// It says nothing of a table.
    Aside,
    Heading,
    Cells,
}

/// A cell: its line and its place there, both counted from 1, the name of its line, the title of its column, and what it
/// says.
#[derive(Clone, Copy)]
pub(crate) struct Written<'a> {
    pub line: usize,
    pub place: usize,
    pub name: &'a [u8],
    pub title: &'a [u8],
    pub word: &'a [u8],
}

/// The cells that a text has of a table, whose headings begin with this name.
pub(crate) fn cells_in<'a>(
    alloc: Global,
    table: &[u8],
    text: &'a [u8],
) -> Result<Vec<Written<'a>>, TableFault>
    ensures { IfOk result (λ found. map cell_at found.items ≡ cells_in table.now text.now) }
{
    let lines = pieces(alloc, text, b'\n')?;
    cells_of_lines(alloc, table, &lines)
}

fn cells_of_lines<'a>(
    alloc: Global,
    table: &[u8],
    lines: &[&'a [u8]],
) -> Result<Vec<Written<'a>>, TableFault>
    ensures { IfOk result (λ found. map cell_at found.items ≡ cells_of_lines table.now 1 [] (words_at lines.now)) }
{
    let mut found = Vec::new(alloc);
    let mut titles = Vec::new(alloc);
    let mut is_headed = false;
    for (i, text) in lines.iter().enumerate() {
        let words = words_of(alloc, text)?;
        let kind = kind_of(&words);
        is_headed = is_headed || matches!(kind, Kind::Heading);
        if !is_headed && matches!(kind, Kind::Cells) {
            return Err(no_heading(i + 1));
        }
        add_cells(kind, i + 1, &titles, &words, &mut found)?;
        titles = titles_after(alloc, table, kind, titles, words);
    }
    Ok(found)
}

const fn no_heading(line: usize) -> TableFault {
    TableFault::At {
        line,
        cell: 1,
        why: CellFault::NoHeading,
    }
}

/// The fault of a cell.
pub(crate) const fn at(cell: &Written, why: CellFault) -> TableFault {
    TableFault::At {
        line: cell.line,
        cell: cell.place,
        why,
    }
}

/// Adds what was found, if anything was.
pub(crate) fn add<T: Drop>(found: Option<T>, all: &mut Vec<T>) -> Result<(), AllocError>
    ensures { OnOk result (all.new.items ≡ all.old.items ++ option_to_list found) }
{
    if let Some(one) = found {
        all.push(one)?;
    }
    Ok(())
}

/// Returns what comes before the first bar, between bars, and after the last.
fn words_of(alloc: Global, line: &[u8]) -> Result<Vec<&[u8]>, AllocError>
    ensures { IfOk result (λ words. words_at words.items ≡ words_of line.now) }
{
    line.split(|byte| *byte == b'|')
        .map(|piece| trimmed(piece))
        .collect(alloc)
}

/// The word at this place, and an empty one past the last.
fn word_at<'a>(words: &[&'a [u8]], i: usize) -> &'a [u8]
    ensures { result.now ≡ word_at (words_at words.now) i }
{
    match words.get(i) {
        Some(word) => *word,
        None => b"",
    }
}

fn kind_of(words: &[&[u8]]) -> Kind
    ensures { result ≡ kind_of (words_at words.now) }
{
    if !has_bar(words) {
        return Kind::Aside;
    }
    let name = word_at(words, 1);
    if is_table(name) {
        Kind::Heading
    } else if is_rule(name) {
        Kind::Aside
    } else {
        Kind::Cells
    }
}

/// Whether nothing comes before the first bar.
fn has_bar(words: &[&[u8]]) -> bool
    ensures { result ≡ has_bar (words_at words.now) }
{
    words.len() > 1 && word_at(words, 0).is_empty()
}

fn is_table(name: &[u8]) -> bool
    ensures { result ≡ is_table name.now }
{
    name == b"Cache".as_slice() || name == b"Directory".as_slice()
}

/// Whether it is dashes below a heading.
fn is_rule(name: &[u8]) -> bool
    ensures { result ≡ is_rule name.now }
{
    name.starts_with(b"-")
}

/// The heading that counts below a line: a line of another table has none.
fn titles_after<'a>(
    alloc: Global,
    table: &[u8],
    kind: Kind,
    titles: Vec<&'a [u8]>,
    words: Vec<&'a [u8]>,
) -> Vec<&'a [u8]>
    ensures { words_at result.items
        ≡ titles_after table.now kind (words_at titles.entry.items) (words_at words.entry.items) }
{
    match kind {
        Kind::Heading if word_at(&words, 1) == table => words,
        Kind::Heading => Vec::new(alloc),
        Kind::Aside | Kind::Cells => titles,
    }
}

/// Adds the cells of a line.
fn add_cells<'a>(
    kind: Kind,
    line: usize,
    titles: &[&'a [u8]],
    words: &[&'a [u8]],
    found: &mut Vec<Written<'a>>,
) -> Result<(), AllocError>
    ensures { OnOk result (map cell_at found.new.items ≡ map cell_at found.old.items
        ++ cells_of_kind kind line (words_at titles.now) (words_at words.now)) }
{
    match kind {
        Kind::Cells if !titles.is_empty() => add_cells_along(line, titles, words, found),
        Kind::Cells | Kind::Aside | Kind::Heading => Ok(()),
    }
}

fn add_cells_along<'a>(
    line: usize,
    titles: &[&'a [u8]],
    words: &[&'a [u8]],
    found: &mut Vec<Written<'a>>,
) -> Result<(), AllocError>
    ensures { OnOk result (map cell_at found.new.items ≡ map cell_at found.old.items
        ++ cells_along line (words_at titles.now) (words_at words.now)) }
{
    for place in 2..words.len() {
        add_cell(line, titles, words, place, found)?;
    }
    Ok(())
}

/// Adds the cell at a place, if it or its title says something.
fn add_cell<'a>(
    line: usize,
    titles: &[&'a [u8]],
    words: &[&'a [u8]],
    place: usize,
    found: &mut Vec<Written<'a>>,
) -> Result<(), AllocError>
    ensures { OnOk result (map cell_at found.new.items ≡ map cell_at found.old.items
        ++ cell_of line (words_at titles.now) (words_at words.now) place) }
{
    let (title, word) = (word_at(titles, place), word_at(words, place));
    if title.is_empty() && word.is_empty() {
        return Ok(());
    }
    found.push(Written {
        line,
        place,
        name: word_at(words, 1),
        title,
        word,
    })?;
    Ok(())
}
