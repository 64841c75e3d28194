//! What changed cells break, as a page for a browser.

use changed_tables::Tables;
use litmus_chart::{SpaceTime, write_drawing};
use std::alloc::Global;
use std::fmt;
use std::fmt::Write;
use what_if::{Told, write_told};

/// The page above the picture.
const HEAD: &str = "<!doctype html>
<html lang=\"en\"><meta charset=\"utf-8\"><meta name=\"viewport\" content=\"width=device-width\">
<title>What a changed cell breaks</title>
<style>
:root{color-scheme:light dark}
body{font:15px system-ui,sans-serif;margin:1.5rem}
figure{margin:1rem 0;overflow-x:auto}
pre{font-size:13px;overflow-x:auto}
</style>
<h1>What a changed cell breaks</h1>
<figure>
";

/// Writes a page that has the picture and the text.
pub fn write_page<W: Write>(
    alloc: Global,
    space: &SpaceTime,
    tables: &Tables,
    told: Told<'_>,
    out: &mut W,
) -> fmt::Result {
    let mut text = String::new(alloc);
    write_told(alloc, tables, told, &mut text)?;
    out.write_str(HEAD)?;
    write_drawing(space, out)?;
    out.write_str("</figure>\n<pre>")?;
    write_escaped(text.as_str(), out)?;
    out.write_str("</pre>\n</html>\n")
}

// No word of the text has an ampersand.
fn write_escaped<W: Write>(text: &str, out: &mut W) -> fmt::Result {
    for letter in text.chars() {
        match letter {
            '<' => out.write_str("&lt;")?,
            _ => out.write_char(letter)?,
        }
    }
    Ok(())
}
