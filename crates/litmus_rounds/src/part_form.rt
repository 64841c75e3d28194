//! The text of a part.
ghost use Rattle.std.specs.Prelude.{◌≡◌, ◌++◌, OnOk, codes, decimal};
ghost use Rattle.std.specs.List.{flat_map};
ghost use Rattle.litmus_rounds.specs.PartForm.{end_of, head_of, limit_of, line_of, opening, rounds_in, text_of_part};
ghost use Rattle.litmus_rounds.specs.PartForm.{value_of, walk_of, word_of};

use super::part::{FORMAT, Part, VERSION};
use itoa::Buffer;
use litmus_test::{Ended, Row};
use std::alloc::AllocError;

/// Adds the text of a part.
pub fn push_part(out: &mut Vec<u8>, part: &Part) -> Result<(), AllocError>
    ensures { OnOk result (out.new.items ≡ out.old.items ++ text_of_part part.now) }
{
    push_head(out, part)?;
    push_lines(out, part.seed, part.outcomes.rows())?;
    push_end(out, part.ended)
}

fn push_head(out: &mut Vec<u8>, part: &Part) -> Result<(), AllocError>
    ensures { OnOk result (out.new.items ≡ out.old.items ++ head_of part.now) }
{
    push_walk(out, part)?;
    push_rounds(out, part)
}

fn push_walk(out: &mut Vec<u8>, part: &Part) -> Result<(), AllocError>
    ensures { OnOk result (out.new.items ≡ out.old.items ++ walk_of part.now) }
{
    push_opening(out)?;
    push_number(out, part.sum)?;
    out.extend_from_slice(b" limit ")?;
    push_limit(out, part.most)
}

fn push_opening(out: &mut Vec<u8>) -> Result<(), AllocError>
    ensures { OnOk result (out.new.items ≡ out.old.items ++ opening) }
{
    push_word(out, b"lockup-part")?;
    push_word(out, FORMAT)?;
    push_word(out, VERSION)?;
    push_word(out, b"test")
}

fn push_word(out: &mut Vec<u8>, word: &[u8]) -> Result<(), AllocError>
    ensures { OnOk result (out.new.items ≡ out.old.items ++ word_of word.now) }
{
    out.extend_from_slice(word)?;
    out.extend_from_slice(b" ")
}

fn push_rounds(out: &mut Vec<u8>, part: &Part) -> Result<(), AllocError>
    ensures { OnOk result (out.new.items ≡ out.old.items ++ rounds_in part.now) }
{
    out.extend_from_slice(b" seed ")?;
    push_number(out, part.seed)?;
    out.extend_from_slice(b" rounds ")?;
    push_number(out, part.count)?;
    out.extend_from_slice(b"\n")
}

fn push_limit(out: &mut Vec<u8>, most: u64) -> Result<(), AllocError>
    ensures { OnOk result (out.new.items ≡ out.old.items ++ limit_of most) }
{
    if most == u64::MAX {
        out.extend_from_slice(b"none")
    } else {
        push_number(out, most)
    }
}

fn push_lines(out: &mut Vec<u8>, seed: u64, rows: &[Row]) -> Result<(), AllocError>
    ensures { OnOk result (out.new.items ≡ out.old.items ++ flat_map (line_of seed) rows.now) }
{
    for row in rows {
        push_line(out, seed, row)?;
    }
    Ok(())
}

fn push_line(out: &mut Vec<u8>, seed: u64, row: &Row) -> Result<(), AllocError>
    ensures { OnOk result (out.new.items ≡ out.old.items ++ line_of seed row.now) }
{
    out.extend_from_slice(b"outcome ")?;
    push_number(out, row.rounds())?;
    out.extend_from_slice(b" seed ")?;
    push_number(out, seed.wrapping_add(row.first()))?;
    out.extend_from_slice(b" values")?;
    push_values(out, row.values())?;
    out.extend_from_slice(b"\n")
}

fn push_values(out: &mut Vec<u8>, values: &[u64]) -> Result<(), AllocError>
    ensures { OnOk result (out.new.items ≡ out.old.items ++ flat_map value_of values.now) }
{
    for value in values {
        push_value(out, *value)?;
    }
    Ok(())
}

fn push_value(out: &mut Vec<u8>, value: u64) -> Result<(), AllocError>
    ensures { OnOk result (out.new.items ≡ out.old.items ++ value_of value) }
{
    out.extend_from_slice(b" ")?;
    push_number(out, value)
}

fn push_end(out: &mut Vec<u8>, ended: Ended) -> Result<(), AllocError>
    ensures { OnOk result (out.new.items ≡ out.old.items ++ end_of ended) }
{
    match ended {
        Ended::Done => out.extend_from_slice(b"end\n"),
        Ended::Stuck(round) => push_round(out, b"end stuck round ", round),
        Ended::GaveUp(round) => push_round(out, b"end gave up round ", round),
    }
}

fn push_round(out: &mut Vec<u8>, words: &[u8], round: u64) -> Result<(), AllocError>
    ensures { OnOk result (out.new.items ≡ out.old.items ++ (words.now ++ (decimal round ++ codes "\n"))) }
{
    out.extend_from_slice(words)?;
    push_number(out, round)?;
    out.extend_from_slice(b"\n")
}

fn push_number(out: &mut Vec<u8>, number: u64) -> Result<(), AllocError>
    ensures { OnOk result (out.new.items ≡ out.old.items ++ decimal number) }
{
    let mut buffer = Buffer::new();
    out.extend_from_slice(buffer.format(number).as_bytes())
}
