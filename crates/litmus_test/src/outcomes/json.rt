ghost use Rattle.std.specs.Prelude.{ℕ, List, OnOk, map};
ghost use Rattle.std.specs.Fmt.{WritesInCalls};
ghost use Rattle.litmus_text.specs.JsonList.{with_commas};
ghost use Rattle.litmus_text.specs.JsonNumber.{number_of};
ghost use Rattle.litmus_test.specs.Forbid.{is_forbidden};
ghost use Rattle.litmus_test.specs.Table.{IsTableOf};
ghost use Rattle.litmus_test.specs.Json.{json_of, name_of, outcome_of, seed_of, word_of};
ghost use Rattle.std.specs.Prelude.{count_by};

use super::row::Row;
use super::table::Outcomes;
use crate::{LitmusTest, NamedReply};
use address_map::WordAddr;
use litmus_text::{Number, write_comma};
use std::fmt::Write;
use std::{fmt, str};

/// Writes the outcomes as one value, in one line. A name that is no text isn't written: that is an error, like one of
/// the writer.
pub(crate) fn write_json<W: Write>(
    test: &LitmusTest<'_>,
    outcomes: &Outcomes,
    seed: Option<u64>,
    out: &mut W,
) -> fmt::Result
    ensures { (rounds : List (List ℕ)) → IsTableOf rounds outcomes.now → OnOk result
        (WritesInCalls W.write_str_gives out.old
        (json_of test.now seed outcomes.now.rows (count_by (is_forbidden test.now) rounds)) out.new) }
{
    write!(out, "{{\"names\":[")?;
    write_names(test.names.as_slice(), out)?;
    write!(out, "],\"counters\":[")?;
    write_words(test.config.counters(), out)?;
    write!(out, "],\"outcomes\":[")?;
    write_rows(outcomes.rows(), seed, out)?;
    let count = outcomes.forbidden(test);
    let forbidden = Number(count);
    writeln!(out, "],\"forbidden\":{forbidden}}}")
}

fn write_names<W: Write>(names: &[NamedReply<'_>], out: &mut W) -> fmt::Result
    ensures { OnOk result
        (WritesInCalls W.write_str_gives out.old (with_commas (map name_of names.now)) out.new) }
{
    let mut is_first = true;
    for named in names {
        write_comma(is_first, out)?;
        is_first = false;
        write_name(named, out)?;
    }
    Ok(())
}

fn write_name<W: Write>(named: &NamedReply<'_>, out: &mut W) -> fmt::Result
    ensures { OnOk result (WritesInCalls W.write_str_gives out.old (name_of named.now) out.new) }
{
    let Ok(name) = str::from_utf8(named.name) else {
        return Err(fmt::Error);
    };
    write!(out, "\"{name}\"")
}

fn write_words<W: Write>(words: &[WordAddr], out: &mut W) -> fmt::Result
    ensures { OnOk result
        (WritesInCalls W.write_str_gives out.old (with_commas (map word_of words.now)) out.new) }
{
    let mut is_first = true;
    for word in words {
        write_comma(is_first, out)?;
        is_first = false;
        write_number(word.0, out)?;
    }
    Ok(())
}

fn write_rows<W: Write>(rows: &[Row], seed: Option<u64>, out: &mut W) -> fmt::Result
    ensures { OnOk result
        (WritesInCalls W.write_str_gives out.old (with_commas (map (outcome_of seed) rows.now)) out.new) }
{
    let mut is_first = true;
    for row in rows {
        write_comma(is_first, out)?;
        is_first = false;
        write_row(row, seed, out)?;
    }
    Ok(())
}

fn write_row<W: Write>(row: &Row, seed: Option<u64>, out: &mut W) -> fmt::Result
    ensures { OnOk result (WritesInCalls W.write_str_gives out.old (outcome_of seed row.now) out.new) }
{
    let count = row.rounds();
    let rounds = Number(count);
    write!(out, "{{\"rounds\":{rounds},\"values\":[")?;
    write_values(row.values(), out)?;
    write!(out, "]")?;
    write_seed(seed, row.first(), out)?;
    write!(out, "}}")
}

fn write_values<W: Write>(values: &[u64], out: &mut W) -> fmt::Result
    ensures { OnOk result
        (WritesInCalls W.write_str_gives out.old (with_commas (map number_of values.now)) out.new) }
{
    let mut is_first = true;
    for value in values {
        write_comma(is_first, out)?;
        is_first = false;
        write_number(*value, out)?;
    }
    Ok(())
}

fn write_number<W: Write>(number: u64, out: &mut W) -> fmt::Result
    ensures { OnOk result (WritesInCalls W.write_str_gives out.old (number_of number) out.new) }
{
    let number = Number(number);
    write!(out, "{number}")
}

fn write_seed<W: Write>(seed: Option<u64>, first: u64, out: &mut W) -> fmt::Result
    ensures { OnOk result (WritesInCalls W.write_str_gives out.old (seed_of seed first) out.new) }
{
    match seed {
        Some(seed) => {
            let seed = Number(seed.wrapping_add(first));
            write!(out, ",\"seed\":{seed}")
        }
        None => Ok(()),
    }
}
