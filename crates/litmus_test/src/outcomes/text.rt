ghost use Rattle.std.specs.Prelude.{◌≡◌, ◌++◌, ℕ, List, OnOk, codes, decimal, drop, length, map};
ghost use Rattle.std.specs.Fmt.{WritesInCalls};
ghost use Rattle.std.specs.List.{flat_map, zip};
ghost use Rattle.litmus_test.specs.Table.{IsTableOf};
ghost use Rattle.litmus_test.specs.OutcomesText.{cells_of, counter_label, line_of, right_in_8, seed_of, text_of};

use super::row::Row;
use super::table::Outcomes;
use crate::{LitmusTest, NamedReply};
use address_map::WordAddr;
use std::{fmt, str};

/// Writes the table: a line for each outcome, ascending, and a last line with how many rounds had a forbidden outcome.
/// If the seed of round 0 is given, each outcome's line has the seed of its first round. A name that is no text isn't
/// written: that is an error, like one of the writer.
pub fn write_table<W: fmt::Write>(
    test: &LitmusTest<'_>,
    outcomes: &Outcomes,
    seed: Option<u64>,
    out: &mut W,
) -> fmt::Result
    ensures { (rounds : List (List ℕ)) → IsTableOf rounds outcomes.now → OnOk result
        (WritesInCalls W.write_str_gives out.old (text_of test.now seed outcomes.now.rows rounds) out.new) }
{
    write_rows(test, outcomes.rows(), seed, out)?;
    let forbidden = outcomes.forbidden(test);
    writeln!(out, "forbidden {forbidden}")
}

fn write_rows<W: fmt::Write>(
    test: &LitmusTest<'_>,
    rows: &[Row],
    seed: Option<u64>,
    out: &mut W,
) -> fmt::Result
    ensures { OnOk result
        (WritesInCalls W.write_str_gives out.old (flat_map (line_of test.now seed) rows.now) out.new) }
{
    for row in rows {
        write_row(test, row, seed, out)?;
    }
    Ok(())
}

fn write_row<W: fmt::Write>(
    test: &LitmusTest<'_>,
    row: &Row,
    seed: Option<u64>,
    out: &mut W,
) -> fmt::Result
    ensures { OnOk result (WritesInCalls W.write_str_gives out.old (line_of test.now seed row.now) out.new) }
{
    write_count(row.rounds(), out)?;
    let names = test.names.as_slice();
    write_names(names, row.values(), out)?;
    let behind = values_behind(names.len(), row.values());
    write_counters(test.config.counters(), behind, out)?;
    write_seed(seed, row.first(), out)?;
    writeln!(out)
}

// Returns the values after those of `names` names.
fn values_behind(names: usize, values: &[u64]) -> &[u64]
    ensures { result.now ≡ drop names values.now }
{
    match values.get(names..) {
        Some(behind) => behind,
        None => &[],
    }
}

fn write_count<W: fmt::Write>(count: u64, out: &mut W) -> fmt::Result
    ensures { OnOk result (WritesInCalls W.write_str_gives out.old (right_in_8 (decimal count)) out.new) }
{
    write!(out, "{count:>8}")
}

fn write_names<W: fmt::Write>(names: &[NamedReply<'_>], values: &[u64], out: &mut W) -> fmt::Result
    ensures { OnOk result (WritesInCalls W.write_str_gives out.old
        (cells_of (zip (map (λ named. named.name.now) names.now) values.now)) out.new) }
{
    for (named, value) in names.iter().zip(values) {
        write_name(named.name, *value, out)?;
    }
    Ok(())
}

fn write_name<W: fmt::Write>(name: &[u8], value: u64, out: &mut W) -> fmt::Result
    ensures { OnOk result
        (WritesInCalls W.write_str_gives out.old (codes " " ++ name.now ++ codes "=" ++ decimal value) out.new) }
{
    let Ok(name) = str::from_utf8(name) else {
        return Err(fmt::Error);
    };
    write!(out, " {name}={value}")
}

fn write_counters<W: fmt::Write>(counters: &[WordAddr], values: &[u64], out: &mut W) -> fmt::Result
    ensures { OnOk result (WritesInCalls W.write_str_gives out.old
        (cells_of (zip (map counter_label counters.now) values.now)) out.new) }
{
    for (counter, value) in counters.iter().zip(values) {
        write!(out, " [{}]={value}", counter.0)?;
    }
    Ok(())
}

fn write_seed<W: fmt::Write>(seed: Option<u64>, first: u64, out: &mut W) -> fmt::Result
    ensures { OnOk result (WritesInCalls W.write_str_gives out.old (seed_of seed first) out.new) }
{
    match seed {
        Some(seed) => write!(out, " seed {}", seed.wrapping_add(first)),
        None => Ok(()),
    }
}
