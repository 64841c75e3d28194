//! Writes what was found, as JSON.

use super::found::{blocked_by_change, deliveries_to, is_changed, joined_row};
use super::line::{CoreSide, Line};
use super::messages_json::write_messages;
use super::search::Tried;
use super::step::{Met, Step};
use super::telling::Told;
use super::words::{
    name_of_promise, write_cores, write_directory_row, write_entry, write_event, write_row,
};
use address_map::CoreId;
use changed_tables::Tables;
use protocol_tables::CacheCase;
use std::alloc::Global;
use std::fmt;
use std::fmt::Write;

/// Writes what was found as one object: the promise that broke, the steps and what they lead to, or how much was
/// tried.
pub fn write_told_json<W: Write>(
    alloc: Global,
    tables: &Tables,
    told: Told<'_>,
    out: &mut W,
) -> fmt::Result {
    if let Some(tried) = told.tried {
        return write_tried(told.cores, tried, out);
    }
    match told.broken {
        Some(promise) => write!(out, "{{\"broken\":\"{}\"", name_of_promise(promise))?,
        None => write!(out, "{{\"broken\":null")?,
    }
    write!(out, ",\"steps\":[")?;
    let line = write_steps(tables, told, out)?;
    write!(out, "],\n\"blocked\":[")?;
    write_blocked(alloc, tables, &line, out)?;
    write!(out, "],\n\"copies\":[")?;
    write_copies(&line, out)?;
    write!(out, "],\n\"messages\":[")?;
    write_messages(&line, out)?;
    write!(out, "],\n\"directory\":")?;
    write_directory(&line, out)?;
    write!(out, "}}\n")
}

fn write_tried<W: Write>(cores: u8, tried: Tried, out: &mut W) -> fmt::Result {
    let Tried {
        states,
        all,
        rounds,
        steps,
    } = tried;
    let cores = Line::new(cores).count;
    let all = if all { "true" } else { "false" };
    write!(
        out,
        "{{\"broken\":null,\"states\":{states},\"all\":{all},\"rounds\":{rounds},\"steps_taken\":{steps},\"cores\":{cores}}}\n"
    )
}

// Writes the steps, and returns the line to which they lead.
fn write_steps<W: Write>(tables: &Tables, told: Told<'_>, out: &mut W) -> Result<Line, fmt::Error> {
    let mut line = Line::new(told.cores);
    let mut comma = "";
    for step in told.steps {
        if let Some(met) = line.meets(tables, *step) {
            write!(out, "{comma}\n ")?;
            write_step(tables, &line, *step, &met, out)?;
            comma = ",";
        }
        let _ = line.step(tables, *step);
    }
    Ok(line)
}

// The messages that wait for good where our tables would take them.
fn write_blocked<W: Write>(
    alloc: Global,
    tables: &Tables,
    line: &Line,
    out: &mut W,
) -> fmt::Result {
    let ours = Tables::ours(alloc, tables.exclusive);
    let mut comma = "";
    for core in 0..line.count {
        for step in deliveries_to(CoreId(core)) {
            if let Some(met) = blocked_by_change(&ours, tables, line, step) {
                write!(out, "{comma}\n ")?;
                write_step(tables, line, step, &met, out)?;
                comma = ",";
            }
        }
    }
    Ok(())
}

fn write_step<W: Write>(
    tables: &Tables,
    line: &Line,
    step: Step,
    met: &Met,
    out: &mut W,
) -> fmt::Result {
    write!(out, "{{\"actor\":")?;
    match step {
        Step::TakeRequest(_) | Step::TakeHome => write!(out, "\"directory\"")?,
        Step::Load(core)
        | Step::Write(core)
        | Step::Evict(core)
        | Step::TakeForwarded(core)
        | Step::TakeData(core)
        | Step::TakeInvAck { core, .. } => write!(out, "{}", core.0)?,
    }
    write_met(line, met, out)?;
    write_changed(is_changed(tables, line, met), out)?;
    write_joined(tables, line, met, out)?;
    write!(out, "}}")
}

fn write_changed<W: Write>(is_changed: bool, out: &mut W) -> fmt::Result {
    if is_changed {
        write!(out, ",\"changed\":true")
    } else {
        write!(out, ",\"changed\":false")
    }
}

fn write_met<W: Write>(line: &Line, met: &Met, out: &mut W) -> fmt::Result {
    match met {
        Met::Cache {
            state,
            case,
            row,
            ..
        } => {
            let event = case.name();
            let state = *state;
            write!(
                out,
                ",\"state\":\"{state}\",\"event\":\"{event}\",\"row\":\""
            )?;
            write_row(*case, *row, out)?;
        }
        Met::Directory { event, row } => {
            write!(out, ",\"state\":\"")?;
            write_entry(line.state, line.owner.map(|core| core.0), line.sharers, out)?;
            write!(out, "\",\"event\":\"")?;
            write_event(*event, out)?;
            write!(out, "\",\"row\":\"")?;
            write_directory_row(row, out)?;
        }
        Met::Joins(_) => {
            write!(
                out,
                ",\"state\":\"IS_D\",\"event\":\"write\",\"row\":\"joins"
            )?;
        }
    }
    write!(out, "\"")
}

// The row of a write that continues with the data of the load whose miss it has joined.
fn write_joined<W: Write>(tables: &Tables, line: &Line, met: &Met, out: &mut W) -> fmt::Result {
    let Some((row, is_changed)) = joined_row(tables, line, met) else {
        return Ok(());
    };
    write!(out, ",\"write\":{{\"row\":\"")?;
    write_row(CacheCase::Write, row, out)?;
    write!(out, "\"")?;
    write_changed(is_changed, out)?;
    write!(out, "}}")
}

fn write_copies<W: Write>(line: &Line, out: &mut W) -> fmt::Result {
    let mut comma = "";
    for core in 0..line.count {
        write!(out, "{comma}\n ")?;
        write_copy(line, &line.side(CoreId(core)), out)?;
        comma = ",";
    }
    Ok(())
}

fn write_copy<W: Write>(line: &Line, side: &CoreSide, out: &mut W) -> fmt::Result {
    let state = side.state;
    write!(out, "{{\"state\":\"{state}\"")?;
    write_block(line, side.block, out)?;
    write!(out, "}}")
}

// The number of a block's write, and whether it is the newest.
fn write_block<W: Write>(line: &Line, block: Option<u64>, out: &mut W) -> fmt::Result {
    match block {
        Some(number) if line.is_newest(block) => {
            write!(out, ",\"block\":{number},\"newest\":true")
        }
        Some(number) => write!(out, ",\"block\":{number},\"newest\":false"),
        None => write!(out, ",\"block\":null,\"newest\":false"),
    }
}

fn write_directory<W: Write>(line: &Line, out: &mut W) -> fmt::Result {
    let state = line.state;
    write!(out, "{{\"state\":\"{state}\"")?;
    match line.owner {
        Some(owner) => write!(out, ",\"owner\":{}", owner.0)?,
        None => write!(out, ",\"owner\":null")?,
    }
    write!(out, ",\"sharers\":[")?;
    write_cores(line.sharers, out)?;
    write!(out, "]")?;
    write_block(line, line.home, out)?;
    write!(out, "}}")
}
