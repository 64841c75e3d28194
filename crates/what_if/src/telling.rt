//! Writes what was found, as text for a terminal.

use super::found::{blocked_by_change, deliveries_to, is_changed, joined_row};
use super::line::Line;
use super::promise::Promise;
use super::search::Tried;
use super::state_text::write_state;
use super::step::{Met, Step};
use super::words::{
    name_of_forwarded, name_of_promise, write_cache_cell, write_data_kind, write_directory_row,
    write_entry, write_event, write_row,
};
use address_map::CoreId;
use cache_table::CopyState;
use changed_tables::Tables;
use protocol_tables::CacheCase;
use std::alloc::Global;
use std::fmt;
use std::fmt::Write;

/// What is written: the steps of a run and the promise that they break, or what was tried in vain.
#[derive(Clone, Copy)]
pub struct Told<'a> {
    pub cores: u8,
    pub steps: &'a [Step],
    pub broken: Option<Promise>,
    pub tried: Option<Tried>,
}

/// Writes what was found: the run step by step and what it leads to, or that nothing broke.
pub fn write_told<W: Write>(
    alloc: Global,
    tables: &Tables,
    told: Told<'_>,
    out: &mut W,
) -> fmt::Result {
    if let Some(tried) = told.tried {
        return write_tried(told.cores, tried, out);
    }
    match told.broken {
        Some(promise) => write!(out, "broken: {}\n\n", name_of_promise(promise))?,
        None => write!(out, "nothing broke in these {} steps\n\n", told.steps.len())?,
    }
    let mut line = Line::new(told.cores);
    for (place, step) in told.steps.iter().enumerate() {
        if let Some(met) = line.meets(tables, *step) {
            write_step(alloc, tables, &line, (Some(place), *step), &met, out)?;
        }
        let _ = line.step(tables, *step);
    }
    write_blocked(alloc, tables, &line, out)?;
    write!(out, "\n")?;
    write_state(&line, out)
}

fn write_tried<W: Write>(cores: u8, tried: Tried, out: &mut W) -> fmt::Result {
    let Tried {
        states,
        all,
        rounds,
        steps,
    } = tried;
    let cores = Line::new(cores).count;
    if all {
        write!(
            out,
            "nothing broke in the {states} states of {cores} cores, by {steps} steps\n\nStates count once that differ only in which core is which. That all were seen isn't proved:"
        )?;
    } else {
        write!(
            out,
            "nothing broke in {steps} steps, in {states} states and {rounds} rounds on {cores} cores\n\nThis proves nothing:"
        )?;
    }
    write!(
        out,
        " `lockup export murphi` writes a model that Rumur searches whole.\n"
    )
}

// The messages that wait for good where our tables would take them.
fn write_blocked<W: Write>(
    alloc: Global,
    tables: &Tables,
    line: &Line,
    out: &mut W,
) -> fmt::Result {
    let ours = Tables::ours(alloc, tables.exclusive);
    for core in 0..line.count {
        for step in deliveries_to(CoreId(core)) {
            if let Some(met) = blocked_by_change(&ours, tables, line, step) {
                write_step(alloc, tables, line, (None, step), &met, out)?;
            }
        }
    }
    Ok(())
}

// A step: what which core does, the cell that it meets, and what its row does. One that never comes has no place.
fn write_step<W: Write>(
    alloc: Global,
    tables: &Tables,
    line: &Line,
    at: (Option<usize>, Step),
    met: &Met,
    out: &mut W,
) -> fmt::Result {
    let (mut actor, mut cell, mut does) = (
        String::new(alloc),
        String::new(alloc),
        String::new(alloc),
    );
    write_actor(line, at.1, &mut actor)?;
    write_cell(line, met, &mut cell)?;
    write_does(met, &mut does)?;
    match at.0 {
        Some(place) => write!(out, "{:>3}  ", place.saturating_add(1))?,
        None => write!(out, "  -  ")?,
    }
    write_columns(
        actor.as_str(),
        cell.as_str(),
        does.as_str(),
        is_changed(tables, line, met),
        out,
    )?;
    write_joined(alloc, tables, line, met, out)
}

fn write_columns<W: Write>(
    actor: &str,
    cell: &str,
    does: &str,
    is_changed: bool,
    out: &mut W,
) -> fmt::Result {
    write!(out, "{actor:<28}{cell:<34}")?;
    if is_changed {
        write!(out, "{does:<30}  changed\n")
    } else {
        write!(out, "{does}\n")
    }
}

// The write that continues with the data of the load whose miss it has joined.
fn write_joined<W: Write>(
    alloc: Global,
    tables: &Tables,
    line: &Line,
    met: &Met,
    out: &mut W,
) -> fmt::Result {
    let Some((row, is_changed)) = joined_row(tables, line, met) else {
        return Ok(());
    };
    let (mut cell, mut does) = (String::new(alloc), String::new(alloc));
    write_cache_cell(CopyState::S, CacheCase::Write, &mut cell)?;
    write_row(CacheCase::Write, row, &mut does)?;
    write!(out, "     ")?;
    write_columns(
        "its write goes on",
        cell.as_str(),
        does.as_str(),
        is_changed,
        out,
    )
}

fn write_actor<W: Write>(line: &Line, step: Step, out: &mut W) -> fmt::Result {
    match step {
        Step::Load(core) => write!(out, "core {} loads", core.0),
        Step::Write(core) => write!(out, "core {} writes", core.0),
        Step::Evict(core) => write!(out, "core {} evicts", core.0),
        Step::TakeRequest(_) | Step::TakeHome => write!(out, "directory"),
        Step::TakeForwarded(core) => match line.side(core).front {
            Some(message) => {
                let name = name_of_forwarded(message.kind);
                write!(out, "core {} takes {name}", core.0)
            }
            None => Ok(()),
        },
        Step::TakeData(core) => match line.side(core).response {
            Some(message) => {
                write!(out, "core {} takes ", core.0)?;
                write_data_kind(message.kind, out)
            }
            None => Ok(()),
        },
        Step::TakeInvAck { core, sender } => {
            write!(out, "core {} takes Inv-Ack of {}", core.0, sender.0)
        }
    }
}

fn write_cell<W: Write>(line: &Line, met: &Met, out: &mut W) -> fmt::Result {
    match *met {
        Met::Cache { state, case, .. } => write_cache_cell(state, case, out),
        Met::Directory { event, .. } => {
            write_entry(line.state, line.owner.map(|core| core.0), line.sharers, out)?;
            write!(out, ", ")?;
            write_event(event, out)
        }
        Met::Joins(_) => write!(out, "cache IS_D, write"),
    }
}

fn write_does<W: Write>(met: &Met, out: &mut W) -> fmt::Result {
    match met {
        Met::Cache { case, row, .. } => write_row(*case, *row, out),
        Met::Directory { row, .. } => write_directory_row(row, out),
        Met::Joins(_) => write!(out, "joins"),
    }
}
