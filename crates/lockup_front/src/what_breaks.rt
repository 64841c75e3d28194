//! What changed cells of the tables break on one line of memory.

use super::files::text_of;
use super::streams::{REFUSED, Streams, complain, fail};
use super::table_files::read_tables;
use super::what_drawn::diagram_of;
use super::what_page::write_page;
use address_map::CoreId;
use changed_tables::Tables;
use litmus_chart::write_drawing;
use litmus_command_line::{WhatIfArgs, WhatIfForm};
use litmus_script::TextWriter;
use litmus_text::{LineFault, Lines, TextFault};
use murphi_trace::{Rule, rule_told_by};
use slice_queues::Pick;
use std::alloc::Global;
use std::fmt;
use std::io::Write;
use std::rt::Files;
use what_if::{
    Answer, Effort, Line, Promise, Step, Told, Tried, replay, what_if, write_told, write_told_json,
};

/// The exit status where a promise broke.
const BROKEN: u8 = 1;

/// What was found: steps, and the promise that they break, or what was tried in vain.
#[derive(Drop)]
struct Found {
    cores: u8,
    steps: Vec<Step>,
    broken: Option<Promise>,
    tried: Option<Tried>,
}

/// Plays a line under the tables in these files, and writes what broke. Returns the exit status.
pub fn write_what_breaks<R, W>(
    rt: &R,
    streams: Streams,
    args: WhatIfArgs<'_>,
    out: &mut W,
) -> Result<u8, TextFault>
where
    R: Files + Input + AllocGlobal + Eprint,
    W: Write,
{
    let tables = match read_tables(rt, streams, args.tables, args.exclusive) {
        Ok(tables) => tables,
        Err(status) => return Ok(status),
    };
    let found = match args.trace {
        Some(file) => replayed(rt, streams, &tables, args.cores, file),
        None => searched(rt, streams, &tables, args),
    };
    match found {
        Ok(found) => write(rt.alloc(), &tables, &found, args.form, out),
        Err(status) => Ok(status),
    }
}

fn searched<R: AllocGlobal + Eprint>(
    rt: &R,
    streams: Streams,
    tables: &Tables,
    args: WhatIfArgs<'_>,
) -> Result<Found, u8> {
    let cores = u8::try_from(args.cores).unwrap_or(u8::MAX);
    let effort = Effort {
        states: args.states,
        rounds: args.rounds,
        seed: args.seed,
    };
    match what_if(rt.alloc(), tables, cores, effort) {
        Ok(Answer::Broken(run)) => Ok(Found {
            cores,
            steps: run.steps,
            broken: Some(run.broken),
            tried: None,
        }),
        Ok(Answer::Nothing(tried)) => Ok(Found {
            cores,
            steps: Vec::new(rt.alloc()),
            broken: None,
            tried: Some(tried),
        }),
        Err(_) => Err(fail(rt, streams, TextFault::NoMemory)),
    }
}

/// Takes the steps of a trace. At Err, the error was reported, and this is the exit status.
fn replayed<R>(
    rt: &R,
    streams: Streams,
    tables: &Tables,
    cores: u64,
    file: &str,
) -> Result<Found, u8>
where
    R: Files + Input + AllocGlobal + Eprint,
{
    let text = text_of(rt, streams, file)?;
    let mut steps = match steps_of(rt, &text) {
        Ok(steps) if steps.is_empty() => return Err(fail(rt, streams, LineFault::NotATrace.at(1))),
        Ok(steps) => steps,
        Err(fault) => return Err(fail(rt, streams, fault)),
    };
    let cores = cores_of(&steps, cores);
    if let Some(number) = first_that_waits(tables, cores, &steps) {
        complain(
            rt,
            streams,
            format_args!("{file}: rule {number} can't happen under these tables"),
        );
        return Err(REFUSED);
    }
    if let Err(error) = add_last(tables, cores, &mut steps) {
        return Err(fail(rt, streams, error));
    }
    Ok(Found {
        broken: replay(tables, cores, &steps),
        cores,
        steps,
        tried: None,
    })
}

// The model's rule for a message without a row doesn't say which message that is: it is the first that breaks a promise.
fn add_last(tables: &Tables, cores: u8, steps: &mut Vec<Step>) -> Result<(), TextFault> {
    let mut line = Line::new(cores);
    for step in steps.iter() {
        let _ = line.step(tables, *step);
    }
    if line.fault.is_none() && line.judge(tables).is_none() {
        if let Some(last) = first_that_breaks(tables, &line) {
            steps.push(last)?;
        }
    }
    Ok(())
}

fn first_that_breaks(tables: &Tables, line: &Line) -> Option<Step> {
    for number in 0..line.count {
        let core = CoreId(number);
        for step in [
            Step::TakeRequest(core),
            Step::TakeForwarded(core),
            Step::TakeData(core),
        ] {
            if breaks(tables, line, step) {
                return Some(step);
            }
        }
        for from in 0..line.count {
            let sender = CoreId(from);
            if breaks(tables, line, Step::TakeInvAck { core, sender }) {
                return Some(Step::TakeInvAck { core, sender });
            }
        }
    }
    breaks(tables, line, Step::TakeHome).then_some(Step::TakeHome)
}

fn breaks(tables: &Tables, line: &Line, step: Step) -> bool {
    let mut after = *line;
    after.step(tables, step).is_err()
}

fn steps_of<R: AllocGlobal>(rt: &R, trace: &[u8]) -> Result<Vec<Step>, TextFault> {
    let mut steps = Vec::new(rt.alloc());
    for line in Lines::of(trace) {
        if let Some(rule) = rule_told_by(line) {
            steps.push(step_of(rule))?;
        }
    }
    Ok(steps)
}

fn step_of(rule: Rule) -> Step {
    match rule {
        Rule::Load(core) => Step::Load(core),
        Rule::Write(core) => Step::Write(core),
        Rule::Evict(core) => Step::Evict(core),
        Rule::Deliver(Pick::Req(_, core)) => Step::TakeRequest(core),
        Rule::Deliver(Pick::Fwd(_, core)) => Step::TakeForwarded(core),
        Rule::Deliver(Pick::Data(_, core)) => Step::TakeData(core),
        Rule::Deliver(Pick::Ack { to, from, .. }) => Step::TakeInvAck {
            core: to,
            sender: from,
        },
        Rule::Deliver(Pick::Home(_)) => Step::TakeHome,
    }
}

// Returns how many cores are asked for, or how many the steps need, if those are more.
fn cores_of(steps: &[Step], cores: u64) -> u8 {
    let mut count = u8::try_from(cores).unwrap_or(u8::MAX);
    for step in steps {
        let last = match *step {
            Step::Load(core)
            | Step::Write(core)
            | Step::Evict(core)
            | Step::TakeRequest(core)
            | Step::TakeForwarded(core)
            | Step::TakeData(core) => core.0,
            Step::TakeInvAck { core, sender } => core.0.max(sender.0),
            Step::TakeHome => 0,
        };
        count = count.max(last.saturating_add(1));
    }
    count
}

// Returns the number of the first step that can't happen.
fn first_that_waits(tables: &Tables, cores: u8, steps: &[Step]) -> Option<usize> {
    let mut line = Line::new(cores);
    for (place, step) in steps.iter().enumerate() {
        if let Ok(None) = line.step(tables, *step) {
            return Some(place.saturating_add(1));
        }
    }
    None
}

fn write<W: Write>(
    alloc: Global,
    tables: &Tables,
    found: &Found,
    form: WhatIfForm,
    out: &mut W,
) -> Result<u8, TextFault> {
    let told = Told {
        cores: found.cores,
        steps: &found.steps,
        broken: found.broken,
        tried: found.tried,
    };
    write_found(alloc, tables, told, form, &mut TextWriter { out })?;
    Ok(status_of(found))
}

fn write_found<W: fmt::Write>(
    alloc: Global,
    tables: &Tables,
    told: Told<'_>,
    form: WhatIfForm,
    out: &mut W,
) -> Result<(), TextFault> {
    let written = match form {
        WhatIfForm::Text => write_told(alloc, tables, told, out),
        WhatIfForm::Json => write_told_json(alloc, tables, told, out),
        WhatIfForm::Svg => write_drawing(&diagram_of(alloc, tables, told)?, out),
        WhatIfForm::Page => {
            let space = diagram_of(alloc, tables, told)?;
            write_page(alloc, &space, tables, told, out)
        }
    };
    match written {
        Ok(()) => Ok(()),
        Err(_) => Err(TextFault::CannotWrite),
    }
}

const fn status_of(found: &Found) -> u8 {
    match found.broken {
        Some(_) => BROKEN,
        None => 0,
    }
}
