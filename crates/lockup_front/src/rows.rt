//! The rows of a sweep.

use super::files::text_of;
use super::progress::{Counted, Shown};
use super::streams::{Streams, complain, fail, show};
use super::unused::tell_unused_settings;
use litmus_command_line::{SweepArgs, read_settings};
use litmus_text::TextFault;
use program_sweep::{RowFault, RowForm, Seeds, Sweep, SweepFault, program_name, run_sweep};
use program_text::Limits;
use std::alloc::Global;
use std::io::{self, BufWriter, Write};
use std::rt::Files;
use std::thread::Threads;

/// Runs the programs in a file once for each row that the command line asks for, and prints the rows. Returns the exit
/// status.
pub fn print_rows<R>(rt: &R, streams: Streams, words: &[String], args: SweepArgs<'_>) -> u8
where
    R: Files + Input + AllocGlobal + Print + Eprint + Threads + Sync,
{
    match read_settings(rt.alloc(), words) {
        Ok(settings) => run_settings(rt, streams, settings.as_slice(), args),
        Err(error) => show(rt, streams, &error),
    }
}

fn run_settings<R>(rt: &R, streams: Streams, settings: &[&str], args: SweepArgs<'_>) -> u8
where
    R: Files + Input + AllocGlobal + Print + Eprint + Threads + Sync,
{
    match read_sweep(rt.alloc(), settings, args) {
        Ok(sweep) => read_and_run(rt, streams, &sweep, args),
        Err(fault) => {
            complain(rt, streams, fault);
            fault.status()
        }
    }
}

fn read_and_run<R>(rt: &R, streams: Streams, sweep: &Sweep<'_>, args: SweepArgs<'_>) -> u8
where
    R: Files + Input + AllocGlobal + Print + Eprint + Threads + Sync,
{
    match text_of(rt, streams, args.file) {
        Ok(input) => run_input(rt, streams, input.as_slice(), sweep, args),
        Err(status) => status,
    }
}

fn run_input<R>(
    rt: &R,
    streams: Streams,
    input: &[u8],
    sweep: &Sweep<'_>,
    args: SweepArgs<'_>,
) -> u8
where
    R: Files + Input + AllocGlobal + Print + Eprint + Threads + Sync,
{
    match write_rows(rt, streams, input, sweep, args) {
        Ok(()) => {
            let settings = sweep.settings.as_slice();
            tell_unused_settings(rt, streams, input, settings, limits_of(args));
            0
        }
        Err(fault) => complain_of(rt, streams, sweep, fault),
    }
}

fn read_sweep<'a>(
    alloc: Global,
    settings: &[&'a str],
    args: SweepArgs<'a>,
) -> Result<Sweep<'a>, SweepFault<'a>> {
    let seeds = match args.seeds {
        Some(text) => Seeds::read(text)?,
        None => Seeds::one(args.seed),
    };
    Sweep::read(alloc, settings, seeds, limits_of(args))
}

/// Returns the limits that are given.
const fn limits_of(args: SweepArgs<'_>) -> Limits {
    Limits {
        outstanding: args.outstanding,
        pace: args.pace,
    }
}

/// Prints the rows, including those before a fault.
fn write_rows<R>(
    rt: &R,
    streams: Streams,
    input: &[u8],
    sweep: &Sweep<'_>,
    args: SweepArgs<'_>,
) -> Result<(), RowFault>
where
    R: Files + Input + AllocGlobal + Print + Eprint + Threads + Sync,
{
    let form = if args.json {
        RowForm::Json
    } else {
        RowForm::Csv
    };
    let program = program_name(rt.alloc(), form, args.file)?;
    let Ok(mut out) = BufWriter::new(rt.alloc(), io::writer(rt)) else {
        return Err(RowFault::NoMemory);
    };
    let mut shown = Shown::new(rt, streams, Counted::Rows);
    let ran = run_sweep(
        rt.alloc(),
        rt,
        input,
        sweep,
        program.as_slice(),
        form,
        &mut shown,
        &mut out,
    );
    match out.flush() {
        Ok(()) => ran,
        Err(_) => Err(RowFault::CannotWrite),
    }
}

/// Complains of a fault, and returns the exit status.
fn complain_of<R>(rt: &R, streams: Streams, sweep: &Sweep<'_>, fault: RowFault) -> u8
where
    R: AllocGlobal + Eprint,
{
    match fault {
        RowFault::Row { row, refusal } => {
            let mut name = String::new(rt.alloc());
            if sweep.name(row, &mut name).is_err() {
                return fail(rt, streams, TextFault::NoMemory);
            }
            complain(rt, streams, format_args!("{name}: {refusal}"));
            refusal.status()
        }
        RowFault::CannotWrite => fail(rt, streams, TextFault::CannotWrite),
        RowFault::NoMemory => fail(rt, streams, TextFault::NoMemory),
    }
}
