ghost use Rattle.std.specs.Prelude.{◌≡◌, ◌+◌, ◌<◌, ◌≤◌, ◌^◌, IfErr, IfOk, IfSome, OnOk, length, map};
ghost use Rattle.std.specs.Io.KnownBytes.{Appends, Keeps};
ghost use Rattle.std.specs.Str.Lines.{lines};
ghost use Rattle.program_text.specs.Fault.{IsProgramText, programs_of, settings_of};
ghost use Rattle.program_sweep.specs.Sweep.{IsRowFault, IsRowOf, MakesRow, MakesRows, PrintsRows, PrintsSweep};
ghost use Rattle.program_sweep.specs.Read.{AreSettings, IsSweep, counts_of, rows_of, spans_of, values_of};
ghost use Rattle.program_sweep.specs.Form.{text_of_row};
ghost use Rattle.program_sweep.specs.Text.{AreLimitsIn, IsBoundIn, lines_of_settings, with_settings};

use super::fault::{Refusal, RowFault, SweepFault};
use super::form::{RowForm, end_of, push_row};
use super::name::{Bound, bounds, is_bound};
use super::row::{Row, row_of};
use super::seeds::Seeds;
use super::setting::Setting;
use super::text::{configures, with_settings};
use litmus_test::Progress;
use litmus_text::{Lines, TextFault, parse_number};
use program_run::{count_programs, limit};
use program_text::{Limits, Programs};
use stats_report::write_text;
use std::alloc::{AllocError, Global};
use std::io::Write;
use std::thread::Threads;
use std::{fmt, thread};

/// The most rows of a sweep.
pub const MOST_ROWS: u64 = 1_000_000;

/// The most runs that a thread makes before their rows are written.
pub const MOST_RUNS: u64 = 64;

/// How many accesses a thread makes before rows are written, if its runs are as long as those before: starting a
/// thread takes as long as some thousands.
const ACCESSES: u64 = 20_000;

/// Which runs there are: one for each combination of values, in the order given, the last setting fastest, and for each
/// seed, which is faster still.
#[derive(Debug, Drop)]
pub struct Sweep<'a> {
    pub settings: Vec<Setting<'a>>,
    pub seeds: Seeds,
    /// What bounds each run instead of what the text says, where no setting does.
    pub limits: Limits,
    /// How many rows there are.
    pub rows: u64,
}

impl<'a> Sweep<'a> {
    /// Reads settings, each NAME=VALUE,VALUE..
    pub fn read(
        alloc: Global,
        texts: &[&'a str],
        seeds: Seeds,
        limits: Limits,
    ) -> Result<Sweep<'a>, SweepFault<'a>>
        ensures { IfOk result (IsSweep (map (λ text. text.now) texts.now) seeds limits) }
    {
        let mut settings = read_settings(alloc, texts, limits)?;
        let Some(rows) = lay_out(&mut settings, seeds.count) else {
            return Err(SweepFault::TooManyRows);
        };
        Ok(Sweep {
            settings,
            seeds,
            limits,
            rows,
        })
    }

    /// Writes what a row is a run of: its settings and its seed.
    pub fn name<W: fmt::Write>(&self, row: u64, out: &mut W) -> fmt::Result {
        for setting in &self.settings {
            let name = setting.name;
            let value = setting.value_in(row);
            write!(out, "{name}={value} ")?;
        }
        let seed = self.seeds.seed_in(row);
        write!(out, "seed {seed}")
    }
}

// Whether a setting of this name is among these, or is given already.
fn is_set(settings: &[Setting<'_>], limits: Limits, name: &str) -> bool {
    is_given(limits, name.as_bytes()) || settings.iter().any(|setting| setting.name == name)
}

fn is_given(limits: Limits, name: &[u8]) -> bool {
    let is_limited = limits.is_limited() && bounds(Bound::Outstanding, name);
    is_limited || (limits.is_paced() && bounds(Bound::Pace, name))
}

// Gives each setting its span, the last one first. Returns the number of rows, if a sweep may have that many.
fn lay_out(settings: &mut Vec<Setting<'_>>, seeds: u64) -> Option<u64>
    requires { 0 < seeds }
    ensures kept { IfSome result (λ rows.
        map values_of settings.new.items ≡ map values_of settings.old.items) }
    ensures spans { IfSome result (λ rows.
        map (λ setting. setting.span) settings.new.items ≡ spans_of (counts_of settings.new.items) seeds) }
    ensures rows { IfSome result (λ rows. rows ≡ rows_of (counts_of settings.new.items) seeds) }
    ensures few { IfSome result (λ rows. rows ≤ 1000000) }
{
    let mut rows = seeds;
    let count = settings.len();
    for behind in 0..count {
        let place = count - 1 - behind;
        let setting = &mut settings[place];
        setting.span = rows;
        let many = setting.values.as_slice().len() as u64;
        rows = rows.checked_mul(many)?;
    }
    if rows > MOST_ROWS { None } else { Some(rows) }
}

fn read_settings<'a>(
    alloc: Global,
    texts: &[&'a str],
    limits: Limits,
) -> Result<Vec<Setting<'a>>, SweepFault<'a>>
    ensures { IfOk result (λ settings. AreSettings (map (λ text. text.now) texts.now) settings.items) }
{
    let mut settings = Vec::new(alloc);
    for text in texts {
        let setting = Setting::read(alloc, *text)?;
        if is_set(settings.as_slice(), limits, setting.name) {
            return Err(SweepFault::Twice(setting.name));
        }
        settings.push(setting)?;
    }
    Ok(settings)
}

/// Runs the text once for each row, in parallel, and writes the rows, those that are made together as soon as they are.
/// The program's name is in each as the form writes it. A text that can't be run with some settings ends the rows
/// before them.
pub fn run_sweep<R: Threads + Sync, P: Progress, W: Write>(
    alloc: Global,
    rt: &R,
    input: &[u8],
    sweep: &Sweep<'_>,
    program: &[u8],
    form: RowForm,
    progress: &mut P,
    out: &mut W,
) -> Result<(), RowFault>
    ensures printed { OnOk result (PrintsSweep input.now sweep.now program.now form sweep.now.rows
        (W.contents out.old) (W.contents out.new)) }
    ensures fault { IfErr result IsRowFault }
{
    let threads = threads_of(rt);
    let rows = sweep.rows;
    let mut first = 0;
    let mut share = 1;
    while first < rows {
        let count = (threads as u64)
            .saturating_mul(share)
            .max(1)
            .min(rows - first);
        share = run_batch(
            alloc, rt, threads, input, sweep, program, form, first, count, out,
        )?;
        first += count;
        progress.done(first, rows);
    }
    write(out, end_of(form))
}

fn threads_of<R: Threads>(rt: &R) -> usize
    ensures { 0 < result }
{
    match thread::available_parallelism(rt) {
        Ok(processors) => processors.get().max(1),
        Err(_) => 1,
    }
}

// Makes these rows in parallel, and writes them. Returns how many of the next ones each thread may make.
fn run_batch<R: Threads + Sync, W: Write>(
    alloc: Global,
    rt: &R,
    threads: usize,
    input: &[u8],
    sweep: &Sweep<'_>,
    program: &[u8],
    form: RowForm,
    first: u64,
    count: u64,
    out: &mut W,
) -> Result<u64, RowFault>
    requires threads { 0 < threads }
    requires within { first + count ≤ sweep.now.rows }
    requires fits { first + count < 2 ^ 64 }
    ensures printed { OnOk result (PrintsRows input.now sweep.now program.now form first count
        (W.contents out.old) (W.contents out.new)) }
    ensures fault { IfErr result IsRowFault }
{
    let made = make_rows(alloc, rt, threads, input, sweep, first, count)?;
    let rows = made.as_slice();
    print_rows(alloc, rows, input, sweep, program, form, first, out)?;
    flush(out)?;
    Ok(share_behind(rows))
}

fn make_rows<R: Threads + Sync>(
    alloc: Global,
    rt: &R,
    threads: usize,
    input: &[u8],
    sweep: &Sweep<'_>,
    first: u64,
    count: u64,
) -> Result<Vec<Result<Row, Refusal>>, AllocError>
    requires threads { 0 < threads }
    requires fits { first + count < 2 ^ 64 }
    ensures len { IfOk result (λ made. length made.items ≡ count) }
    ensures each { IfOk result (λ made. MakesRows input.now sweep.now first count made.items) }
{
    let mut made = vec![in alloc; Err(Refusal::Stuck); count as usize]?;
    fill_rows(alloc, rt, threads, input, sweep, first, made.as_mut_slice());
    Ok(made)
}

// Makes each row by its place, in `threads` threads.
fn fill_rows<R: Threads + Sync>(
    alloc: Global,
    rt: &R,
    threads: usize,
    input: &[u8],
    sweep: &Sweep<'_>,
    first: u64,
    made: &mut [Result<Row, Refusal>],
)
    requires threads { 0 < threads }
    requires fits { first + length made.old < 2 ^ 64 }
    ensures len { length made.new ≡ length made.old }
    ensures each { MakesRows input.now sweep.now first (length made.old) made.new }
{
    thread::for_each_mut(
        rt,
        made,
        threads,
        &|place: usize, row: &mut Result<Row, Refusal>|
            requires { first + place < 2 ^ 64 }
            ensures { MakesRow input.entry.now sweep.entry.now (first + place) row.new }
        { *row = make_row(alloc, input, sweep, first + place as u64) },
    );
}

// Returns how many runs such as these have the accesses that a thread makes before rows are written.
fn share_behind(rows: &[Result<Row, Refusal>]) -> u64 {
    let Some(last) = rows.last() else {
        return 1;
    };
    match last {
        Ok(row) => (ACCESSES / row.sums.counts.requests().max(1))
            .max(1)
            .min(MOST_RUNS),
        Err(_) => 1,
    }
}

// Writes rows that were made, up to one that has none.
fn print_rows<W: Write>(
    alloc: Global,
    made: &[Result<Row, Refusal>],
    input: &[u8],
    sweep: &Sweep<'_>,
    program: &[u8],
    form: RowForm,
    first: u64,
    out: &mut W,
) -> Result<(), RowFault>
    requires made { MakesRows input.now sweep.now first (length made.now) made.now }
    requires within { first + length made.now ≤ sweep.now.rows }
    ensures printed { OnOk result (PrintsRows input.now sweep.now program.now form first (length made.now)
        (W.contents out.old) (W.contents out.new)) }
    ensures fault { IfErr result IsRowFault }
{
    for place in 0..made.len() {
        let number = first + place as u64;
        print_made(
            alloc,
            &made[place],
            input,
            sweep,
            program,
            form,
            number,
            out,
        )?;
    }
    Ok(())
}

fn print_made<W: Write>(
    alloc: Global,
    made: &Result<Row, Refusal>,
    input: &[u8],
    sweep: &Sweep<'_>,
    program: &[u8],
    form: RowForm,
    number: u64,
    out: &mut W,
) -> Result<(), RowFault>
    requires { MakesRow input.now sweep.now number made.now }
    ensures printed { OnOk result (PrintsRows input.now sweep.now program.now form number 1
        (W.contents out.old) (W.contents out.new)) }
    ensures fault { IfErr result IsRowFault }
{
    match made {
        Ok(row) => print_row(alloc, form, program, number, row, out),
        Err(refusal) => Err(refused(number, *refusal)),
    }
}

fn print_row<W: Write>(
    alloc: Global,
    form: RowForm,
    program: &[u8],
    number: u64,
    row: &Row,
    out: &mut W,
) -> Result<(), RowFault>
    ensures printed { OnOk result (Appends (W.contents out.old) (W.contents out.new)
        (text_of_row form program.now number row.now)) }
    ensures fault { IfErr result IsRowFault }
{
    let mut text = Vec::new(alloc);
    push_row(&mut text, form, program, number, row)?;
    write(out, text.as_slice())
}

fn write<W: Write>(out: &mut W, text: &[u8]) -> Result<(), RowFault>
    ensures printed { OnOk result (Appends (W.contents out.old) (W.contents out.new) text.now) }
    ensures fault { IfErr result IsRowFault }
{
    match write_text(out, text) {
        Ok(()) => Ok(()),
        Err(_) => Err(RowFault::CannotWrite),
    }
}

fn flush<W: Write>(out: &mut W) -> Result<(), RowFault>
    ensures kept { OnOk result (Keeps (W.contents out.old) (W.contents out.new)) }
    ensures fault { IfErr result IsRowFault }
{
    match out.flush() {
        Ok(()) => Ok(()),
        Err(_) => Err(RowFault::CannotWrite),
    }
}

fn refused(row: u64, refusal: Refusal) -> RowFault
    ensures { IsRowFault result }
{
    match refusal {
        Refusal::Text(TextFault::NoMemory) => RowFault::NoMemory,
        _ => RowFault::Row { row, refusal },
    }
}

// Runs the text with the settings and the seed of a row.
fn make_row(alloc: Global, input: &[u8], sweep: &Sweep<'_>, number: u64) -> Result<Row, Refusal>
    ensures { MakesRow input.now sweep.now number result }
{
    let settings = sweep.settings.as_slice();
    let seed = sweep.seeds.seed_in(number);
    let limits = limits_in(settings, sweep.limits, number);
    let mut programs = read_programs(alloc, input, settings, number)?;
    limit(&mut programs, limits);
    run_row(alloc, &programs, seed)
}

// Reads the text with the settings of a row.
fn read_programs(
    alloc: Global,
    input: &[u8],
    settings: &[Setting<'_>],
    number: u64,
) -> Result<Programs, Refusal>
    ensures { IfOk result (λ programs. IsProgramText
        (with_settings (lines_of_settings settings.now number) (lines input.now))
        (settings_of programs) programs.limits (programs_of programs)) }
{
    let text = with_settings(alloc, input, settings, number)?;
    match Programs::read(alloc, text.as_slice()) {
        Ok(programs) => Ok(programs),
        Err(fault) => Err(Refusal::Text(in_input(input, lines_added(settings), fault))),
    }
}

fn run_row(alloc: Global, programs: &Programs, seed: u64) -> Result<Row, Refusal>
    ensures { IfOk result (IsRowOf programs.now seed) }
{
    match count_programs(alloc, programs, seed)? {
        Some(sums) => Ok(row_of(programs, seed, sums)),
        None => Err(Refusal::Stuck),
    }
}

// Returns what bounds the run of a row, if a setting or the command line sets it.
fn limits_in(settings: &[Setting<'_>], given: Limits, row: u64) -> Limits
    ensures { AreLimitsIn settings.now given row result }
{
    Limits {
        outstanding: bound_in(Bound::Outstanding, settings, given.outstanding, row),
        pace: bound_in(Bound::Pace, settings, given.pace, row),
    }
}

fn bound_in(bound: Bound, settings: &[Setting<'_>], given: Option<u64>, row: u64) -> Option<u64>
    ensures { IsBoundIn bound settings.now given row result }
{
    for setting in settings {
        if bounds(bound, setting.name.as_bytes()) {
            return parse_number(setting.value_in(row).as_bytes());
        }
    }
    given
}

// Returns how many lines the settings add.
fn lines_added(settings: &[Setting<'_>]) -> usize {
    let mut count: usize = 0;
    for setting in settings {
        if !is_bound(setting.name.as_bytes()) {
            count = count.saturating_add(1);
        }
    }
    count
}

// Returns the fault of a text with `added` lines more, with the number that its line has without them.
fn in_input(input: &[u8], added: usize, fault: TextFault) -> TextFault {
    match fault {
        TextFault::Line { number, fault } if number > lines_that_configure(input) =>
            TextFault::Line {
                number: number.saturating_sub(added),
                fault,
            },
        _ => fault,
    }
}

// Returns how many lines are before the first that doesn't configure.
fn lines_that_configure(input: &[u8]) -> usize {
    let mut count: usize = 0;
    for line in Lines::of(input) {
        if !configures(line) {
            break;
        }
        count = count.saturating_add(1);
    }
    count
}
