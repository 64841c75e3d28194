ghost use Rattle.std.specs.Prelude.{◌≡◌, ◌<◌, ◌%◌, [], IfErr, IfNone, IfOk, IfSome, OnOk, Some};
ghost use Rattle.std.specs.Fmt.{WritesInCalls};
ghost use Rattle.std.specs.Io.KnownBytes.{Appends};
ghost use Rattle.mshr_file.specs.Miss.{bound_of};
ghost use Rattle.program_text.specs.Fault.{IsProgramText, programs_of, settings_of};
ghost use Rattle.program_text.specs.declared.programs.Programs.{Programs};
ghost use Rattle.litmus_script.specs.Play.{IsOfRun};
ghost use Rattle.rand_xoshiro.specs.Xoshiro256.{plus_plus};
ghost use Rattle.program_run.specs.Run.{IsProgramNotRun, IsProgramsRun, Leads, Runs, drawn_move, is_measured, limited_to};
ghost use Rattle.program_run.specs.Run.{text_of, text_of_stuck};

use super::json::write_json;
use super::kept::Kept;
use super::moves::Move;
use super::owed::nothing_owed;
use super::report::write_report;
use super::runner::Runner;
use super::tally::Tally;
use super::usage::Usage;
use litmus_script::TextWriter;
use litmus_test::Progress;
use litmus_text::TextFault;
use program_text::{Limits, Programs};
use rand_core::SeedableRng;
use rand_core::utils::NextWord;
use rand_xoshiro::Xoshiro256PlusPlus;
use std::alloc::{AllocError, Global};
use std::fmt;
use std::io::Write;

/// How a report is written.
#[derive(Clone, Copy, Debug, PartialEq, Eq)]
pub enum Form {
    Table,
    Json,
}

/// Runs the programs of a text in the order that the seed draws, and prints the report. Limits that are given override
/// those of the text; where neither sets one, one access of a core may be under way, and slices make no
/// deliveries after an access of their own. Returns the exit status, which is 1 if nothing can move before the end;
/// then nothing else is printed.
pub fn run_programs<P: Progress, W: Write>(
    alloc: Global,
    input: &[u8],
    given: Limits,
    seed: u64,
    form: Form,
    progress: &mut P,
    out: &mut W,
) -> Result<u8, TextFault>
    ensures done { IfOk result (λ status. (programs : Programs)
        × IsProgramText input.now (settings_of programs) programs.limits (programs_of programs)
        × IsProgramsRun (bound_of programs.misses programs.config) (limited_to given programs) form seed status
        (W.contents out.old) (W.contents out.new)) }
    ensures fault { IfErr result (IsProgramNotRun input.now) }
{
    let mut programs = Programs::read(alloc, input)?;
    limit(&mut programs, given);
    run_read(alloc, &programs, seed, form, progress, out)
}

/// Overrides the limits of the text by those that are given.
pub fn limit(programs: &mut Programs, given: Limits)
    ensures { programs.new ≡ limited_to given programs.old }
{
    let Limits { outstanding, pace } = programs.limits;
    programs.limits = Limits {
        outstanding: given.outstanding.or(outstanding),
        pace: given.pace.or(pace),
    };
}

/// The same with programs that are read.
fn run_read<P: Progress, W: Write>(
    alloc: Global,
    programs: &Programs,
    seed: u64,
    form: Form,
    progress: &mut P,
    out: &mut W,
) -> Result<u8, TextFault>
    ensures done { IfOk result (λ status. IsProgramsRun
        (bound_of programs.now.misses programs.now.config)
        programs.now form seed status (W.contents out.old) (W.contents out.new)) }
    ensures fault { IfErr result IsOfRun }
{
    let mut runner = Runner::new(alloc, programs, false)?;
    run(alloc, programs, seed, &mut runner, progress)?;
    if runner.is_over(programs) {
        let usages = runner.usages(alloc, programs)?;
        print_report(
            runner.tally(),
            usages.as_slice(),
            programs.limits,
            seed,
            form,
            out,
        )?;
        Ok(0)
    } else {
        print_stuck(seed, out)?;
        Ok(1)
    }
}

// Whether something bounds the run.
fn is_measured(limits: Limits) -> bool
    ensures { result ≡ is_measured limits }
{
    limits.is_limited() || limits.is_paced()
}

/// Makes moves up to the end.
pub(crate) fn run<P: Progress>(
    alloc: Global,
    programs: &Programs,
    seed: u64,
    runner: &mut Runner,
    progress: &mut P,
) -> Result<(), AllocError>
    ensures { OnOk result (Leads (Runs runner.old.config programs.now seed) runner.old runner.new) }
{
    let mut generator = Xoshiro256PlusPlus::seed_from_u64(seed);
    let mut kept = Kept::new(alloc, programs.config.cores(), programs.config.slices())?;
    let mut moves = Vec::new(alloc);
    let mut performed = Vec::new(alloc);
    let mut owed = nothing_owed(alloc, programs.config.slices())?;
    for made in 0..u64::MAX {
        runner.list_moves(programs, owed.as_slice(), &mut kept, &mut moves)?;
        let Some(to) = draw(&mut generator, moves.as_slice()) else {
            return Ok(());
        };
        runner.owe(programs, to, &mut owed);
        runner.go(programs, to, &mut kept, &mut performed)?;
        runner.measure(is_measured(programs.limits));
        runner.tidy(made, &mut kept);
        runner.tell(made, programs, progress);
    }
    Ok(())
}

// Draws one of the moves, each as likely as the others, by the generator's next word.
fn draw(generator: &mut Xoshiro256PlusPlus, moves: &[Move]) -> Option<Move>
    ensures some { IfSome result (λ to. drawn_move (plus_plus generator.old).0 moves.now ≡ Some to) }
    ensures next { IfSome result (λ to. generator.new ≡ (plus_plus generator.old).1) }
    ensures none { IfNone result (moves.now ≡ []) }
{
    if moves.is_empty() {
        return None;
    }
    Some(moves[place_of(generator.next_word(), moves.len())])
}

// Returns the place that a word draws out of `count`. No division is made where `count` is small.
fn place_of(word: u64, count: usize) -> usize
    requires { 0 < count }
    ensures place { result ≡ word % count }
    ensures below { result < count }
{
    match count {
        1 => 0,
        2 => (word % 2) as usize,
        3 => (word % 3) as usize,
        4 => (word % 4) as usize,
        5 => (word % 5) as usize,
        _ => (word % count as u64) as usize,
    }
}

fn print_report<W: Write>(
    tally: &Tally,
    usages: &[Usage],
    limits: Limits,
    seed: u64,
    form: Form,
    out: &mut W,
) -> Result<(), TextFault>
    ensures printed { OnOk result
        (Appends (W.contents out.old) (W.contents out.new) (text_of form tally.now usages.now limits seed)) }
    ensures fault { IfErr result IsOfRun }
{
    let mut answers = TextWriter { out };
    match write_form(tally, usages, limits, seed, form, &mut answers) {
        Ok(()) => Ok(()),
        Err(_) => Err(TextFault::CannotWrite),
    }
}

fn write_form<W: fmt::Write>(
    tally: &Tally,
    usages: &[Usage],
    limits: Limits,
    seed: u64,
    form: Form,
    out: &mut W,
) -> fmt::Result
    ensures { OnOk result
        (WritesInCalls W.write_str_gives out.old (text_of form tally.now usages.now limits seed) out.new) }
{
    match form {
        Form::Table => write_report(tally, usages, limits, seed, out),
        Form::Json => write_json(tally, usages, limits, seed, out),
    }
}

fn print_stuck<W: Write>(seed: u64, out: &mut W) -> Result<(), TextFault>
    ensures printed { OnOk result (Appends (W.contents out.old) (W.contents out.new) (text_of_stuck seed)) }
    ensures fault { IfErr result IsOfRun }
{
    let mut answers = TextWriter { out };
    match write_stuck(seed, &mut answers) {
        Ok(()) => Ok(()),
        Err(_) => Err(TextFault::CannotWrite),
    }
}

fn write_stuck<W: fmt::Write>(seed: u64, out: &mut W) -> fmt::Result
    ensures { OnOk result (WritesInCalls W.write_str_gives out.old (text_of_stuck seed) out.new) }
{
    writeln!(out, "stuck seed {seed}")
}
