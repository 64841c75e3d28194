//! The program's subcommands, one file per family, and what builds them.
ghost use Rattle.std.specs.Prelude.{◌≡◌, map, IfOk, IsOkAnd};
ghost use Rattle.clap.specs.Words.{app_of, new_app};
ghost use Rattle.litmus_command_line.specs.Parameters.{rule_of_parameter};
ghost use Rattle.litmus_command_line.specs.Subcommands.{IsLockup, IsWith, Reads};
ghost use Rattle.litmus_command_line.specs.Subcommands.{top_app, with_rules};

use clap::Command;
use parameter::Parameter;
use schedules::{generate, litmus, merge, run, walk};
use scripts::{chart, coverage, page, prompt, script, test};
use std::alloc::{AllocError, Global};
use tables::{export, table, what_if};
use verdicts::{check, judge};

mod help;
mod parameter;
mod schedules;
mod scripts;
mod tables;
mod verdicts;

/// What `--explain` does if it isn't about answers.
const EXPLAIN_ERROR: &str = "Explain an error: what could stand there, or why FILE can't be read";

/// Builds the program with its subcommands, and the options of each.
pub(crate) fn lockup<'a>(alloc: Global) -> Result<Command<'a>, AllocError>
    ensures { IfOk result (λ c. IsLockup (app_of c)) }
{
    let program = with(Ok(top(alloc)), script(alloc));
    let program = with(program, coverage(alloc));
    let program = with(program, prompt(alloc));
    let program = with(program, chart(alloc));
    let program = with(program, page(alloc));
    let program = with(program, litmus(alloc));
    let program = with(program, walk(alloc));
    let program = with(program, merge(alloc));
    let program = with(program, run(alloc));
    let program = with(program, generate(alloc));
    let program = with(program, test(alloc));
    let program = with(program, check(alloc));
    let program = with(program, judge(alloc));
    let program = with(program, what_if(alloc));
    let program = with(program, table(alloc));
    with(program, export(alloc))
}

/// Builds the program without its subcommands, of which it requires one.
fn top<'a>(alloc: Global) -> Command<'a>
    ensures { app_of result ≡ top_app }
{
    Command::new(alloc, "lockup")
        .about("Runs a verified model of lockup-free caches under a directory protocol")
        .version("0.3.0")
        .after_help(help::TOP)
        .subcommand_required(true)
}

// The builder passes on a `Result` with what was made so far: an early return at each step would have
// to drop all that was made before at every exit.

/// Adds a subcommand to the program.
fn with<'a>(
    program: Result<Command<'a>, AllocError>,
    made: Result<Command<'a>, AllocError>,
) -> Result<Command<'a>, AllocError>
    ensures { IfOk result (λ c. IsOkAnd program.entry (λ old. IsOkAnd made.entry
        (λ sub. IsWith (app_of old) sub (app_of c)))) }
{
    program?.subcommand(made?)
}

/// Builds a subcommand with these parameters.
fn subcommand<'a>(
    alloc: Global,
    name: &'a str,
    about: &'a str,
    help: &'a str,
    parameters: &[Parameter<'a>],
) -> Result<Command<'a>, AllocError>
    ensures { IfOk result
        (Reads (with_rules (new_app name.entry.now) (map rule_of_parameter parameters.now))) }
{
    let mut command = Ok(Command::new(alloc, name).about(about).after_help(help));
    for parameter in parameters {
        command = parameter.add_to(alloc, command);
    }
    command
}
