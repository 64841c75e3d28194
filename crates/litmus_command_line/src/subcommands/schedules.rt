//! The subcommands that run litmus tests and programs.
ghost use Rattle.std.specs.Prelude.{IfOk};
ghost use Rattle.litmus_command_line.specs.Subcommands.{Reads, generate_app, litmus_app, merge_app};
ghost use Rattle.litmus_command_line.specs.Subcommands.{run_app, walk_app};

use super::parameter::{Bounds, Parameter};
use super::{EXPLAIN_ERROR, help, subcommand};
use clap::Command;
use std::alloc::{AllocError, Global};

pub(super) fn litmus<'a>(alloc: Global) -> Result<Command<'a>, AllocError>
    ensures { IfOk result (Reads litmus_app) }
{
    subcommand(
        alloc,
        "litmus",
        "Runs a litmus test over threads, round by round, and counts its outcomes",
        help::LITMUS,
        &[
            Parameter::Argument("FILE", "The litmus test; - is standard input"),
            Parameter::NumberOr(
                "seed",
                "Seeds the extra turns that a core makes before each step",
                Bounds::Any,
                "1",
            ),
            Parameter::NumberOr(
                "limit",
                "How many turns a run may take",
                Bounds::Any,
                "1000000",
            ),
            Parameter::Number(
                "trace",
                "Run round N alone, and print what each slice performed, as a trace",
                Bounds::Any,
            ),
            Parameter::LoneFlag(
                "json",
                "Print the outcomes as one value of JSON",
                &["trace"],
            ),
            Parameter::Flag("explain", EXPLAIN_ERROR),
        ],
    )
}

pub(super) fn walk<'a>(alloc: Global) -> Result<Command<'a>, AllocError>
    ensures { IfOk result (Reads walk_app) }
{
    subcommand(
        alloc,
        "walk",
        "Runs a litmus test on random schedules, without threads, and counts its outcomes",
        help::WALK,
        &[
            Parameter::Argument("FILE", "The litmus test; - is standard input"),
            Parameter::Number(
                "rounds",
                "How many rounds, and not as many as the test says",
                Bounds::Positive,
            ),
            Parameter::NumberOr(
                "seed",
                "The first round's seed; each later one's is one more",
                Bounds::Any,
                "1",
            ),
            Parameter::Number(
                "limit",
                "How many moves a round may make, before it is given up",
                Bounds::Positive,
            ),
            Parameter::Number(
                "jobs",
                "How many jobs walk side by side, by default eight for each processor",
                Bounds::Positive,
            ),
            Parameter::LoneFlag(
                "script",
                "Print the round of this seed, as a script",
                &["rounds", "jobs"],
            ),
            Parameter::LoneFlag(
                "page",
                "Print the round of this seed, as a page for a browser",
                &["rounds", "jobs", "script"],
            ),
            Parameter::LoneFlag(
                "coverage",
                "Print how often the rounds met each cell of the protocol's tables, and no outcomes",
                &["jobs", "script", "page"],
            ),
            Parameter::LoneFlag(
                "trace",
                "Print what each slice performed in the round of this seed, as a trace",
                &["rounds", "jobs", "script", "page", "coverage"],
            ),
            Parameter::LoneFlag(
                "part",
                "Print the rounds as a part, for 'lockup merge'",
                &["script", "page", "coverage", "trace"],
            ),
            Parameter::LoneText(
                "resume",
                "Print the whole parts of this file, and go on after them",
                "FILE",
                &["script", "page", "coverage", "trace"],
            ),
            Parameter::LoneFlag(
                "json",
                "Print the outcomes as one value of JSON",
                &["script", "page", "coverage", "trace", "part", "resume"],
            ),
            Parameter::Flag("explain", EXPLAIN_ERROR),
        ],
    )
}

pub(super) fn merge<'a>(alloc: Global) -> Result<Command<'a>, AllocError>
    ensures { IfOk result (Reads merge_app) }
{
    subcommand(
        alloc,
        "merge",
        "Puts the parts of a walk together as one table, or the rows of a sweep",
        help::MERGE,
        &[
            Parameter::Several(
                "FILE",
                "A litmus test, and the files with parts of its walk; or files with rows; - is standard input",
            ),
            Parameter::Flag("json", "Print the outcomes as one value of JSON"),
            Parameter::Flag("mean", "Print the means of rows over their seeds"),
        ],
    )
}

pub(super) fn run<'a>(alloc: Global) -> Result<Command<'a>, AllocError>
    ensures { IfOk result (Reads run_app) }
{
    subcommand(
        alloc,
        "run",
        "Runs a program for each core, and counts its hits, its messages and its misses by cause",
        help::RUN,
        &[
            Parameter::Argument("FILE", "The programs; - is standard input"),
            Parameter::Number(
                "outstanding",
                "How many accesses of a core may be under way, and not as many as the text says",
                Bounds::Few,
            ),
            Parameter::Number(
                "pace",
                "Up to how many deliveries each slice makes after an access, and not as the text says",
                Bounds::FewOrNone,
            ),
            Parameter::NumberOr(
                "seed",
                "Seeds the order of accesses and deliveries",
                Bounds::Any,
                "1",
            ),
            Parameter::Flag("json", "Report as one value of JSON"),
            Parameter::Texts(
                "set",
                "Run with each of these values: --set ways=1,2,4; may be given again",
                "SETTING",
            ),
            Parameter::LoneText(
                "seeds",
                "Run with each of these seeds: --seeds 1..20",
                "RANGE",
                &["seed"],
            ),
            Parameter::LoneFlag(
                "csv",
                "Print a row of each run, and no report; so do --set and --seeds",
                &["json"],
            ),
            Parameter::LoneFlag(
                "script",
                "Print what was asked of the machine, as a script, and no report",
                &["json", "set", "seeds", "csv"],
            ),
            Parameter::LoneFlag(
                "page",
                "Print the same as a page for a browser",
                &["json", "set", "seeds", "csv", "script"],
            ),
            Parameter::LoneFlag(
                "coverage",
                "Print how often the run met each cell of the protocol's tables, and no report",
                &["json", "set", "seeds", "csv", "script", "page"],
            ),
            Parameter::LoneFlag(
                "trace",
                "Print what each slice performed, as a trace, and no report",
                &["json", "set", "seeds", "csv", "script", "page", "coverage"],
            ),
            Parameter::LoneFlag("explain", EXPLAIN_ERROR, &["set", "seeds", "csv"]),
        ],
    )
}

pub(super) fn generate<'a>(alloc: Global) -> Result<Command<'a>, AllocError>
    ensures { IfOk result (Reads generate_app) }
{
    subcommand(
        alloc,
        "generate",
        "Prints the programs of a workload, for 'lockup run'",
        help::GENERATE,
        &[
            Parameter::Argument("NAME", "The workload"),
            Parameter::NumberOr("cores", "How many cores", Bounds::Any, "4"),
            Parameter::NumberOr(
                "size",
                "Its size; what it counts is listed below",
                Bounds::Any,
                "16",
            ),
            Parameter::NumberOr("seed", "Seeds what is drawn at random", Bounds::Any, "1"),
        ],
    )
}
