//! The subcommands that run a script.
ghost use Rattle.std.specs.Prelude.{IfOk};
ghost use Rattle.litmus_command_line.specs.Subcommands.{Reads, chart_app, coverage_app};
ghost use Rattle.litmus_command_line.specs.Subcommands.{page_app, script_app, test_app, try_app};

use super::parameter::{Bounds, Parameter};
use super::{EXPLAIN_ERROR, help, subcommand};
use clap::Command;
use std::alloc::{AllocError, Global};

pub(super) fn script<'a>(alloc: Global) -> Result<Command<'a>, AllocError>
    ensures { IfOk result (Reads script_app) }
{
    subcommand(
        alloc,
        "script",
        "Runs a script on the state of each slice, without threads, and prints its answers",
        help::SCRIPT,
        &[
            Parameter::Argument(
                "FILE",
                "The script: one command a line; - is standard input",
            ),
            Parameter::Flag("echo", "Print each command's line before its answer"),
            Parameter::Flag(
                "explain",
                "Print what happened after each answer, and explain an error",
            ),
            Parameter::LoneFlag(
                "beside",
                "Print each answer beside its command's line",
                &["echo"],
            ),
            Parameter::LoneFlag(
                "vcd",
                "Print the run as waves for a wave viewer, in place of answers",
                &["echo", "explain", "beside"],
            ),
            Parameter::LoneFlag(
                "from-murphi",
                "FILE is a trace of the model: print it as a script",
                &["echo", "explain", "beside", "vcd"],
            ),
            Parameter::LoneFlag(
                "json",
                "Print each command with its answer and what happened as a value of JSON",
                &["echo", "explain", "beside", "vcd", "from-murphi"],
            ),
            Parameter::LoneFlag(
                "coverage",
                "Print how often each cell of the protocol's tables was met, in place of answers",
                &["echo", "explain", "beside", "vcd", "from-murphi", "json"],
            ),
        ],
    )
}

pub(super) fn coverage<'a>(alloc: Global) -> Result<Command<'a>, AllocError>
    ensures { IfOk result (Reads coverage_app) }
{
    subcommand(
        alloc,
        "coverage",
        "Adds what 'script --coverage' counted of several scripts",
        help::COVERAGE,
        &[Parameter::Several(
            "FILE",
            "What it printed, in one file or more; - is standard input",
        )],
    )
}

pub(super) fn prompt<'a>(alloc: Global) -> Result<Command<'a>, AllocError>
    ensures { IfOk result (Reads try_app) }
{
    subcommand(
        alloc,
        "try",
        "Answers a script's lines one by one, and says what happened after each answer",
        help::TRY,
        &[Parameter::Optional("FILE", "A script to begin with")],
    )
}

pub(super) fn chart<'a>(alloc: Global) -> Result<Command<'a>, AllocError>
    ensures { IfOk result (Reads chart_app) }
{
    subcommand(
        alloc,
        "chart",
        "Draws the run of a script as a sequence diagram, in Mermaid's words, or as a picture",
        help::CHART,
        &[
            Parameter::Argument(
                "FILE",
                "The script: one command a line; - is standard input",
            ),
            Parameter::Flag(
                "svg",
                "Draw one line's states and messages over time, as a picture in SVG",
            ),
            Parameter::Number(
                "line",
                "Draw this line so, and not the one that is named first",
                Bounds::Any,
            ),
        ],
    )
}

pub(super) fn page<'a>(alloc: Global) -> Result<Command<'a>, AllocError>
    ensures { IfOk result (Reads page_app) }
{
    subcommand(
        alloc,
        "page",
        "Writes the run of a script as a page for a browser, which is stepped through there",
        help::PAGE,
        &[
            Parameter::Argument(
                "FILE",
                "The script: one command a line; - is standard input",
            ),
            Parameter::Flag("guess", "Ask for each answer before it is shown"),
        ],
    )
}

pub(super) fn test<'a>(alloc: Global) -> Result<Command<'a>, AllocError>
    ensures { IfOk result (Reads test_app) }
{
    subcommand(
        alloc,
        "test",
        "Tests a script against the answers that it wants: finds the lines that differ",
        help::TEST,
        &[
            Parameter::Argument(
                "FILE",
                "The script: one command a line; - is standard input",
            ),
            Parameter::Flag("first", "Print the first difference alone"),
            Parameter::Flag("explain", EXPLAIN_ERROR),
        ],
    )
}
