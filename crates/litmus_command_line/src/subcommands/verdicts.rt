//! The subcommands that judge a log or a history.
ghost use Rattle.std.specs.Prelude.{IfOk};
ghost use Rattle.litmus_command_line.specs.Subcommands.{Reads, check_app, judge_app};

use super::parameter::{Bounds, Parameter};
use super::{EXPLAIN_ERROR, help, subcommand};
use clap::Command;
use std::alloc::{AllocError, Global};

pub(super) fn check<'a>(alloc: Global) -> Result<Command<'a>, AllocError>
    ensures { IfOk result (Reads check_app) }
{
    subcommand(
        alloc,
        "check",
        "Judges a trace: whether its log is legal and ordered, or which entry is wrong, and why",
        help::CHECK,
        &[
            Parameter::Argument("FILE", "The trace: one entry a line; - is standard input"),
            Parameter::Flag("json", "Print the verdict as one value of JSON"),
            Parameter::Flag(
                "explain",
                "Print what was expected after the verdict, and explain an error",
            ),
        ],
    )
}

pub(super) fn judge<'a>(alloc: Global) -> Result<Command<'a>, AllocError>
    ensures { IfOk result (Reads judge_app) }
{
    subcommand(
        alloc,
        "judge",
        "Judges a history, what each core was answered: is there an order between cores that explains it?",
        help::JUDGE,
        &[
            Parameter::Argument(
                "FILE",
                "The history, one access a line, or a trace; - is standard input",
            ),
            Parameter::NumberOr(
                "limit",
                "How many steps may be taken to try orders of a word whose values repeat, or of a line",
                Bounds::Any,
                "1000000",
            ),
            Parameter::Flag(
                "line",
                "Judge the eight words of each line together: is there one order of all their accesses?",
            ),
            Parameter::Number(
                "witness",
                "Print the order that was found of the accesses of word N, or of line N, as a trace",
                Bounds::Any,
            ),
            Parameter::LoneFlag(
                "json",
                "Print the verdict as one value of JSON",
                &["witness"],
            ),
            Parameter::Flag("explain", EXPLAIN_ERROR),
        ],
    )
}
