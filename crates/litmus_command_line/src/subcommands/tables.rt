//! The subcommands on the tables of the protocol.
ghost use Rattle.std.specs.Prelude.{IfOk};
ghost use Rattle.litmus_command_line.specs.Subcommands.{IsExport, IsTable, Reads, what_if_app};

use super::parameter::{Bounds, Parameter};
use super::{help, subcommand};
use clap::Command;
use std::alloc::{AllocError, Global};

/// The words that name a table.
static TABLES: [&str; 2] = ["cache", "directory"];

/// The words that name a form of model.
static FORMS: [&str; 2] = ["murphi", "smt"];

/// The numbers of cores that a model may have.
static MODEL_CORES: [&str; 3] = ["2", "3", "4"];

/// The option that names the table of a private cache.
const CACHE_FILE: Parameter<'static> = Parameter::Text(
    "cache",
    "A table of a private cache, as 'lockup table cache' prints it, with changed cells",
    "FILE",
);

/// .. of a directory.
const DIRECTORY_FILE: Parameter<'static> = Parameter::Text(
    "directory",
    "A table of a directory, as 'lockup table directory' prints it, with changed cells",
    "FILE",
);

pub(super) fn what_if<'a>(alloc: Global) -> Result<Command<'a>, AllocError>
    ensures { IfOk result (Reads what_if_app) }
{
    subcommand(
        alloc,
        "what-if",
        "Plays one line of memory under changed tables of the protocol, and shows what breaks",
        help::WHAT_IF,
        &[
            CACHE_FILE,
            DIRECTORY_FILE,
            Parameter::NumberOr("cores", "How many cores there are", Bounds::Few, "3"),
            Parameter::NumberOr(
                "states",
                "How many states are searched in breadth before rounds are drawn",
                Bounds::Any,
                "100000",
            ),
            Parameter::NumberOr(
                "rounds",
                "How many rounds of random steps",
                Bounds::Any,
                "10000",
            ),
            Parameter::NumberOr("seed", "The seed of the first round", Bounds::Any, "1"),
            Parameter::LoneText(
                "from-murphi",
                "Replay this output of Rumur's in place of a search",
                "FILE",
                &["states", "rounds", "seed"],
            ),
            Parameter::Flag("exclusive", "With the exclusive state"),
            Parameter::Flag("json", "Print what broke as one value of JSON"),
            Parameter::LoneFlag("svg", "Draw what broke, as a picture in SVG", &["json"]),
            Parameter::LoneFlag(
                "page",
                "Print what broke as a page for a browser",
                &["json", "svg"],
            ),
        ],
    )
}

pub(super) fn table<'a>(alloc: Global) -> Result<Command<'a>, AllocError>
    ensures { IfOk result IsTable }
{
    subcommand(
        alloc,
        "table",
        "Prints a table of the protocol: what a state does at each event",
        "Example: lockup table cache --exclusive",
        &[
            Parameter::OneOf(
                "TABLE",
                "Of a private cache, or of a slice's directory",
                &TABLES,
            ),
            Parameter::Flag("exclusive", "Also show the exclusive state"),
            Parameter::Flag("json", "Print each cell as a value of JSON"),
        ],
    )
}

pub(super) fn export<'a>(alloc: Global) -> Result<Command<'a>, AllocError>
    ensures { IfOk result IsExport }
{
    subcommand(
        alloc,
        "export",
        "Prints the protocol of one line for other tools to judge: model checkers and SMT solvers",
        help::EXPORT,
        &[
            Parameter::OneOf("FORM", "For Rumur and CMurphi, or for z3 and cvc5", &FORMS),
            Parameter::Choice(
                "cores",
                "How many cores the model has (murphi)",
                &MODEL_CORES,
            ),
            Parameter::Flag("exclusive", "With the exclusive state"),
            Parameter::Flag(
                "closed",
                "Also have each miss completed, once no core asks any more (murphi)",
            ),
            CACHE_FILE,
            DIRECTORY_FILE,
        ],
    )
}
