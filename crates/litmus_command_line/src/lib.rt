//! Reads the command line of the program `lockup`, by `clap`.
//!
//! [`read_line`] reads the program's words. If it returns a [`CommandLine`], each of its parts is what
//! `clap` reads of the words, as specs/CommandLine.antt says. [`read_settings`] reads the settings of a
//! line that asks for rows, and [`read_files`] the files of one that asks for a sum, or that joins parts
//! or rows. There may be any number of them.
#![tactic(auto)]

pub use args::{
    ChartArgs, CheckArgs, ExportArgs, GenerateArgs, JudgeArgs, LitmusArgs, MergeArgs, PageArgs,
    PartArgs, QueriesArgs, RunArgs, ScriptArgs, SweepArgs, TableArgs, TestArgs, TryArgs, WalkArgs,
    WhatIfArgs,
};
pub use command_line::{CommandLine, read_files, read_line, read_settings};
pub use export::ModelCores;
pub use form::{ScheduleForm, ScriptForm, WhatIfForm};
pub use table::{Table, TableFiles};

mod args;
mod command_line;
mod export;
mod form;
mod subcommands;
mod table;
