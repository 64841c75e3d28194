//! The program `lockup`: reads its command line, and does what the subcommand in it asks for. Most read one text and
//! print what it comes to: each of these is a [`Subcommand`](subcommand::Subcommand), in a file of its own (`test` in
//! `exercise`, `litmus` in `threads`, `walk --part` in `part`, `run` in `programs`, `try` in `prompt`, `what-if` in
//! `what_breaks`).
//!
//! Answers go to standard output, through one buffer. A fault goes to standard error as one line, after all
//! answers that came before it. Threads are started only by a litmus test that runs over threads, for the rounds of a
//! walk, and for rows of programs.
#![tactic(auto)]

use litmus::{CommandLine, read_line};
use lockup_front::{Streams, add_coverage, print_rows, print_workload, report, show};
use merge::merge;
use std::env::VarError;
use std::io::IsTerminal;
use std::process::ExitCode;
use std::rt::{Env, Files};
use std::sync::Wait;
use std::thread::Threads;
use std::{env, io};

mod chart;
mod check;
mod exercise;
mod export;
mod judge;
mod merge;
mod outcomes;
mod page;
mod part;
mod programs;
mod prompt;
mod script;
mod subcommand;
mod table;
mod threads;
mod walk;
mod what_breaks;

fn main(rt: HostRuntime) -> ExitCode {
    let is_watched = rt.stderr().is_terminal();
    let may_color = may_color(&rt);
    let streams = Streams {
        is_watched,
        is_typed: rt.stdin().is_terminal(),
        color_answers: may_color && rt.stdout().is_terminal(),
        color_errors: may_color && is_watched,
    };
    ExitCode::from(run(&rt, streams))
}

/// Returns whether colors are wanted: the environment has no `NO_COLOR`, or an empty one.
fn may_color<R: Env + AllocGlobal>(rt: &R) -> bool {
    match env::var(rt, "NO_COLOR") {
        Ok(value) => value.is_empty(),
        Err(error) => error == VarError::NotPresent,
    }
}

/// Does what the command line asks for, and returns the exit status.
fn run<R>(rt: &R, streams: Streams) -> u8
where
    R: Env + Files + Input + AllocGlobal + Print + Eprint + Threads + Wait + Sync,
{
    match read_words(rt) {
        Ok(words) => run_words(rt, streams, words.as_slice()),
        Err(error) => report(rt, streams, &error, unread(&error)),
    }
}

fn read_words<R: Env + AllocGlobal>(rt: &R) -> io::Result<Vec<String>> {
    env::args(rt).and_then(|words| Ok(words.collect(rt.alloc())?))
}

// Each function owns at most one value, and callees borrow it: proof time grows with what is live at an exit.
fn run_words<R>(rt: &R, streams: Streams, words: &[String]) -> u8
where
    R: Env + Files + Input + AllocGlobal + Print + Eprint + Threads + Wait + Sync,
{
    match read_line(rt.alloc(), words) {
        Ok(line) => run_line(rt, streams, words, line),
        Err(error) => show(rt, streams, &error),
    }
}

/// Does what the line asks for, which is in these words.
fn run_line<R>(rt: &R, streams: Streams, words: &[String], line: CommandLine<'_>) -> u8
where
    R: Env + Files + Input + AllocGlobal + Print + Eprint + Threads + Wait + Sync,
{
    match line {
        CommandLine::Script(args) => subcommand::run(rt, streams, &args),
        CommandLine::Coverage => add_coverage(rt, streams, words),
        CommandLine::Try(args) => subcommand::run(rt, streams, &args),
        CommandLine::Chart(args) => subcommand::run(rt, streams, &args),
        CommandLine::Page(args) => subcommand::run(rt, streams, &args),
        CommandLine::Litmus(args) => subcommand::run(rt, streams, &args),
        CommandLine::Walk(args) => subcommand::run(rt, streams, &args),
        CommandLine::Part(args) => subcommand::run(rt, streams, &args),
        CommandLine::Merge(args) => merge(rt, streams, words, args),
        CommandLine::Run(args) => subcommand::run(rt, streams, &args),
        CommandLine::Sweep(args) => print_rows(rt, streams, words, args),
        CommandLine::Generate(args) => print_workload(rt, streams, args),
        CommandLine::Test(args) => subcommand::run(rt, streams, &args),
        CommandLine::Check(args) => subcommand::run(rt, streams, &args),
        CommandLine::Judge(args) => subcommand::run(rt, streams, &args),
        CommandLine::Table(args) => subcommand::run(rt, streams, &args),
        CommandLine::WhatIf(args) => subcommand::run(rt, streams, &args),
        CommandLine::Export(args) => subcommand::run(rt, streams, &args),
        CommandLine::Queries(args) => subcommand::run(rt, streams, &args),
    }
}

/// Returns why the command line can't be read.
fn unread(error: &io::Error) -> &'static str {
    if error.kind() == io::ErrorKind::InvalidData {
        "cannot read the command line: it isn't UTF-8 (FILE may be -, for standard input)"
    } else {
        "cannot read the command line"
    }
}
