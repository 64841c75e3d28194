//! What each subcommand is given. With `explain`, errors are explained.

use super::export::ModelCores;
use super::form::{ScheduleForm, ScriptForm, WhatIfForm};
use super::table::{Table, TableFiles};

/// A script, and the form in which its run is printed.
#[derive(Clone, Copy, Debug, PartialEq, Eq)]
pub struct ScriptArgs<'a> {
    pub file: &'a str,
    pub form: ScriptForm,
}

/// A script that is played before lines are answered one by one, if one is named.
#[derive(Clone, Copy, Debug, PartialEq, Eq)]
pub struct TryArgs<'a> {
    pub file: Option<&'a str>,
}

/// A script whose run is drawn: as a sequence diagram, or with `svg` or a line as the space-time diagram of a line.
#[derive(Clone, Copy, Debug, PartialEq, Eq)]
pub struct ChartArgs<'a> {
    pub file: &'a str,
    pub svg: bool,
    pub line: Option<u64>,
}

/// A script whose run is written as a page for a browser: with `guess` the page asks for answers before it shows them.
#[derive(Clone, Copy, Debug, PartialEq, Eq)]
pub struct PageArgs<'a> {
    pub file: &'a str,
    pub guess: bool,
}

/// A script that is tested against its expected answers. With `first`, only the first difference is printed.
#[derive(Clone, Copy, Debug, PartialEq, Eq)]
pub struct TestArgs<'a> {
    pub file: &'a str,
    pub first: bool,
    pub explain: bool,
}

/// A litmus test that runs over threads. The seed is that of the cores' extra turns, and no run takes more turns than
/// `limit`. With `json`, its outcomes are printed as a JSON value, and with a round to trace what each slice performed
/// in that.
#[derive(Clone, Copy, Debug, PartialEq, Eq)]
pub struct LitmusArgs<'a> {
    pub file: &'a str,
    pub seed: u64,
    pub limit: u64,
    pub trace: Option<u64>,
    pub json: bool,
    pub explain: bool,
}

/// A litmus test that runs on random schedules: `rounds` rounds, or the test's own number; the first has this seed. A
/// round that isn't over after `limit` moves is given up, if a number is given. What is printed is this form of the
/// rounds, which `jobs` processors walk in parallel, or of the round of this seed.
#[derive(Clone, Copy, Debug, PartialEq, Eq)]
pub struct WalkArgs<'a> {
    pub file: &'a str,
    pub rounds: Option<u64>,
    pub seed: u64,
    pub limit: Option<u64>,
    pub jobs: Option<u64>,
    pub form: ScheduleForm,
    pub explain: bool,
}

/// The same rounds, printed as parts, for a merge to add up: first the whole ones of the file `resume`, if one is named.
#[derive(Clone, Copy, Debug, PartialEq, Eq)]
pub struct PartArgs<'a> {
    pub file: &'a str,
    pub resume: Option<&'a str>,
    pub rounds: Option<u64>,
    pub seed: u64,
    pub limit: Option<u64>,
    pub jobs: Option<u64>,
    pub explain: bool,
}

/// Programs that run in the order that the seed draws, with `outstanding` accesses of a core under way and up to `pace`
/// deliveries of each slice after an access, or the text's numbers if these aren't given.
#[derive(Clone, Copy, Debug, PartialEq, Eq)]
pub struct RunArgs<'a> {
    pub file: &'a str,
    pub outstanding: Option<u64>,
    pub pace: Option<u64>,
    pub seed: u64,
    pub form: ScheduleForm,
    pub explain: bool,
}

/// Programs that run once for each combination of the settings that `read_settings` reads, and for each of the seeds, or
/// for the one seed if none are given. With `json`, the rows are printed as a JSON value.
#[derive(Clone, Copy, Debug, PartialEq, Eq)]
pub struct SweepArgs<'a> {
    pub file: &'a str,
    pub outstanding: Option<u64>,
    pub pace: Option<u64>,
    pub seed: u64,
    pub seeds: Option<&'a str>,
    pub json: bool,
}

/// A workload whose programs are printed, for this many cores and at this size.
#[derive(Clone, Copy, Debug, PartialEq, Eq)]
pub struct GenerateArgs<'a> {
    pub name: &'a str,
    pub cores: u64,
    pub size: u64,
    pub seed: u64,
}

/// How the contents of the files that `read_files` reads are joined: rows, or after a litmus test the parts of its walk.
/// With `json`, the outcomes of parts are printed as a JSON value, and with `mean` the means of rows.
#[derive(Clone, Copy, Debug, PartialEq, Eq)]
pub struct MergeArgs {
    pub json: bool,
    pub mean: bool,
}

/// A trace that is checked. With `json`, the verdict is printed as a JSON value. With `explain`, it is explained, too.
#[derive(Clone, Copy, Debug, PartialEq, Eq)]
pub struct CheckArgs<'a> {
    pub file: &'a str,
    pub json: bool,
    pub explain: bool,
}

/// A history or a trace that is judged, where the order of several cores' entries isn't known: each word by itself, or
/// with `line` the words of each line. At most `limit` steps are taken to try orders of one. With `witness`, the order of
/// the one with this number is printed, and with `json`, the verdict as a JSON value.
#[derive(Clone, Copy, Debug, PartialEq, Eq)]
pub struct JudgeArgs<'a> {
    pub file: &'a str,
    pub limit: u64,
    pub line: bool,
    pub witness: Option<u64>,
    pub json: bool,
    pub explain: bool,
}

/// A table of the protocol, with or without the exclusive state. With `json`, its cells are printed as JSON values.
#[derive(Clone, Copy, Debug, PartialEq, Eq)]
pub struct TableArgs {
    pub table: Table,
    pub exclusive: bool,
    pub json: bool,
}

/// One line of memory that is played on this number of cores under the tables in these files, with or without the
/// exclusive state: `states` states in breadth, and then `rounds` rounds of random steps, the first with this seed. Or
/// what a model checker printed is replayed, in the file `trace`. What broke is shown in this form.
#[derive(Clone, Copy, Debug, PartialEq, Eq)]
pub struct WhatIfArgs<'a> {
    pub tables: TableFiles<'a>,
    pub cores: u64,
    pub rounds: u64,
    pub states: u64,
    pub seed: u64,
    pub exclusive: bool,
    pub form: WhatIfForm,
    pub trace: Option<&'a str>,
}

/// A line's protocol, or that of the tables in these files, which is printed as a model of this number of cores, with or
/// without the exclusive state, and what can be completed once no core makes requests any more, or not.
#[derive(Clone, Copy, Debug, PartialEq, Eq)]
pub struct ExportArgs<'a> {
    pub tables: TableFiles<'a>,
    pub cores: ModelCores,
    pub exclusive: bool,
    pub closed: bool,
}

/// A line's protocol, which is printed as queries for any number of cores, with or without the exclusive state.
#[derive(Clone, Copy, Debug, PartialEq, Eq)]
pub struct QueriesArgs {
    pub exclusive: bool,
}
