ghost use Rattle.std.specs.Prelude.{◌≡◌, ◌<◌, map, IfOk, IfSome, Some, string_bytes, codes, false, is_some};
ghost use Rattle.litmus_command_line.specs.CommandLine.{IsAsked, IsFormOf, IsLine, IsRead};
ghost use Rattle.litmus_command_line.specs.CommandLine.{IsScheduleFormOf, is_given, IsNumberOf};
ghost use Rattle.litmus_command_line.specs.CommandLine.{IsNumberIfGiven, AreTexts, is_swept, prints_parts, texts_in};
ghost use Rattle.litmus_command_line.specs.Subcommands.{word_of, word_of_form, word_of_number};
ghost use Rattle.litmus_command_line.specs.CommandLine.{AreTableFiles, IsWhatIfFormOf, names_tables};
ghost use Rattle.litmus_command_line.specs.CommandLine.{texts_of};
ghost use Rattle.std.specs.Option.{option_map};
ghost use Rattle.clap.specs.Words.{found_of, rows_of, first_of, subcommand_rows_of};

use super::args::{
    ChartArgs, CheckArgs, ExportArgs, GenerateArgs, JudgeArgs, LitmusArgs, MergeArgs, PageArgs,
    PartArgs, QueriesArgs, RunArgs, ScriptArgs, SweepArgs, TableArgs, TestArgs, TryArgs, WalkArgs,
    WhatIfArgs,
};
use super::export::{ModelCores, ModelForm};
use super::form::{ScheduleForm, ScriptForm, WhatIfForm};
use super::subcommands::lockup;
use super::table::{Table, TableFiles};
use clap::error::ErrorKind;
use clap::{ArgMatches, Error};
use std::alloc::{AllocError, Global};

/// What the program's command line asks for.
#[derive(Clone, Copy, Debug, PartialEq, Eq)]
pub enum CommandLine<'a> {
    /// Run a script, and print the run.
    Script(ScriptArgs<'a>),
    /// Add the counts of runs of scripts, in the files that `read_files` reads.
    Coverage,
    /// Answer a script's lines one by one.
    Try(TryArgs<'a>),
    /// Draw a script's run.
    Chart(ChartArgs<'a>),
    /// Write a script's run as a page for a browser.
    Page(PageArgs<'a>),
    /// Run a litmus test over threads.
    Litmus(LitmusArgs<'a>),
    /// Run a litmus test on random schedules.
    Walk(WalkArgs<'a>),
    /// Run some of these rounds, and print them as parts.
    Part(PartArgs<'a>),
    /// Join rows, or parts of a walk.
    Merge(MergeArgs),
    /// Run programs.
    Run(RunArgs<'a>),
    /// Run programs once for each row of settings.
    Sweep(SweepArgs<'a>),
    /// Print the programs of a workload.
    Generate(GenerateArgs<'a>),
    /// Test a script against its expected answers.
    Test(TestArgs<'a>),
    /// Check a trace.
    Check(CheckArgs<'a>),
    /// Judge a history or a trace, where the order of several cores' entries isn't known.
    Judge(JudgeArgs<'a>),
    /// Print a table of the protocol.
    Table(TableArgs),
    /// Play one line of memory under tables.
    WhatIf(WhatIfArgs<'a>),
    /// Print a line's protocol as a model of some cores.
    Export(ExportArgs<'a>),
    /// Print a line's protocol as queries for any number of cores.
    Queries(QueriesArgs),
}

/// Reads the program's words; the first is its own name. What is refused, and help, is an error that says what to
/// show, where and with which status.
pub fn read_line<'a>(alloc: Global, words: &'a [String]) -> Result<CommandLine<'a>, Error>
    ensures { IfOk result (IsRead (map string_bytes words.entry.now)) }
{
    let matches = lockup(alloc)?.try_get_matches_from(words)?;
    let line = asked(&matches);
    drop(matches);
    match line {
        Some(line) => Ok(line),
        // The command requires a subcommand and its arguments, so only a model's options are to be distinguished.
        None => Err(unfit(alloc)?),
    }
}

/// Reads the settings that vary, each as it is written after `--set`, if the words ask for rows.
pub fn read_settings<'a>(alloc: Global, words: &'a [String]) -> Result<Vec<&'a str>, Error>
    ensures { IfOk result
        (λ texts. AreTexts (codes "set") (map string_bytes words.entry.now) (map (λ text. text.now) texts.items)) }
{
    read_texts(alloc, words, "set")
}

/// Reads the files that the words name, if they ask to add counts, or to join parts or rows.
pub fn read_files<'a>(alloc: Global, words: &'a [String]) -> Result<Vec<&'a str>, Error>
    ensures { IfOk result
        (λ texts. AreTexts (codes "FILE") (map string_bytes words.entry.now) (map (λ text. text.now) texts.items)) }
{
    read_texts(alloc, words, "FILE")
}

fn read_texts<'a>(alloc: Global, words: &'a [String], name: &str) -> Result<Vec<&'a str>, Error>
    ensures { IfOk result
        (λ texts. AreTexts name.now (map string_bytes words.entry.now) (map (λ text. text.now) texts.items)) }
{
    let matches = lockup(alloc)?.try_get_matches_from(words)?;
    let texts = texts_in(alloc, &matches, name);
    drop(matches);
    Ok(texts?)
}

fn texts_in<'a>(
    alloc: Global,
    matches: &ArgMatches<'a>,
    name: &str,
) -> Result<Vec<&'a str>, AllocError>
    ensures { IfOk result
        (λ texts. map (λ text. text.now) texts.items ≡ texts_in name.now (subcommand_rows_of matches.now)) }
{
    match matches.subcommand() {
        Some((_, given)) => texts_of(alloc, given, name),
        None => Ok(Vec::new(alloc)),
    }
}

fn texts_of<'a>(
    alloc: Global,
    given: &ArgMatches<'a>,
    name: &str,
) -> Result<Vec<&'a str>, AllocError>
    ensures { IfOk result
        (λ texts. map (λ text. text.now) texts.items ≡ texts_of name.now (rows_of (found_of given.now))) }
{
    match given.get_strs(name) {
        Some(texts) => Vec::from_slice(alloc, texts),
        None => Ok(Vec::new(alloc)),
    }
}

fn unfit(alloc: Global) -> Result<Error, AllocError> {
    lockup(alloc)?.error(
        ErrorKind::ArgumentConflict,
        "export murphi needs --cores <N>, and export smt takes --exclusive alone",
    )
}

fn asked<'a>(matches: &ArgMatches<'a>) -> Option<CommandLine<'a>>
    ensures { IfSome result (IsAsked (subcommand_rows_of matches.now)) }
{
    let (name, given) = matches.subcommand()?;
    match name {
        "script" => script_line(given),
        "coverage" => coverage_line(given),
        "try" => try_line(given),
        "chart" => chart_line(given),
        "page" => page_line(given),
        "litmus" => litmus_line(given),
        "walk" => walk_line(given),
        "merge" => merge_line(given),
        "run" => run_line(given),
        "generate" => generate_line(given),
        "test" => test_line(given),
        "check" => check_line(given),
        "judge" => judge_line(given),
        "table" => table_line(given),
        "what-if" => what_if_line(given),
        "export" => export_line(given),
        _ => None,
    }
}

fn script_line<'a>(given: &ArgMatches<'a>) -> Option<CommandLine<'a>>
    ensures { IfSome result (IsLine (codes "script") (rows_of (found_of given.now))) }
{
    let file = file_of(given)?;
    let form = form_of(given)?;
    Some(CommandLine::Script(ScriptArgs { file, form }))
}

/// Returns the form that the options ask for, if they ask for only one. The command has refused all others.
fn form_of(given: &ArgMatches<'_>) -> Option<ScriptForm>
    ensures { IfSome result (IsFormOf (rows_of (found_of given.now))) }
{
    let echo = is_given(given, "echo");
    let explain = is_given(given, "explain");
    let beside = is_given(given, "beside");
    let vcd = is_given(given, "vcd");
    let from_murphi = is_given(given, "from-murphi");
    let json = is_given(given, "json");
    let coverage = is_given(given, "coverage");
    match (echo, explain, beside, vcd, from_murphi, json, coverage) {
        (_, _, false, false, false, false, false) => Some(ScriptForm::Answers { echo, explain }),
        (false, _, true, false, false, false, false) => Some(ScriptForm::Beside { explain }),
        (false, false, false, true, false, false, false) => Some(ScriptForm::Waves),
        (false, false, false, false, true, false, false) => Some(ScriptForm::FromMurphi),
        (false, false, false, false, false, true, false) => Some(ScriptForm::Json),
        (false, false, false, false, false, false, true) => Some(ScriptForm::Coverage),
        _ => None,
    }
}

fn coverage_line<'a>(given: &ArgMatches<'a>) -> Option<CommandLine<'a>>
    ensures { IfSome result (IsLine (codes "coverage") (rows_of (found_of given.now))) }
{
    let _first = file_of(given)?;
    Some(CommandLine::Coverage)
}

fn try_line<'a>(given: &ArgMatches<'a>) -> Option<CommandLine<'a>>
    ensures { IfSome result (IsLine (codes "try") (rows_of (found_of given.now))) }
{
    let file = file_if_given(given);
    Some(CommandLine::Try(TryArgs { file }))
}

fn chart_line<'a>(given: &ArgMatches<'a>) -> Option<CommandLine<'a>>
    ensures { IfSome result (IsLine (codes "chart") (rows_of (found_of given.now))) }
{
    let file = file_of(given)?;
    let svg = is_given(given, "svg");
    let line = number_if_given(given, "line")?;
    Some(CommandLine::Chart(ChartArgs { file, svg, line }))
}

fn page_line<'a>(given: &ArgMatches<'a>) -> Option<CommandLine<'a>>
    ensures { IfSome result (IsLine (codes "page") (rows_of (found_of given.now))) }
{
    let file = file_of(given)?;
    let guess = is_given(given, "guess");
    Some(CommandLine::Page(PageArgs { file, guess }))
}

fn litmus_line<'a>(given: &ArgMatches<'a>) -> Option<CommandLine<'a>>
    ensures { IfSome result (IsLine (codes "litmus") (rows_of (found_of given.now))) }
{
    let file = file_of(given)?;
    let seed = number_of(given, "seed")?;
    let limit = number_of(given, "limit")?;
    let trace = number_if_given(given, "trace")?;
    let json = is_given(given, "json");
    let explain = is_given(given, "explain");
    Some(CommandLine::Litmus(LitmusArgs {
        file,
        seed,
        limit,
        trace,
        json,
        explain,
    }))
}

fn walk_line<'a>(given: &ArgMatches<'a>) -> Option<CommandLine<'a>>
    ensures { IfSome result (IsLine (codes "walk") (rows_of (found_of given.now))) }
{
    let file = file_of(given)?;
    let rounds = number_if_given(given, "rounds")?;
    let seed = number_of(given, "seed")?;
    let limit = number_if_given(given, "limit")?;
    let jobs = number_if_given(given, "jobs")?;
    let resume = text_if_given(given, "resume");
    let form = schedule_form_of(given)?;
    let explain = is_given(given, "explain");
    match (prints_parts(given), form) {
        (false, form) => Some(CommandLine::Walk(WalkArgs {
            file,
            rounds,
            seed,
            limit,
            jobs,
            form,
            explain,
        })),
        (true, ScheduleForm::Report { json: false }) => Some(CommandLine::Part(PartArgs {
            file,
            resume,
            rounds,
            seed,
            limit,
            jobs,
            explain,
        })),
        // The command has refused a part in another form.
        (true, _) => None,
    }
}

fn merge_line<'a>(given: &ArgMatches<'a>) -> Option<CommandLine<'a>>
    ensures { IfSome result (IsLine (codes "merge") (rows_of (found_of given.now))) }
{
    let _first = file_of(given)?;
    let json = is_given(given, "json");
    let mean = is_given(given, "mean");
    Some(CommandLine::Merge(MergeArgs { json, mean }))
}

/// Returns the form that the options ask for, if they ask for only one. The command has refused all others.
fn schedule_form_of(given: &ArgMatches<'_>) -> Option<ScheduleForm>
    ensures { IfSome result (IsScheduleFormOf (rows_of (found_of given.now))) }
{
    let json = is_given(given, "json");
    let script = is_given(given, "script");
    let page = is_given(given, "page");
    let coverage = is_given(given, "coverage");
    let trace = is_given(given, "trace");
    match (json, script, page, coverage, trace) {
        (_, false, false, false, false) => Some(ScheduleForm::Report { json }),
        (false, true, false, false, false) => Some(ScheduleForm::Script),
        (false, false, true, false, false) => Some(ScheduleForm::Page),
        (false, false, false, true, false) => Some(ScheduleForm::Coverage),
        (false, false, false, false, true) => Some(ScheduleForm::Trace),
        _ => None,
    }
}

fn run_line<'a>(given: &ArgMatches<'a>) -> Option<CommandLine<'a>>
    ensures { IfSome result (IsLine (codes "run") (rows_of (found_of given.now))) }
{
    let file = file_of(given)?;
    let outstanding = number_if_given(given, "outstanding")?;
    let pace = number_if_given(given, "pace")?;
    let seed = number_of(given, "seed")?;
    if !is_swept(given) {
        let form = schedule_form_of(given)?;
        let explain = is_given(given, "explain");
        return Some(CommandLine::Run(RunArgs {
            file,
            outstanding,
            pace,
            seed,
            form,
            explain,
        }));
    }
    let json = is_given(given, "json");
    let seeds = text_if_given(given, "seeds");
    Some(CommandLine::Sweep(SweepArgs {
        file,
        outstanding,
        pace,
        seed,
        seeds,
        json,
    }))
}

fn generate_line<'a>(given: &ArgMatches<'a>) -> Option<CommandLine<'a>>
    ensures { IfSome result (IsLine (codes "generate") (rows_of (found_of given.now))) }
{
    let name = text_of(given, "NAME")?;
    let cores = number_of(given, "cores")?;
    let size = number_of(given, "size")?;
    let seed = number_of(given, "seed")?;
    Some(CommandLine::Generate(GenerateArgs {
        name,
        cores,
        size,
        seed,
    }))
}

fn test_line<'a>(given: &ArgMatches<'a>) -> Option<CommandLine<'a>>
    ensures { IfSome result (IsLine (codes "test") (rows_of (found_of given.now))) }
{
    let file = file_of(given)?;
    let first = is_given(given, "first");
    let explain = is_given(given, "explain");
    Some(CommandLine::Test(TestArgs {
        file,
        first,
        explain,
    }))
}

fn check_line<'a>(given: &ArgMatches<'a>) -> Option<CommandLine<'a>>
    ensures { IfSome result (IsLine (codes "check") (rows_of (found_of given.now))) }
{
    let file = file_of(given)?;
    let json = is_given(given, "json");
    let explain = is_given(given, "explain");
    Some(CommandLine::Check(CheckArgs {
        file,
        json,
        explain,
    }))
}

fn judge_line<'a>(given: &ArgMatches<'a>) -> Option<CommandLine<'a>>
    ensures { IfSome result (IsLine (codes "judge") (rows_of (found_of given.now))) }
{
    let file = file_of(given)?;
    let limit = number_of(given, "limit")?;
    let line = is_given(given, "line");
    let witness = number_if_given(given, "witness")?;
    let json = is_given(given, "json");
    let explain = is_given(given, "explain");
    Some(CommandLine::Judge(JudgeArgs {
        file,
        limit,
        line,
        witness,
        json,
        explain,
    }))
}

fn table_line<'a>(given: &ArgMatches<'a>) -> Option<CommandLine<'a>>
    ensures { IfSome result (IsLine (codes "table") (rows_of (found_of given.now))) }
{
    let table = table_of(given)?;
    let exclusive = is_given(given, "exclusive");
    let json = is_given(given, "json");
    Some(CommandLine::Table(TableArgs {
        table,
        exclusive,
        json,
    }))
}

fn what_if_line<'a>(given: &ArgMatches<'a>) -> Option<CommandLine<'a>>
    ensures { IfSome result (IsLine (codes "what-if") (rows_of (found_of given.now))) }
{
    let tables = table_files_of(given);
    let cores = number_of(given, "cores")?;
    let rounds = number_of(given, "rounds")?;
    let states = number_of(given, "states")?;
    let seed = number_of(given, "seed")?;
    let exclusive = is_given(given, "exclusive");
    let form = what_if_form_of(given)?;
    let trace = text_if_given(given, "from-murphi");
    Some(CommandLine::WhatIf(WhatIfArgs {
        tables,
        cores,
        rounds,
        states,
        seed,
        exclusive,
        form,
        trace,
    }))
}

/// Returns the form that the options ask for, if they ask for only one. The command has refused all others.
fn what_if_form_of(given: &ArgMatches<'_>) -> Option<WhatIfForm>
    ensures { IfSome result (IsWhatIfFormOf (rows_of (found_of given.now))) }
{
    let json = is_given(given, "json");
    let svg = is_given(given, "svg");
    let page = is_given(given, "page");
    match (json, svg, page) {
        (false, false, false) => Some(WhatIfForm::Text),
        (true, false, false) => Some(WhatIfForm::Json),
        (false, true, false) => Some(WhatIfForm::Svg),
        (false, false, true) => Some(WhatIfForm::Page),
        _ => None,
    }
}

fn table_files_of<'a>(given: &ArgMatches<'a>) -> TableFiles<'a>
    ensures { AreTableFiles (rows_of (found_of given.now)) result }
{
    let cache = text_if_given(given, "cache");
    let directory = text_if_given(given, "directory");
    TableFiles { cache, directory }
}

fn export_line<'a>(given: &ArgMatches<'a>) -> Option<CommandLine<'a>>
    ensures { IfSome result (IsLine (codes "export") (rows_of (found_of given.now))) }
{
    match model_form_of(given)? {
        ModelForm::Murphi => model_line(given),
        ModelForm::Smt => queries_line(given),
    }
}

fn model_line<'a>(given: &ArgMatches<'a>) -> Option<CommandLine<'a>>
    requires { first_of (codes "FORM") (rows_of (found_of given.now)) ≡ Some (codes "murphi") }
    ensures { IfSome result (IsLine (codes "export") (rows_of (found_of given.now))) }
{
    let tables = table_files_of(given);
    let cores = model_cores_of(given)?;
    let exclusive = is_given(given, "exclusive");
    let closed = is_given(given, "closed");
    Some(CommandLine::Export(ExportArgs {
        tables,
        cores,
        exclusive,
        closed,
    }))
}

fn queries_line<'a>(given: &ArgMatches<'a>) -> Option<CommandLine<'a>>
    requires { first_of (codes "FORM") (rows_of (found_of given.now)) ≡ Some (codes "smt") }
    ensures { IfSome result (IsLine (codes "export") (rows_of (found_of given.now))) }
{
    let exclusive = is_given(given, "exclusive");
    if is_given(given, "closed") || has_text(given, "cores") || names_tables(given) {
        return None;
    }
    Some(CommandLine::Queries(QueriesArgs { exclusive }))
}

fn file_of<'a>(given: &ArgMatches<'a>) -> Option<&'a str>
    ensures { IfSome result (λ file. first_of (codes "FILE") (rows_of (found_of given.now)) ≡ Some file.now) }
{
    given.get_str("FILE")
}

fn file_if_given<'a>(given: &ArgMatches<'a>) -> Option<&'a str>
    ensures { option_map (λ file. file.now) result ≡ first_of (codes "FILE") (rows_of (found_of given.now)) }
{
    given.get_str("FILE")
}

fn table_of(given: &ArgMatches<'_>) -> Option<Table>
    ensures { IfSome result (λ table. first_of (codes "TABLE") (rows_of (found_of given.now)) ≡ Some (word_of table)) }
{
    match given.get_str("TABLE")? {
        "cache" => Some(Table::Cache),
        "directory" => Some(Table::Directory),
        _ => None,
    }
}

fn model_form_of(given: &ArgMatches<'_>) -> Option<ModelForm>
    ensures { IfSome result
        (λ form. first_of (codes "FORM") (rows_of (found_of given.now)) ≡ Some (word_of_form form)) }
{
    match given.get_str("FORM")? {
        "murphi" => Some(ModelForm::Murphi),
        "smt" => Some(ModelForm::Smt),
        _ => None,
    }
}

fn model_cores_of(given: &ArgMatches<'_>) -> Option<ModelCores>
    ensures { IfSome result
        (λ cores. first_of (codes "cores") (rows_of (found_of given.now)) ≡ Some (word_of_number cores)) }
{
    match given.get_str("cores")? {
        "2" => Some(ModelCores::Two),
        "3" => Some(ModelCores::Three),
        "4" => Some(ModelCores::Four),
        _ => None,
    }
}

/// Returns the number of an option, given or by default.
fn number_of(given: &ArgMatches<'_>, name: &str) -> Option<u64>
    ensures { IfSome result (IsNumberOf name.now (rows_of (found_of given.now))) }
{
    given.get_one::<u64>(name)
}

/// Returns the number that an option was given, if it was given one.
fn number_if_given(given: &ArgMatches<'_>, name: &str) -> Option<Option<u64>>
    ensures { IfSome result (IsNumberIfGiven name.now (rows_of (found_of given.now))) }
{
    if given.get_str(name).is_none() {
        return Some(None);
    }
    Some(Some(number_of(given, name)?))
}

/// Returns the text of an argument.
fn text_of<'a>(given: &ArgMatches<'a>, name: &str) -> Option<&'a str>
    ensures { IfSome result (λ text. first_of name.now (rows_of (found_of given.now)) ≡ Some text.now) }
{
    given.get_str(name)
}

/// Returns the first text that an option was given, if it was given one.
fn text_if_given<'a>(given: &ArgMatches<'a>, name: &str) -> Option<&'a str>
    ensures { option_map (λ text. text.now) result ≡ first_of name.now (rows_of (found_of given.now)) }
{
    given.get_str(name)
}

/// Whether parts are asked for, and no table.
fn prints_parts(given: &ArgMatches<'_>) -> bool
    ensures { result ≡ prints_parts (rows_of (found_of given.now)) }
{
    is_given(given, "part") || has_text(given, "resume")
}

/// Whether rows are asked for, and no report.
fn is_swept(given: &ArgMatches<'_>) -> bool
    ensures { result ≡ is_swept (rows_of (found_of given.now)) }
{
    is_given(given, "csv") || has_text(given, "set") || has_text(given, "seeds")
}

fn names_tables(given: &ArgMatches<'_>) -> bool
    ensures { result ≡ names_tables (rows_of (found_of given.now)) }
{
    has_text(given, "cache") || has_text(given, "directory")
}

fn has_text(given: &ArgMatches<'_>, name: &str) -> bool
    ensures { result ≡ is_some (first_of name.now (rows_of (found_of given.now))) }
{
    text_if_given(given, name).is_some()
}

/// Whether an option without a value was given.
fn is_given(given: &ArgMatches<'_>, name: &str) -> bool
    ensures { result ≡ is_given name.now (rows_of (found_of given.now)) }
{
    given.get_one::<bool>(name).unwrap_or(false)
}
