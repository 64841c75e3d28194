//! What the program `lockup` does: it reads its command line, and runs the texts that this names.
//!
//! - [`read_line`] reads the program's arguments.
//! - [`run_script`] runs a script, [`run_explained`] reports what happened after each answer, [`run_beside`] prints
//!   each answer next to its command, and [`run_json`] each command as a JSON value. [`run_chart`] draws the run as a
//!   sequence diagram, [`run_svg`] one line of it over time (of those that the machine has, [`line_count`]),
//!   [`run_page`] writes it as a page for a browser, and [`run_waves`] as waves for a wave viewer.
//! - [`run_coverage`] prints how often a script met each cell of the tables, and [`coverage_walk`] how often the rounds
//!   of a walk did. A [`Coverage`] adds what was printed, for [`print_coverage`] to print.
//! - [`run_trace`] writes a model checker's trace as a script.
//! - [`run_prompt`] answers a script's lines one by one, and gives a [`Saver`] the script so far.
//! - [`run_test`] tests a script against the answers that it wants.
//! - [`run_litmus`] runs a litmus test over threads, and [`run_walk`] on random schedules; each counts the outcomes.
//!   [`run_litmus_as`] and [`run_walk`] print them as a table or as JSON, and report to a [`Progress`] how far they
//!   are; [`Silent`] discards that. [`write_walk`] prints a round of such a schedule as a script, and [`view_walk`]
//!   another [`View`] of that: its page, the traces of what it performs, or its coverage. [`trace_litmus`] writes what
//!   a round over threads performed as traces.
//! - [`print_parts`] prints a walk in parts, so that [`processors`] of many machines can share it. [`Parts`] reads what
//!   was printed, if it is of the test whose text has this [`sum_of`], and joins it: [`print_merged`] prints what is
//!   [`Merged`] as one walk, in which a [`Gap`] is missing if no part has a round. A [`PartFault`] is why not.
//! - [`run_programs`] runs programs on a random schedule, and reports what each core and each line met.
//!   [`write_schedule`] prints that schedule as a script, and [`view_schedule`] another [`View`] of that; [`Limits`]
//!   bound it. [`run_sweep`] runs them once for each row of a [`Sweep`], in parallel, and prints the rows.
//!   [`write_workload`] prints the programs of a workload.
//! - [`check_trace`] judges a trace, and returns its [`Verdict`]; [`run_check`] writes that, [`run_check_explained`]
//!   with what was expected of an invalid entry, and [`run_check_json`] both as JSON. [`run_judge`] judges it for any
//!   order of several cores' entries, and prints that in a [`JudgeForm`].
//! - [`run_table`] prints a table of the protocol with its legend, [`run_table_cells`] its cells as JSON values, and
//!   [`run_export`] the protocol of one line as a model, and [`run_queries`] as queries.
//!
//! Running, drawing, reading and walking are crates of their own. What is wrong with a text, or why it can't be run or
//! its result can't be written, is a [`TextFault`]; [`hint`] says what a reader of it may want to know.
#![tactic(auto)]

pub use coverage::coverage_walk;
pub use export::{run_export, run_queries};
pub use history_text::Extent;
pub use litmus_chart::{line_count, run_chart, run_svg};
pub use litmus_command_line::{
    ChartArgs, CheckArgs, CommandLine, ExportArgs, JudgeArgs, LitmusArgs, MergeArgs, ModelCores,
    PageArgs, PartArgs, QueriesArgs, RunArgs, ScheduleForm, ScriptArgs, ScriptForm, Table,
    TableArgs, TestArgs, TryArgs, WalkArgs, read_files, read_line,
};
pub use litmus_rounds::{Gap, Merged, Part, PartFault, Parts, processors, sum_of};
pub use litmus_script::run_script;
pub use litmus_test::{OutcomeForm, Progress, Silent};
pub use litmus_text::TextFault;
pub use murphi_trace::run_trace;
pub use parts::{print_merged, print_parts};
pub use program_run::{Form, run_programs, write_schedule};
pub use program_sweep::{
    RowFault, RowForm, Seeds, Setting, Sweep, SweepFault, program_name, run_sweep,
};
pub use program_text::{GenerateFault, Limits, Size, Workload, write_workload};
pub use script_coverage::{Coverage, Unread, print_coverage, run_coverage};
pub use script_explained::{run_beside, run_explained};
pub use script_json::run_json;
pub use script_page::run_page;
pub use script_prompt::{Saver, run_prompt};
pub use script_test::run_test;
pub use script_waves::run_waves;
pub use table::{run_table, run_table_cells};
pub use tests::{run_litmus, run_litmus_as, run_walk, trace_litmus, write_walk};
pub use text_hints::{TextKind, hint};
pub use text_verdicts::{JudgeForm, run_check, run_check_explained, run_check_json, run_judge};
pub use trace_check::{Reason, Verdict, check_trace};
pub use views::{View, view_schedule, view_walk};

mod coverage;
mod export;
mod legend;
mod parts;
mod table;
mod tests;
mod traces;
mod views;
