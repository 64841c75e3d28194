/// How the run of a script is printed.
#[derive(Clone, Copy, Debug, PartialEq, Eq)]
pub enum ScriptForm {
    /// Its answers: with `echo` each after its command's line, and with `explain` each before what happened.
    Answers { echo: bool, explain: bool },
    /// Each answer next to its command's line.
    Beside { explain: bool },
    /// Waves, and no answers.
    Waves,
    /// Each command with its answer and what happened as a JSON value.
    Json,
    /// How often each cell of the protocol's tables was met, and no answers.
    Coverage,
    /// The file is a model checker's trace. It isn't run, but printed as a script.
    FromMurphi,
}

/// How a schedule is printed.
#[derive(Clone, Copy, Debug, PartialEq, Eq)]
pub enum ScheduleForm {
    /// Its result: the outcomes of rounds, or the report of a run; with `json` as a JSON value.
    Report { json: bool },
    /// The commands to the machine, as a script.
    Script,
    /// That script's page.
    Page,
    /// How often each cell of the protocol's tables was met.
    Coverage,
    /// What each slice performed, as traces.
    Trace,
}

/// How what breaks under changed tables is shown.
#[derive(Clone, Copy, Debug, PartialEq, Eq)]
pub enum WhatIfForm {
    /// As text.
    Text,
    /// As one JSON value.
    Json,
    /// As a picture in SVG.
    Svg,
    /// As a page for a browser.
    Page,
}
