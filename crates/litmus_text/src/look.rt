//! Commands that only show part of a machine.
ghost use Rattle.std.specs.Prelude.{◌≡◌};
ghost use Rattle.litmus_text.specs.Look.{line_of_look, name_of_look, name_of_machine_look, subject_of};

use address_map::{LineAddr, SliceId, WordAddr};

/// What a command shows. The machine stays as it is.
#[derive(Clone, Copy, Debug, PartialEq, Eq)]
pub enum Look {
    /// A word of a quiet slice.
    Word(WordAddr),
    /// The directory's entry and each core's copy of a line.
    State(LineAddr),
    /// A slice's log, as a trace.
    Log(SliceId),
    /// Part of all slices.
    Machine(MachineLook),
}

/// What is shown of all slices.
#[derive(Clone, Copy, Debug, PartialEq, Eq)]
pub enum MachineLook {
    /// What they have counted.
    Stats,
    /// The messages in flight.
    Waiting,
    /// All that isn't at rest.
    Show,
}

/// The part of a machine that is shown.
#[derive(Clone, Copy, Debug, PartialEq, Eq)]
pub enum Subject {
    Word(WordAddr),
    Line(LineAddr),
    Slice(SliceId),
    Machine,
}

impl Look {
    /// Returns the first word of its command.
    pub const fn name(self) -> &'static str
        ensures { result.now ≡ name_of_look self }
    {
        match self {
            Look::Word(_) => "word",
            Look::State(_) => "state",
            Look::Log(_) => "log",
            Look::Machine(look) => look.name(),
        }
    }

    /// Returns the part that it shows.
    pub const fn subject(self) -> Subject
        ensures { result ≡ subject_of self }
    {
        match self {
            Look::Word(word) => Subject::Word(word),
            Look::State(line) => Subject::Line(line),
            Look::Log(slice) => Subject::Slice(slice),
            Look::Machine(_) => Subject::Machine,
        }
    }

    /// Returns the line that it is about, if any.
    pub const fn line(self) -> Option<LineAddr>
        ensures { result ≡ line_of_look self }
    {
        match self {
            Look::Word(word) => Some(word.line()),
            Look::State(line) => Some(line),
            Look::Log(_) | Look::Machine(_) => None,
        }
    }
}

impl MachineLook {
    /// Returns the word that is its command.
    pub const fn name(self) -> &'static str
        ensures { result.now ≡ name_of_machine_look self }
    {
        match self {
            MachineLook::Stats => "stats",
            MachineLook::Waiting => "waiting",
            MachineLook::Show => "show",
        }
    }
}
