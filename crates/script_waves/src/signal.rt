//! What a file of waves calls its signals.
use address_map::LineAddr;
use std::fmt;

/// One of a line's signals.
#[derive(Clone, Copy)]
pub(crate) enum Signal {
    /// The state of the directory's entry.
    Directory,
    /// The state of the copy of the core with this number.
    Copy(usize),
    /// The channels in which a message waits.
    Channels,
    /// How many these are.
    Total,
}

/// A signal's name, within its line.
impl fmt::Display for Signal {
    ghost use Rattle.std.specs.Prelude.{Some};
    ghost use Rattle.script_waves.specs.Signals.{name_of};

    ghost output = { λ signal. Some (name_of signal) };

    fn fmt<W: fmt::Write>(&self, f: &mut fmt::Formatter<W>) -> fmt::Result {
        match self {
            Signal::Directory => f.write_str("directory"),
            Signal::Copy(core) => write!(f, "core{core}"),
            Signal::Channels => f.write_str("in_flight"),
            Signal::Total => f.write_str("channels"),
        }
    }
}

/// The code that identifies a line's signal in the file.
#[derive(Clone, Copy)]
pub(crate) struct Code {
    pub(crate) line: LineAddr,
    pub(crate) signal: Signal,
}

impl fmt::Display for Code {
    ghost use Rattle.std.specs.Prelude.{Some};
    ghost use Rattle.script_waves.specs.Signals.{code_of};

    ghost output = { λ code. Some (code_of code.line code.signal) };

    fn fmt<W: fmt::Write>(&self, f: &mut fmt::Formatter<W>) -> fmt::Result {
        let LineAddr(line) = self.line;
        match self.signal {
            Signal::Directory => write!(f, "{line}.d"),
            Signal::Copy(core) => write!(f, "{line}.{core}"),
            Signal::Channels => write!(f, "{line}.m"),
            Signal::Total => write!(f, "{line}.n"),
        }
    }
}

/// What a core has in use of a slice.
#[derive(Clone, Copy)]
pub(crate) enum Use {
    /// Miss registers.
    Registers,
    /// Targets of these: the accesses that wait.
    Targets,
    /// Entries of the write-back buffer.
    WriteBacks,
}

/// Its name as a signal, within its core.
impl fmt::Display for Use {
    ghost use Rattle.std.specs.Prelude.{Some};
    ghost use Rattle.script_waves.specs.Signals.{name_of_use};

    ghost output = { λ of. Some (name_of_use of) };

    fn fmt<W: fmt::Write>(&self, f: &mut fmt::Formatter<W>) -> fmt::Result {
        match self {
            Use::Registers => f.write_str("registers"),
            Use::Targets => f.write_str("targets"),
            Use::WriteBacks => f.write_str("writebacks"),
        }
    }
}

/// The code that identifies it in the file.
#[derive(Clone, Copy)]
pub(crate) struct UseCode {
    pub(crate) slice: usize,
    pub(crate) core: usize,
    pub(crate) of: Use,
}

impl fmt::Display for UseCode {
    ghost use Rattle.std.specs.Prelude.{Some};
    ghost use Rattle.script_waves.specs.Signals.{code_of_use};

    ghost output = { λ code. Some (code_of_use code.slice code.core code.of) };

    fn fmt<W: fmt::Write>(&self, f: &mut fmt::Formatter<W>) -> fmt::Result {
        let UseCode { slice, core, of } = *self;
        match of {
            Use::Registers => write!(f, "r{slice}.{core}"),
            Use::Targets => write!(f, "t{slice}.{core}"),
            Use::WriteBacks => write!(f, "w{slice}.{core}"),
        }
    }
}
