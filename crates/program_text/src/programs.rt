ghost use Rattle.std.specs.Prelude.{◌≡◌};
ghost use Rattle.program_text.specs.Judged.{is_limited};

use address_map::{Checked, CoreId, Op, WordAddr};
use mshr_file::MissKind;

/// The most steps of all programs of a text.
pub const MOST_ACCESSES: usize = 1_000_000;

/// The most `repeat` blocks that are nested in each other.
pub const MOST_DEPTH: usize = 8;

/// The most accesses of a core that may be under way: the number of tags.
pub const MOST_OUTSTANDING: u64 = 64;

/// The most deliveries that each slice makes after an access.
pub const MOST_PACE: u64 = 64;

/// What a core asks of one word.
#[derive(Clone, Copy, Debug, PartialEq, Eq)]
pub struct Access {
    pub word: WordAddr,
    pub op: Op,
}

/// What a core does next in its program.
#[derive(Clone, Copy, Debug, PartialEq, Eq)]
pub enum Step {
    Access(Access),
    /// Waits until each access of the core is performed.
    Settle,
}

/// The steps of a core, in order.
#[derive(Debug, Drop)]
pub struct CoreProgram {
    pub core: CoreId,
    pub steps: Vec<Step>,
}

/// What bounds a run, where a text or a command line says so.
#[derive(Clone, Copy, Debug, PartialEq, Eq)]
pub struct Limits {
    /// How many accesses of a core may be under way.
    pub outstanding: Option<u64>,
    /// How many deliveries each slice makes after an access.
    pub pace: Option<u64>,
}

impl Limits {
    /// Whether it is given how many accesses of a core may be under way.
    pub fn is_limited(self) -> bool
        ensures { result ≡ is_limited self.outstanding }
    {
        is_said(self.outstanding)
    }

    /// Whether it is given how many deliveries each slice makes.
    pub fn is_paced(self) -> bool
        ensures { result ≡ is_limited self.pace }
    {
        is_said(self.pace)
    }
}

fn is_said(number: Option<u64>) -> bool
    ensures { result ≡ is_limited number }
{
    match number {
        Some(_) => true,
        None => false,
    }
}

/// A machine and the programs of its cores, in the order of the text, each of another core.
#[derive(Debug, Drop)]
pub struct Programs {
    pub config: Checked,
    pub misses: MissKind,
    pub limits: Limits,
    pub cores: Vec<CoreProgram>,
}
