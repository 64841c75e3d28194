use address_map::{Block, CoreId, CoreSet};
use std::fmt;

/// The directory's state of a line, under the Primer's names.
#[allow(non_camel_case_types)]
#[derive(Clone, Copy, Debug, PartialEq, Eq)]
pub enum DirState {
    /// No core has the line, and the home copy is current.
    I,
    /// The sharers may read the line, and the home copy is current.
    S,
    /// The owner has the only copy, or gets it.
    M,
    /// Becoming S: the block is on its way home from the last owner.
    S_D,
}

impl fmt::Display for DirState {
    ghost use Rattle.std.specs.Prelude.{Some};
    ghost use Rattle.directory_table.specs.Name.{name_of};

    ghost output = { λ state. Some (name_of state) };

    fn fmt<W: fmt::Write>(&self, f: &mut fmt::Formatter<W>) -> fmt::Result {
        f.write_str(match self {
            DirState::I => "I",
            DirState::S => "S",
            DirState::M => "M",
            DirState::S_D => "S_D",
        })
    }
}

/// The directory's entry of one line, with the home copy.
#[derive(Clone, Copy, Debug, PartialEq, Eq)]
pub struct DirEntry {
    pub home: Block,
    pub sharers: CoreSet,
    pub owner: Option<CoreId>,
    pub state: DirState,
}
