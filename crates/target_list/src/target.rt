ghost use Rattle.std.specs.Prelude.{◌≡◌};

use address_map::{Offset, Op};

/// An access that waits for its line.
#[derive(Clone, Copy, Debug, PartialEq, Eq)]
pub struct Target {
    pub op: Op,
    /// Which of the core's requests in the slice it is.
    pub seq: u64,
    /// How many entries the slice's log had when the access was accepted.
    pub since: u64,
    /// The place of its word within the line.
    pub offset: Offset,
    pub tag: u8,
}

impl Target {
    ghost use Rattle.target_list.specs.Target.{is_load};

    /// Whether a copy that may only be read can answer it.
    pub const fn is_load(&self) -> bool
        ensures { result ≡ is_load self.now }
    {
        matches!(self.op, Op::Load)
    }
}

impl Default for Target {
    ghost use Rattle.target_list.specs.Target.{no_target};

    /// What the unused fields of a list hold.
    fn default() -> Self
        ensures { result ≡ no_target }
    {
        Target {
            op: Op::Load,
            seq: 0,
            since: 0,
            offset: Offset(0),
            tag: 0,
        }
    }
}
