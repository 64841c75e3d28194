use address_map::LineAddr;

/// Some of the lines that a core has a copy of, by where the copies are.
#[derive(Clone, Copy, Debug, PartialEq, Eq)]
pub enum CoreLines {
    /// Those that are waited for, in the order of their miss registers.
    Waiting,
    /// Those in the write-back buffer, the latest last.
    Leaving,
    /// Those in the set of this line, in the order of its slots.
    InSetOf(LineAddr),
}
