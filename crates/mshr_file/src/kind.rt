/// How a cache keeps track of its misses.
#[derive(Clone, Copy, Debug, PartialEq, Eq)]
pub enum MissKind {
    /// A number of registers with a number of target fields each.
    Explicit,
    /// An entry for each tag.
    Inverted,
}
