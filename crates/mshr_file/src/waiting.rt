use address_map::Local;
use target_list::Target;

/// An access that waits for a line: an entry of an inverted file.
#[derive(Clone, Copy, Debug, PartialEq, Eq)]
pub struct Waiting {
    pub target: Target,
    pub line: Local,
}
