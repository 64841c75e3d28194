/// A table of the protocol.
#[derive(Clone, Copy, Debug, PartialEq, Eq)]
pub enum Table {
    /// Of a private cache.
    Cache,
    /// Of a slice's directory.
    Directory,
}

/// The files of tables that replace ours.
#[derive(Clone, Copy, Debug, PartialEq, Eq)]
pub struct TableFiles<'a> {
    pub cache: Option<&'a str>,
    pub directory: Option<&'a str>,
}
