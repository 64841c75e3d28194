ghost use Rattle.std.specs.Prelude.{◌≡◌};
ghost use Rattle.history_text.specs.Histories.{row_of};

use address_map::WordAddr;

/// Which words are judged together.
#[derive(Clone, Copy, Debug, PartialEq, Eq)]
pub enum Extent {
    /// Each word by itself.
    Word,
    /// The eight words of a line, whose accesses must have one order.
    Line,
}

impl Extent {
    /// Returns the number of the word, or of its line.
    pub const fn row_of(self, word: WordAddr) -> u64
        ensures { result ≡ row_of self word.0 }
    {
        match self {
            Extent::Word => word.0,
            Extent::Line => word.0 / 8,
        }
    }
}
