ghost use Rattle.std.specs.Prelude.{◌≡◌, ◌<◌, slice_index, slice_set, replicate};

/// The eight words of one line.
#[derive(Clone, Copy, Debug, PartialEq, Eq)]
pub struct Block {
    pub words: [u64; 8],
}

impl Block {
    /// A block of zeros, with which memory begins.
    pub const fn zero() -> Self
        ensures { result.words ≡ replicate 8 0 }
    {
        let words = [0; 8];
        Block { words }
    }
}
