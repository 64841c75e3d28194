ghost use Rattle.std.specs.Prelude.{◌≡◌, ◌<◌};
ghost use Rattle.address_map.specs.Place.{line_of, offset_of};

/// A word of the whole memory. A word is a `u64`, and words are numbered from 0.
#[derive(Clone, Copy, Debug, PartialEq, Eq, PartialOrd, Ord, Hash)]
pub struct WordAddr(pub u64);

/// A line of the whole memory: the eight words from `8 * line` on.
#[derive(Clone, Copy, Debug, PartialEq, Eq, PartialOrd, Ord, Hash)]
pub struct LineAddr(pub u64);

/// A line's place among the lines of its own slice.
#[derive(Clone, Copy, Debug, PartialEq, Eq, PartialOrd, Ord, Hash)]
pub struct Local(pub usize);

/// A word's place within its line, 0 to 7.
#[derive(Clone, Copy, Debug, PartialEq, Eq, PartialOrd, Ord, Hash)]
pub struct Offset(pub u8);

/// A slice of the last level.
#[derive(Clone, Copy, Debug, PartialEq, Eq, PartialOrd, Ord, Hash)]
pub struct SliceId(pub u8);

/// A core with its private cache, 0 to 63.
#[derive(Clone, Copy, Debug, PartialEq, Eq, PartialOrd, Ord, Hash)]
pub struct CoreId(pub u8);

impl WordAddr {
    /// The line that has the word.
    pub const fn line(self) -> LineAddr
        ensures { result ≡ line_of self }
    {
        LineAddr(self.0 / 8)
    }

    /// The word's place within its line.
    pub const fn offset(self) -> Offset
        ensures offset { result ≡ offset_of self }
        ensures within { result.0 < 8 }
    {
        Offset((self.0 % 8) as u8)
    }
}
