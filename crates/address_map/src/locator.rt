ghost use Rattle.std.specs.Prelude.{◌≡◌, ◌<◌, ◌≤◌, ◌^◌, IfSome, IsFalse, Some};
ghost use Rattle.address_map.specs.Locator.{IsOfMachine, is_past, line_at, lines_of, local_at, word_at};
ghost use Rattle.address_map.specs.Place.{line_of, offset_of};

use super::address::{LineAddr, Local, Offset, SliceId, WordAddr};
use super::config::Checked;
use std::marker::Model;

/// Where the lines of one slice are among all lines. There are 1, 2 or 4 slices, so a shift and a mask find them.
#[derive(Clone, Copy, Debug)]
pub struct Locator {
    lines: usize,
    slices: u64,
    slice: u64,
}

impl Model for Locator {
    ghost use Rattle.address_map.specs.Locator.{Lines, IsOfMachine};

    ghost Value = { Lines };

    ghost view = { λ own. record { lines = own.lines; slices = own.slices; slice = own.slice } };

    ghost invariant = { λ own. IsOfMachine (record { lines = own.lines; slices = own.slices; slice = own.slice }) };

    ghost inverse = { λ own. record { lines = own.lines; slices = own.slices; slice = own.slice } };
}

impl Locator {
    #[tactic(auto, unfolding(crate::specs::Config::IsSliceCount))]
    pub fn of(config: &Checked, slice: SliceId) -> Self
        requires { slice.0 < config.now.slices }
        ensures { result ≡ lines_of config.now slice }
    {
        Locator {
            lines: config.slice_lines(),
            slices: config.slices() as u64,
            slice: slice.0 as u64,
        }
    }

    /// How many lines the slice has.
    pub const fn lines(self) -> usize
        ensures lines { result ≡ self.lines }
        ensures machine { IsOfMachine self }
    {
        self.lines
    }

    /// How many slices there are.
    pub const fn slices(self) -> usize
        ensures slices { result ≡ self.slices }
        ensures machine { IsOfMachine self }
    {
        self.slices as usize
    }

    pub const fn slice(self) -> SliceId
        ensures slice { result.0 ≡ self.slice }
        ensures machine { IsOfMachine self }
    {
        SliceId(self.slice as u8)
    }

    /// The place of a line among the slice's own. A line of another slice, or past the last, has none.
    pub const fn local_of(self, line: LineAddr) -> Option<Local>
        ensures local { result ≡ local_at self line.0 }
        ensures in_range { IfSome result (λ local. local.0 < self.lines) }
        ensures line { IfSome result (λ local. line_at self local ≡ line) }
    {
        let local = line.0 >> self.shift();
        if line.0 & (self.slices - 1) == self.slice && local < self.lines as u64 {
            Some(Local(local as usize))
        } else {
            None
        }
    }

    /// Whether the word lies past the whole memory.
    pub const fn is_past(self, word: WordAddr) -> bool
        ensures { result ≡ is_past self word }
    {
        word.line().0 >= (self.lines as u64) << self.shift()
    }

    pub const fn line_at(self, local: Local) -> LineAddr
        requires { local.0 < self.lines }
        ensures line { result ≡ line_at self local }
        ensures local { local_at self result.0 ≡ Some local }
    {
        LineAddr(((local.0 as u64) << self.shift()) + self.slice)
    }

    pub const fn word_at(self, local: Local, offset: Offset) -> WordAddr
        requires local { local.0 < self.lines }
        requires offset { offset.0 < 8 }
        ensures word { result ≡ word_at self local offset }
        ensures line { line_of result ≡ line_at self local }
        ensures offset { offset_of result ≡ offset }
        ensures within { IsFalse (is_past self result) }
    {
        WordAddr(8 * self.line_at(local).0 + offset.0 as u64)
    }

    /// There are 2 to this many slices.
    const fn shift(self) -> u32
        ensures few { result ≤ 2 }
        ensures slices { 2 ^ result ≡ self.slices }
    {
        self.slices.trailing_zeros()
    }
}
