ghost use Rattle.std.specs.Box.{boxed_slice_items};
ghost use Rattle.std.specs.Prelude.{◌≡◌, ◌<◌, IfOk, IfSome};
ghost use Rattle.address_map.specs.Config.{IsAllowed};
ghost use Rattle.address_map.specs.Place.{counters_of, init_of, is_of_slice, place_of, slice_of, word_at, IsInRange};

use super::address::{LineAddr, Local, Offset, SliceId, WordAddr};
use super::config::Checked;
use std::alloc::{AllocError, Global};
use std::boxed::BoxedSlice;

/// Where a word is: its slice, its line among that slice's lines, and its place in the line.
#[derive(Clone, Copy, Debug, PartialEq, Eq, Hash)]
pub struct Place {
    pub local: Local,
    pub slice: SliceId,
    pub offset: Offset,
}

/// The slice that has a line: lines are dealt out to the slices in turn.
pub fn slice_of(config: &Checked, line: LineAddr) -> SliceId
    ensures slice { result ≡ slice_of config.now line }
    ensures there { result.0 < config.now.slices }
    ensures allowed { IsAllowed config.now }
{
    SliceId((line.0 % config.slices() as u64) as u8)
}

/// Whether the slice has the word.
pub fn is_of_slice(config: &Checked, slice: SliceId, word: WordAddr) -> bool
    ensures { result ≡ is_of_slice config.now slice.0 word }
{
    slice_of(config, word.line()) == slice
}

/// The counters of a slice, in the configured order.
pub fn counters_of(
    alloc: Global,
    config: &Checked,
    slice: SliceId,
) -> Result<BoxedSlice<WordAddr>, AllocError>
    ensures { IfOk result (λ words. boxed_slice_items words ≡ counters_of config.now slice.0) }
{
    config
        .counters()
        .iter()
        .copied()
        .filter(|word| is_of_slice(config, slice, *word))
        .collect(alloc)
}

/// The configured initial values of a slice's words, in the configured order.
pub fn init_of(
    alloc: Global,
    config: &Checked,
    slice: SliceId,
) -> Result<BoxedSlice<(WordAddr, u64)>, AllocError>
    ensures { IfOk result (λ pairs. boxed_slice_items pairs ≡ init_of config.now slice.0) }
{
    config
        .init()
        .iter()
        .copied()
        .filter(|pair| is_of_slice(config, slice, pair.0))
        .collect(alloc)
}

/// Finds the place of a word. A word past the last one has none.
pub fn split(config: &Checked, word: WordAddr) -> Option<Place>
    ensures place { result ≡ place_of config.now word }
    ensures in_range { IfSome result (IsInRange config.now) }
    ensures joined { IfSome result (λ place. word_at config.now place ≡ word) }
{
    let line = word.line();
    if line.0 >= config.lines() as u64 {
        return None;
    }
    Some(Place {
        local: Local((line.0 / config.slices() as u64) as usize),
        slice: slice_of(config, line),
        offset: word.offset(),
    })
}

/// The word at a place.
pub fn join(config: &Checked, place: Place) -> WordAddr
    requires { IsInRange config.now place }
    ensures word { result ≡ word_at config.now place }
    ensures split { place_of config.now result ≡ Some place }
{
    let line = place.local.0 as u64 * config.slices() as u64 + place.slice.0 as u64;
    WordAddr(8 * line + place.offset.0 as u64)
}
