ghost use Rattle.std.specs.Prelude.{◌≡◌};
ghost use Rattle.address_map.specs.CoreSet.{has, with, without};
ghost use Rattle.core_thread_system.specs.Running.{IsLowestFree};

use address_map::{CoreId, CoreSet};

// A set of tags is kept in 64 bits as a set of cores is: both have the members 0 to 63.

/// Whether the tag is among these.
pub(crate) const fn has_tag(tags: u64, tag: u8) -> bool
    ensures { result ≡ has tags tag }
{
    CoreSet::from_bits(tags).has(CoreId(tag))
}

/// Returns these tags and one more.
pub(crate) const fn with_tag(tags: u64, tag: u8) -> u64
    ensures { result ≡ with tags tag }
{
    CoreSet::from_bits(tags).with(CoreId(tag)).bits()
}

/// Returns these tags but one.
pub(crate) const fn without_tag(tags: u64, tag: u8) -> u64
    ensures { result ≡ without tags tag }
{
    CoreSet::from_bits(tags).without(CoreId(tag)).bits()
}

/// Returns the lowest tag that isn't among these.
pub(crate) fn free_tag(tags: u64) -> Option<u8>
    ensures { IsLowestFree tags result }
{
    for tag in 0..64 {
        if !has_tag(tags, tag) {
            return Some(tag);
        }
    }
    None
}
