//! The tags of accesses.
ghost use Rattle.std.specs.Prelude.{◌≡◌, ℕ, ◌%◌, ◌<◌};
ghost use Rattle.murphi_trace.specs.Replay.{last_tag};

/// The greatest tag of a core.
const LAST_TAG: u8 = 63;

/// Returns the tag of a core's next access. The last one had this, if there was one.
pub(crate) fn next_tag(last: Option<u8>) -> u8
    ensures { (accesses : ℕ) → last ≡ last_tag accesses → result ≡ accesses % 64 }
{
    let Some(tag) = last else {
        return 0;
    };
    if tag < LAST_TAG { tag + 1 } else { 0 }
}
