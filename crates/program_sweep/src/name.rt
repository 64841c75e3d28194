//! The names of settings: the first words of the lines that configure a machine, and what bounds a run.
ghost use Rattle.std.specs.Prelude.{◌≡◌};
ghost use Rattle.program_sweep.specs.Text.{bounds, is_bound, is_name, may_vary, replaces};

use litmus_text::value_named;

/// Each word, and whether the last of the lines that begin with it counts.
static NAMES: [(&[u8], bool); 13] = [
    (b"cores", true),
    (b"slices", true),
    (b"lines", true),
    (b"sets", true),
    (b"ways", true),
    (b"mshrs", true),
    (b"targets", true),
    (b"writebacks", true),
    (b"policy", true),
    (b"misses", true),
    (b"exclusive", true),
    (b"init", false),
    (b"counter", false),
];

/// What bounds a run. No line that configures sets it.
#[derive(Clone, Copy)]
pub(crate) enum Bound {
    /// How many accesses of a core may be under way.
    Outstanding,
    /// How many deliveries each slice makes after an access.
    Pace,
}

static OUTSTANDING: [(&[u8], bool); 1] = [(b"outstanding", true)];

static PACE: [(&[u8], bool); 1] = [(b"pace", true)];

/// Whether a line that begins with the word configures, or would if it were well formed.
pub(crate) fn is_name(word: &[u8]) -> bool
    ensures { result ≡ is_name word.now }
{
    value_named(&NAMES, word).is_some()
}

/// Whether a setting of this name may vary: a later line of it replaces an earlier one, or it bounds a run.
pub(crate) fn may_vary(name: &[u8]) -> bool
    ensures { result ≡ may_vary name.now }
{
    is_bound(name) || replaces(name)
}

// Whether a later line that begins with the word replaces an earlier one.
fn replaces(word: &[u8]) -> bool
    ensures { result ≡ replaces word.now }
{
    value_named(&NAMES, word).unwrap_or(false)
}

/// Whether a setting of this name bounds a run.
pub(crate) fn is_bound(name: &[u8]) -> bool
    ensures { result ≡ is_bound name.now }
{
    bounds(Bound::Outstanding, name) || bounds(Bound::Pace, name)
}

/// .. in this way.
pub(crate) fn bounds(bound: Bound, name: &[u8]) -> bool
    ensures { result ≡ bounds bound name.now }
{
    match bound {
        Bound::Outstanding => value_named(&OUTSTANDING, name).is_some(),
        Bound::Pace => value_named(&PACE, name).is_some(),
    }
}
