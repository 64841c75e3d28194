ghost use Rattle.std.specs.Prelude.{◌≡◌};
ghost use Rattle.litmus_test.specs.Forbid.{holds, is_forbidden, matches};

use crate::{Forbidden, LitmusTest, Pair};

/// Whether an outcome matches a forbid line of the test.
pub fn is_forbidden(test: &LitmusTest<'_>, values: &[u64]) -> bool
    ensures { result ≡ is_forbidden test.now values.now }
{
    test.forbidden.iter().any(|line| matches(line, values))
}

// Whether all pairs of a line hold.
fn matches(line: &Forbidden, values: &[u64]) -> bool
    ensures { result ≡ matches values.now line.now }
{
    line.pairs.iter().all(|pair| holds(*pair, values))
}

fn holds(pair: Pair, values: &[u64]) -> bool
    ensures { result ≡ holds values.now pair }
{
    match values.get(pair.name) {
        Some(value) => *value == pair.value,
        None => false,
    }
}
