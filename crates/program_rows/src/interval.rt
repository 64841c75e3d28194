//! The mean of numbers, and its confidence interval.
ghost use Rattle.std.specs.Prelude.{◌*◌, ◌<◌, IfSome, length, sum};
ghost use Rattle.program_rows.specs.Figures.{AreFigures, IsHalfWidth, IsNearest, IsLeastRoot, IsRoundedUp};

use super::quantile::quantile;
use super::summary::{Summary, summarize};

/// The mean of numbers and half the width of its 95 % confidence interval, in thousandths.
#[derive(Clone, Copy)]
pub(crate) struct Figures {
    pub mean: u128,
    /// One number has no interval.
    pub half_width: Option<u128>,
}

/// Returns the figures of numbers, unless their squares don't fit 128 bits.
pub(crate) fn figures_of(numbers: &[u64]) -> Option<Figures>
    requires { 0 < length numbers.now }
    ensures { IfSome result (AreFigures numbers.now) }
{
    let summary = summarize(numbers)?;
    let mean = mean_of(&summary)?;
    if summary.count == 1 {
        return Some(Figures {
            mean,
            half_width: None,
        });
    }
    let half_width = half_width_of(&summary, quantile(summary.count - 1))?;
    Some(Figures {
        mean,
        half_width: Some(half_width),
    })
}

// Returns the mean, rounded to the nearest number of thousandths, half up.
fn mean_of(summary: &Summary) -> Option<u128>
    requires { 0 < summary.now.count }
    ensures { IfSome result (IsNearest summary.now.sum summary.now.count) }
{
    let count = u128::from(summary.count);
    let twice = summary.sum.checked_mul(2_000)?.checked_add(count)?;
    Some(twice / (2 * count))
}

// Half the width of the interval with this quantile, rounded up: quantile * sqrt(spread / (count^2 * (count - 1))).
fn half_width_of(summary: &Summary, quantile: u64) -> Option<u128>
    requires { 1 < summary.now.count }
    ensures { IfSome result (IsHalfWidth summary.now.count summary.now.spread quantile) }
{
    let count = u128::from(summary.count);
    let divisor = count.checked_mul(count)?.checked_mul(count - 1)?;
    let factor = u128::from(quantile).checked_mul(u128::from(quantile))?;
    Some(root_up(quotient_up(factor, summary.spread, divisor)?))
}

// Returns a product over a divisor, rounded up. It is divided before it is multiplied, so that more products fit.
fn quotient_up(factor: u128, number: u128, divisor: u128) -> Option<u128>
    requires { 0 < divisor }
    ensures { IfSome result (IsRoundedUp (factor * number) divisor) }
{
    let whole = factor.checked_mul(number / divisor)?;
    let part = factor.checked_mul(number % divisor)?.div_ceil(divisor);
    whole.checked_add(part)
}

// Returns a square root, rounded up.
fn root_up(square: u128) -> u128
    ensures { IsLeastRoot square result }
{
    let root = square.isqrt();
    if root * root == square {
        root
    } else {
        root + 1
    }
}
