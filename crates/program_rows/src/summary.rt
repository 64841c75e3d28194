//! What the numbers of a column come to.
ghost use Rattle.std.specs.Prelude.{◌≤◌, All, IfSome};
ghost use Rattle.program_rows.specs.Figures.{AreAbove, IsSummary};

/// The sums of numbers.
#[derive(Clone, Copy)]
pub(crate) struct Summary {
    /// How many there are.
    pub count: u64,
    pub sum: u128,
    /// The count times the sum of their squares, less the square of their sum.
    pub spread: u128,
}

/// Returns the sums of numbers, unless their squares don't fit 128 bits. To keep them small, the least is taken from
/// each first, which leaves the spread as it is.
pub(crate) fn summarize(numbers: &[u64]) -> Option<Summary>
    ensures { IfSome result (IsSummary numbers.now) }
{
    let least = least_of(numbers);
    let above = sums_above(least, numbers)?;
    let count = numbers.len() as u64;
    let wide = u128::from(count);
    let squares = wide.checked_mul(above.squares)?;
    Some(Summary {
        count,
        sum: wide.checked_mul(u128::from(least))?.checked_add(above.sum)?,
        spread: squares.checked_sub(above.sum.checked_mul(above.sum)?)?,
    })
}

// Returns the least of numbers, or 0 of none.
fn least_of(numbers: &[u64]) -> u64
    ensures { All (λ number. result ≤ number) numbers.now }
{
    numbers.iter().copied().min().unwrap_or(0)
}

/// The sum of how far numbers are above another, and that of the squares.
#[derive(Clone, Copy)]
struct Above {
    sum: u128,
    squares: u128,
}

fn sums_above(least: u64, numbers: &[u64]) -> Option<Above>
    ensures { IfSome result (AreAbove least numbers.now) }
{
    let mut sum: u128 = 0;
    let mut squares: u128 = 0;
    for number in numbers {
        let above = u128::from(number.saturating_sub(least));
        sum = sum.checked_add(above)?;
        squares = squares.checked_add(above.checked_mul(above)?)?;
    }
    Some(Above { sum, squares })
}
