//! Quantiles of Student's distribution.
ghost use Rattle.std.specs.Prelude.{◌≡◌, ◌<◌};
ghost use Rattle.program_rows.specs.Quantile.{quantile_of};

/// The 97.5 % quantiles of Student's distribution with 1 to 30 degrees of freedom, in thousandths, rounded up. They were
/// computed to 40 digits from its distribution function (Abramowitz and Stegun, 26.7.3 and 26.7.4), as were those below.
static QUANTILES: [u16; 30] = [
    12_707, 4_303, 3_183, 2_777, 2_571, 2_447, 2_365, 2_307, 2_263, 2_229, 2_201, 2_179, 2_161,
    2_145, 2_132, 2_120, 2_110, 2_101, 2_094, 2_086, 2_080, 2_074, 2_069, 2_064, 2_060, 2_056,
    2_052, 2_049, 2_046, 2_043,
];

/// The 97.5 % quantile of Student's distribution for `degrees` degrees of freedom, in thousandths, or more: beyond 30
/// it is that of 30, 40, 60 or 120 degrees, whichever is the next lower.
pub(crate) fn quantile(degrees: u64) -> u64
    requires { 0 < degrees }
    ensures { result ≡ quantile_of degrees }
{
    match degrees {
        0..=30 => u64::from(QUANTILES[(degrees - 1) as usize]),
        31..=39 => 2_043,
        40..=59 => 2_022,
        60..=119 => 2_001,
        _ => 1_980,
    }
}
