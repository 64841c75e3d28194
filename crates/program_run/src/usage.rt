//! What cores' accesses under way take up.
ghost use Rattle.std.specs.Prelude.{◌≡◌, ◌<◌};
ghost use Rattle.program_run.specs.Usage.{hundredths_of, measured, no_usage, usage_of_all, usages_together, whole_of};

/// How many miss registers and targets of a core were in use after each move: the most, and the sum over the moves. A
/// number stops at 2^64 - 1.
#[derive(Clone, Copy)]
pub struct Usage {
    pub moves: u64,
    pub most_registers: u64,
    pub sum_registers: u64,
    pub most_targets: u64,
    pub sum_targets: u64,
}

impl Usage {
    /// Nothing was measured.
    pub fn none() -> Self
        ensures { result ≡ no_usage }
    {
        Usage {
            moves: 0,
            most_registers: 0,
            sum_registers: 0,
            most_targets: 0,
            sum_targets: 0,
        }
    }

    /// Returns the usage after one more move, with `registers` and `targets` in use.
    pub fn measured(self, registers: u64, targets: u64) -> Self
        ensures { result ≡ measured registers targets self }
    {
        Usage {
            moves: self.moves.saturating_add(1),
            most_registers: self.most_registers.max(registers),
            sum_registers: self.sum_registers.saturating_add(registers),
            most_targets: self.most_targets.max(targets),
            sum_targets: self.sum_targets.saturating_add(targets),
        }
    }

    /// Returns what is in use of two cores of one run: the most of either, and the sums of both.
    fn with(self, other: Usage) -> Self
        ensures { result ≡ usages_together self other }
    {
        Usage {
            moves: self.moves.max(other.moves),
            most_registers: self.most_registers.max(other.most_registers),
            sum_registers: self.sum_registers.saturating_add(other.sum_registers),
            most_targets: self.most_targets.max(other.most_targets),
            sum_targets: self.sum_targets.saturating_add(other.sum_targets),
        }
    }
}

/// Returns what is in use of all cores of a run.
pub(crate) fn usage_of_all(usages: &[Usage]) -> Usage
    ensures { result ≡ usage_of_all no_usage usages.now }
{
    let mut all = Usage::none();
    for usage in usages {
        all = all.with(*usage);
    }
    all
}

/// Returns the whole part of a mean: 0 if nothing was measured.
pub(crate) fn whole_of(sum: u64, moves: u64) -> u64
    ensures { result ≡ whole_of sum moves }
{
    if moves == 0 { 0 } else { sum / moves }
}

/// Returns the hundredths of a mean, which are cut off after the second place.
pub(crate) fn hundredths_of(sum: u64, moves: u64) -> u64
    ensures hundredths { result ≡ hundredths_of sum moves }
    ensures few { result < 100 }
{
    if moves == 0 {
        return 0;
    }
    let rest = u128::from(sum % moves);
    (rest * 100 / u128::from(moves)) as u64
}
