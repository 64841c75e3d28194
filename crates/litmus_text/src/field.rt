ghost use Rattle.std.specs.Prelude.{◌≡◌};

use super::slot::Slot;
use address_map::Config;

/// A number of a machine's shape.
#[derive(Clone, Copy, Debug, PartialEq, Eq)]
pub enum Count {
    Cores,
    Slices,
    Lines,
    Sets,
    Ways,
    Mshrs,
    Targets,
    Writebacks,
}

impl Count {
    ghost use Rattle.litmus_text.specs.Field.{with_count};

    /// Sets this number of a configuration.
    pub(super) fn set(self, config: &mut Config, number: u64)
        ensures { config.new ≡ with_count config.old self number }
    {
        match self {
            Count::Cores => config.cores = number,
            Count::Slices => config.slices = number,
            Count::Lines => config.lines = number,
            Count::Sets => config.sets = number,
            Count::Ways => config.ways = number,
            Count::Mshrs => config.mshrs = number,
            Count::Targets => config.targets = number,
            Count::Writebacks => config.writebacks = number,
        }
    }
}

/// What a line that configures the machine is about.
#[derive(Clone, Copy)]
pub(super) enum Field {
    Count(Count),
    Policy,
    Misses,
    Exclusive,
    Init,
    Counter,
}

/// Each field, by its name.
pub(super) static FIELDS: [(&[u8], Field); 13] = [
    (b"cores", Field::Count(Count::Cores)),
    (b"slices", Field::Count(Count::Slices)),
    (b"lines", Field::Count(Count::Lines)),
    (b"sets", Field::Count(Count::Sets)),
    (b"ways", Field::Count(Count::Ways)),
    (b"mshrs", Field::Count(Count::Mshrs)),
    (b"targets", Field::Count(Count::Targets)),
    (b"writebacks", Field::Count(Count::Writebacks)),
    (b"policy", Field::Policy),
    (b"misses", Field::Misses),
    (b"exclusive", Field::Exclusive),
    (b"init", Field::Init),
    (b"counter", Field::Counter),
];

impl Field {
    /// The slots that follow its name.
    pub(super) const fn slots(self) -> &'static [Slot] {
        match self {
            Field::Count(_) | Field::Counter => &[Slot::Number],
            Field::Policy => &[Slot::Policy],
            Field::Misses => &[Slot::Misses],
            Field::Exclusive => &[Slot::Setting],
            Field::Init => &[Slot::Number, Slot::Number],
        }
    }
}
