ghost use Rattle.std.specs.Prelude.{◌<◌, ◌≤◌};

use crate::MOST_ACCESSES;

/// A workload.
#[derive(Clone, Copy, Debug, PartialEq, Eq)]
pub enum Workload {
    Matmul,
    Histogram,
    Ring,
    Lock,
    Chase,
    Uniform,
    Zipf,
    Stencil,
}

/// How large it is, for how many cores, and what is drawn at random by this seed.
#[derive(Clone, Copy, Debug, PartialEq, Eq)]
pub struct Size {
    pub cores: u64,
    pub size: u64,
    pub seed: u64,
}

impl Workload {
    /// Returns the workload of this name.
    pub fn named(name: &str) -> Option<Workload> {
        match name {
            "matmul" => Some(Workload::Matmul),
            "histogram" => Some(Workload::Histogram),
            "ring" => Some(Workload::Ring),
            "lock" => Some(Workload::Lock),
            "chase" => Some(Workload::Chase),
            "uniform" => Some(Workload::Uniform),
            "zipf" => Some(Workload::Zipf),
            "stencil" => Some(Workload::Stencil),
            _ => None,
        }
    }

    /// The largest size that it may have for this number of cores, by the lines that it takes and by the accesses that a text
    /// may have.
    pub(crate) fn most(self, cores: u64) -> u64
        requires some { 0 < cores }
        requires few { cores ≤ 64 }
    {
        let accesses = MOST_ACCESSES as u64;
        match self {
            Workload::Matmul | Workload::Stencil => 64,
            Workload::Histogram => 4_096,
            Workload::Chase => (accesses / cores).min(65_536),
            Workload::Uniform | Workload::Zipf => accesses / cores,
            Workload::Ring => accesses / (3 * cores),
            Workload::Lock => accesses / (4 * cores),
        }
    }
}
