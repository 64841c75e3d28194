//! What a row has of a run: its settings, its seed, and the sums of what was counted.
ghost use Rattle.std.specs.Prelude.{◌≡◌};
ghost use Rattle.program_sweep.specs.Row.{row_of};

use address_map::PolicyKind;
use mshr_file::MissKind;
use program_run::Sums;
use program_text::{Limits, Programs};

/// What a row has of a run: its settings, its seed, and the sums of what was counted.
#[derive(Clone, Copy)]
pub(crate) struct Row {
    pub cores: u64,
    pub slices: u64,
    pub lines: u64,
    pub sets: u64,
    pub ways: u64,
    pub mshrs: u64,
    pub targets: u64,
    pub writebacks: u64,
    pub policy: PolicyKind,
    pub misses: MissKind,
    pub exclusive: bool,
    pub limits: Limits,
    pub seed: u64,
    pub sums: Sums,
}

/// Returns the row of a run of the programs that counted `sums`.
pub(crate) fn row_of(programs: &Programs, seed: u64, sums: Sums) -> Row
    ensures { result ≡ row_of programs.now seed sums }
{
    let config = &programs.config;
    Row {
        cores: config.cores() as u64,
        slices: config.slices() as u64,
        lines: config.lines() as u64,
        sets: config.sets() as u64,
        ways: config.ways() as u64,
        mshrs: config.mshrs() as u64,
        targets: config.targets() as u64,
        writebacks: config.writebacks() as u64,
        policy: config.policy(),
        misses: programs.misses,
        exclusive: config.exclusive(),
        limits: programs.limits,
        seed,
        sums,
    }
}
