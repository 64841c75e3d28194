ghost use Rattle.std.specs.Prelude.{◌≡◌};

use receipt_ledger::Blanks;

/// The ledgers of four slices before any type represents them, all with the same number of parts.
#[derive(Drop)]
pub struct SystemBlanks {
    pub slice0: Blanks,
    pub slice1: Blanks,
    pub slice2: Blanks,
    pub slice3: Blanks,
}

impl SystemBlanks {
    /// Creates ledgers for a machine of `cores` cores.
    pub fn new(cores: u64) -> SystemBlanks
        ensures slice0 { result.slice0.parts ≡ cores }
        ensures slice1 { result.slice1.parts ≡ cores }
        ensures slice2 { result.slice2.parts ≡ cores }
        ensures slice3 { result.slice3.parts ≡ cores }
    {
        SystemBlanks {
            slice0: Blanks::new(cores),
            slice1: Blanks::new(cores),
            slice2: Blanks::new(cores),
            slice3: Blanks::new(cores),
        }
    }
}
