use address_map::CoreId;
use arrayvec::ArrayVec;
use cache_table::CopyState;
use directory_table::DirState;

/// What a slice shows of one line: the directory's entry, the home copy, and the state of each core's copy.
#[derive(Debug, Drop)]
pub struct LineView {
    pub dir: DirState,
    pub owner: Option<CoreId>,
    /// Bit c is core c.
    pub sharers: u64,
    pub home: [u64; 8],
    /// By core; I where the core has no copy.
    pub copies: ArrayVec<CopyState, 64>,
}
