use address_map::{Block, Local};
use cache_table::CopyState;

/// What leaves: a copy's block and its state.
#[derive(Clone, Copy, Debug, PartialEq, Eq)]
pub struct Leaving {
    pub block: Block,
    pub state: CopyState,
}

/// A line that is being written back.
#[derive(Clone, Copy, Debug, PartialEq, Eq)]
pub struct PendingWriteBack {
    pub leaving: Leaving,
    pub line: Local,
}

/// What a place has that no line was put in.
impl Default for PendingWriteBack {
    fn default() -> Self {
        let leaving = Leaving {
            block: Block::zero(),
            state: CopyState::I,
        };
        PendingWriteBack {
            leaving,
            line: Local(0),
        }
    }
}
