ghost use Rattle.std.specs.Prelude.{◌≡◌};
ghost use Rattle.slice_core_cache.specs.Copy.{may_leave};

use address_map::Block;
use cache_table::CopyState;
use writeback_buffer::Leaving;

/// A core's copy of one line.
#[derive(Clone, Copy, Debug, PartialEq, Eq)]
pub struct CacheCopy {
    pub block: Block,
    pub state: CopyState,
    /// How many acknowledgements the data named, once they have come.
    pub wants: u8,
    /// How many acknowledgements have come since the miss began.
    pub counted: u8,
}

impl CacheCopy {
    ghost use Rattle.std.specs.Prelude.{◌≡◌, List};
    ghost use Rattle.mshr_file.specs.Miss.{is_waited};
    ghost use Rattle.target_list.specs.declared.target.Target.{Target};
    ghost use Rattle.slice_core_cache.specs.Copy.{leaving_copy, missing_copy};
    ghost use Rattle.slice_core_cache.specs.Perform.{asks_to_write, left_in, settled_state};
    ghost use Rattle.slice_core_cache.specs.Steps.{settled_copy};

    /// Returns a copy that has just come into this state by a miss.
    pub fn missing(state: CopyState) -> Self
        ensures { result ≡ missing_copy state }
    {
        CacheCopy {
            block: Block::zero(),
            state,
            wants: 0,
            counted: 0,
        }
    }

    /// The copy has come to its state. A shared copy for which a target still waits asks for the right to write:
    /// returns whether it does. The counts are reset once the copy waits no more.
    pub fn settle(&mut self, waited: bool) -> bool
        ensures asks { (targets : List Target) → waited ≡ is_waited (left_in self.old.state targets)
            → result ≡ asks_to_write self.old.state targets }
        ensures after { (targets : List Target) → waited ≡ is_waited (left_in self.old.state targets)
            → self.new ≡ settled_copy self.old self.old.block
            (settled_state self.old.state (left_in self.old.state targets)) }
    {
        if !self.state.is_waiting() {
            self.wants = 0;
            self.counted = 0;
        }
        let asks = waited && self.state == CopyState::S;
        if asks {
            self.state = CopyState::SM_AD;
        }
        asks
    }

    /// Returns a copy that is in the write-back buffer.
    pub fn leaving(leaving: Leaving) -> Self
        ensures { result ≡ leaving_copy leaving }
    {
        CacheCopy {
            block: leaving.block,
            state: leaving.state,
            wants: 0,
            counted: 0,
        }
    }
}

/// Whether a line in this state may be evicted: it is held, and waits for nothing.
pub const fn may_leave(state: CopyState) -> bool
    ensures { result ≡ may_leave state }
{
    matches!(state, CopyState::S | CopyState::M | CopyState::E)
}
