//! One slice of the last level with its private caches, as a pure state machine.
//!
//! [`SliceState`] takes the calls of cores and the deliveries of messages one at a time, in any order. What each call
//! does is said exactly by the definitions of `slice_core_exec`; what holds after every call is in
//! `specs/Facts.antt`: each accepted request is in exactly one target, reply or hand-out; a core's entries of a
//! line are in the log in the order in which it asked for them; each copy that waits has its one miss register; each
//! tag names what was asked for under it; and a core whose miss file is bounded by tags alone waits for no miss
//! register. `specs/Sound.antt` is the invariant that shows it. To an observer of only requests and replies each
//! call is, by its clause `machine`, some steps of the small machine of `slice_core_theory`. [`SliceState::run`] makes
//! a list of calls; by `specs/Run.antt` it returns and leaves what its calls do one after another, and is one run of
//! that machine.
//!
//! What a call would do can be asked before it is made, and that changes nothing and allocates nothing:
//! [`SliceState::decide`] says what an access would be, [`SliceState::plan`] what a delivery would do,
//! [`SliceState::next`] which pick of a class [`SliceState::deliver_next`] would deliver, [`SliceState::waiting`] goes
//! through the picks with a message, and [`SliceState::waiting_at`] through the channels of one line that have one. A
//! call does what was decided: its contract is by the same definitions (`decision_of`, `planned_at`, `next_pick`).
//! [`SliceState::line_view`], [`SliceState::copy`], [`SliceState::targets`], [`SliceState::tag`] and
//! [`SliceState::ring_line`] show what the slice has. [`SliceState::core_lines`] lists the lines of a core that wait,
//! that leave, or that are in one set, and [`SliceState::last_written_back`] names the victim of the last miss.
#![tactic(auto)]

pub use address_map::{Block, CoreId, CoreSet, LineAddr, Local, Op, Request, SliceId, WordAddr};
pub use cache_table::{CacheSends, CopyState};
pub use directory_table::{DirSends, DirState};
pub use run::{Call, CallAnswer};
pub use slice_answer::{
    Cell, Delivered, DeliveredNext, Delivery, Evicted, Issue, Refused, Stall, Stats,
};
pub use slice_core_cache::{AccessKind, Ask, CacheCopy, Placement, TagState};
pub use slice_core_exec::{CoreLines, LineView};
pub use slice_core_spec::{CopyStep, Decision, ForwardedStep, HomeStep, Plan, Transition};
pub use slice_log::{Entry, Numbered};
pub use slice_queues::{
    Class, DataMessage, ForwardedMessage, LineWaiting, Message, Pick, Picks, RequestMessage,
};
pub use state::SliceState;

mod run;
mod state;
