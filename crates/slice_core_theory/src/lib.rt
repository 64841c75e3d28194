//! Why a slice is right: what is so of its value, and stays so whatever call is made.
//!
//! `slice_core_spec` says what each call leaves of a slice's value; three theories say what that keeps.
//!
//! - `standing`: each request that a core had accepted is in exactly one place (specs/Standing.antt).
//! - `coherence`: each line is a line of the protocol's machine (specs/Stands.antt), so what `protocol_coherence` proves
//!   of that is true of the slice (specs/Coherent.antt, specs/Newest.antt).
//! - `machine`: each call is steps of a small machine of requests and replies (specs/SmallMachine.antt, specs/Shows.antt).
//!
//! The functions here do nothing and cost nothing: each has a theorem for its contract.
#![tactic(auto)]

pub use coherence::{
    accesses_keep_lines_reached, accesses_keep_slice_faithful, deliveries_keep_lines_reached,
    deliveries_keep_slice_faithful, each_block_is_newest, new_slice_is_reached,
    no_channel_is_overfull, no_message_is_broken, one_core_writes_or_many_read,
};
pub use machine::{
    deliveries_are_steps, evict_is_no_step, hand_is_a_step, issue_is_steps,
    new_slice_shows_nothing, runs_go_on,
};
pub use standing::{
    accepted_wait_or_are_performed, each_request_stands_once, open_tag_names_one_target,
    tags_name_replies_apart,
};

mod coherence;
mod machine;
mod standing;
