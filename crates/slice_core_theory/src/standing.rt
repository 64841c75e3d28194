//! One core's requests: each that was accepted is in exactly one place, as a target of a miss register or as an
//! entry of the log, and its tags name these.
//!
//! The definitions are in specs/Standing.antt (`IsAccount` is all of them together). An account
//! holds at first (proofs/Begins.antt) and is kept by each kind of step: a hit, a target that is added, targets that
//! are performed, a reply that is handed out, and whatever other cores perform (proofs/Hit.antt, Added.antt,
//! Settled.antt, Handed.antt, Grown.antt). A log that was ordered stays so (Hit.antt, Ordered.antt). The functions here
//! do nothing and cost nothing: their contracts say what follows from an account.
ghost use Rattle.slice_core_theory.specs.Laws.{AcceptedIsAll, EachStandsOnce, OpenTagNamesOne, RepliesApart};

/// Does nothing. Its contract says that each request that a core had accepted is in one place, and no other is
/// anywhere.
pub const fn each_request_stands_once()
    ensures { EachStandsOnce }
{}

/// Does nothing. Its contract says that the requests accepted are as many as those that wait and those performed.
#[tactic(auto, using(crate::proofs::Laws::accepted_is_all))]
pub const fn accepted_wait_or_are_performed()
    ensures { AcceptedIsAll }
{}

/// Does nothing. Its contract says that an open tag is that of exactly one target, and any other tag of none.
#[tactic(auto, using(crate::proofs::Laws::open_tag_names_one))]
pub const fn open_tag_names_one_target()
    ensures { OpenTagNamesOne }
{}

/// Does nothing. Its contract says that no two tags name one reply.
#[tactic(auto, using(crate::proofs::Laws::replies_are_apart))]
pub const fn tags_name_replies_apart()
    ensures { RepliesApart }
{}
