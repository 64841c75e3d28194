//! Why a slice is coherent: each of its lines is a line of the protocol's machine.
//!
//! `protocol_coherence` proves of one line under the two tables what any run of its machine reaches.
//! `slice_core_spec` says what each call of a slice leaves of its value. This crate ties them: `specs/Stands.antt` says
//! when a line of a slice is a line of the machine, part by part, and `AreReached` that each line of the slice is one
//! that the machine reaches; `specs/Blocks.antt` says the same of the blocks, where the newest block has what the log
//! gives. A new slice is so, and each call keeps it, for each is some steps of the machine on one line, or on two where
//! a victim leaves. So what is true of the machine is true of the slice (`specs/Coherent.antt`, `specs/Newest.antt`).
//!
//! The functions here do nothing and cost nothing: each has a theorem for its contract. `specs/Whole.antt` is what they
//! rely on besides, which is known of a slice between two calls.
ghost use Rattle.std.specs.Prelude.{◌≢◌, ◌<◌, ◌≤◌, length, Option, Result};
ghost use Rattle.address_map.specs.Locator.{IsOfMachine};
ghost use Rattle.address_map.specs.declared.address.CoreId.{CoreId};
ghost use Rattle.address_map.specs.declared.address.LineAddr.{LineAddr};
ghost use Rattle.address_map.specs.declared.address.Local.{Local};
ghost use Rattle.address_map.specs.declared.address.SliceId.{SliceId};
ghost use Rattle.address_map.specs.declared.config.Config.{Config};
ghost use Rattle.address_map.specs.declared.request.Request.{Request};
ghost use Rattle.mshr_file.specs.Miss.{Bound};
ghost use Rattle.slice_answer.specs.declared.answer.Cell.{Cell};
ghost use Rattle.slice_answer.specs.declared.answer.Delivered.TheVariants as delivered;
ghost use Rattle.slice_answer.specs.declared.answer.Delivered.{Delivered};
ghost use Rattle.slice_answer.specs.declared.answer.Delivery.TheVariants as deliveries;
ghost use Rattle.slice_answer.specs.declared.answer.Delivery.{Delivery};
ghost use Rattle.slice_answer.specs.declared.answer.Evicted.{Evicted};
ghost use Rattle.slice_answer.specs.declared.answer.Issue.{Issue};
ghost use Rattle.slice_answer.specs.declared.answer.Refused.{Refused};
ghost use Rattle.slice_core_theory.specs.Blocks.{IsNewest};
ghost use Rattle.slice_core_theory.specs.Coherent.{HasBoundedChannels, HasOneWriter, NothingIsBroken};
ghost use Rattle.slice_core_theory.specs.Coherent.{WaitsForMisses};
ghost use Rattle.slice_core_theory.specs.Newest.{HasNewest, IsFaithful};
ghost use Rattle.slice_core_theory.specs.Stands.{AreReached};
ghost use Rattle.slice_core_theory.specs.Whole.{IsAddressed, IsWhole};
ghost use Rattle.slice_core_spec.specs.Calls.{AfterDeliverNext, AfterDelivery, AfterEvict, AfterHand, AfterIssue};
ghost use Rattle.slice_core_spec.specs.Calls.{IsNew, PartsView};
ghost use Rattle.slice_core_spec.specs.View.{IsQuiet, View, newest_block};
ghost use Rattle.slice_log.specs.declared.entry.Numbered.{Numbered};
ghost use Rattle.slice_queues.specs.declared.channel.Class.{Class};
ghost use Rattle.slice_queues.specs.declared.channel.Pick.{Pick};

/// In a slice in which nothing was asked for yet, each line is one that the machine reaches, blocks and all, and the
/// log is legal.
pub fn new_slice_is_reached()
    ensures reached { (config : Config) (bound : Bound) (slice : SliceId) (p : PartsView) → IsNew config bound slice p
        → AreReached p.view }
    ensures faithful { (config : Config) (bound : Bound) (slice : SliceId) (p : PartsView) → IsNew config bound slice p
        → IsOfMachine p.view.lines → IsFaithful p.view }
{}

/// Whatever a core asks for, evicts or is handed, each line stays one that the machine reaches.
pub fn accesses_keep_lines_reached()
    ensures issue { (old new : PartsView) (core : CoreId) (request : Request) (answer : Result Issue Refused)
        → IsWhole old.view → core.0 < length old.view.caches → AreReached old.view
        → AfterIssue old core request answer new → AreReached new.view }
    ensures evict { (old new : PartsView) (core : CoreId) (line : LineAddr) (answer : Evicted) → IsWhole old.view
        → core.0 < length old.view.caches → AreReached old.view → AfterEvict old core line answer new
        → AreReached new.view }
    ensures hand { (old new : PartsView) (core : CoreId) (answer : Option Numbered) → core.0 < length old.view.caches
        → AreReached old.view → AfterHand old core answer new → AreReached new.view }
{}

/// Whatever message is delivered, named or the next of a class, each line stays one that the machine reaches.
pub fn deliveries_keep_lines_reached()
    ensures named { (old new : PartsView) (pick : Pick) (answer : Delivered) → IsWhole old.view → AreReached old.view
        → AfterDelivery old pick answer new → AreReached new.view }
    ensures next { (old new : PartsView) (class : Class) (answer : Delivery Pick) → IsWhole old.view
        → AreReached old.view → AfterDeliverNext old class answer new → AreReached new.view }
{}

/// Whatever a core asks for, evicts or is handed, the blocks of the lines stay the machine's too, and the log legal.
pub fn accesses_keep_slice_faithful()
    ensures issue { (old new : PartsView) (core : CoreId) (request : Request) (answer : Result Issue Refused)
        → IsWhole old.view → IsAddressed old.view → core.0 < length old.view.caches → IsFaithful old.view
        → AfterIssue old core request answer new → IsFaithful new.view }
    ensures evict { (old new : PartsView) (core : CoreId) (line : LineAddr) (answer : Evicted) → IsWhole old.view
        → IsAddressed old.view → core.0 < length old.view.caches → IsFaithful old.view
        → AfterEvict old core line answer new → IsFaithful new.view }
    ensures hand { (old new : PartsView) (core : CoreId) (answer : Option Numbered) → core.0 < length old.view.caches
        → IsFaithful old.view → AfterHand old core answer new → IsFaithful new.view }
{}

/// Whatever message is delivered, the blocks of the lines stay the machine's too, and the log legal.
pub fn deliveries_keep_slice_faithful()
    ensures named { (old new : PartsView) (pick : Pick) (answer : Delivered) → IsWhole old.view
        → IsAddressed old.view → IsFaithful old.view → AfterDelivery old pick answer new → IsFaithful new.view }
    ensures next { (old new : PartsView) (class : Class) (answer : Delivery Pick) → IsWhole old.view
        → IsAddressed old.view → IsFaithful old.view → AfterDeliverNext old class answer new → IsFaithful new.view }
{}

/// Where each line is one that the machine reaches and one core may write it, no other core may read it.
pub fn one_core_writes_or_many_read()
    ensures { (v : View) → length v.caches ≤ 64 → AreReached v → HasOneWriter v }
{}

/// Where each line is one that the machine reaches, no message is broken, and no delivery returns that one is.
pub fn no_message_is_broken()
    ensures message { (v : View) → IsWhole v → 0 < length v.caches → AreReached v → NothingIsBroken v }
    ensures named { (old new : PartsView) (pick : Pick) (answer : Delivered) (cell : Cell) → NothingIsBroken old.view
        → AfterDelivery old pick answer new → answer ≢ delivered.Broken cell }
    ensures next { (old new : PartsView) (class : Class) (answer : Delivery Pick) (cell : Cell)
        → NothingIsBroken old.view → AfterDeliverNext old class answer new → answer ≢ deliveries.Broken cell }
{}

/// Where each line is one that the machine reaches, no channel has more messages than it takes, and what waits there is
/// of the slice's cores.
pub fn no_channel_is_overfull()
    ensures { (v : View) → IsWhole v → 0 < length v.caches → AreReached v → HasBoundedChannels v }
{}

/// Each copy that may be read, and the home copy while no core has the only one, has what was last performed. Once the
/// slice is quiet, so has the block that the directory's entry points to.
pub fn each_block_is_newest()
    ensures reached { (v : View) → IsFaithful v → AreReached v }
    ensures newest { (v : View) → 0 < length v.caches → length v.caches ≤ 64 → IsFaithful v → HasNewest v }
    ensures quiet { (v : View) (local : Local) → IsWhole v → 0 < length v.caches → WaitsForMisses v → IsFaithful v
        → IsQuiet v → local.0 < v.lines.lines → IsNewest v local (newest_block v local) }
{}
