//! What a slice is to an observer of only requests and replies.
//!
//! `specs/SmallMachine.antt` is a small machine that has a log, requests that wait and replies that wait. It accepts
//! requests, performs them one at a time, the oldest of a core on a line first, and hands out replies.
//! `specs/Shows.antt` says what a slice shows of it. Each call of a slice is some steps of the machine: what is done at
//! once is accepted, performed and handed out; what is pending is accepted; a delivery performs as many requests as the
//! log grows by; and `hand` hands out. Any other answer is no step.
//!
//! The functions here do nothing and cost nothing: each has a theorem for its contract.
ghost use Rattle.std.specs.Prelude.{◌<◌, List, [], ◌++◌, length, Option, Result};
ghost use Rattle.address_map.specs.declared.address.CoreId.{CoreId};
ghost use Rattle.address_map.specs.declared.address.LineAddr.{LineAddr};
ghost use Rattle.address_map.specs.declared.address.SliceId.{SliceId};
ghost use Rattle.address_map.specs.declared.config.Config.{Config};
ghost use Rattle.address_map.specs.declared.request.Request.{Request};
ghost use Rattle.mshr_file.specs.Miss.{Bound};
ghost use Rattle.slice_answer.specs.declared.answer.Delivered.{Delivered};
ghost use Rattle.slice_answer.specs.declared.answer.Delivery.{Delivery};
ghost use Rattle.slice_answer.specs.declared.answer.Evicted.{Evicted};
ghost use Rattle.slice_answer.specs.declared.answer.Issue.{Issue};
ghost use Rattle.slice_answer.specs.declared.answer.Refused.{Refused};
ghost use Rattle.slice_core_theory.specs.Whole.{IsWhole};
ghost use Rattle.slice_core_theory.specs.SmallMachine.{IsSame, Step, new_small_machine};
ghost use Rattle.slice_core_theory.specs.Shows.{IsAccounted, Leads, Performs, hand_steps, issue_steps, next_of, small_machine_of};
ghost use Rattle.slice_core_spec.specs.Calls.{AfterDeliverNext, AfterDelivery, AfterEvict, AfterHand, AfterIssue};
ghost use Rattle.slice_core_spec.specs.Calls.{IsNew, PartsView};
ghost use Rattle.slice_core_spec.specs.View.{View};
ghost use Rattle.slice_log.specs.Log.{IsLegal, initially};
ghost use Rattle.slice_log.specs.declared.entry.Numbered.{Numbered};
ghost use Rattle.slice_queues.specs.declared.channel.Class.{Class};
ghost use Rattle.slice_queues.specs.declared.channel.Pick.{Pick};

/// A slice in which nothing was asked for yet shows a machine in which nothing was.
pub fn new_slice_shows_nothing()
    ensures { (config : Config) (bound : Bound) (slice : SliceId) (p : PartsView) → IsNew config bound slice p
        → IsSame new_small_machine (small_machine_of p.view) }
{}

/// A reply that is handed out is handed out by the machine, and where there is none the machine makes no step.
pub fn hand_is_a_step()
    ensures { (old new : PartsView) (core : CoreId) (answer : Option Numbered) → IsAccounted old.view
        → core.0 < length old.view.caches → AfterHand old core answer new
        → Leads (hand_steps answer) old.view new.view }
{}

/// A request that is done at once is accepted, performed and handed out; one that is pending is accepted; and any other
/// answer is no step.
pub fn issue_is_steps()
    ensures { (old new : PartsView) (core : CoreId) (request : Request) (answer : Result Issue Refused)
        → IsAccounted old.view → core.0 < length old.view.caches → IsLegal (initially old.view.init) new.view.log
        → AfterIssue old core request answer new
        → Leads (issue_steps (next_of old.view core request) answer) old.view new.view }
{}

/// An eviction is no step, whatever it returns.
pub fn evict_is_no_step()
    ensures { (old new : PartsView) (core : CoreId) (line : LineAddr) (answer : Evicted)
        → core.0 < length old.view.caches → AfterEvict old core line answer new → Leads [] old.view new.view }
{}

/// A message that is delivered, named or the next of a class, performs as many requests as the log grows by, in the
/// order of their entries; where the log doesn't grow, it is no step.
pub fn deliveries_are_steps()
    ensures named { (old new : PartsView) (pick : Pick) (answer : Delivered) → IsAccounted old.view
        → IsWhole old.view → IsLegal (initially old.view.init) new.view.log → AfterDelivery old pick answer new
        → Performs old.view new.view }
    ensures next { (old new : PartsView) (class : Class) (answer : Delivery Pick) → IsAccounted old.view
        → IsWhole old.view → IsLegal (initially old.view.init) new.view.log → AfterDeliverNext old class answer new
        → Performs old.view new.view }
{}

/// The steps of one call begin where those of the call before ended, so a list of calls is one run of the machine.
pub fn runs_go_on()
    ensures { (u v w : View) (first second : List Step) → Leads first u v → Leads second v w
        → Leads (first ++ second) u w }
{}
