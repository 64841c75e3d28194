//! Next deliveries serve the lines in turn.
ghost use Rattle.std.specs.Prelude.{ℕ, ◌≤◌, List, length};
ghost use Rattle.address_map.specs.declared.address.Local.{Local};
ghost use Rattle.slice_answer.specs.declared.answer.Delivery.{Delivery};
ghost use Rattle.slice_core_spec.specs.Calls.{PartsView};
ghost use Rattle.slice_core_spec.specs.Turn.{PassOver, StandsAt};
ghost use Rattle.slice_queues.specs.declared.channel.Class.{Class};
ghost use Rattle.slice_queues.specs.declared.channel.Pick.{Pick};

/// A line with messages that can be moved is passed over by no more next deliveries than lines are in front of it.
pub fn lines_are_served_in_turn()
    ensures { (local : Local) (class : Class) (old : PartsView) (answers : List (Delivery Pick))
        (new : PartsView) (place : ℕ)
        → StandsAt old local place → PassOver local class old answers new → length answers ≤ place }
{}
