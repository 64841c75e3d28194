//! What a step doesn't give.
ghost use Rattle.std.specs.Prelude.{◌≡◌, ℕ, List, Option, Some};
ghost use Rattle.address_map.specs.declared.config.Config.{Config};
ghost use Rattle.litmus_script.specs.Machine.{OneSlice};
ghost use Rattle.litmus_text.specs.Command.{IsInRange};
ghost use Rattle.litmus_text.specs.declared.command.Command.{Command};
ghost use Rattle.litmus_text.specs.declared.command.Command.TheVariants as commands;
ghost use Rattle.script_explained.specs.Step.{MakesNext, MakesStep};
ghost use Rattle.script_explained.specs.declared.step.DeliveryStep.{DeliveryStep};
ghost use Rattle.script_explained.specs.declared.step.Step.{Step};
ghost use Rattle.script_page.specs.Rest.{AreSlices, KeepsRest, LeavesRest};
ghost use Rattle.script_page.specs.Scope.{scope_of};
ghost use Rattle.script_page.specs.declared.scope.Scope.{Scope};
ghost use Rattle.slice_answer.specs.declared.answer.Delivery.TheVariants as deliveries;
ghost use Rattle.slice_core_spec.specs.Calls.{PartsView};
ghost use Rattle.slice_queues.specs.declared.channel.Pick.{Pick};

/// What the step of a command doesn't give is as it was, and so is what the step of a pump's delivery doesn't give: so
/// what was given last of a line and of a core's copy is what the machine has.
pub fn what_is_not_given_stays()
    ensures commands { (config : Config) (command : Command) (old new : List PartsView) (step : Step)
        → AreSlices config old → IsInRange config command → MakesStep config command old new step
        → KeepsRest (scope_of config command) old new }
    ensures deliveries { (config : Config) (slice : ℕ) (pick : Pick) (scope : Scope) (old new : List PartsView)
        (made : Option DeliveryStep) → AreSlices config old
        → OneSlice slice (MakesNext slice (deliveries.Moved pick) made) old new
        → scope_of config (commands.Deliver pick) ≡ Some scope
        → OneSlice slice (λ before after. LeavesRest scope before.view after.view) old new }
{}
