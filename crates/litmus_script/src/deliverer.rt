ghost use Rattle.std.specs.Prelude.{◌≡◌, ℕ, ◌<◌, List, Option, IfErr, IfOk};
ghost use Rattle.address_map.specs.declared.config.Config.{Config};
ghost use Rattle.litmus_script.specs.Play.{IsOfRun};
ghost use Rattle.slice_answer.specs.declared.answer.Delivery.{Delivery};
ghost use Rattle.slice_queues.specs.declared.channel.Pick.{Pick};

use litmus_text::TextFault;
use slice_core::DeliveredNext;
use std::io::Write;

/// Makes a pump's deliveries in the slices of a machine, and may write what each did.
pub trait Deliverer: Sized + Drop {
    ghost config_of: { Self → Config };

    /// What the next delivery of the slice with this number does, by its answer: from the deliverer and the text before
    /// to those after.
    ghost delivers: { Self → ℕ → Delivery Pick → Option (List ℕ) → Option (List ℕ) → Self → Type 0 };

    /// Returns the number of slices.
    fn slices(&self) -> usize
        ensures count { result ≡ (config_of self.now).slices }
        ensures some { 0 < result };

    /// Makes the next delivery of the slice with this number, if one can be made, and writes what is reported of it.
    fn deliver_next<W: Write>(
        &mut self,
        slice: usize,
        out: &mut W,
    ) -> Result<DeliveredNext, TextFault>
        requires { slice < (config_of self.old).slices }
        ensures config { config_of self.new ≡ config_of self.old }
        ensures delivers { IfOk result (λ answer. delivers self.old slice answer (W.contents out.old)
            (W.contents out.new) self.new) }
        ensures fault { IfErr result IsOfRun };
}
