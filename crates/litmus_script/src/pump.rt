//! Deliveries in one slice after another, round and round.
ghost use Rattle.std.specs.Prelude.{◌≡◌, ◌≤◌, IfErr, IfOk};
ghost use Rattle.litmus_script.specs.Play.{IsOfRun};
ghost use Rattle.litmus_script.specs.Pump.{AreRounds, ComesTo, Pumps, round_after};

use super::answers::Pumped;
use super::calls;
use super::deliverer::Deliverer;
use super::machine::Machine;
use litmus_text::TextFault;
use slice_core::DeliveredNext;
use std::io::Write;

/// The result of a round of deliveries over the slices.
#[derive(Clone, Copy)]
pub(crate) enum Round {
    /// No message waited in any slice.
    Empty,
    /// A message was delivered.
    Moved,
    /// Messages waited, and none could be delivered.
    Stuck,
}

impl Round {
    /// Returns the round with one more slice's answer.
    fn after(self, delivered: DeliveredNext) -> Self
        ensures { result ≡ round_after self delivered }
    {
        match (self, delivered) {
            (_, DeliveredNext::Moved(_)) | (Round::Moved, _) => Round::Moved,
            (round, DeliveredNext::Nothing) => round,
            _ => Round::Stuck,
        }
    }
}

/// Delivers messages, with at most `calls` calls, round and round over the slices.
pub fn pump_slices<D: Deliverer, W: Write>(
    deliverer: &mut D,
    calls: u64,
    out: &mut W,
) -> Result<Pumped, TextFault>
    ensures config { D.config_of deliverer.new ≡ D.config_of deliverer.old }
    ensures pumped { IfOk result (λ pumped. Pumps D.delivers (D.config_of deliverer.old).slices calls pumped
        deliverer.old deliverer.new (W.contents out.old) (W.contents out.new)) }
    ensures fault { IfErr result IsOfRun }
{
    let slices = deliverer.slices();
    match make_rounds(deliverer, calls / slices as u64, out)? {
        Round::Empty => Ok(Pumped::Empty),
        Round::Stuck => Ok(Pumped::Left),
        // the remaining calls are too few for a whole round
        Round::Moved => {
            make_round(deliverer, (calls % slices as u64) as usize, out)?;
            Ok(Pumped::Left)
        }
    }
}

/// Makes `count` rounds over all slices, up to one that moves nothing. Returns the result of the last.
fn make_rounds<D: Deliverer, W: Write>(
    deliverer: &mut D,
    count: u64,
    out: &mut W,
) -> Result<Round, TextFault>
    ensures config { D.config_of deliverer.new ≡ D.config_of deliverer.old }
    ensures made { IfOk result (λ last. AreRounds D.delivers (D.config_of deliverer.old).slices count last
        deliverer.old deliverer.new (W.contents out.old) (W.contents out.new)) }
    ensures fault { IfErr result IsOfRun }
{
    let slices = deliverer.slices();
    for made in 0..count {
        match make_round(deliverer, slices, out)? {
            Round::Moved => {}
            last => return Ok(last),
        }
    }
    Ok(Round::Moved)
}

/// Makes a delivery in each of the first slices, if one can be made.
fn make_round<D: Deliverer, W: Write>(
    deliverer: &mut D,
    count: usize,
    out: &mut W,
) -> Result<Round, TextFault>
    requires { count ≤ (D.config_of deliverer.old).slices }
    ensures config { D.config_of deliverer.new ≡ D.config_of deliverer.old }
    ensures made { IfOk result (λ round. ComesTo D.delivers count round
        deliverer.old deliverer.new (W.contents out.old) (W.contents out.new)) }
    ensures fault { IfErr result IsOfRun }
{
    let mut round = Round::Empty;
    for slice in 0..count {
        let delivered = deliverer.deliver_next(slice, out)?;
        round = round.after(delivered);
    }
    Ok(round)
}

/// A machine writes nothing about its deliveries.
impl Deliverer for Machine {
    ghost use Rattle.std.specs.Prelude.{◌≡◌};
    ghost use Rattle.litmus_script.specs.Pump.{Silently};

    ghost config_of = { λ machine. machine.config };

    ghost delivers = { λ old slice answer before after new. (new.config ≡ old.config)
        × Silently old.slices.items slice answer before after new.slices.items };

    fn slices(&self) -> usize {
        self.config.slices()
    }

    fn deliver_next<W: Write>(
        &mut self,
        slice: usize,
        _out: &mut W,
    ) -> Result<DeliveredNext, TextFault> {
        Ok(calls::deliver_next(&mut self.slices[slice]))
    }
}
