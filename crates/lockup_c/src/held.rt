ghost use Rattle.std.specs.Prelude.{◌≡◌, IfErr, IfOk};
ghost use Rattle.lockup_c.specs.Calls.{HasNoMachine};
ghost use Rattle.lockup_c.specs.declared.answer.Fault.TheVariants as faults;
ghost use Rattle.lockup_c.specs.declared.held.Held.TheVariants as helds;

use super::answer::Fault;
use super::histories::JudgedHistories;
use simulator::Simulator;
use trace_check::TraceJudge;

/// What a handle may have.
#[derive(Drop)]
pub enum Held {
    Machine(Simulator),
    Trace(TraceJudge),
    Histories(JudgedHistories),
}

impl Held {
    /// Returns the machine.
    pub(crate) fn machine(&self) -> Result<&Simulator, Fault>
        ensures machine { IfOk result (λ simulator. self.now ≡ helds.Machine simulator.now) }
        ensures fault { IfErr result (λ fault. (fault ≡ faults.NoMachine) × HasNoMachine self.now) }
    {
        match self {
            Held::Machine(simulator) => Ok(simulator),
            Held::Trace(_) | Held::Histories(_) => Err(Fault::NoMachine),
        }
    }
}
