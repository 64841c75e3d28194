ghost use Rattle.std.specs.Prelude.{◌≡◌, ◌<◌, IfErr, OnOk, length, map};
ghost use Rattle.drain.specs.Audited.{AreSettledBelow, IsSettledSlice};
ghost use Rattle.drain.specs.Fault.{IsFaultOf};
ghost use Rattle.drain.specs.Valued.{settled_counter, unset_counter, with_slice};
ghost use Rattle.drain.specs.Whole.{AreWhole};

use super::fault::AuditError;
use super::report::CounterValue;
use address_map::{SliceId, is_of_slice};
use core_thread_system::{Core, System, SystemNames};
use mshr_file::MissFile;
use slice_lock::Unsettled;
use std::sync::Wait;

/// Settles each slice with all cores, and sets its counters to the values that they have there. A slice that isn't
/// quiet comes before one that differs.
pub(crate) fn settle_all<'a, F: MissFile, M: SystemNames, R: Wait>(
    rt: &R,
    system: &System<F, M>,
    cores: &mut [Core<'a, F, M>],
    counters: &mut [CounterValue],
) -> Result<(), AuditError>
    requires whole { AreWhole M.setup cores.old }
    requires counters { counters.old ≡ map unset_counter M.setup.counters }
    ensures settled { OnOk result (AreSettledBelow M.setup cores.old M.setup.slices) }
    ensures counters { OnOk result (counters.new ≡ map (settled_counter M.setup cores.old) M.setup.counters) }
    ensures fault { IfErr result (IsFaultOf M.setup cores.old) }
    ensures cores { cores.new ≡ cores.old }
{
    let slices = system.config().slices();
    let mut differs = None;
    for number in 0..slices {
        let slice = SliceId(number as u8);
        match settle_slice(rt, system, slice, cores, counters) {
            Ok(_) => {}
            Err(Unsettled::NotQuiet) => return Err(AuditError::NotQuiet(slice)),
            Err(Unsettled::Differs) => {
                if differs.is_none() {
                    differs = Some(slice);
                }
            }
        }
    }
    match differs {
        Some(slice) => Err(AuditError::Differs(slice)),
        None => Ok(()),
    }
}

// Settles a slice, and sets its counters to the values that they have there.
fn settle_slice<'a, F: MissFile, M: SystemNames, R: Wait>(
    rt: &R,
    system: &System<F, M>,
    slice: SliceId,
    cores: &mut [Core<'a, F, M>],
    counters: &mut [CounterValue],
) -> Result<(), Unsettled>
    requires slice { slice.0 < M.setup.slices }
    requires whole { length cores.old ≡ M.setup.cores }
    requires words { map (λ counter. counter.word) counters.old ≡ M.setup.counters }
    ensures settled { OnOk result (IsSettledSlice M.setup cores.old slice.0) }
    ensures counters { OnOk result (counters.new ≡ map (with_slice M.setup cores.old slice.0) counters.old) }
    ensures words { map (λ counter. counter.word) counters.new ≡ M.setup.counters }
    ensures cores { cores.new ≡ cores.old }
{
    let values = Core::settle(rt, system, slice, cores)?;
    let mut next = 0;
    for place in 0..counters.len() {
        let word = counters[place].word;
        if is_of_slice(system.config(), slice, word) {
            counters[place] = CounterValue {
                word,
                value: values[next],
            };
            next += 1;
        }
    }
    Ok(())
}
