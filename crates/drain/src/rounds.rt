ghost use Rattle.std.specs.Prelude.{◌≡◌, ◌≤◌};
ghost use Rattle.drain.specs.Drained.{HaveMadeNothing};

use super::report::Drain;
use address_map::SliceId;
use core_thread_system::{Core, System, SystemNames};
use mshr_file::MissFile;
use std::sync::Wait;

/// Makes rounds, at most `limit`, until each slice is quiet: in a round each core takes a turn. It looks before the
/// first round too. The cores ask for nothing meanwhile.
pub fn drain<F: MissFile, M: SystemNames, R: Wait>(
    rt: &R,
    system: &System<F, M>,
    cores: &mut [Core<'_, F, M>],
    limit: u64,
) -> Drain
    ensures { HaveMadeNothing M.setup cores.old cores.new }
{
    let _few = system.config();
    for _round in 0..limit {
        if is_quiet(rt, system) {
            return Drain::Drained;
        }
        turn_each(rt, cores);
    }
    if is_quiet(rt, system) {
        Drain::Drained
    } else {
        Drain::Stuck
    }
}

// Whether each slice is quiet, one looked at after the other.
fn is_quiet<F: MissFile, M: SystemNames, R: Wait>(rt: &R, system: &System<F, M>) -> bool {
    for slice in 0..system.config().slices() {
        if !system.quiet(rt, SliceId(slice as u8)) {
            return false;
        }
    }
    true
}

// Lets each core take a turn.
fn turn_each<F: MissFile, M: SystemNames, R: Wait>(rt: &R, cores: &mut [Core<'_, F, M>])
    requires { M.setup.slices ≤ 4 }
    ensures { HaveMadeNothing M.setup cores.old cores.new }
{
    for place in 0..cores.len() {
        let _received = cores[place].turn(rt);
    }
}
