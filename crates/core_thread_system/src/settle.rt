ghost use Rattle.std.specs.Prelude.{◌≡◌, ◌<◌, length, map, IfOk};
ghost use Rattle.core_thread_system.specs.Core.{port_at};
ghost use Rattle.slice_lock.specs.Settled.{AreSettled};

use super::cores::Core;
use super::names::SystemNames;
use super::system::System;
use address_map::SliceId;
use arrayvec::ArrayVec;
use mshr_file::MissFile;
use slice_lock::Unsettled;
use std::sync::Wait;

impl<'a, F: MissFile, M: SystemNames> Core<'a, F, M> {
    /// Settles a slice with the ports of all cores: returns the value of each counter of the slice, ascending by word.
    /// It allocates nothing, and leaves the cores as they were.
    pub fn settle<R: Wait>(
        rt: &R,
        system: &System<F, M>,
        slice: SliceId,
        cores: &mut [Core<'a, F, M>],
    ) -> Result<ArrayVec<u64, 8>, Unsettled>
        requires slice { slice.0 < M.setup.slices }
        requires whole { length cores.old ≡ M.setup.cores }
        ensures settled { IfOk result (λ values. AreSettled M.setup slice.0
            (map (λ c. port_at c slice.0) cores.old) values.items) }
        ensures cores { cores.new ≡ cores.old }
    {
        let _few = system.slices();
        match slice.0 {
            0 => system.slice0().settle::<R, Core<'a, F, M>, 0>(rt, cores),
            1 => system.slice1().settle::<R, Core<'a, F, M>, 1>(rt, cores),
            2 => system.slice2().settle::<R, Core<'a, F, M>, 2>(rt, cores),
            3 => system.slice3().settle::<R, Core<'a, F, M>, 3>(rt, cores),
            _ => unreachable!(),
        }
    }
}
