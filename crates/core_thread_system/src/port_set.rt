ghost use Rattle.std.specs.Prelude.{◌≡◌, ◌<◌, ◌≤◌, IfOk};
ghost use Rattle.core_thread_system.specs.Core.{AreFreshSets};
ghost use Rattle.receipt_ledger.specs.Port.{AreFreshPorts};

use super::names::SystemNames;
use address_map::CoreId;
use receipt_ledger::Port;
use std::alloc::{AllocFailed, Global};
use std::marker::Model;

/// What a core needs to ask a system: its number, and its port of each of the slices 0 to 3. Contracts see a `SetView`.
#[derive(Drop)]
pub struct PortSet<M: SystemNames> {
    pub(crate) core: CoreId,
    pub(crate) port0: Port<M::S0>,
    pub(crate) port1: Port<M::S1>,
    pub(crate) port2: Port<M::S2>,
    pub(crate) port3: Port<M::S3>,
}

impl<M: SystemNames> Model for PortSet<M> {
    ghost use Rattle.core_thread_system.specs.Core.{SetView};

    ghost Value = { SetView };

    ghost view = { λ s. record { core = s.core; p0 = s.port0; p1 = s.port1; p2 = s.port2; p3 = s.port3 } };

    ghost use Rattle.std.specs.Prelude.{◌<◌};

    ghost invariant = { λ s. s.core.0 < M.setup.cores };
}

impl<M: SystemNames> PortSet<M> {
    /// Returns the core whose ports they are.
    pub fn core(&self) -> CoreId
        ensures core { result ≡ self.now.core }
        ensures known { result.0 < M.setup.cores }
    {
        self.core
    }
}

/// Deals the ports of the four slices out to the cores.
pub(crate) fn deal<M: SystemNames>(
    alloc: Global,
    cores: usize,
    ports0: Vec<Port<M::S0>>,
    ports1: Vec<Port<M::S1>>,
    ports2: Vec<Port<M::S2>>,
    ports3: Vec<Port<M::S3>>,
) -> Result<Vec<PortSet<M>>, AllocFailed<PortSet<M>>>
    requires few { cores ≤ 64 }
    requires known { cores ≤ M.setup.cores }
    requires ports0 { AreFreshPorts (record { 0 = 0 }) cores ports0.items }
    requires ports1 { AreFreshPorts (record { 0 = 1 }) cores ports1.items }
    requires ports2 { AreFreshPorts (record { 0 = 2 }) cores ports2.items }
    requires ports3 { AreFreshPorts (record { 0 = 3 }) cores ports3.items }
    ensures { IfOk result (λ v. AreFreshSets cores v.items) }
{
    let (mut ports0, mut ports1, mut ports2, mut ports3) = (ports0, ports1, ports2, ports3);
    let mut sets = Vec::new(alloc);
    for core in 0..cores {
        sets.push(PortSet {
            core: CoreId(core as u8),
            port0: ports0.remove(0),
            port1: ports1.remove(0),
            port2: ports2.remove(0),
            port3: ports3.remove(0),
        })?;
    }
    Ok(sets)
}
