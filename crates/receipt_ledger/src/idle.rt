ghost use Rattle.std.specs.Prelude.{◌≡◌, ◌≤◌, IfOk};
ghost use Rattle.receipt_ledger.specs.Names.{AreLedgersOf};
ghost use Rattle.receipt_ledger.specs.Port.{AreFreshPorts};

use super::blanks::Blanks;
use super::names::SliceNames;
use super::open::cut_ports;
use super::port::Port;
use super::shares::Books;
use address_map::SliceId;
use std::alloc::{AllocError, Global};

impl<N: SliceNames> Port<N> {
    /// Returns a port for each core, ascending, that leads to no slice: the holder of a port for each slice that a
    /// machine may have asks for nothing through those of the slices that it doesn't have.
    pub fn idle_ports(
        alloc: Global,
        cores: usize,
        slice: SliceId,
        blanks: Blanks,
    ) -> Result<Vec<Port<N>>, AllocError>
        requires cores { cores ≡ N.setup.cores }
        requires few { cores ≤ 64 }
        requires number { slice.0 ≡ N.number }
        requires ledgers { AreLedgersOf N.setup N.names blanks }
        ensures { IfOk result (λ v. AreFreshPorts slice cores v.items) }
    {
        let (_books, shares) = Books::open(blanks);
        cut_ports(alloc, cores, slice, shares)
    }
}
