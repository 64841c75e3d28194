ghost use Rattle.std.specs.Prelude.{◌≡◌, ◌<◌, ◌≤◌, IfOk};
ghost use Rattle.receipt_ledger.specs.Booked.{IsTied};
ghost use Rattle.receipt_ledger.specs.Port.{AreFreshPorts};
ghost use Rattle.receipt_ledger.specs.Names.{AreLedgersOf};
ghost use Rattle.receipt_ledger.specs.Totals.{nothing};
ghost use Rattle.slice_core_theory.specs.SmallMachine.{IsSame, new_small_machine};
ghost use Rattle.slice_core_theory.specs.Shows.{small_machine_of};
ghost use Rattle.slice_core_spec.specs.Calls.{IsNew};

use super::blanks::Blanks;
use super::book::Book;
use super::names::SliceNames;
use super::port::Port;
use super::shares::{Books, Shares};
use address_map::{Checked, CoreId, SliceId, counters_of};
use mshr_file::MissFile;
use slice_core::SliceState;
use std::alloc::{AllocError, Global};

impl<N: SliceNames> Book<N> {
    /// Returns a slice of the configured machine in which nothing was requested yet, its book, and a port for each
    /// core, ascending.
    pub fn open<F: MissFile>(
        alloc: Global,
        config: &Checked,
        slice: SliceId,
        blanks: Blanks,
    ) -> Result<(SliceState<F>, Book<N>, Vec<Port<N>>), AllocError>
        requires slice { slice.0 < config.now.slices }
        requires setup { config.now ≡ N.setup }
        requires number { slice.0 ≡ N.number }
        requires ledgers { AreLedgersOf N.setup N.names blanks }
        ensures state { IfOk result (λ r. IsNew config.now (F.bound_by config.now) slice r.0) }
        ensures machine { IfOk result (λ r. IsSame new_small_machine (small_machine_of r.0.view)) }
        ensures tied { IfOk result (λ r. IsTied N.setup N.number r.1 r.0) }
        ensures ports { IfOk result (λ r. AreFreshPorts slice N.setup.cores r.2.items) }
    {
        let state = SliceState::build(alloc, config, slice)?;
        let counters = counters_of(alloc, config, slice)?;
        let (books, shares) = Books::open(blanks);
        let ports = cut_ports(alloc, config.cores(), slice, shares)?;
        Ok((state, Book { books, counters }, ports))
    }
}

// A port for each core, each with one part of a share that has all.
pub(crate) fn cut_ports<N: SliceNames>(
    alloc: Global,
    cores: usize,
    slice: SliceId,
    shares: Shares<N>,
) -> Result<Vec<Port<N>>, AllocError>
    requires cores { cores ≡ N.setup.cores }
    requires few { cores ≤ 64 }
    requires number { slice.0 ≡ N.number }
    requires parts { shares.parts ≡ cores }
    requires nothing { shares.held ≡ nothing }
    ensures { IfOk result (λ v. AreFreshPorts slice cores v.items) }
{
    let mut shares = shares;
    let mut ports = Vec::new(alloc);
    for core in 0..cores {
        let part = shares.split_part();
        ports.push(Port::fresh(alloc, CoreId(core as u8), slice, part))?;
    }
    Ok(ports)
}
