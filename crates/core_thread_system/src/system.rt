ghost use Rattle.std.specs.Prelude.{◌≡◌, ◌+◌, ◌<◌, ◌≤◌, ◌%◌, is_some, IfOk, IfErr, OnOk};
ghost use Rattle.address_map.specs.Config.{IsAllowed, word_count};
ghost use Rattle.address_map.specs.Place.{slice_of};
ghost use Rattle.core_thread_system.specs.Core.{AreFreshSets};
ghost use Rattle.core_thread_system.specs.Error.{IsAccepted, IsFaultOf};
ghost use Rattle.core_thread_system.specs.System.{IsPlaced};
ghost use Rattle.receipt_ledger.specs.Names.{AreLedgersOf};
ghost use Rattle.slice_core.specs.Facts.{IsNotBrokenNext};

use super::blanks::SystemBlanks;
use super::error::BuildError;
use super::names::SystemNames;
use super::port_set::{PortSet, deal};
use address_map::{Checked, Config, LineAddr, SliceId, slice_of};
use mshr_file::MissFile;
use receipt_ledger::{Blanks, Port, SliceNames};
use slice_answer::DeliveredNext;
use slice_lock::Slice;
use slice_queues::Class;
use std::alloc::{AllocError, Global};
use std::marker::Model;
use std::sync::Wait;

/// A machine of one, two or four slices, each behind a lock of its own. Contracts see its configuration.
#[derive(Drop)]
pub struct System<F: MissFile, M: SystemNames> {
    config: Checked,
    slice0: Slice<F, M::S0>,
    slice1: Option<Slice<F, M::S1>>,
    slice2: Option<Slice<F, M::S2>>,
    slice3: Option<Slice<F, M::S3>>,
}

impl<F: MissFile, M: SystemNames> Model for System<F, M> {
    ghost use Rattle.std.specs.Prelude.{is_some};
    ghost use Rattle.address_map.specs.declared.config.Config.{Config};
    ghost use Rattle.core_thread_system.specs.System.{IsSystem};

    ghost Value = { Config };

    ghost view = { λ s. s.config };

    ghost invariant = { λ s. IsSystem M.setup s.config (is_some s.slice1) (is_some s.slice2) (is_some s.slice3) };
}

// Does something with the slice of a number.
macro_rules! at_slice {
    ($system:expr, $slice:expr, |$at:ident| $body:expr) => {{
        let _few = $system.slices();
        match $slice.0 {
            0 => {
                let $at = $system.slice0();
                $body
            }
            1 => {
                let $at = $system.slice1();
                $body
            }
            2 => {
                let $at = $system.slice2();
                $body
            }
            3 => {
                let $at = $system.slice3();
                $body
            }
            _ => unreachable!(),
        }
    }};
}

impl<F: MissFile, M: SystemNames> System<F, M> {
    /// Returns a system in which nothing was requested yet, and the ports of each core, ascending. Where the
    /// configuration is refused or an allocation fails nothing is left.
    pub fn build(
        alloc: Global,
        config: Config,
        blanks: SystemBlanks,
    ) -> Result<(System<F, M>, Vec<PortSet<M>>), BuildError>
        requires setup { config ≡ M.setup }
        requires ledgers0 { AreLedgersOf M.S0.setup M.S0.names blanks.slice0 }
        requires ledgers1 { AreLedgersOf M.S1.setup M.S1.names blanks.slice1 }
        requires ledgers2 { AreLedgersOf M.S2.setup M.S2.names blanks.slice2 }
        requires ledgers3 { AreLedgersOf M.S3.setup M.S3.names blanks.slice3 }
        ensures refused { IfErr result (IsFaultOf config) }
        ensures accepted { OnOk result (IsAccepted config) }
        ensures sets { IfOk result (λ r. AreFreshSets config.cores r.1.items) }
    {
        match checked(config) {
            Ok(config) => Ok(System::build_checked(alloc, config, blanks)?),
            Err(error) => {
                // In one call: dropped where they are they would be forty ledgers, each with a proof of its own.
                drop(blanks);
                Err(error)
            }
        }
    }

    /// The same for a configuration that was checked: only an allocation can fail.
    pub fn build_checked(
        alloc: Global,
        config: Checked,
        blanks: SystemBlanks,
    ) -> Result<(System<F, M>, Vec<PortSet<M>>), AllocError>
        requires setup { config ≡ M.setup }
        requires ledgers0 { AreLedgersOf M.S0.setup M.S0.names blanks.slice0 }
        requires ledgers1 { AreLedgersOf M.S1.setup M.S1.names blanks.slice1 }
        requires ledgers2 { AreLedgersOf M.S2.setup M.S2.names blanks.slice2 }
        requires ledgers3 { AreLedgersOf M.S3.setup M.S3.names blanks.slice3 }
        ensures sets { IfOk result (λ r. AreFreshSets config.cores r.1.items) }
    {
        // The ledgers that no slice takes are dropped in one call, as above.
        let Ok((slice0, ports0)) = Slice::build(alloc, &config, SliceId(0), blanks.slice0) else {
            drop((blanks.slice1, blanks.slice2, blanks.slice3));
            return Err(AllocError);
        };
        let later = LaterSlices::<F, M>::build(
            alloc,
            &config,
            blanks.slice1,
            blanks.slice2,
            blanks.slice3,
        )?;
        let sets = deal(
            alloc,
            config.cores(),
            ports0,
            later.ports1,
            later.ports2,
            later.ports3,
        )?;
        let system = System {
            config,
            slice0,
            slice1: later.slice1,
            slice2: later.slice2,
            slice3: later.slice3,
        };
        Ok((system, sets))
    }

    /// Returns the configuration that it was built from.
    pub fn config(&self) -> &Checked
        ensures config { result.now ≡ self.now }
        ensures named { result.now ≡ M.setup }
        ensures allowed { IsAllowed result.now }
    {
        let _allowed = self.config.slices();
        &self.config
    }

    /// Returns how many slices there are.
    pub(crate) fn slices(&self) -> usize
        ensures slices { result ≡ M.setup.slices }
        ensures some { 1 ≤ result }
        ensures few { result ≤ 4 }
    {
        self.config.slices()
    }

    /// Returns how many words the memory has.
    pub(crate) fn words(&self) -> u64
        ensures { result ≡ word_count M.setup }
    {
        8 * self.config.lines() as u64
    }

    /// Returns the slice that has a line.
    pub(crate) fn slice_of(&self, line: LineAddr) -> SliceId
        ensures slice { result ≡ slice_of M.setup line }
        ensures configured { result.0 < M.setup.slices }
    {
        slice_of(&self.config, line)
    }

    /// Returns the number of the slice after this one; after the last comes slice 0.
    pub(crate) fn after(&self, slice: SliceId) -> u8
        requires { slice.0 < M.setup.slices }
        ensures { result ≡ (slice.0 + 1) % M.setup.slices }
    {
        ((usize::from(slice.0) + 1) % self.config.slices()) as u8
    }

    /// Makes one delivery of the class in a slice, where one can be made.
    pub fn deliver_next<R: Wait>(&self, rt: &R, slice: SliceId, class: Class) -> DeliveredNext
        requires { slice.0 < M.setup.slices }
        ensures { IsNotBrokenNext result }
    {
        at_slice!(self, slice, |at| at.deliver_next(rt, class))
    }

    /// Whether in a slice no message is in flight, no miss register is held, no write-back is pending and each reply is
    /// handed out.
    pub fn quiet<R: Wait>(&self, rt: &R, slice: SliceId) -> bool
        requires { slice.0 < M.setup.slices }
    {
        at_slice!(self, slice, |at| at.quiet(rt))
    }

    /// Slice 0, which each machine has.
    pub(crate) fn slice0(&self) -> &Slice<F, M::S0> {
        &self.slice0
    }

    /// Slice 1 of a machine that has more than one.
    pub(crate) fn slice1(&self) -> &Slice<F, M::S1>
        requires { 1 < M.setup.slices }
    {
        match &self.slice1 {
            Some(slice) => slice,
            None => unreachable!(),
        }
    }

    /// Slice 2 of a machine that has more than two.
    pub(crate) fn slice2(&self) -> &Slice<F, M::S2>
        requires { 2 < M.setup.slices }
    {
        match &self.slice2 {
            Some(slice) => slice,
            None => unreachable!(),
        }
    }

    /// Slice 3 of a machine that has four.
    pub(crate) fn slice3(&self) -> &Slice<F, M::S3>
        requires { 3 < M.setup.slices }
    {
        match &self.slice3 {
            Some(slice) => slice,
            None => unreachable!(),
        }
    }
}

// The configuration as one that was checked.
fn checked(config: Config) -> Result<Checked, BuildError>
    ensures refused { IfErr result (IsFaultOf config) }
    ensures accepted { IfOk result (λ checked. IsAccepted config × (checked ≡ config)) }
{
    match config.check() {
        Ok(checked) => Ok(checked),
        Err(fault) => Err(BuildError::Config(fault)),
    }
}

// The slices 1 to 3, each where the machine has it, and in any case the ports of each.
#[derive(Drop)]
struct LaterSlices<F: MissFile, M: SystemNames> {
    slice1: Option<Slice<F, M::S1>>,
    slice2: Option<Slice<F, M::S2>>,
    slice3: Option<Slice<F, M::S3>>,
    ports1: Vec<Port<M::S1>>,
    ports2: Vec<Port<M::S2>>,
    ports3: Vec<Port<M::S3>>,
}

impl<F: MissFile, M: SystemNames> LaterSlices<F, M> {
    fn build(
        alloc: Global,
        config: &Checked,
        blanks1: Blanks,
        blanks2: Blanks,
        blanks3: Blanks,
    ) -> Result<LaterSlices<F, M>, AllocError>
        requires setup { config.now ≡ M.setup }
        requires ledgers1 { AreLedgersOf M.S1.setup M.S1.names blanks1 }
        requires ledgers2 { AreLedgersOf M.S2.setup M.S2.names blanks2 }
        requires ledgers3 { AreLedgersOf M.S3.setup M.S3.names blanks3 }
        ensures slice1 { IfOk result (λ r. IsPlaced config.now (record { 0 = 1 }) (is_some r.slice1) r.ports1.items) }
        ensures slice2 { IfOk result (λ r. IsPlaced config.now (record { 0 = 2 }) (is_some r.slice2) r.ports2.items) }
        ensures slice3 { IfOk result (λ r. IsPlaced config.now (record { 0 = 3 }) (is_some r.slice3) r.ports3.items) }
    {
        // Here too the ledgers that no slice takes are dropped in one call.
        let Ok((slice1, ports1)) = configured(alloc, config, SliceId(1), blanks1) else {
            drop((blanks2, blanks3));
            return Err(AllocError);
        };
        let Ok((slice2, ports2)) = configured(alloc, config, SliceId(2), blanks2) else {
            drop(blanks3);
            return Err(AllocError);
        };
        let (slice3, ports3) = configured(alloc, config, SliceId(3), blanks3)?;
        Ok(LaterSlices {
            slice1,
            slice2,
            slice3,
            ports1,
            ports2,
            ports3,
        })
    }
}

// The slice of this number, where the machine has one, and in any case a port of it for each core.
fn configured<F: MissFile, N: SliceNames>(
    alloc: Global,
    config: &Checked,
    slice: SliceId,
    blanks: Blanks,
) -> Result<(Option<Slice<F, N>>, Vec<Port<N>>), AllocError>
    requires setup { config.now ≡ N.setup }
    requires number { slice.0 ≡ N.number }
    requires ledgers { AreLedgersOf N.setup N.names blanks }
    ensures { IfOk result (λ r. IsPlaced config.now slice (is_some r.0) r.1.items) }
{
    if usize::from(slice.0) < config.slices() {
        let (built, ports) = Slice::build(alloc, config, slice, blanks)?;
        Ok((Some(built), ports))
    } else {
        let ports = Port::idle_ports(alloc, config.cores(), slice, blanks)?;
        Ok((None, ports))
    }
}
