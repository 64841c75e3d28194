ghost use Rattle.std.specs.Prelude.{◌≡◌, ◌<◌, IsSome};
ghost use Rattle.slice_lock.specs.Booked.{IsShown};

use super::names::SystemNames;
use super::system::System;
use address_map::SliceId;
use mshr_file::MissFile;
use receipt_ledger::SliceNames;
use slice_core::SliceState;
use slice_lock::Look;
use std::marker::Model;
use std::sync::Wait;

/// A look at the state of one slice of a system while its lock is held. Contracts see which slice it is.
#[derive(Drop)]
pub struct SystemLook<'a, F: MissFile, M: SystemNames> {
    slice: SliceId,
    look0: Option<Look<'a, F, M::S0>>,
    look1: Option<Look<'a, F, M::S1>>,
    look2: Option<Look<'a, F, M::S2>>,
    look3: Option<Look<'a, F, M::S3>>,
}

impl<'a, F: MissFile, M: SystemNames> Model for SystemLook<'a, F, M> {
    ghost use Rattle.std.specs.Prelude.{is_some};
    ghost use Rattle.address_map.specs.declared.address.SliceId.{SliceId};
    ghost use Rattle.core_thread_system.specs.System.{IsLook};

    ghost Value = { SliceId };

    ghost view = { λ l. l.slice };

    ghost invariant = { λ l. IsLook l.slice.0 (is_some l.look0) (is_some l.look1) (is_some l.look2) (is_some l.look3) };
}

impl<F: MissFile, M: SystemNames> System<F, M> {
    /// Takes a slice's lock for a look at its state, and keeps it until the look is dropped. No other call on this
    /// slice can continue meanwhile.
    pub fn look<'a, R: Wait>(&'a self, rt: &R, slice: SliceId) -> SystemLook<'a, F, M>
        requires { slice.0 < M.setup.slices }
        ensures { result ≡ slice }
    {
        let _few = self.slices();
        match slice.0 {
            0 => SystemLook {
                slice,
                look0: Some(self.slice0().look(rt)),
                look1: None,
                look2: None,
                look3: None,
            },
            1 => SystemLook {
                slice,
                look0: None,
                look1: Some(self.slice1().look(rt)),
                look2: None,
                look3: None,
            },
            2 => SystemLook {
                slice,
                look0: None,
                look1: None,
                look2: Some(self.slice2().look(rt)),
                look3: None,
            },
            3 => SystemLook {
                slice,
                look0: None,
                look1: None,
                look2: None,
                look3: Some(self.slice3().look(rt)),
            },
            _ => unreachable!(),
        }
    }
}

impl<'a, F: MissFile, M: SystemNames> SystemLook<'a, F, M> {
    /// Returns the state. The caller may rely on all that holds of it after every call.
    pub fn state(&self) -> &SliceState<F>
        ensures { IsShown M.setup (F.bound_by M.setup) self.now.0 result.now }
    {
        match self.slice.0 {
            0 => shown(&self.look0),
            1 => shown(&self.look1),
            2 => shown(&self.look2),
            3 => shown(&self.look3),
            _ => unreachable!(),
        }
    }
}

// The state that a look shows which is there.
fn shown<'l, F: MissFile, N: SliceNames>(look: &'l Option<Look<'_, F, N>>) -> &'l SliceState<F>
    requires { IsSome look.now }
    ensures { IsShown N.setup (F.bound_by N.setup) N.number result.now }
{
    match look {
        Some(look) => look.state(),
        None => unreachable!(),
    }
}
