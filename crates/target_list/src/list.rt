ghost use Rattle.std.specs.Prelude.{◌≡◌, ◌<◌, ◌≤◌, ◌++◌, ◌↔◌, [], ◌∷◌, length, drop, IsTrue};
ghost use Rattle.std.specs.List.{prefix_len};
ghost use Rattle.target_list.specs.declared.list.TheConstants.{MOST_TARGETS};
ghost use Rattle.target_list.specs.Target.{is_load};

use super::target::Target;
use arrayvec::ArrayVec;
use std::alloc::AllocError;
use std::marker::Model;

/// The most targets that a list holds: a core has 64 tags, and each names one access at a time.
pub const MOST_TARGETS: usize = 64;

/// Targets in the order in which they came, at most [`MOST_TARGETS`].
#[derive(Drop)]
pub struct TargetList {
    targets: ArrayVec<Target, 64>,
    /// How many of them, from the front, were taken already.
    taken: usize,
}

impl Model for TargetList {
    ghost use Rattle.std.specs.Prelude.{◌≤◌, List, length, drop};
    ghost use Rattle.target_list.specs.declared.target.Target.{Target};

    ghost Value = { List Target };

    ghost view = { λ list. drop list.taken list.targets.items };

    ghost invariant = { λ list. list.taken ≤ length list.targets.items };
}

impl TargetList {
    ghost use Rattle.target_list.specs.Target.{front_loads, behind_loads, TakesLoads};

    pub fn new() -> Self
        ensures { result ≡ [] }
    {
        TargetList {
            targets: ArrayVec::new(),
            taken: 0,
        }
    }

    pub fn len(&self) -> usize
        ensures value { result ≡ length self.now }
        ensures fits { result ≤ MOST_TARGETS }
    {
        self.targets.len() - self.taken
    }

    pub fn is_empty(&self) -> bool
        ensures { IsTrue result ↔ (self.now ≡ []) }
    {
        self.len() == 0
    }

    /// The targets, the oldest first.
    pub fn as_slice(&self) -> &[Target]
        ensures value { result.now ≡ self.now }
        ensures few { length result.now ≤ MOST_TARGETS }
    {
        &self.targets.as_slice()[self.taken..]
    }

    /// The targets, by value.
    pub fn to_vec(&self) -> ArrayVec<Target, 64>
        ensures { result.items ≡ self.now }
    {
        copied(self.as_slice())
    }

    /// How many loads there are in front of the first target that writes.
    pub fn front_loads(&self) -> usize
        ensures count { result ≡ length (front_loads self.now) }
        ensures within { result ≤ length self.now }
    {
        count_front_loads(self.as_slice())
    }

    /// Adds a target after the others.
    // A target that is handed on through memory is read back before it is written.
    #[inline(always)]
    pub fn push(&mut self, target: Target)
        requires { length self.old < MOST_TARGETS }
        ensures { self.new ≡ self.old ++ target ∷ [] }
    {
        if self.targets.is_full() {
            self.targets.drain(..self.taken);
            self.taken = 0;
        }
        self.targets.push(target);
    }

    /// Takes the oldest target.
    pub fn take_first(&mut self) -> Target
        requires { 0 < length self.old }
        ensures { self.old ≡ result ∷ self.new }
    {
        if self.targets.len() == 1
            && let Some(only) = self.targets.pop()
        {
            return only;
        }
        let first = self.as_slice()[0];
        self.pass(1);
        first
    }

    /// Takes the loads in front of the first target that writes.
    pub fn take_loads(&mut self) -> ArrayVec<Target, 64>
        ensures taken { result.items ≡ front_loads self.old }
        ensures left { self.new ≡ behind_loads self.old }
        ensures loads { TakesLoads self.old result.items self.new }
    {
        let loads = count_front_loads(self.as_slice());
        let taken = copied(&self.as_slice()[..loads]);
        self.pass(loads);
        taken
    }

    /// Takes all targets.
    pub fn take_all(&mut self) -> ArrayVec<Target, 64>
        ensures taken { result.items ≡ self.old }
        ensures left { self.new ≡ [] }
    {
        let taken = copied(self.as_slice());
        self.pass(self.len());
        taken
    }

    /// Skips the first `count` targets, and starts at the front again where none is left.
    fn pass(&mut self, count: usize)
        requires { count ≤ length self.old }
        ensures { self.new ≡ drop count self.old }
    {
        let end = self.targets.len();
        self.taken += count;
        if self.taken == end {
            self.targets.clear();
            self.taken = 0;
        }
    }
}

/// Returns a copy of the targets. It allocates nothing.
impl Clone for TargetList {
    ghost use Rattle.std.specs.Prelude.{◌≡◌};

    ghost is_clone = { λ list copy. copy ≡ list };

    fn clone(&self) -> Result<Self, AllocError> {
        Ok(TargetList {
            targets: self.to_vec(),
            taken: 0,
        })
    }
}

fn count_front_loads(targets: &[Target]) -> usize
    ensures count { result ≡ prefix_len is_load targets.now }
    ensures within { result ≤ length targets.now }
{
    targets.iter().take_while(|target| target.is_load()).count()
}

fn copied(targets: &[Target]) -> ArrayVec<Target, 64>
    requires { length targets.now ≤ MOST_TARGETS }
    ensures { result.items ≡ targets.now }
{
    let mut copies = ArrayVec::new();
    let _ = copies.try_extend_from_slice(targets);
    copies
}
