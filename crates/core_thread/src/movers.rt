ghost use Rattle.std.specs.Prelude.{◌≡◌, ◌≤◌, ◌↔◌, IfSome, IsSome};

use address_map::SliceId;
use core_thread_system::{System, SystemNames};
use mshr_file::MissFile;
use slice_answer::DeliveredNext;
use slice_queues::Class;
use std::sync::Wait;
use std::sync::atomic::AtomicUsize;
use std::sync::atomic::Ordering::SeqCst;
use std::thread;

/// How many threads move messages on in addition to those of the cores: 0 to 4.
#[derive(Clone, Copy, Debug, PartialEq, Eq)]
pub struct Movers {
    count: u8,
    ghost few: { count ≤ 4 },
}

impl Movers {
    /// The most that there are.
    pub const MOST: u8 = 4;

    /// Returns `count` movers, if that is at most 4.
    pub const fn new(count: u8) -> Option<Movers>
        ensures few { IsSome result ↔ (count ≤ 4) }
        ensures count { IfSome result (λ movers. movers.count ≡ count) }
    {
        if count <= Movers::MOST {
            Some(Movers { count })
        } else {
            None
        }
    }

    /// Returns their number.
    pub const fn count(self) -> u8
        ensures count { result ≡ self.count }
        ensures few { result ≤ 4 }
    {
        self.count
    }
}

/// Makes one delivery after another, in each slice in turn, until `jobs` jobs have ended or `limit` calls were made.
/// Where nothing can be moved, other threads go first.
pub(crate) fn move_on<R: Wait, F: MissFile, M: SystemNames>(
    rt: &R,
    system: &System<F, M>,
    jobs: usize,
    ended: &AtomicUsize,
    limit: u64,
) {
    let slices = system.config().slices() as u64;
    for call in 0..limit {
        if jobs <= ended.load(SeqCst) {
            return;
        }
        let slice = SliceId((call % slices) as u8);
        match system.deliver_next(rt, slice, Class::Any) {
            DeliveredNext::Moved(_) => {}
            _ => thread::yield_now(),
        }
    }
}
