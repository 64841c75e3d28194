ghost use Rattle.std.specs.Prelude.{◌≡◌, ◌<◌, ◌++◌, [], ◌∷◌, drop, take, if◌then◌else◌, length, slice_index, IfOk};

use address_map::Local;
use circular_buffer::HeapCircularBuffer;
use std::alloc::{AllocError, Global};
use std::boxed::BoxedSlice;
use std::marker::Model;

/// Lines of a slice in a round, none of them twice.
#[derive(Drop)]
pub struct LineRing {
    order: HeapCircularBuffer<usize>,
    // whether a line is in the round, by its place
    listed: BoxedSlice<bool>,
}

impl Model for LineRing {
    ghost use Rattle.std.specs.Box.{boxed_slice_items};
    ghost use Rattle.std.specs.Prelude.{length};
    ghost use Rattle.slice_queues.specs.Ring.{LineOrder, IsRound};

    ghost Value = { LineOrder };

    ghost view = { λ ring. record { order = ring.order.items; lines = length (boxed_slice_items ring.listed) } };

    ghost invariant = { λ ring. IsRound ring.order.items (boxed_slice_items ring.listed) ring.order.capacity };
}

impl LineRing {
    ghost use Rattle.slice_queues.specs.Ring.{IsOrder, with_listed};

    /// Allocates an empty round for up to `lines` lines.
    pub fn build(alloc: Global, lines: usize) -> Result<Self, AllocError>
        ensures { IfOk result (λ ring. ring ≡ record { order = []; lines = lines }) }
    {
        Ok(LineRing {
            order: HeapCircularBuffer::with_capacity(alloc, lines)?,
            listed: vec![in alloc; false; lines]?.into_boxed_slice(),
        })
    }

    /// Returns a copy of the round, in memory of its own.
    pub fn try_clone(&self, alloc: Global) -> Result<Self, AllocError>
        ensures { IfOk result (λ copy. copy ≡ self.now) }
    {
        let mut order = HeapCircularBuffer::with_capacity(alloc, self.order.capacity())?;
        let listed = Vec::from_slice(alloc, self.listed.as_slice())?;
        copy_items(&self.order, &mut order);
        Ok(LineRing {
            order,
            listed: listed.into_boxed_slice(),
        })
    }

    pub fn len(&self) -> usize
        ensures len { result ≡ length self.now.order }
        ensures order { IsOrder self.now.order self.now.lines }
    {
        let _ = &self.listed;
        self.order.len()
    }

    pub fn at(&self, index: usize) -> Local
        requires { index < length self.now.order }
        ensures line { result.0 ≡ slice_index self.now.order index }
        ensures there { result.0 < self.now.lines }
    {
        match self.order.get(index) {
            Some(line) => Local(*line),
            None => unreachable!(),
        }
    }

    /// Puts the line at the end, unless it is in the round.
    #[inline(always)]
    pub fn list(&mut self, local: Local)
        requires { local.0 < self.old.lines }
        ensures { self.new ≡ record self.old { order = with_listed self.old.order local.0 } }
    {
        if !self.listed[local.0] {
            self.listed[local.0] = true;
            self.order.push_back(local.0);
        }
    }

    /// Moves the first line to the end if it stays, or else out of the round.
    // A round of one line that stays is the same after its turn.
    pub fn turn(&mut self, stays: bool)
        requires { 0 < length self.old.order }
        ensures { self.new
            ≡ record self.old { order = drop 1 self.old.order ++ (if stays then take 1 self.old.order else []) } }
    {
        if stays && self.order.len() == 1 {
            return;
        }
        let Some(first) = self.order.pop_front() else {
            unreachable!()
        };
        if stays {
            self.order.push_back(first);
        } else {
            self.listed[first] = false;
        }
    }
}

// Fills an empty buffer of the same capacity with the same items.
fn copy_items(from: &HeapCircularBuffer<usize>, to: &mut HeapCircularBuffer<usize>)
    requires empty { to.old.items ≡ [] }
    requires capacity { to.old.capacity ≡ from.now.capacity }
    ensures { to.new ≡ from.now }
{
    let _ = from.len();
    let (front, back) = from.as_slices();
    let _ = to.fill_from_slice(front);
    let _ = to.fill_from_slice(back);
}
