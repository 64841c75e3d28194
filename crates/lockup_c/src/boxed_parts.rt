//! A box taken apart into its pointer and its allocator, and put together again.
//!
//! An owner that isn't a box, as the handle that C has of a machine, keeps the two in fields of its own. What
//! [`BoxedParts`] owns is what the box owned, and its `value` is the box's.
ghost use Rattle.std.specs.Prelude.{◌≡◌};
ghost use Rattle.std.specs.Box.Ownership.{box_owns};

use std::alloc::Allocator;
use std::marker::Model;

/// The parts of a box. Dropping them leaks the value.
pub struct BoxedParts<T, A: Allocator> {
    pub ptr: *mut T,
    pub alloc: A,
    pub ghost value: { T },
}

impl<T, A: Allocator> Model for BoxedParts<T, A> {
    ghost also_owns = { λ parts. box_owns (A.dealloc_token parts.alloc) T.row parts.ptr parts.value };
}

impl<T, A: Allocator> BoxedParts<T, A> {
    /// Takes a box apart.
    pub fn of(owner: Box<T, A>) -> BoxedParts<T, A>
    where
        T: Drop,
        ensures { result.value ≡ owner.value }
    {
        let (ptr, alloc) = Box::into_raw_with_allocator(owner);
        BoxedParts { ptr, alloc }
    }

    /// Puts the box together again.
    pub fn into_box(self) -> Box<T, A>
        ensures { result.value ≡ self.value }
    {
        let BoxedParts { ptr, alloc } = self;
        unsafe { Box::from_raw(alloc, ptr) }
    }
}
