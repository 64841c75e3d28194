//! The handle that C has of what is on the heap.
ghost use Rattle.std.specs.Prelude.{◌≡◌, IfNone, IfSome, Option, None, Some, option_map};
ghost use Rattle.lockup_c.specs.Owner.{owned_coded};
ghost use Rattle.lockup_c.specs.declared.held.Held.{Held};

use super::boxed_parts::BoxedParts;
use super::held::Held;
use std::alloc::Global;
use std::marker::Model;
use std::mem::replace;
use std::ptr::null_mut;

/// A pointer that is null, or points to what the handle owns. For C it is one pointer, since a `Global` takes no bytes.
#[repr(C)]
pub struct Handle {
    at: *mut u8,
    alloc: Global,
    pub ghost value: { Option Held } by { owned_coded },
}

impl Model for Handle {
    ghost use Rattle.lockup_c.specs.Owner.{owned_at};

    ghost also_owns = { λ h. owned_at h.alloc h.at h.value };
}

unsafe impl Send for Handle {}

impl Handle {
    fn empty(alloc: Global) -> Handle
        ensures { result.value ≡ None }
    {
        Handle {
            at: null_mut(),
            alloc,
        }
    }

    fn of_parts(parts: BoxedParts<Held, Global>) -> Handle
        ensures { result.value ≡ Some parts.value }
    {
        let BoxedParts { ptr, alloc } = parts;
        Handle {
            at: ptr as *mut u8,
            alloc,
        }
    }

    fn into_parts(self) -> Option<BoxedParts<Held, Global>>
        ensures { option_map (λ parts. parts.value) result ≡ self.value }
    {
        let Handle { at, alloc } = self;
        if at.is_null() {
            None
        } else {
            Some(BoxedParts {
                ptr: at as *mut Held,
                alloc,
            })
        }
    }
}

impl Drop for Handle {
    fn drop(self) {
        match self.into_parts() {
            Some(parts) => drop(parts.into_box()),
            None => {}
        }
    }
}

/// Takes what a handle has out of it.
pub(crate) fn take(handle: &mut Handle, alloc: Global) -> Option<Box<Held, Global>>
    ensures some { IfSome result (λ held. handle.old.value ≡ Some held.value) }
    ensures none { IfNone result (handle.old.value ≡ None) }
    ensures empty { handle.new.value ≡ None }
{
    match replace(handle, Handle::empty(alloc)).into_parts() {
        Some(parts) => Some(parts.into_box()),
        None => None,
    }
}

/// Gives a handle something to have, instead of what it had.
pub(crate) fn put(handle: &mut Handle, held: Box<Held, Global>)
    ensures { handle.new.value ≡ Some held.value }
{
    *handle = Handle::of_parts(BoxedParts::of(held));
}
