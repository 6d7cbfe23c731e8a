//! A `Box` with its fields in sight, and a box or none as one pointer: what an object behind C is made of.
#![tactic(auto)]

ghost use Rattle.std.specs.Prelude.{◌≡◌, Option, None, Some, option_map};
ghost use Rattle.std.specs.Box.Ownership.{box_owns};
ghost use Rattle.handles.specs.Slot.{slot_at};
ghost use denote.RawPtr.{null_ptr};

use std::alloc::{Allocator, Global};
use std::marker::Model;
use std::ptr::null_mut;

pub struct Parts<T, A: Allocator> {
    pub ptr: *mut T,
    pub alloc: A,
    pub ghost value: { T },
}

impl<T, A: Allocator> Model for Parts<T, A> {
    ghost also_owns = { λ p. box_owns (A.dealloc_token p.alloc) T.row p.ptr p.value };
}

impl<T, A: Allocator> Parts<T, A> {
    pub fn of(b: Box<T, A>) -> Parts<T, A>
    where
        T: Drop,
        ensures { result.value ≡ b.value }
    {
        let (ptr, alloc) = Box::into_raw_with_allocator(b);
        Parts { ptr, alloc }
    }

    pub fn into_box(self) -> Box<T, A>
        ensures { result.value ≡ self.value }
    {
        let Parts { ptr, alloc } = self;
        unsafe { Box::from_raw(alloc, ptr) }
    }
}

/// A value on the heap, or none: one pointer, null where there is none.
pub struct Slot<T> {
    pub at: *mut T,
    pub alloc: Global,
    pub ghost value: { Option T },
}

impl<T> Model for Slot<T> {
    ghost also_owns = { λ s. slot_at T.row s.alloc s.value s.at };
}

impl<T> Slot<T> {
    pub fn none(alloc: Global) -> Slot<T>
        ensures { result.value ≡ None }
    {
        let at = null_mut::<T>();
        let slot = Slot::empty(at, alloc);
        slot
    }

    fn empty(at: *mut T, alloc: Global) -> Slot<T>
        requires { at ≡ null_ptr }
        ensures { result.value ≡ None }
    {
        Slot { at, alloc }
    }

    pub fn of(whole: Box<T>) -> Slot<T>
    where
        T: Drop,
        ensures { result.value ≡ Some whole.value }
    {
        Slot::of_parts(Parts::of(whole))
    }

    fn of_parts(parts: Parts<T, Global>) -> Slot<T>
        ensures { result.value ≡ Some parts.value }
    {
        let Parts { ptr, alloc } = parts;
        Slot { at: ptr, alloc }
    }

    fn into_parts(self) -> Option<Parts<T, Global>>
        ensures { option_map (λ parts. parts.value) result ≡ self.value }
    {
        let Slot { at, alloc } = self;
        if at.is_null() {
            None
        } else {
            Some(Parts { ptr: at, alloc })
        }
    }

    /// The box, or none.
    pub fn into_box(self) -> Option<Box<T>>
        ensures { option_map (λ whole. whole.value) result ≡ self.value }
    {
        match self.into_parts() {
            Some(parts) => Some(parts.into_box()),
            None => None,
        }
    }
}
