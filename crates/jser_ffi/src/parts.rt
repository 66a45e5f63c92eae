//! A `Box` as its pointer and its allocator.
ghost use Rattle.std.specs.Box.Ownership.{box_owns};
ghost use Rattle.std.specs.Prelude.{◌≡◌};

use std::alloc::Allocator;
use std::marker::Model;

/// What a `Box` owns, with the pointer at hand.
pub struct Parts<T, A: Allocator> {
    pub(crate) ptr: *mut T,
    pub(crate) alloc: A,
    pub ghost value: { T },
}

impl<T, A: Allocator> Model for Parts<T, A> {
    ghost also_owns = { λ parts. box_owns (A.dealloc_token parts.alloc) T.row parts.ptr parts.value };
}

impl<T, A: Allocator> Parts<T, A> {
    /// The parts of a box.
    pub fn of(home: Box<T, A>) -> Parts<T, A>
    where
        T: Drop,
        ensures { result.value ≡ home.value }
    {
        let (ptr, alloc) = Box::into_raw_with_allocator(home);
        Parts { ptr, alloc }
    }

    /// The box again.
    pub fn into_box(self) -> Box<T, A>
        ensures { result.value ≡ self.value }
    {
        let Parts { ptr, alloc } = self;
        unsafe { Box::from_raw(alloc, ptr) }
    }
}
