//! A stream behind a pointer that C keeps.
ghost use Rattle.std.specs.Prelude.{◌≡◌, Option, Some, None};
ghost use Rattle.jser_ffi.specs.declared.stream.Stream.{Stream};
ghost use Rattle.jser_ffi.specs.StreamOwning.{held_coded, held_owns};
ghost use Rattle.jser_ffi.specs.Holding.{Holds};

use crate::parts::Parts;
use crate::stream::Stream;
use std::alloc::Global;
use std::marker::Model;
use std::ptr;

/// The pointer to a stream that is owned, or any pointer where none is. Its drop lets nothing go: `StreamHandle` takes the
/// stream out first.
#[derive(Drop)]
#[repr(C)]
pub struct HeldStream {
    at: *mut u8,
    alloc: Global,
    pub ghost held: { Option Stream } by { held_coded },
}

impl Model for HeldStream {
    ghost also_owns = { λ owner. held_owns owner.alloc owner.at owner.held };
}

// What it owns may go to another thread, and so may it.
unsafe impl Send for HeldStream {}

impl HeldStream {
    /// Owns nothing.
    pub(crate) fn none(alloc: Global) -> HeldStream
        ensures { result.held ≡ None }
    {
        HeldStream::vacant(nowhere(), alloc)
    }

    fn vacant(at: *mut u8, alloc: Global) -> HeldStream
        ensures { result.held ≡ None }
    {
        HeldStream { at, alloc }
    }

    /// Owns what the box does.
    pub(crate) fn of(home: Box<Stream>) -> HeldStream
        ensures { result.held ≡ Some home.value }
    {
        HeldStream::of_parts(Parts::of(home))
    }

    /// The box again.
    pub(crate) fn into_box(self) -> Box<Stream>
        requires { Holds self.held }
        ensures { self.held ≡ Some result.value }
    {
        self.into_parts().into_box()
    }

    fn of_parts(parts: Parts<Stream, Global>) -> HeldStream
        ensures { result.held ≡ Some parts.value }
    {
        let Parts { ptr, alloc } = parts;
        HeldStream {
            at: ptr as *mut u8,
            alloc,
        }
    }

    fn into_parts(self) -> Parts<Stream, Global>
        requires { Holds self.held }
        ensures { self.held ≡ Some result.value }
    {
        let HeldStream { at, alloc } = self;
        Parts {
            ptr: at as *mut Stream,
            alloc,
        }
    }
}

/// The pointer of a handle that owns nothing.
fn nowhere() -> *mut u8 {
    ptr::null_mut()
}
