//! A filter behind a pointer that C keeps.
ghost use Rattle.std.specs.Prelude.{◌≡◌, Option, Some, None};
ghost use Rattle.jser_ffi.specs.declared.compiled.Compiled.{Compiled};
ghost use Rattle.jser_ffi.specs.FilterOwning.{held_coded, held_owns};
ghost use Rattle.jser_ffi.specs.Holding.{Holds};

use crate::compiled::Compiled;
use crate::parts::Parts;
use std::alloc::Global;
use std::marker::Model;
use std::ptr;

/// The pointer to a filter that is owned, or any pointer where none is. Its drop lets nothing go: `FilterHandle` takes the
/// filter out first.
#[derive(Drop)]
#[repr(C)]
pub struct HeldFilter {
    at: *mut u8,
    alloc: Global,
    pub ghost held: { Option Compiled } by { held_coded },
}

impl Model for HeldFilter {
    ghost also_owns = { λ owner. held_owns owner.alloc owner.at owner.held };
}

// What it owns may go to another thread, and so may it.
unsafe impl Send for HeldFilter {}

impl HeldFilter {
    /// Owns nothing.
    pub(crate) fn none(alloc: Global) -> HeldFilter
        ensures { result.held ≡ None }
    {
        HeldFilter::vacant(nowhere(), alloc)
    }

    fn vacant(at: *mut u8, alloc: Global) -> HeldFilter
        ensures { result.held ≡ None }
    {
        HeldFilter { at, alloc }
    }

    /// Owns what the box does.
    pub(crate) fn of(home: Box<Compiled>) -> HeldFilter
        ensures { result.held ≡ Some home.value }
    {
        HeldFilter::of_parts(Parts::of(home))
    }

    /// The box again.
    pub(crate) fn into_box(self) -> Box<Compiled>
        requires { Holds self.held }
        ensures { self.held ≡ Some result.value }
    {
        self.into_parts().into_box()
    }

    fn of_parts(parts: Parts<Compiled, Global>) -> HeldFilter
        ensures { result.held ≡ Some parts.value }
    {
        let Parts { ptr, alloc } = parts;
        HeldFilter {
            at: ptr as *mut u8,
            alloc,
        }
    }

    fn into_parts(self) -> Parts<Compiled, Global>
        requires { Holds self.held }
        ensures { self.held ≡ Some result.value }
    {
        let HeldFilter { at, alloc } = self;
        Parts {
            ptr: at as *mut Compiled,
            alloc,
        }
    }
}

/// The pointer of a handle that owns nothing.
fn nowhere() -> *mut u8 {
    ptr::null_mut()
}
