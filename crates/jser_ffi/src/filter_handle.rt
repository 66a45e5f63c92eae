//! The handle of a filter, as it lies in C's memory: it holds a filter, or nothing.
ghost use Rattle.std.specs.Prelude.{◌≡◌, ◌≢◌, ◌⊎◌, Some, None, option_map};
ghost use Rattle.jser_ffi.specs.Holding.{is_held};
ghost use Rattle.jser_ffi.specs.Told.{Zeros, bare_answer};

use crate::answer::{Answer, NO_MEMORY, YES, bare};
use crate::compiled::Compiled;
use crate::held_filter::HeldFilter;
use std::alloc::Global;
use std::mem;

/// A handle. C makes it as zeros, which hold nothing; every other one was left by a call.
#[repr(C)]
pub struct FilterHandle {
    pub(crate) owner: HeldFilter,
    is_open: bool,
    ghost right: { is_open ≡ is_held owner.held },
}

impl Drop for FilterHandle {
    fn drop(self) {
        drop(self.into_home());
    }
}

impl FilterHandle {
    /// Holds this filter, if there is one.
    fn holding(alloc: Global, home: Option<Box<Compiled>>) -> FilterHandle
        ensures { result.owner.held ≡ option_map (λ home. home.value) home }
    {
        match home {
            Some(home) => FilterHandle {
                owner: HeldFilter::of(home),
                is_open: true,
            },
            None => FilterHandle {
                owner: HeldFilter::none(alloc),
                is_open: false,
            },
        }
    }

    /// The filter that it held.
    fn into_home(self) -> Option<Box<Compiled>>
        ensures { option_map (λ home. home.value) result ≡ self.owner.held }
    {
        let FilterHandle { owner, is_open } = self;
        if is_open {
            Some(owner.into_box())
        } else {
            None
        }
    }

    /// Takes the filter out, if it holds one.
    pub(crate) fn take(&mut self, alloc: Global) -> Option<Box<Compiled>>
        ensures taken { option_map (λ home. home.value) result ≡ self.old.owner.held }
        ensures empty { self.new.owner.held ≡ None }
    {
        mem::replace(self, FilterHandle::holding(alloc, None)).into_home()
    }

    /// Puts a filter in, and lets go of the one that it held.
    pub(crate) fn put(&mut self, alloc: Global, home: Box<Compiled>)
        ensures { self.new.owner.held ≡ Some home.value }
    {
        *self = FilterHandle::holding(alloc, Some(home));
    }

    /// Puts a filter into a box and the box in, if there is memory for it; the answer is 0 then, and else 3.
    pub(crate) fn fill(&mut self, alloc: Global, compiled: Compiled) -> Answer
        ensures filled { result.status ≡ 0 → self.new.owner.held ≡ Some compiled }
        ensures kept { result.status ≢ 0 → self.new ≡ self.old }
        ensures known { (result.status ≡ 0) ⊎ (result.status ≡ 3) }
        ensures bare { result ≡ bare_answer result.status }
        ensures zeros { Zeros result }
    {
        match Box::new(alloc, compiled) {
            Ok(home) => {
                self.put(alloc, home);
                bare(YES)
            }
            Err(_) => bare(NO_MEMORY),
        }
    }
}
