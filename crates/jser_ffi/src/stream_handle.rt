//! The handle of a stream, as it lies in C's memory: it holds a stream, or nothing.
ghost use Rattle.std.specs.Prelude.{◌≡◌, ◌≢◌, ◌⊎◌, Some, None, option_map};
ghost use Rattle.jser_ffi.specs.Holding.{is_held};
ghost use Rattle.jser_ffi.specs.Told.{Zeros};

use crate::answer::{Answer, MORE, NO_MEMORY, bare};
use crate::held_stream::HeldStream;
use crate::stream::Stream;
use std::alloc::Global;
use std::mem;

/// A handle. C makes it as zeros, which hold nothing; every other one was left by a call.
#[repr(C)]
pub struct StreamHandle {
    pub(crate) owner: HeldStream,
    is_open: bool,
    ghost right: { is_open ≡ is_held owner.held },
}

impl Drop for StreamHandle {
    fn drop(self) {
        drop(self.into_home());
    }
}

impl StreamHandle {
    /// Holds this stream, if there is one.
    fn holding(alloc: Global, home: Option<Box<Stream>>) -> StreamHandle
        ensures { result.owner.held ≡ option_map (λ home. home.value) home }
    {
        match home {
            Some(home) => StreamHandle {
                owner: HeldStream::of(home),
                is_open: true,
            },
            None => StreamHandle {
                owner: HeldStream::none(alloc),
                is_open: false,
            },
        }
    }

    /// The stream that it held.
    fn into_home(self) -> Option<Box<Stream>>
        ensures { option_map (λ home. home.value) result ≡ self.owner.held }
    {
        let StreamHandle { owner, is_open } = self;
        if is_open {
            Some(owner.into_box())
        } else {
            None
        }
    }

    /// Takes the stream out, if it holds one.
    pub(crate) fn take(&mut self, alloc: Global) -> Option<Box<Stream>>
        ensures taken { option_map (λ home. home.value) result ≡ self.old.owner.held }
        ensures empty { self.new.owner.held ≡ None }
    {
        mem::replace(self, StreamHandle::holding(alloc, None)).into_home()
    }

    /// Puts a stream in, and lets go of the one that it held.
    pub(crate) fn put(&mut self, alloc: Global, home: Box<Stream>)
        ensures { self.new.owner.held ≡ Some home.value }
    {
        *self = StreamHandle::holding(alloc, Some(home));
    }

    /// Puts a stream into a box and the box in, if there is memory for it; the answer is 4 then, and else 3.
    pub(crate) fn fill(&mut self, alloc: Global, stream: Stream) -> Answer
        ensures filled { result.status ≡ 4 → self.new.owner.held ≡ Some stream }
        ensures kept { result.status ≢ 4 → self.new ≡ self.old }
        ensures known { (result.status ≡ 4) ⊎ (result.status ≡ 3) }
        ensures zeros { Zeros result }
    {
        match Box::new(alloc, stream) {
            Ok(home) => {
                self.put(alloc, home);
                bare(MORE)
            }
            Err(_) => bare(NO_MEMORY),
        }
    }
}
