//! The stack of frames. Its top lies in a field of its own, since nearly all work is done there.
ghost use Rattle.std.specs.Prelude.{◌≡◌, ◌∷◌, [], OnOk, OnErr};
ghost use Rattle.jser_printer.specs.Frames.{IsTop, tail_of};

use crate::frame::Frame;
use std::alloc::{AllocError, Global};
use std::marker::Model;

/// Frames, the innermost on top. Contracts see the list, the top first.
#[derive(Drop)]
pub(crate) struct Stack {
    top: Option<Frame>,
    below: Vec<Frame>,
}

impl Model for Stack {
    ghost use Rattle.std.specs.Prelude.{List};
    ghost use Rattle.jser_printer.specs.declared.frame.Frame.{Frame};
    ghost use Rattle.jser_printer.specs.Frames.{all_frames};

    ghost Value = { List Frame };

    ghost view = { λ a. all_frames a.top a.below.items };

    ghost use Rattle.std.specs.Prelude.{◌≡◌, []};
    ghost use Rattle.std.specs.Option.{ForNone};

    ghost invariant = { λ a. ForNone a.top (a.below.items ≡ []) };
}

impl Stack {
    /// A stack with no frame. Takes no memory.
    pub(crate) fn new(alloc: Global) -> Stack
        ensures { result ≡ [] }
    {
        Stack {
            top: None,
            below: Vec::new(alloc),
        }
    }

    /// The innermost frame, if there is one.
    #[inline(always)]
    pub(crate) fn top(&self) -> Option<Frame>
        ensures { IsTop self.now result }
    {
        self.top
    }

    /// The frames below the innermost one, the outermost first.
    pub(crate) fn below(&self) -> &[Frame] {
        self.below.as_slice()
    }

    /// Puts a frame on top. The stack is as it was where memory runs out.
    #[inline(always)]
    pub(crate) fn push(&mut self, frame: Frame) -> Result<(), AllocError>
        ensures ok { OnOk result (self.new ≡ frame ∷ self.old) }
        ensures err { OnErr result (self.new ≡ self.old) }
    {
        if let Some(outer) = self.top {
            self.below.push(outer)?;
        }
        self.top = Some(frame);
        Ok(())
    }

    /// Takes the frame off that is on top, if there is one.
    #[inline(always)]
    pub(crate) fn pop(&mut self)
        ensures { self.new ≡ tail_of self.old }
    {
        self.top = self.below.pop();
    }

    /// Puts this frame in the place of the one on top. Takes no memory.
    #[inline(always)]
    pub(crate) fn set_top(&mut self, frame: Frame)
        ensures { self.new ≡ frame ∷ tail_of self.old }
    {
        self.top = Some(frame);
    }
}
