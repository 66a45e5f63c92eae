//! The stack of frames. Its top lies in a field of its own, since nearly all work is done there.
ghost use Rattle.std.specs.Prelude.{◌≡◌, ◌∷◌, ◌-◌, ◌^◌, ◌<◌, [], length, vec_len, vec_capacity, OnOk, OnErr};
ghost use Rattle.jser_reader.specs.Stacks.{IsTop, CountsValue, CountsRaw, tail_of};

use crate::frame::{Frame, RawPlace};
use std::alloc::{AllocError, Global};
use std::marker::Model;

/// Frames, the innermost on top. Contracts see the list, the top first.
#[derive(Drop)]
pub(crate) struct Stack {
    top: Option<Frame>,
    below: Vec<Frame>,
}

impl Model for Stack {
    ghost use Rattle.std.specs.Prelude.{List};
    ghost use Rattle.jser_reader.specs.declared.frame.Frame.{Frame};
    ghost use Rattle.jser_reader.specs.Stacks.{all_frames};

    ghost Value = { List Frame };

    ghost view = { λ a. all_frames a.top a.below.items };

    ghost use Rattle.std.specs.Prelude.{◌≡◌, []};
    ghost use Rattle.std.specs.Option.{ForNone};

    ghost invariant = { λ a. ForNone a.top (a.below.items ≡ []) };
}

/// Makes room for one more frame. Mostly there is some, so this is out of line.
#[inline(never)]
fn grow(below: &mut Vec<Frame>) -> Result<(), AllocError>
    ensures room { OnOk result (vec_len below.new < vec_capacity below.new) }
    ensures frames { below.new.items ≡ below.old.items }
{
    below.reserve(1)
}

impl Stack {
    /// A stack with no frame. Takes no memory.
    pub(crate) fn new(alloc: Global) -> Stack
        ensures { result ≡ [] }
    {
        Stack {
            top: None,
            below: Vec::new(alloc),
        }
    }

    /// How many frames there are.
    #[inline(always)]
    pub(crate) fn len(&self) -> usize
        ensures count { result ≡ length self.now }
        ensures few { result < 2 ^ 64 - 1 }
    {
        let below = self.below.len();
        match self.top {
            None => below,
            Some(_) => below + 1,
        }
    }

    /// The innermost frame, if there is one.
    #[inline(always)]
    pub(crate) fn top(&self) -> Option<Frame>
        ensures { IsTop self.now result }
    {
        self.top
    }

    /// Counts the next value of what is on top, where the next part of that is a value.
    #[inline(always)]
    pub(crate) fn next_value(&mut self) -> bool
        ensures { CountsValue result self.old self.new }
    {
        match &mut self.top {
            Some(frame) => frame.next_value(),
            None => false,
        }
    }

    /// Counts the next raw value of what is on top, where the next part of that is one.
    #[inline(always)]
    pub(crate) fn next_raw(&mut self) -> Option<RawPlace>
        ensures { CountsRaw result self.old self.new }
    {
        match &mut self.top {
            Some(frame) => frame.next_raw(),
            None => None,
        }
    }

    /// Puts a frame on top. The stack is as it was where memory runs out.
    #[inline(always)]
    pub(crate) fn push(&mut self, frame: Frame) -> Result<(), AllocError>
        ensures ok { OnOk result (self.new ≡ frame ∷ self.old) }
        ensures err { OnErr result (self.new ≡ self.old) }
    {
        if let Some(outer) = self.top {
            if self.below.len() == self.below.capacity() {
                grow(&mut self.below)?;
            }
            self.below.push_reserved(outer);
        }
        self.top = Some(frame);
        Ok(())
    }

    /// Takes the frame off that is on top, if there is one.
    #[inline(always)]
    pub(crate) fn pop(&mut self)
        ensures { self.new ≡ tail_of self.old }
    {
        self.top = self.below.pop();
    }

    /// Takes all frames off.
    pub(crate) fn clear(&mut self)
        ensures { self.new ≡ [] }
    {
        self.top = None;
        self.below.clear();
    }

    /// Puts this frame in the place of the one on top.
    #[inline(always)]
    pub(crate) fn set_top(&mut self, frame: Frame)
        requires { 0 < length self.old }
        ensures { self.new ≡ frame ∷ tail_of self.old }
    {
        self.top = Some(frame);
    }
}
