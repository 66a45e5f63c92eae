//! What the loop over whole values counts while it runs. It is written back when the loop ends.
ghost use Rattle.std.specs.Prelude.{◌≡◌, ◌+◌, ◌-◌, ◌<◌, ◌^◌};
ghost use Rattle.jser_reader.specs.Many.{with_block, with_place, with_used, with_depth, content_ended};

/// The contents that have begun.
#[derive(Clone, Copy)]
pub(super) struct Begun {
    /// How many have begun in the piece.
    pub(super) count: u64,
    /// Offset in the piece of the content that is open or comes next, if it begins in this piece.
    pub(super) last: usize,
}

/// The counters.
#[derive(Clone, Copy)]
pub(super) struct Counts {
    /// How many bytes of the piece were taken.
    pub(super) used: usize,
    /// How many places there were.
    pub(super) refs: u64,
    /// The contents that have begun.
    pub(super) items: Begun,
    /// How many frames there are.
    pub(super) depth: u64,
    /// The greatest depth of a place.
    pub(super) deepest: u64,
}

/// What a turn of the loop did.
#[derive(Clone, Copy, PartialEq, Eq)]
pub(super) enum Turn {
    /// It took something, and a content or a value comes next.
    Next,
    /// It took a value, which has ended.
    Ended,
    /// Nothing.
    Nothing,
}

impl Counts {
    /// Counts a place and so many bytes.
    #[inline(always)]
    pub(super) fn place(&mut self, size: usize)
        requires used { self.old.used + size < 2 ^ 64 }
        requires refs { self.old.refs + 1 < 2 ^ 64 }
        requires items { self.old.items.count + 1 < 2 ^ 64 }
        requires depth { self.old.depth + 1 < 2 ^ 64 }
        ensures { self.new ≡ with_place self.old size }
    {
        if self.depth == 0 {
            self.items.count += 1;
        }
        self.deepest = self.deepest.max(self.depth + 1);
        self.refs += 1;
        self.used += size;
    }

    /// So many bytes more were taken.
    #[inline(always)]
    pub(super) fn take(&mut self, size: usize)
        requires { self.old.used + size < 2 ^ 64 }
        ensures { self.new ≡ with_used self.old size }
    {
        self.used += size;
    }

    /// What is on top was taken off, after so many bytes more.
    #[inline(always)]
    pub(super) fn close(&mut self, size: usize)
        requires used { self.old.used + size < 2 ^ 64 }
        requires depth { 0 < self.old.depth }
        ensures { self.new ≡ with_depth (with_used self.old size) (self.old.depth - 1) }
    {
        self.used += size;
        self.depth -= 1;
    }

    /// Something was put on the stack.
    #[inline(always)]
    pub(super) fn open(&mut self)
        requires { self.old.depth + 1 < 2 ^ 64 }
        ensures { self.new ≡ with_depth self.old (self.old.depth + 1) }
    {
        self.depth += 1;
    }

    /// Counts so many bytes where no place begins.
    #[inline(always)]
    pub(super) fn block(&mut self, size: usize)
        requires used { self.old.used + size < 2 ^ 64 }
        requires items { self.old.items.count + 1 < 2 ^ 64 }
        ensures { self.new ≡ with_block self.old size }
    {
        if self.depth == 0 {
            self.items.count += 1;
        }
        self.used += size;
    }

    /// A content has ended, so that the next one begins here.
    #[inline(always)]
    pub(super) fn reach_top(&mut self)
        ensures { self.new ≡ content_ended self.old }
    {
        self.items.last = self.used;
    }
}
