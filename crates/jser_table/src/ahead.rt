//! Sections of an object's data that come one after another, kept from one walk up for the steps that come next.
ghost use Rattle.std.specs.Prelude.{◌≡◌, ◌<◌, ◌+◌, [], ◌∷◌, ◌++◌, length, Some, slice_get, IfSome};
ghost use Rattle.jser_table.specs.Aheads.{IsKept};

use arrayvec::ArrayVec;

/// How many sections are kept at most.
pub(crate) const AHEAD: usize = 16;

/// Sections of an object's data that come one after another.
#[derive(Drop)]
pub(crate) struct Ahead {
    /// The last section of these data.
    last: u32,
    /// How many sections the data have above the lowest one that is kept.
    lowest: u32,
    /// Those that are kept, the lowest of them first.
    sections: ArrayVec<u32, AHEAD>,
}

impl Ahead {
    /// None.
    pub(crate) fn new() -> Ahead
        ensures { result.sections.items ≡ [] }
    {
        Ahead {
            last: 0,
            lowest: 0,
            sections: ArrayVec::new(),
        }
    }

    /// Forgets them.
    pub(crate) fn clear(&mut self)
        ensures { self.new.sections.items ≡ [] }
    {
        if !self.sections.is_empty() {
            self.sections.clear();
        }
    }

    /// Forgets them, and is ready for those of the data that end with the section `last`, from the one up that has `lowest`
    /// above it.
    pub(crate) fn begin(&mut self, last: u32, lowest: u32)
        ensures last { self.new.last ≡ last }
        ensures lowest { self.new.lowest ≡ lowest }
        ensures none { self.new.sections.items ≡ [] }
    {
        self.last = last;
        self.lowest = lowest;
        self.sections.clear();
    }

    /// Keeps this section too, the one above those that are kept.
    pub(crate) fn push(&mut self, section: u32)
        requires { length self.old.sections.items < AHEAD }
        ensures last { self.new.last ≡ self.old.last }
        ensures lowest { self.new.lowest ≡ self.old.lowest }
        ensures sections { self.new.sections.items ≡ self.old.sections.items ++ section ∷ [] }
    {
        self.sections.push(section);
    }

    /// The section that has `before` others above it in the data that end with the section `last`, where it is kept.
    pub(crate) fn get(&self, last: u32, before: u32) -> Option<u32>
        ensures { IfSome result (λ section. IsKept self.now last before section) }
    {
        if self.last != last || before > self.lowest {
            return None;
        }
        let place = (self.lowest - before) as usize;
        self.sections.as_slice().get(place).copied()
    }
}
