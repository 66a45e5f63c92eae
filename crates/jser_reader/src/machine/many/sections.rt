//! The sections of an object: their raw values are taken together, as far as values or an annotation come.
ghost use Rattle.std.specs.Prelude.{◌≡◌, ◌∷◌, ◌≤◌};
ghost use Rattle.jser_table.specs.Sections.{layer_of, under, IsOn};
ghost use Rattle.jser_reading.specs.Goals.{section_parts};
ghost use Rattle.jser_reader.specs.Many.{Begins, parts_behind};

use crate::frame::Frame;
use crate::machine::Machine;
use jser_table::SectionNumber;

/// Where the raw values of an object's sections lead.
#[derive(Clone, Copy)]
pub(super) enum Began {
    /// So many bytes of raw values, and then values or an annotation, where this frame is on top.
    Open { used: usize, frame: Frame },
    /// So many bytes of raw values, and nothing more.
    Ended { used: usize },
    /// More raw values than are there.
    Short,
}

impl Machine {
    /// Goes over the raw values of the sections from `first` on, within `room` bytes, up to the first value or annotation.
    #[tactic(auto, using(crate::proofs::ManySections::no_raws, crate::proofs::ManySections::began_short))]
    #[inline(always)]
    pub(super) fn sections_from(
        &mut self,
        last: SectionNumber,
        first: SectionNumber,
        room: usize,
    ) -> Began
        requires { IsOn self.old.table.chains last first }
        ensures begins { Begins self.old.table.chains (section_parts (layer_of self.old.table.chains first ∷ under self.old.table.chains last first)) room result }
        ensures same { self.new ≡ self.old }
    {
        let mut used = 0;
        let mut section = first;
        'sections: loop {
            let held = self.table.section(section);
            let raws = held.raw_bytes as usize;
            if raws > room - used {
                return Began::Short;
            }
            used += raws;
            if held.values > 0 {
                let frame = Frame::Fields {
                    last,
                    section,
                    pos: held.prims,
                    prims: held.prims,
                    values: held.values - 1,
                };
                return Began::Open { used, frame };
            }
            if held.is_annotated {
                let frame = Frame::Notes { last, section };
                return Began::Open { used, frame };
            }
            match self.section_behind(last, section) {
                None => return Began::Ended { used },
                Some(next) => section = next,
            }
        }
    }

    /// What the sections after this one come to, where so many bytes are there.
    #[tactic(auto, using(crate::proofs::ManySections::none_after, crate::proofs::ManySections::some_after))]
    #[inline(always)]
    pub(super) fn sections_after(
        &mut self,
        last: SectionNumber,
        section: SectionNumber,
        room: usize,
    ) -> Began
        requires { IsOn self.old.table.chains last section }
        ensures begins { Begins self.old.table.chains (section_parts (under self.old.table.chains last section)) room result }
        ensures same { self.new ≡ self.old }
    {
        match self.section_behind(last, section) {
            None => Began::Ended { used: 0 },
            Some(next) => self.sections_from(last, next, room),
        }
    }

    /// What comes after the fields of this section, its annotation first, if it has one, where so many bytes are there.
    #[tactic(auto, using(crate::proofs::ManySections::notes_after, crate::proofs::ManySections::sections_behind))]
    #[inline(always)]
    pub(super) fn after_section(
        &mut self,
        last: SectionNumber,
        section: SectionNumber,
        room: usize,
    ) -> Began
        requires { IsOn self.old.table.chains last section }
        ensures begins { Begins self.old.table.chains (parts_behind self.old.table.chains last section) room result }
        ensures same { self.new ≡ self.old }
    {
        let held = self.table.section(section);
        if held.is_annotated {
            let frame = Frame::Notes { last, section };
            return Began::Open { used: 0, frame };
        }
        self.sections_after(last, section, room)
    }
}
