//! What comes after a value: the next part of the array, object or descriptor that is open.
ghost use Rattle.std.specs.Prelude.{◌≡◌, ◌∷◌, true};
ghost use Rattle.jser_table.specs.Chains.{has_write_method};
ghost use Rattle.jser_table.specs.Sections.{layer_of, under, IsOn, IsNext};
ghost use Rattle.jser_reading.specs.Goals.{section_parts, annotation_if};
ghost use Rattle.jser_reader.specs.declared.frame.Frame.{Frame};
ghost use Rattle.jser_reader.specs.Frames.{rest_of_section};
ghost use Rattle.jser_reader.specs.Fitting.{FrameFits, HasParts};
ghost use Rattle.jser_reader.specs.Readers.{Ready};
ghost use Rattle.jser_reader.specs.Stacks.{tail_of, HasNoField};
ghost use Rattle.jser_reader.specs.Steps.{Kept, PartGives, GoesOn, FieldGoesOn, after_value};

use crate::frame::Frame;
use crate::machine::Machine;
use crate::phase::Phase;
use jser_table::SectionNumber;

impl Machine {
    /// Begins this section of the object on top.
    #[tactic(auto, using(crate::proofs::PartLemmas::fits_fields, crate::proofs::PartLemmas::fits_notes, crate::proofs::PartLemmas::begins_prims, crate::proofs::PartLemmas::begins_value, crate::proofs::PartLemmas::begins_notes, crate::proofs::LayerLemmas::layers_of_part, crate::proofs::LayerLemmas::parts_are_some))]
    pub(super) fn begin_section(&mut self, last: SectionNumber, section: SectionNumber)
        requires parts { HasParts self.old.frames }
        requires on { IsOn self.old.table.chains last section }
        ensures meter { self.new.meter ≡ self.old.meter }
        ensures parts { HasParts self.new.frames }
        ensures part { PartGives true self.old self.new (section_parts (layer_of self.old.table.chains section ∷ under self.old.table.chains last section)) }
    {
        let held = self.table.section(section);
        if held.prims > 0 {
            self.left = u64::from(self.table.prim_size(section, 0));
            self.frames.set_top(Frame::Fields {
                last,
                section,
                pos: 1,
                prims: held.prims,
                values: held.values,
            });
            self.phase = Phase::Prims;
        } else if held.values > 0 {
            self.frames.set_top(Frame::Fields {
                last,
                section,
                pos: 0,
                prims: 0,
                values: held.values - 1,
            });
            self.phase = Phase::Value;
        } else {
            self.frames.set_top(Frame::Notes { last, section });
            self.phase = Phase::Note;
        }
    }

    /// The section after this one, if there is one. The table's cache may change; contracts do not see it.
    #[inline(always)]
    pub(super) fn section_behind(
        &mut self,
        last: SectionNumber,
        section: SectionNumber,
    ) -> Option<SectionNumber>
        requires { IsOn self.old.table.chains last section }
        ensures next { IsNext self.old.table.chains last section result }
        ensures same { self.new ≡ self.old }
    {
        self.table.pass_section(last, section)
    }

    /// The section after this one, if there is one.
    #[tactic(auto, using(crate::proofs::PartLemmas::no_section, crate::proofs::PartLemmas::one_section))]
    pub(super) fn next_section(&mut self, last: SectionNumber, section: SectionNumber) -> bool
        requires parts { HasParts self.old.frames }
        requires on { IsOn self.old.table.chains last section }
        ensures meter { self.new.meter ≡ self.old.meter }
        ensures parts { HasParts self.new.frames }
        ensures part { PartGives result self.old self.new (section_parts (under self.old.table.chains last section)) }
    {
        match self.section_behind(last, section) {
            None => false,
            Some(next) => {
                self.begin_section(last, next);
                true
            }
        }
    }

    /// After the fields of a section: its annotation, or the section after it.
    #[tactic(auto, using(crate::proofs::PartLemmas::fits_notes, crate::proofs::PartLemmas::ends_in_notes, crate::proofs::PartLemmas::ends_without, crate::proofs::LayerLemmas::layers_of_part, crate::proofs::LayerLemmas::parts_are_some))]
    fn section_end(&mut self, last: SectionNumber, section: SectionNumber) -> bool
        requires parts { HasParts self.old.frames }
        requires on { IsOn self.old.table.chains last section }
        ensures meter { self.new.meter ≡ self.old.meter }
        ensures parts { HasParts self.new.frames }
        ensures part { PartGives result self.old self.new
            (annotation_if (has_write_method (layer_of self.old.table.chains section).flags) (section_parts (under self.old.table.chains last section))) }
    {
        if self.table.section(section).is_annotated {
            self.frames.set_top(Frame::Notes { last, section });
            self.phase = Phase::Note;
            return true;
        }
        self.next_section(last, section)
    }

    /// Expects the next raw value or value of the frame on top; false if none is left.
    #[tactic(auto, using(crate::proofs::PartLemmas::fits_value, crate::proofs::PartLemmas::value_comes, crate::proofs::PartLemmas::fits_raw, crate::proofs::PartLemmas::raw_stands, crate::proofs::PartLemmas::raw_comes, crate::proofs::PartLemmas::none_comes, crate::proofs::LayerLemmas::layers_of_value, crate::proofs::LayerLemmas::layers_of_raw))]
    #[inline(always)]
    fn next_field(&mut self) -> bool
        ensures meter { self.new.meter ≡ self.old.meter }
        ensures field { FieldGoesOn result self.old self.new }
    {
        if self.frames.next_value() {
            self.phase = Phase::Value;
            return true;
        }
        match self.frames.next_raw() {
            None => false,
            Some(raw) => {
                self.left = u64::from(self.table.prim_size(raw.section, raw.pos));
                self.phase = Phase::Prims;
                true
            }
        }
    }

    /// Expects what follows the last value of `frame`, the frame on top. Pops it and answers false if nothing follows.
    #[tactic(auto, using(crate::proofs::PartLemmas::fits_tail, crate::proofs::PartLemmas::after_elements, crate::proofs::PartLemmas::after_section, crate::proofs::PartLemmas::after_sections, crate::proofs::PartLemmas::at_notes, crate::proofs::LayerLemmas::layers_of_tail))]
    fn after_fields(&mut self, frame: Frame) -> bool
        requires top { self.old.frames ≡ frame ∷ tail_of self.old.frames }
        requires fits { FrameFits self.old.table.entries self.old.table.chains frame }
        requires none { HasNoField self.old.frames }
        ensures meter { self.new.meter ≡ self.old.meter }
        ensures goes { GoesOn result self.old self.new }
    {
        match frame {
            Frame::Elements { .. } => {
                self.frames.pop();
                false
            }
            Frame::Fields { last, section, .. } => {
                if self.section_end(last, section) {
                    return true;
                }
                self.frames.pop();
                false
            }
            Frame::Notes { .. } | Frame::ExternalNotes | Frame::Descriptor { .. } => {
                self.phase = Phase::Note;
                true
            }
        }
    }

    /// A value has ended.
    #[tactic(auto, using(crate::proofs::PartLemmas::at_top))]
    #[inline(always)]
    pub(super) fn value_done(&mut self)
        ensures ready { Ready self.new (after_value self.old) }
        ensures kept { Kept self.old self.new }
        ensures meter { self.new.meter ≡ self.old.meter }
    {
        match self.frames.top() {
            None => self.phase = Phase::Top,
            Some(_) => self.frames_done(),
        }
    }

    /// A value has ended. The next field or element of what is on top is found in line.
    #[tactic(auto, using(crate::proofs::PartLemmas::at_top, crate::proofs::PartLemmas::field_ready, crate::proofs::PartLemmas::field_kept, crate::proofs::PartLemmas::field_same, crate::proofs::PartLemmas::none_left))]
    #[inline(always)]
    pub(super) fn value_done_in_line(&mut self)
        ensures ready { Ready self.new (after_value self.old) }
        ensures kept { Kept self.old self.new }
        ensures meter { self.new.meter ≡ self.old.meter }
    {
        match self.frames.top() {
            None => self.phase = Phase::Top,
            Some(_) => {
                if !self.next_field() {
                    self.next_parts();
                }
            }
        }
    }

    /// A value has ended, below the top of the stream.
    #[inline(never)]
    fn frames_done(&mut self)
        ensures ready { Ready self.new (after_value self.old) }
        ensures kept { Kept self.old self.new }
        ensures meter { self.new.meter ≡ self.old.meter }
    {
        self.value_done_in_line();
    }

    /// A value has ended below the top of the stream, the last one of what is on top.
    #[tactic(auto, using(crate::proofs::PartLemmas::at_top, crate::proofs::PartLemmas::comes_at_last, crate::proofs::PartLemmas::kept_on, crate::proofs::PartLemmas::left_over, crate::proofs::PartLemmas::goes_shorter, crate::proofs::PartLemmas::fits_top, crate::proofs::PartLemmas::field_at_last, crate::proofs::PartLemmas::field_kept_on, crate::proofs::PartLemmas::field_same, crate::proofs::PartLemmas::none_left))]
    #[inline(never)]
    fn next_parts(&mut self)
        requires none { HasNoField self.old.frames }
        ensures ready { Ready self.new (after_value self.old) }
        ensures kept { Kept self.old self.new }
        ensures meter { self.new.meter ≡ self.old.meter }
    {
        'frames: while let Some(frame) = self.frames.top() {
            if self.after_fields(frame) {
                return;
            }
            if self.next_field() {
                return;
            }
        }
        self.phase = Phase::Top;
    }
}
