//! Values that the reader lends at once, as the survey goes past them: a reference, a string, and the beginning of what has a class,
//! where that is a reference.
ghost use Rattle.std.specs.Prelude.{◌<◌, ◌^◌, OnOk};
ghost use Rattle.jser_index.specs.Surveying.{AddsString, GoesPastWhole};

use crate::survey::Survey;
use jser_grammar::wire::{TC_REFERENCE, TC_STRING};
use jser_reader::Whole;
use std::alloc::AllocError;

impl Survey {
    /// Goes past a value that is lent at once, and ends at this place of the stream; before it so many handles of the epoch
    /// were assigned. `units` is room for those of a text.
    #[inline(always)]
    pub(crate) fn whole(
        &mut self,
        whole: Whole<'_>,
        units: &mut Vec<u16>,
        assigned: usize,
        end: u64,
    ) -> Result<(), AllocError>
        requires { assigned < 2 ^ 32 }
        ensures { OnOk result (GoesPastWhole whole.entry assigned end self.old self.new) }
    {
        match whole {
            Whole::Reference(handle) => self.reference(handle, assigned, end),
            Whole::String(text) => self.string(text, units, assigned, end),
            Whole::Owner { tag, class } => self.owner(tag, class, assigned, end),
        }
    }

    /// Goes past a reference.
    #[tactic(auto, using(crate::proofs::ReferenceLemmas::reference_unmade))]
    #[inline(always)]
    fn reference(&mut self, handle: u32, assigned: usize, end: u64) -> Result<(), AllocError>
        ensures { OnOk result (GoesPastWhole (Whole.Reference handle) assigned end self.old self.new) }
    {
        if self.is_due(assigned) {
            return self.reference_due(handle, assigned, end);
        }
        self.is_name = true;
        self.place = end;
        Ok(())
    }

    /// Goes past the tag and the handle of a reference, one after the other.
    #[tactic(auto, using(crate::proofs::WholeLemmas::past_reference))]
    #[inline(never)]
    fn reference_due(&mut self, handle: u32, assigned: usize, end: u64) -> Result<(), AllocError>
        ensures { OnOk result (GoesPastWhole (Whole.Reference handle) assigned end self.old self.new) }
    {
        let _ = handle;
        self.tag(TC_REFERENCE, assigned, end.saturating_sub(4))?;
        self.pass(assigned, end)
    }

    /// Goes past the tag of what has a class, and the reference that is its class.
    #[tactic(auto, using(crate::proofs::WholeLemmas::past_owner))]
    #[inline(always)]
    fn owner(&mut self, tag: u8, class: u32, assigned: usize, end: u64) -> Result<(), AllocError>
        ensures { OnOk result (GoesPastWhole (Whole.Owner tag class) assigned end self.old self.new) }
    {
        self.tag(tag, assigned, end.saturating_sub(5))?;
        self.reference(class, assigned, end)
    }

    /// Goes past a string. Its node is made at its text, so it is made at once, and no tag has to wait for it.
    #[inline(always)]
    fn string(
        &mut self,
        text: &[u8],
        units: &mut Vec<u16>,
        assigned: usize,
        end: u64,
    ) -> Result<(), AllocError>
        requires { assigned < 2 ^ 32 }
        ensures { OnOk result (GoesPastWhole (Whole.String text.entry) assigned end self.old self.new) }
    {
        if self.nodes.count() > assigned {
            return self.string_ahead(text, units, assigned, end);
        }
        if self.is_due(assigned) {
            self.make_plain()?;
        }
        self.add_string(text, units, end)
    }

    /// Makes the node of a string whose tag comes next, and which ends at this place of the stream.
    #[inline(always)]
    fn add_string(&mut self, text: &[u8], units: &mut Vec<u16>, end: u64) -> Result<(), AllocError>
        ensures { OnOk result (AddsString text.now end self.old self.new) }
    {
        self.nodes.push_string(text, units, self.place)?;
        self.is_name = true;
        self.place = end;
        Ok(())
    }

    /// Goes past the tag and the text of a string, one after the other.
    #[cold]
    #[inline(never)]
    fn string_ahead(
        &mut self,
        text: &[u8],
        units: &mut Vec<u16>,
        assigned: usize,
        end: u64,
    ) -> Result<(), AllocError>
        requires { assigned < 2 ^ 32 }
        ensures { OnOk result (GoesPastWhole (Whole.String text.entry) assigned end self.old self.new) }
    {
        self.tag(
            TC_STRING,
            assigned,
            end.saturating_sub(text.len() as u64 + 2),
        )?;
        self.text(text, units, assigned + 1, end)
    }
}
