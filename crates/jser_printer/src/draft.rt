//! The name and the fields of the descriptor that is going by. Descriptors do not nest within these.
ghost use Rattle.std.specs.Prelude.{◌≡◌, ◌∷◌, [], OnOk};
ghost use Rattle.jser_shown.specs.Known.{class_layer};
ghost use Rattle.jser_shown.specs.Cues.{fields_done};
ghost use Rattle.jser_printer.specs.Layers.{view_layer};
ghost use Rattle.jser_printer.specs.Names.{view_text};

use crate::layer::{Layer, NamedField};
use crate::name::Name;
use crate::text::Text;
use std::alloc::{AllocError, Global};
use std::marker::Model;
use std::mem;

/// The name and the fields so far.
#[derive(Drop)]
pub(crate) struct Draft {
    alloc: Global,
    name: Name,
    fields: Vec<NamedField>,
}

impl Model for Draft {
    ghost use Rattle.jser_printer.specs.Phases.{DraftView, done_of};

    ghost Value = { DraftView };

    ghost view = { λ a. record { name = a.name; done = done_of a.fields.items } };
}

impl Draft {
    /// No descriptor. Takes no memory.
    pub(crate) fn new(alloc: Global) -> Draft
        ensures name { result.name ≡ [] }
        ensures done { result.done ≡ [] }
    {
        Draft {
            alloc,
            name: Name::empty(alloc),
            fields: Vec::new(alloc),
        }
    }

    /// A descriptor of this name, with no field.
    #[inline(never)]
    pub(crate) fn begin(&mut self, name: Text<'_>) -> Result<(), AllocError>
        ensures name { OnOk result (self.new.name ≡ view_text name.entry) }
    {
        self.name = Name::new(self.alloc, name)?;
        Ok(())
    }

    /// The name.
    pub(crate) fn name(&self) -> &Name
        ensures { result.now ≡ self.now.name }
    {
        &self.name
    }

    /// The fields come.
    pub(crate) fn begin_fields(&mut self)
        ensures name { self.new.name ≡ self.old.name }
        ensures done { self.new.done ≡ [] }
    {
        self.fields.clear();
    }

    /// One field more.
    #[tactic(auto, using(crate::proofs::DraftLemmas::done_push))]
    #[inline(never)]
    pub(crate) fn add_field(&mut self, code: u8, name: Text<'_>) -> Result<(), AllocError>
        ensures name { OnOk result (self.new.name ≡ self.old.name) }
        ensures done { OnOk result (self.new.done ≡ record { code = code; name = view_text name.entry } ∷ self.old.done) }
    {
        let name = Name::new(self.alloc, name)?;
        self.fields.push(NamedField { code, name })?;
        Ok(())
    }

    /// The class with this name and these fields, which are kept no longer. Takes no memory.
    #[tactic(auto, using(crate::proofs::DraftLemmas::done_in_order))]
    pub(crate) fn finish(&mut self, flags: u8) -> Layer
        ensures { view_layer result ≡ class_layer self.old.name flags (fields_done self.old.done []) }
    {
        let name = mem::replace(&mut self.name, Name::empty(self.alloc));
        let fields = mem::replace(&mut self.fields, Vec::new(self.alloc));
        Layer::Class {
            name,
            flags,
            fields,
        }
    }
}
