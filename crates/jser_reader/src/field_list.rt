//! The fields of the descriptor that is being read.
ghost use Rattle.std.specs.Prelude.{◌≡◌, ◌<◌, ◌^◌, ◌-◌, ◌++◌, ◌∷◌, [], ◌||◌, false, OnOk, OnErr};
ghost use Rattle.jser_reader.specs.FieldLists.{FieldsRead};

use jser_table::{KeptLayer, LayerKind};
use std::alloc::{AllocError, Global};
use std::marker::Model;

/// The type codes of the fields that have begun, and how many are still to come. Both together are at most 32,767.
#[derive(Drop)]
pub(crate) struct FieldList {
    codes: Vec<u8>,
    left: u16,
    has_object: bool,
}

impl Model for FieldList {
    ghost use Rattle.std.specs.Prelude.{◌+◌, ◌<◌, ◌^◌, length};
    ghost use Rattle.jser_reader.specs.FieldLists.{FieldsRead};

    ghost Value = { FieldsRead };

    ghost view = { λ a. record { codes = a.codes.items; left = a.left; has_object = a.has_object } };

    ghost invariant = { λ a. length a.codes.items + a.left < 2 ^ 15 };
}

impl FieldList {
    /// No fields. Takes no memory.
    pub(crate) fn new(alloc: Global) -> FieldList
        ensures { result ≡ record { codes = []; left = 0; has_object = false } }
    {
        FieldList {
            codes: Vec::new(alloc),
            left: 0,
            has_object: false,
        }
    }

    /// So many fields come next, and none has begun. Takes no memory.
    pub(crate) fn begin(&mut self, count: u16)
        requires { count < 2 ^ 15 }
        ensures { self.new ≡ record { codes = []; left = count; has_object = false } }
    {
        self.codes.clear();
        self.left = count;
        self.has_object = false;
    }

    /// How many fields are still to come.
    pub(crate) fn left(&self) -> u16
        ensures { result ≡ self.now.left }
    {
        self.left
    }

    /// Whether a field has begun that holds an object or an array.
    pub(crate) fn has_object(&self) -> bool
        ensures { result ≡ self.now.has_object }
    {
        self.has_object
    }

    /// A field with this type code begins, where one was still to come.
    pub(crate) fn push(&mut self, code: u8, is_object: bool) -> Result<(), AllocError>
        ensures ok { 0 < self.old.left → OnOk result (self.new ≡ record { codes = self.old.codes ++ (code ∷ []); left = self.old.left - 1; has_object = self.old.has_object || is_object }) }
        ensures err { OnErr result (self.new ≡ self.old) }
    {
        if self.left == 0 {
            return Ok(());
        }
        self.codes.push(code)?;
        self.left -= 1;
        self.has_object = self.has_object || is_object;
        Ok(())
    }

    /// Takes the type codes out, into a layer of this kind with these flags. Takes no memory.
    pub(crate) fn take(&mut self, alloc: Global, kind: LayerKind, flags: u8) -> KeptLayer
        ensures layer { result ≡ record { kind = kind; flags = flags; codes = self.old.codes } }
        ensures rest { self.new ≡ record { codes = []; left = self.old.left; has_object = self.old.has_object } }
    {
        KeptLayer::taking(alloc, kind, flags, &mut self.codes)
    }
}
