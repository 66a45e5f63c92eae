//! The names that are counted along the items of a stream in pieces, and the length of its longest array.
ghost use Rattle.std.specs.Prelude.{◌≡◌, ℕ, [], false, OnOk};
ghost use Rattle.jser_reader.specs.Visits.{TakesAll, name_items, type_items};
ghost use Rattle.jser_names.specs.Standing.{Adds, Closes, ClosesName, ClosesThen, Takes, begun};

use crate::counts::NameCounts;
use crate::keyed::Keyed;
use jser_grammar::wire::{TC_CLASSDESC, TC_REFERENCE};
use jser_reader::{Field, Item, Visit, Whereabouts, Whole};
use std::alloc::{AllocError, Global};
use std::marker::Model;

/// The names so far, and the bytes of one that is being read.
#[derive(Drop)]
pub(crate) struct Collector {
    names: NameCounts,
    /// How many of the next texts are names.
    left: u32,
    /// Whether a name is being read.
    is_open: bool,
    text: Vec<u8>,
    /// Room for the units of a name.
    units: Vec<u16>,
    /// The length of the longest array so far; 0 where there was none.
    longest: u32,
}

impl Model for Collector {
    ghost use Rattle.jser_names.specs.Standing.{Names};

    ghost Value = { Names };

    ghost view = { λ a. record {
      names = a.names;
      left = a.left;
      is_open = a.is_open;
      text = a.text.items;
      longest = a.longest;
    } };
}

impl Collector {
    /// No names, which are counted under this key. Takes no memory.
    pub(crate) fn new(alloc: Global, keyed: Keyed) -> Collector
        ensures { result ≡ record { names = []; left = 0; is_open = false; text = []; longest = 0 } }
    {
        Collector {
            names: NameCounts::new(alloc, keyed),
            left: 0,
            is_open: false,
            text: Vec::new(alloc),
            units: Vec::new(alloc),
            longest: 0,
        }
    }

    /// Keeps bytes of a text, if it is a name.
    fn add(&mut self, bytes: &[u8]) -> Result<(), AllocError>
        ensures { OnOk result (Adds self.old.is_open bytes.now self.old self.new) }
    {
        if !self.is_open {
            return Ok(());
        }
        self.text.extend_from_slice(bytes)
    }

    /// A text begins.
    fn begin(&mut self)
        ensures { self.new ≡ begun self.old }
    {
        if self.left != 0 {
            self.is_open = true;
            self.text.clear();
        }
    }

    /// Counts the name that was being read.
    #[tactic(auto, using(crate::proofs::CollectorLemmas::closes_name))]
    #[inline(never)]
    fn count(&mut self) -> Result<(), AllocError>
        ensures { OnOk result (ClosesName self.old self.new) }
    {
        self.names.count_text(&self.text, &mut self.units)?;
        self.left = self.left.saturating_sub(1);
        self.is_open = false;
        Ok(())
    }

    /// Where a name was being read, it is counted: other items come.
    #[inline(always)]
    pub(crate) fn close(&mut self) -> Result<(), AllocError>
        ensures { OnOk result (Closes self.old.is_open self.old self.new) }
    {
        if !self.is_open {
            return Ok(());
        }
        self.count()
    }

    /// Takes the items of the name of a declared field. It is a name only if one comes next, and in a stream none does.
    #[inline(never)]
    fn field_name(&mut self, name: &[u8], whereabouts: Whereabouts) -> Result<(), AllocError>
        ensures { OnOk result ((handles end : ℕ) → TakesAll (λ lent _ old new. Takes lent old new) (name_items name.entry handles end) self.old self.new) }
    {
        self.item(Item::TextLength(name.len() as u64), whereabouts)?;
        if name.is_empty() {
            return Ok(());
        }
        self.item(Item::TextPart(name), whereabouts)
    }

    /// Takes the items of the type of a declared field, where that is a reference with this handle.
    #[inline(never)]
    fn field_type(
        &mut self,
        handle: Option<u32>,
        whereabouts: Whereabouts,
    ) -> Result<(), AllocError>
        ensures { OnOk result ((handles end : ℕ) → TakesAll (λ lent _ old new. Takes lent old new) (type_items handle handles end) self.old self.new) }
    {
        match handle {
            Some(handle) => {
                self.item(Item::Tag(TC_REFERENCE), whereabouts)?;
                self.item(Item::Handle(handle), whereabouts)
            }
            None => Ok(()),
        }
    }

    /// The length of the longest array; 0 where there is none.
    pub(crate) fn longest(&self) -> u32
        ensures { result ≡ self.now.longest }
    {
        self.longest
    }

    /// The names.
    pub(crate) fn into_names(self) -> NameCounts
        ensures { result ≡ self.names }
    {
        self.names
    }
}

impl Visit for Collector {
    type Fault = AllocError;

    ghost takes = { λ item _ old new. Takes item old new };

    ghost stops = { λ _ _ _ _. Unit {0} };

    #[inline(always)]
    fn item(&mut self, item: Item<'_>, _: Whereabouts) -> Result<(), AllocError> {
        match item {
            Item::TextPart(part) => self.add(part),
            Item::TextLength(_) => {
                self.close()?;
                self.begin();
                Ok(())
            }
            Item::Tag(tag) => {
                self.close()?;
                self.left = u32::from(tag == TC_CLASSDESC);
                Ok(())
            }
            Item::InterfaceCount(count) => {
                self.close()?;
                self.left = count;
                Ok(())
            }
            Item::ArrayLength(length) => {
                self.close()?;
                self.longest = self.longest.max(length);
                Ok(())
            }
            Item::Header => self.close(),
            Item::Handle(_) => self.close(),
            Item::Suid(_) => self.close(),
            Item::Flags(_) => self.close(),
            Item::FieldCount(_) => self.close(),
            Item::TypeCode(_) => self.close(),
            Item::BlockLength(_) => self.close(),
            Item::RawPart(_) => self.close(),
        }
    }

    /// No name is in it.
    #[tactic(auto, using(crate::proofs::LentLemmas::passes_whole))]
    #[inline(always)]
    fn whole(&mut self, _: Whole<'_>, _: Whereabouts) -> Result<(), AllocError> {
        self.close()?;
        self.left = 0;
        Ok(())
    }

    /// No name is in it, where none comes next.
    #[tactic(auto, using(crate::proofs::LentLemmas::passes_field))]
    #[inline(always)]
    fn field(&mut self, field: Field<'_>, whereabouts: Whereabouts) -> Result<(), AllocError> {
        self.item(Item::TypeCode(field.code), whereabouts)?;
        if self.left == 0 {
            return Ok(());
        }
        self.field_name(field.name, whereabouts)?;
        self.field_type(field.type_handle, whereabouts)
    }
}
