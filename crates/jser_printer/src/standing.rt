//! Where a printer stands, but for its phase: the epoch and its handles, the owners that are still to come, and what is
//! open.
ghost use Rattle.std.specs.Prelude.{◌≡◌, ◌∷◌, ◌+◌, [], true, length, Some, None, OnOk, IfOk};
ghost use Rattle.jser_shown.specs.Cues.{top_cue, teller, made_cue, class_cue, elements_cue, note_cue, super_cue, rest_of_desc};
ghost use Rattle.jser_shown.specs.Known.{with_entry, known_pending, known_text};
ghost use Rattle.jser_shown.specs.Telling.{first_owner, without_first, begin, class_tag_goes};
ghost use Rattle.jser_printer.specs.Given.{view_owner, view_node, view_nodes};
ghost use Rattle.jser_shown.specs.Words.{first_epoch};
ghost use Rattle.jser_printer.specs.Layers.{view_layer};
ghost use Rattle.jser_printer.specs.Primitives.{view_elements};
ghost use Rattle.jser_printer.specs.Seen.{view_tag};
ghost use Rattle.jser_printer.specs.Phases.{StandsIn};

mod passing;
mod places;
mod taking;

use crate::frame::{Elements, Frame, SuperPlace};
use crate::layer::Layer;
use crate::owner::{Owner, OwnerNode};
use crate::phase::{Head, Phase};
use crate::primitive::Primitive;
use crate::seen::Tag;
use crate::stack::Stack;
use crate::table::NameTable;
use std::alloc::{AllocError, Global};
use std::marker::Model;

/// Where a printer stands, but for its phase.
#[derive(Drop)]
pub(crate) struct Standing<'a> {
    pub(crate) epoch: u64,
    /// Whether raw values are followed by what they mean.
    pub(crate) values: bool,
    pub(crate) owners: &'a [OwnerNode],
    pub(crate) table: NameTable,
    pub(crate) frames: Stack,
}

impl<'a> Model for Standing<'a> {
    ghost use Rattle.std.specs.Prelude.{length};
    ghost use Rattle.jser_shown.specs.Cues.{Teller, teller};
    ghost use Rattle.jser_printer.specs.Given.{view_nodes};
    ghost use Rattle.jser_printer.specs.Frames.{cues_of, FramesFit};

    ghost Value = { Teller };

    ghost view = { λ a. teller (record { number = a.epoch; values = a.values }) a.table.known (view_nodes a.owners.now) (cues_of a.table.layers a.table.chains a.frames) };

    ghost invariant = { λ a. FramesFit (length a.table.layers) (length a.table.chains) a.frames };
}

/// One level deeper.
///
/// # Errors
///
/// Where the level is the greatest number; no stream has so many levels.
#[inline(always)]
pub(crate) fn deeper(level: u64) -> Result<u64, AllocError>
    ensures { IfOk result (λ inner. inner ≡ level + 1) }
{
    level.checked_add(1).ok_or(AllocError)
}

impl<'a> Standing<'a> {
    /// At the top of a stream. Takes no memory.
    pub(crate) fn new(alloc: Global, values: bool, owners: &'a [OwnerNode]) -> Standing<'a>
        ensures { result ≡ teller (first_epoch values) [] (view_nodes owners.now) (top_cue ∷ []) }
    {
        Standing {
            epoch: 0,
            values,
            owners,
            table: NameTable::new(alloc),
            frames: Stack::new(alloc),
        }
    }

    /// The number of the epoch.
    #[inline(always)]
    pub(crate) fn epoch(&self) -> u64
        ensures { result ≡ self.now.epoch.number }
    {
        self.epoch
    }

    /// Whether raw values are followed by what they mean.
    #[inline(always)]
    pub(crate) fn values(&self) -> bool
        ensures { result ≡ self.now.epoch.values }
    {
        self.values
    }

    /// How many handles of the epoch are assigned.
    #[inline(always)]
    pub(crate) fn count(&self) -> usize
        ensures { result ≡ length self.now.known }
    {
        self.table.count()
    }

    /// The owner whose tag comes next, or one of zeros.
    #[inline(always)]
    pub(crate) fn first_owner(&self) -> OwnerNode
        ensures { view_node result ≡ first_owner self.now.owners }
    {
        match self.owners.first() {
            Some(owner) => *owner,
            None => OwnerNode {
                number: 0,
                elements: 0,
            },
        }
    }

    /// Assigns the next handle to a string.
    #[inline(always)]
    pub(crate) fn add_text(&mut self) -> Result<(), AllocError>
        ensures { OnOk result (self.new ≡ teller self.old.epoch (with_entry self.old.known known_text) self.old.owners self.old.cues) }
    {
        self.table.add_text()
    }

    /// Assigns the next handle to a descriptor, and gives its number.
    #[inline(never)]
    pub(crate) fn add_descriptor(&mut self) -> Result<usize, AllocError>
        ensures added { OnOk result (self.new ≡ teller self.old.epoch (with_entry self.old.known known_pending) self.old.owners self.old.cues) }
        ensures number { IfOk result (λ number. number ≡ length self.old.known) }
    {
        let number = self.table.count();
        self.table.add_pending()?;
        Ok(number)
    }

    /// The class place of an owner has ended: its class is the one with this number.
    #[inline(always)]
    pub(crate) fn end_class(
        &mut self,
        owner: Owner,
        level: u64,
        number: usize,
    ) -> Result<(), AllocError>
        ensures { OnOk result (self.new ≡ teller self.old.epoch self.old.known self.old.owners (made_cue (view_owner owner) level number ∷ self.old.cues)) }
    {
        self.frames.push(Frame::Made {
            owner,
            level,
            number,
        })
    }

    /// The elements of an array come.
    pub(crate) fn begin_elements(
        &mut self,
        level: u64,
        elements: Option<Primitive>,
        left: u32,
    ) -> Result<(), AllocError>
        ensures { OnOk result (self.new ≡ teller self.old.epoch self.old.known self.old.owners (elements_cue level (view_elements elements) 0 left ∷ self.old.cues)) }
    {
        self.frames.push(Frame::Elements(Elements {
            level,
            elements,
            index: 0,
            left,
        }))
    }

    /// The fields or interfaces of a descriptor have ended: its annotation and its superclass come.
    pub(crate) fn end_fields(&mut self, head: Head, layer: Layer) -> Result<(), AllocError>
        ensures { OnOk result (self.new ≡ teller self.old.epoch self.old.known self.old.owners (rest_of_desc head.level head.number (view_layer layer) self.old.cues)) }
    {
        self.begin_super(head, layer)?;
        self.begin_notes(head.level)
    }

    /// A superclass place comes.
    #[tactic(auto, using(crate::proofs::FrameLemmas::super_pushed, crate::proofs::FrameLemmas::fit_more_layers, crate::proofs::FrameLemmas::super_fits))]
    fn begin_super(&mut self, head: Head, layer: Layer) -> Result<(), AllocError>
        ensures { OnOk result (self.new ≡ teller self.old.epoch self.old.known self.old.owners (super_cue head.level head.number (view_layer layer) ∷ self.old.cues)) }
    {
        let layer = self.table.add_layer(layer)?;
        self.frames.push(Frame::Super(SuperPlace {
            level: head.level,
            number: head.number,
            layer,
        }))?;
        Ok(())
    }

    /// The contents of an annotation come.
    pub(crate) fn begin_notes(&mut self, level: u64) -> Result<(), AllocError>
        ensures { OnOk result (self.new ≡ teller self.old.epoch self.old.known self.old.owners (note_cue level ∷ self.old.cues)) }
    {
        self.frames.push(Frame::Notes { level })
    }

    /// The tag of a value.
    #[inline(always)]
    pub(crate) fn begin(&mut self, level: u64, tag: Tag) -> Result<Phase, AllocError>
        ensures { IfOk result (λ phase. StandsIn phase self.new (begin self.old.epoch level self.old.known self.old.owners (view_tag tag) self.old.cues)) }
    {
        match tag {
            Tag::Null => Ok(Phase::Frames),
            Tag::Reference => Ok(Phase::Handle),
            Tag::ClassDesc => Ok(Phase::ClassName {
                level: deeper(level)?,
            }),
            Tag::ProxyDesc => {
                let level = deeper(level)?;
                let number = self.add_descriptor()?;
                Ok(Phase::InterfaceCount {
                    head: Head { level, number },
                })
            }
            Tag::String | Tag::LongString => {
                self.add_text()?;
                Ok(Phase::Text)
            }
            Tag::Object => self.begin_owner(Owner::Object, level),
            Tag::Array => self.begin_owner(Owner::Array, level),
            Tag::Class => self.begin_owner(Owner::ClassObject, level),
            Tag::Enum => self.begin_owner(Owner::EnumConst, level),
        }
    }

    /// The tag of an owner: its class place comes, one level deeper.
    #[inline(always)]
    fn begin_owner(&mut self, owner: Owner, level: u64) -> Result<Phase, AllocError>
        ensures { IfOk result (λ phase. StandsIn phase self.new (teller self.old.epoch self.old.known (without_first self.old.owners) (class_cue (view_owner owner) (level + 1) ∷ self.old.cues))) }
    {
        let level = deeper(level)?;
        if let Some((_, others)) = self.owners.split_first() {
            self.owners = others;
        }
        Ok(Phase::Class { owner, level })
    }

    /// The tag in the class place of an owner.
    #[inline(always)]
    pub(crate) fn begin_class(
        &mut self,
        owner: Owner,
        level: u64,
        tag: Tag,
    ) -> Result<Phase, AllocError>
        ensures { IfOk result (λ phase. StandsIn phase self.new (class_tag_goes self.old.epoch self.old.known self.old.owners self.old.cues (view_owner owner) level (view_tag tag))) }
    {
        match tag {
            Tag::ClassDesc => {
                let inner = deeper(level)?;
                let number = self.table.count();
                self.end_class(owner, level, number)?;
                Ok(Phase::ClassName { level: inner })
            }
            Tag::ProxyDesc => {
                let inner = deeper(level)?;
                let number = self.add_descriptor()?;
                self.end_class(owner, level, number)?;
                Ok(Phase::InterfaceCount {
                    head: Head {
                        level: inner,
                        number,
                    },
                })
            }
            _ => Ok(Phase::ClassHandle { owner, level }),
        }
    }
}
