//! Visitors: what a reader shows the items of a stream to, instead of lending them one by one.
ghost use Rattle.std.specs.Prelude.{◌≡◌, ◌<◌, ◌-◌, ◌^◌, OnOk, IfErr};
ghost use Rattle.jser_reader.specs.declared.item.Item.{Item as LentItem};
ghost use Rattle.jser_reader.specs.declared.visit.Whereabouts.{Whereabouts};
ghost use Rattle.jser_reader.specs.Visits.{TakesAll, StopsAmong, field_items, type_size, whole_items};

use crate::item::{Field, Item, Whole};
use crate::refusal::Stop;
use jser_grammar::wire::{TC_REFERENCE, TC_STRING};

/// Why `Reader::feed` ended before its piece did.
#[derive(Clone, Copy, PartialEq, Eq, Debug)]
pub enum FeedFault<F> {
    /// The reader stopped, as `Reader::next` does.
    Reader(Stop),
    /// The visitor stopped, with this fault.
    Visitor(F),
}

/// Where an item, or a value of several items, stands in a stream.
#[derive(Clone, Copy, PartialEq, Eq, Debug)]
pub struct Whereabouts {
    /// How many handles of the epoch are assigned before its first token.
    pub handles: u64,
    /// How many bytes of the stream are taken up to its end.
    pub end: u64,
}

impl Whereabouts {
    /// The whereabouts of an item that ends `bytes` bytes earlier, with the same handles.
    #[inline(always)]
    fn earlier(self, bytes: u64) -> Whereabouts
        ensures { result ≡ record { handles = self.handles; end = self.end - bytes } }
    {
        Whereabouts {
            handles: self.handles,
            end: self.end.saturating_sub(bytes),
        }
    }
}

/// What is shown the items of a stream by `Reader::feed`, each once and in order.
pub trait Visit {
    /// Why it stops.
    type Fault;

    /// What an item does to it; by default nothing is known.
    ghost takes: { LentItem → Whereabouts → Self → Self → Type 0 } = { λ _ _ _ _. Unit {0} };

    /// What is known where it stops at an item; by default nothing.
    ghost stops: { LentItem → Self.Fault → Self → Self → Type 0 } = { λ _ _ _ _. Unit {0} };

    /// Takes the next item, which stands there.
    ///
    /// # Errors
    ///
    /// Where it wants no more. Nothing is shown after that.
    fn item(&mut self, item: Item<'_>, whereabouts: Whereabouts) -> Result<(), Self::Fault>
        ensures takes { OnOk result (takes item.entry whereabouts self.old self.new) }
        ensures stops { IfErr result (λ fault. stops item.entry fault self.old self.new) };

    /// Takes the items of a value that is whole in the piece: as `item` called for each. A visitor that does the same in fewer
    /// steps has its own.
    ///
    /// # Errors
    ///
    /// As `item`.
    #[inline(always)]
    fn whole(&mut self, whole: Whole<'_>, whereabouts: Whereabouts) -> Result<(), Self::Fault>
        requires { whereabouts.handles < 2 ^ 32 }
        ensures takes { OnOk result (TakesAll takes (whole_items whole.entry whereabouts) self.old self.new) }
        ensures stops { IfErr result (λ fault. StopsAmong takes stops (whole_items whole.entry whereabouts) fault self.old self.new) }
    {
        match whole {
            Whole::Reference(handle) => {
                self.item(Item::Tag(TC_REFERENCE), whereabouts.earlier(4))?;
                self.item(Item::Handle(handle), whereabouts)
            }
            Whole::String(text) => {
                let size = text.len() as u64;
                self.item(Item::Tag(TC_STRING), whereabouts.earlier(size + 2))?;
                let behind_tag = Whereabouts {
                    handles: whereabouts.handles + 1,
                    end: whereabouts.end,
                };
                self.item(Item::TextLength(size), behind_tag.earlier(size))?;
                if text.is_empty() {
                    return Ok(());
                }
                self.item(Item::TextPart(text), behind_tag)
            }
            Whole::Owner { tag, class } => {
                self.item(Item::Tag(tag), whereabouts.earlier(5))?;
                self.item(Item::Tag(TC_REFERENCE), whereabouts.earlier(4))?;
                self.item(Item::Handle(class), whereabouts)
            }
        }
    }

    /// Takes the items of a declared field that is whole in the piece: as `item` called for each. A visitor that does the same
    /// in fewer steps has its own.
    ///
    /// # Errors
    ///
    /// As `item`.
    #[inline(always)]
    fn field(&mut self, field: Field<'_>, whereabouts: Whereabouts) -> Result<(), Self::Fault>
        ensures takes { OnOk result (TakesAll takes (field_items field.entry whereabouts) self.old self.new) }
        ensures stops { IfErr result (λ fault. StopsAmong takes stops (field_items field.entry whereabouts) fault self.old self.new) }
    {
        let size = field.name.len() as u64;
        let name_end = whereabouts.earlier(size_of_type(field.type_handle));
        self.item(Item::TypeCode(field.code), name_end.earlier(size + 2))?;
        self.item(Item::TextLength(size), name_end.earlier(size))?;
        if field.name.is_empty() {
            return match field.type_handle {
                Some(handle) => {
                    self.item(Item::Tag(TC_REFERENCE), whereabouts.earlier(4))?;
                    self.item(Item::Handle(handle), whereabouts)
                }
                None => Ok(()),
            };
        }
        self.item(Item::TextPart(field.name), name_end)?;
        match field.type_handle {
            Some(handle) => {
                self.item(Item::Tag(TC_REFERENCE), whereabouts.earlier(4))?;
                self.item(Item::Handle(handle), whereabouts)
            }
            None => Ok(()),
        }
    }
}

/// How many bytes the type of a declared field has, where that is a reference with this handle.
#[inline(always)]
fn size_of_type(handle: Option<u32>) -> u64
    ensures { result ≡ type_size handle }
{
    match handle {
        Some(_) => 5,
        None => 0,
    }
}
