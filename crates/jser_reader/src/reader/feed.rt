//! A whole piece, shown to a visitor.
ghost use Rattle.std.specs.Prelude.{◌≡◌, IfOk};
ghost use Rattle.jser_reader.specs.Feeds.{FeedTells, FeedVisits, FeedStays};
ghost use Rattle.jser_reader.specs.FieldsTold.{FieldCases};
ghost use Rattle.jser_reader.specs.ReaderStates.{KeepsWhole};
ghost use Rattle.jser_reader.specs.Showing.{ShowingCases, ShowingSome};
ghost use Rattle.jser_reader.specs.Visits.{whole_size};

use crate::gate::Gate;
use crate::item::{Field, Item, Step, Whole};
use crate::machine::wholes::size_of_field;
use crate::reader::Reader;
use crate::reader::lent::Lent;
use crate::refusal::Stop;
use crate::visit::{FeedFault, Visit, Whereabouts};

impl<G: Gate> Reader<G> {
    /// Takes the whole piece, and shows the visitor its items, each once and in order: as `next` called on the piece, and on what
    /// is left of it, until it answers `More`. A value that is whole in the piece is shown at once, and so is a declared
    /// field with its name. Beside each the visitor is told where it stands.
    ///
    /// It allocates what `next` does; what a visitor allocates is its own.
    ///
    /// # Errors
    ///
    /// `Reader` as `next`, where the visitor was shown the items before. `Visitor` where the visitor stopped: the reader has taken
    /// the item or value that it stopped at, and nothing behind it.
    pub fn feed<V: Visit>(
        &mut self,
        piece: &[u8],
        visitor: &mut V,
    ) -> Result<(), FeedFault<V::Fault>>
        ensures tells { FeedTells (G.told self.old.gate) piece.now result self.old.machine self.old.tally self.new.machine self.new.tally }
        ensures visits { FeedVisits V.takes V.stops (G.told self.old.gate) piece.now result self.old.machine self.old.tally self.new.machine self.new.tally visitor.old visitor.new }
        ensures stays { FeedStays result self.old.machine self.new.machine visitor.old visitor.new }
        ensures keeps { KeepsWhole self.old.machine self.old.tally self.new.machine self.new.tally }
        ensures gate { self.new.gate ≡ self.old.gate }
    {
        if self.machine.is_stopped() {
            return Err(FeedFault::Reader(self.machine.answer()));
        }
        self.feed_on(piece, visitor)
    }

    /// Takes a declared field that comes next, where all its bytes are at the front of the piece; or does nothing.
    #[inline(always)]
    fn next_field<'p>(&mut self, piece: &'p [u8]) -> Option<Field<'p>>
        ensures tells { FieldCases piece.now result self.old.machine self.new.machine }
        ensures tally { self.new.tally ≡ self.old.tally }
        ensures gate { self.new.gate ≡ self.old.gate }
    {
        self.machine.lend_field(piece)
    }

    /// Takes an item of the front of the piece, which is shown as it is.
    #[inline(always)]
    fn show_item<'p>(&mut self, piece: &'p [u8]) -> Result<Showing<'p>, Stop>
        ensures tells { ShowingCases (G.told self.old.gate) piece.now result self.old.machine self.old.tally self.new.machine self.new.tally }
        ensures progress { IfOk result (λ showing. ShowingSome piece.now showing) }
        ensures gate { self.new.gate ≡ self.old.gate }
    {
        match self.next(piece) {
            Err(stop) => Err(stop),
            Ok(Step::More) => Ok(Showing::More),
            Ok(Step::Item { item, used }) => Ok(Showing::Item { item, used }),
        }
    }

    /// Takes some of the front of the piece, which is shown at once: a declared field or a value that is whole there, or an
    /// item. Each kind of visitor has a copy of it (`V`), which is compiled into its loop: as one function for all it took some
    /// 80 instructions more for each string.
    #[inline(always)]
    fn show_next<'p, V: Visit>(&mut self, piece: &'p [u8]) -> Result<Showing<'p>, Stop>
        ensures tells { ShowingCases (G.told self.old.gate) piece.now result self.old.machine self.old.tally self.new.machine self.new.tally }
        ensures progress { IfOk result (λ showing. ShowingSome piece.now showing) }
        ensures gate { self.new.gate ≡ self.old.gate }
    {
        match self.next_field(piece) {
            Some(field) => Ok(Showing::Field(field)),
            None => match self.lend_whole(piece) {
                Lent::Value(whole) => Ok(Showing::Whole(whole)),
                Lent::Stopped => Err(self.machine.answer()),
                Lent::Nothing => self.show_item(piece),
            },
        }
    }

    /// Takes the whole piece with a reader that goes on.
    #[inline(always)]
    fn feed_on<V: Visit>(
        &mut self,
        piece: &[u8],
        visitor: &mut V,
    ) -> Result<(), FeedFault<V::Fault>>
        ensures tells { FeedTells (G.told self.old.gate) piece.now result self.old.machine self.old.tally self.new.machine self.new.tally }
        ensures visits { FeedVisits V.takes V.stops (G.told self.old.gate) piece.now result self.old.machine self.old.tally self.new.machine self.new.tally visitor.old visitor.new }
        ensures gate { self.new.gate ≡ self.old.gate }
    {
        let mut rest = piece;
        'items: loop {
            let handles = self.machine.handles();
            match self.show_next::<V>(rest) {
                Err(stop) => return Err(FeedFault::Reader(stop)),
                Ok(Showing::More) => return Ok(()),
                Ok(Showing::Item { item, used }) => {
                    let (_, after) = rest.split_at(used);
                    match visitor.item(item, self.whereabouts(handles)) {
                        Ok(()) => rest = after,
                        Err(fault) => return Err(FeedFault::Visitor(fault)),
                    }
                }
                Ok(Showing::Whole(whole)) => {
                    let (_, after) = rest.split_at(size_of(whole));
                    match visitor.whole(whole, self.whereabouts(handles)) {
                        Ok(()) => rest = after,
                        Err(fault) => return Err(FeedFault::Visitor(fault)),
                    }
                }
                Ok(Showing::Field(field)) => {
                    let (_, after) = rest.split_at(size_of_field(field));
                    match visitor.field(field, self.whereabouts(handles)) {
                        Ok(()) => rest = after,
                        Err(fault) => return Err(FeedFault::Visitor(fault)),
                    }
                }
            }
        }
    }

    /// The whereabouts of what was just taken; `handles` were assigned before its first token.
    #[inline(always)]
    fn whereabouts(&self, handles: u32) -> Whereabouts
        ensures { result ≡ record { handles = handles; end = self.now.machine.meter.at } }
    {
        Whereabouts {
            handles: u64::from(handles),
            end: self.machine.at(),
        }
    }
}

/// What is shown at once.
#[derive(Clone, Copy)]
enum Showing<'p> {
    /// An item.
    Item {
        /// The item.
        item: Item<'p>,
        /// How many bytes it takes.
        used: usize,
    },
    /// A value that is whole in the piece.
    Whole(Whole<'p>),
    /// A declared field that is whole in the piece.
    Field(Field<'p>),
    /// Nothing: the whole piece was taken, and more bytes are wanted.
    More,
}

/// How many bytes a value has that is lent at once.
#[inline(always)]
fn size_of(whole: Whole<'_>) -> usize
    ensures { result ≡ whole_size whole.entry }
{
    match whole {
        Whole::Reference(_) => 5,
        Whole::String(text) => text.len() + 3,
        Whole::Owner { .. } => 6,
    }
}
