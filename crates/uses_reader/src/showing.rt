//! What is known of a visitor that is shown a piece.
ghost use Rattle.std.specs.Prelude.{◌≡◌, ◌+◌, Err};
ghost use Rattle.jser_reader.specs.ReaderStates.{HasRefused, IsSpent};
ghost use Rattle.jser_reader.specs.declared.Refusal.{Refusal};
ghost use Rattle.uses_reader.specs.Showing.{ShowsAtMost};

use jser_reader::{FeedFault, Gate, Item, Reader, Stop, Visit, Whereabouts, Whole};

/// A visitor that takes so many items and no more.
#[derive(Drop)]
pub struct Few {
    /// How many it takes yet.
    pub left: u64,
}

/// It takes no more items.
#[derive(Clone, Copy, PartialEq, Eq, Debug)]
pub struct NoMore;

impl Visit for Few {
    type Fault = NoMore;

    ghost takes = { λ _ _ old new. old.left ≡ new.left + 1 };

    ghost stops = { λ _ _ old _. old.left ≡ 0 };

    fn item(&mut self, _: Item<'_>, _: Whereabouts) -> Result<(), NoMore> {
        match self.left.checked_sub(1) {
            Some(left) => {
                self.left = left;
                Ok(())
            }
            None => Err(NoMore),
        }
    }
}

/// A visitor that counts the values which it is shown at once.
#[derive(Drop)]
pub struct Wholes {
    /// How many there were.
    pub count: u64,
}

impl Visit for Wholes {
    type Fault = NoMore;

    fn item(&mut self, _: Item<'_>, _: Whereabouts) -> Result<(), NoMore> {
        Ok(())
    }

    #[tactic(auto, using(crate::proofs::ShowingLemmas::takes_any))]
    fn whole(&mut self, _: Whole<'_>, _: Whereabouts) -> Result<(), NoMore> {
        self.count = self.count.saturating_add(1);
        Ok(())
    }
}

/// What a reader that has stopped answers to a piece that it is to show: what it answered before; and it shows nothing.
#[tactic(auto, using(crate::proofs::ShowingLemmas::stays_refused, crate::proofs::ShowingLemmas::stays_spent))]
pub fn feed_again<G: Gate, V: Visit>(
    reader: &mut Reader<G>,
    piece: &[u8],
    visitor: &mut V,
) -> Result<(), FeedFault<V::Fault>>
    ensures refused { (refusal : Refusal) → HasRefused refusal reader.old.machine
        → (result ≡ Err (FeedFault.Reader (Stop.Refused refusal))) × (visitor.new ≡ visitor.old) }
    ensures spent { IsSpent reader.old.machine → (result ≡ Err (FeedFault.Reader Stop.Spent)) × (visitor.new ≡ visitor.old) }
{
    reader.feed(piece, visitor)
}

/// Shows the items of a piece to a visitor that takes so many at most.
///
/// # Errors
///
/// As `feed` of the reader.
pub fn show_at_most<G: Gate>(
    reader: &mut Reader<G>,
    piece: &[u8],
    most: u64,
) -> Result<(), FeedFault<NoMore>>
    ensures { ShowsAtMost (G.told reader.old.gate) piece.now most result reader.old.machine reader.old.tally }
{
    let mut few = Few { left: most };
    reader.feed(piece, &mut few)
}
