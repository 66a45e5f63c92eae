//! Where the last item of a piece stands, as a visitor is told.
ghost use Rattle.std.specs.Prelude.{◌≡◌, IfOk, Some};
ghost use Rattle.uses_reader.specs.Standing.{TellsLast};

use crate::showing::NoMore;
use jser_reader::{FeedFault, Gate, Item, Reader, Visit, Whereabouts};

/// A visitor that keeps where the last item stands.
#[derive(Drop)]
pub struct Last {
    /// Where it does, if there was one.
    pub found: Option<Whereabouts>,
}

impl Visit for Last {
    type Fault = NoMore;

    ghost takes = { λ _ at _ new. new.found ≡ Some at };

    fn item(&mut self, _: Item<'_>, whereabouts: Whereabouts) -> Result<(), NoMore> {
        self.found = Some(whereabouts);
        Ok(())
    }
}

/// Takes a piece, and tells where its last item stands: how many handles of the epoch are assigned before its token, and how many
/// bytes of the stream are taken up to its end. `None` where the piece has no item.
///
/// # Errors
///
/// As `feed` of the reader.
pub fn last_of<G: Gate>(
    reader: &mut Reader<G>,
    piece: &[u8],
) -> Result<Option<Whereabouts>, FeedFault<NoMore>>
    ensures { IfOk result (TellsLast (G.told reader.old.gate) piece.now reader.old.machine reader.old.tally) }
{
    let mut last = Last { found: None };
    reader.feed(piece, &mut last)?;
    Ok(last.found)
}
