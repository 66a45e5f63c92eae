//! A printer that went along the first tokens of some bytes, for one who asks what is open at a place.
ghost use Rattle.std.specs.Prelude.{ℕ, List, ◌≡◌, IfOk};
ghost use Rattle.jser_prim.specs.ModifiedUtf8.{IsUnits, modified_utf8};

use crate::decode::decode;
use crate::part::{Part, part_of};
use jser_printer::{Printer, Token};
use jser_reader::{FeedFault, Item, OpenGate, Reader, Stop, Visit, Whereabouts};
use std::alloc::{AllocError, Global};

/// A printer past all tokens of the bytes that end at `to` or before it. It has settled, so it waits for the token that begins
/// there or has that place in it. Where bytes before are refused by every filter, it stops in front of them.
///
/// It takes memory for the names of classes and fields, and for what is open.
///
/// # Errors
///
/// Where memory runs out.
pub fn walk_along(alloc: Global, bytes: &[u8], to: u64) -> Result<Printer<'static>, AllocError> {
    let mut reader = Reader::new(alloc, OpenGate);
    let mut walker = Walker {
        printer: Printer::new(alloc, false, &[]),
        room: Vec::new(alloc),
        to,
    };
    match reader.feed(bytes, &mut walker) {
        Ok(()) => {}
        Err(FeedFault::Reader(Stop::Refused(_))) => {}
        Err(FeedFault::Visitor(Halt::Beyond)) => {}
        Err(_) => return Err(AllocError),
    }
    let Walker { mut printer, .. } = walker;
    printer.settle()?;
    Ok(printer)
}

/// A printer that goes past the items that it is shown, up to a place. `room` is for the units of a text.
#[derive(Drop)]
struct Walker {
    printer: Printer<'static>,
    room: Vec<u16>,
    to: u64,
}

/// Why a walk ends before its bytes do.
#[derive(Clone, Copy)]
enum Halt {
    /// The next item ends behind the place.
    Beyond,
    /// Memory ran out.
    OutOfMemory,
}

impl Visit for Walker {
    type Fault = Halt;

    fn item(&mut self, item: Item<'_>, at: Whereabouts) -> Result<(), Halt> {
        if at.end > self.to {
            return Err(Halt::Beyond);
        }
        match take_part(&mut self.printer, &mut self.room, part_of(item)) {
            Ok(()) => Ok(()),
            Err(AllocError) => Err(Halt::OutOfMemory),
        }
    }
}

/// Goes past a token, with all that is due before it.
fn take_part(
    printer: &mut Printer<'static>,
    room: &mut Vec<u16>,
    part: Part<'_>,
) -> Result<(), AllocError> {
    match part {
        Part::Length => Ok(()),
        Part::Token(token) => printer.pass(token),
        Part::Text(bytes) => {
            let units = decode(bytes, room)?;
            printer.pass(Token::Text(units))
        }
    }
}

/// The UTF-16 units of a text in modified UTF-8. Bytes that are no such text have others.
///
/// # Errors
///
/// Where memory runs out.
pub fn text_units(alloc: Global, bytes: &[u8]) -> Result<Vec<u16>, AllocError>
    ensures { IfOk result (λ units. (told : List ℕ) → IsUnits told → modified_utf8 told ≡ bytes.now → units.items ≡ told) }
{
    let mut room = Vec::new(alloc);
    decode(bytes, &mut room)?.to_vec(alloc)
}
