//! What is found along the bytes of a stream: its names, its counts and the length of its longest array.
ghost use Rattle.std.specs.Prelude.{◌≡◌, []};
ghost use Rattle.jser_names.specs.Finds.{Finds};
ghost use Rattle.jser_names.specs.Found.{HasFound};
ghost use Rattle.jser_names.specs.Standing.{Stands};

use crate::collector::Collector;
use crate::counts::NameCounts;
use crate::keyed::Keyed;
use crate::laws::{lengths_are_measured, names_are_collected};
use crate::taker::Taker;
use jser_reader::{FeedFault, OpenGate, Reader, Stop, Totals};
use jser_reading::laws::one_reading;
use std::alloc::{AllocError, Global};

/// What is found along a stream.
#[derive(Drop)]
pub struct Found {
    /// Its checked names.
    pub names: NameCounts,
    /// Its counts.
    pub totals: Totals,
    /// The length of its longest array; 0 where it has none.
    pub longest: u32,
}

/// Goes once along bytes that are one stream within the greatest limits, and finds its checked names, its counts and the length
/// of its longest array. No class names are refused. They are counted under this key, which changes no answer.
///
/// What it allocates is the different names, what a reader does, and room for the bytes of one name.
///
/// # Errors
///
/// `Refused` where the bytes are no such stream, with the first fault. `OutOfMemory` where memory ran out. Never `Spent`.
pub fn names_in(alloc: Global, keyed: Keyed, bytes: &[u8]) -> Result<Found, Stop>
    ensures { Finds bytes.now result }
{
    let mut naming = Naming::new(alloc, keyed);
    match naming.take(bytes) {
        Ok(()) => naming.end(),
        Err(stop) => Err(stop),
    }
}

/// The names of a stream that comes in pieces, with its reader.
#[derive(Drop)]
pub(crate) struct Naming {
    reader: Reader<OpenGate>,
    names: Collector,
}

impl Naming {
    /// No names of a stream of which nothing was taken. Takes no memory.
    #[tactic(auto, using(crate::proofs::FoundLemmas::nothing_taken))]
    pub(crate) fn new(alloc: Global, keyed: Keyed) -> Naming
        ensures { Stands [] result.reader.machine result.reader.tally result.names }
    {
        Naming {
            reader: Reader::new(alloc, OpenGate),
            names: Collector::new(alloc, keyed),
        }
    }
}

impl Taker for Naming {
    type Found = Found;

    ghost took = { λ taken naming. Stands taken naming.reader.machine naming.reader.tally naming.names };

    ghost finds = { HasFound };

    #[tactic(auto, using(crate::proofs::PieceLemmas::fed_all))]
    fn take(&mut self, piece: &[u8]) -> Result<(), Stop> {
        match self.reader.feed(piece, &mut self.names) {
            Ok(()) => Ok(()),
            Err(FeedFault::Reader(stop)) => Err(stop),
            Err(FeedFault::Visitor(AllocError)) => Err(Stop::OutOfMemory),
        }
    }

    fn end(self) -> Result<Found, Stop> {
        names_are_collected();
        lengths_are_measured();
        one_reading();
        let Naming {
            mut reader,
            mut names,
        } = self;
        if names.close().is_err() {
            return Err(Stop::OutOfMemory);
        }
        match reader.finish() {
            Ok(totals) => Ok(Found {
                longest: names.longest(),
                names: names.into_names(),
                totals,
            }),
            Err(why) => Err(why),
        }
    }

    ghost use Rattle.jser_names.specs.TakenSizes.{named_within};

    ghost within = { λ bytes naming st. named_within bytes naming.reader.machine naming.reader.tally naming.names st };
}
