//! Goes along the bytes of a stream, and finds what a graph keeps of it.
ghost use Rattle.std.specs.Prelude.{◌≡◌, OnOk};
ghost use Rattle.jser_shown.specs.Finding.{begin_finding, finished};
ghost use Rattle.jser_index.specs.Along.{BeginsAt};
ghost use Rattle.jser_index.specs.Reading.{Walks, Surveys};

use crate::survey::Survey;
use jser_reader::{FeedFault, Item, OpenGate, Reader, Stop, Totals, Visit, Whereabouts, Whole};
use jser_reading::laws::one_reading;
use jser_shown::laws::{finds_fronts, found, places_are_counted};
use std::alloc::{AllocError, Global};
use std::marker::Model;

/// What is found along a stream, and its counts.
#[derive(Drop)]
pub(crate) struct Found {
    pub(crate) survey: Survey,
    pub(crate) totals: Totals,
}

/// A survey that is shown the items of a stream, with room for the units of a text.
#[derive(Drop)]
struct Surveyor {
    survey: Survey,
    units: Vec<u16>,
}

impl Model for Surveyor {
    ghost use Rattle.jser_shown.specs.Finding.{Finding};

    ghost Value = { Finding };

    ghost view = { λ a. a.survey };
}

impl Surveyor {
    /// Before the first token. Takes no memory.
    fn new(alloc: Global) -> Surveyor
        ensures { result ≡ begin_finding }
    {
        Surveyor {
            survey: Survey::new(alloc),
            units: Vec::new(alloc),
        }
    }

    /// The end of the stream.
    fn finish(&mut self) -> Result<(), AllocError>
        ensures { OnOk result (self.new ≡ finished self.old) }
    {
        self.survey.finish()
    }

    /// What it has found. Takes no memory.
    fn into_survey(self) -> Survey
        ensures { result ≡ self }
    {
        let Surveyor { survey, .. } = self;
        survey
    }
}

impl Visit for Surveyor {
    ghost use Rattle.jser_index.specs.Surveying.{Took};

    type Fault = AllocError;

    ghost takes = { λ item at old new. Took item at.handles at.end old new };

    ghost stops = { λ _ _ _ _. Unit {0} };

    #[tactic(auto, using(crate::proofs::TookLemmas::took))]
    #[inline(always)]
    fn item(&mut self, item: Item<'_>, at: Whereabouts) -> Result<(), AllocError> {
        self.survey
            .item(item, &mut self.units, at.handles as usize, at.end)?;
        Ok(())
    }

    #[tactic(auto, using(crate::proofs::TookLemmas::took_whole))]
    #[inline(always)]
    fn whole(&mut self, whole: Whole<'_>, at: Whereabouts) -> Result<(), AllocError> {
        self.survey
            .whole(whole, &mut self.units, at.handles as usize, at.end)?;
        Ok(())
    }
}

/// Goes along the bytes, if they are a stream.
#[tactic(auto, using(crate::proofs::ReadLemmas::found_ok, crate::proofs::ReadLemmas::found_err))]
pub(crate) fn survey(alloc: Global, bytes: &[u8]) -> Result<Found, Stop>
    ensures { Surveys bytes.now result }
{
    let mut reader = Reader::new(alloc, OpenGate);
    let mut surveyor = Surveyor::new(alloc);
    match survey_along(&mut reader, &mut surveyor, bytes) {
        Ok(totals) => Ok(Found {
            survey: surveyor.into_survey(),
            totals,
        }),
        Err(stop) => Err(stop),
    }
}

/// Goes along the bytes with a new reader, which shows their items to the surveyor.
fn survey_along(
    reader: &mut Reader<OpenGate>,
    surveyor: &mut Surveyor,
    bytes: &[u8],
) -> Result<Totals, Stop>
    requires reader { BeginsAt reader.old }
    requires survey { surveyor.old ≡ begin_finding }
    ensures { Walks bytes.now surveyor.new result }
{
    one_reading();
    found();
    finds_fronts();
    places_are_counted();
    match reader.feed(bytes, surveyor) {
        Err(FeedFault::Reader(stop)) => Err(stop),
        Err(FeedFault::Visitor(_)) => Err(Stop::OutOfMemory),
        Ok(()) => match surveyor.finish() {
            Ok(()) => reader.finish(),
            Err(_) => Err(Stop::OutOfMemory),
        },
    }
}
