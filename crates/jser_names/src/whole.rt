//! The bytes of a source, if they are a stream. They are checked as they come, so that none is kept of one that is refused.
ghost use Rattle.std.specs.Prelude.{◌≡◌, [], IfOk, IfErr, IfSome, OnOk};
ghost use Rattle.jser_reader.specs.Answers.{PassesWith};
ghost use Rattle.jser_reader.specs.Gates.{open_gate};
ghost use Rattle.jser_reader.specs.ReaderStates.{StandsFor};
ghost use Rattle.jser_names.specs.Sources.{FailsWith, IfRefused, IsReadOn, IsRefused};
ghost use Rattle.jser_names.specs.Wholes.{IsStream};

use crate::source::{NamesFault, read_all};
use crate::taker::Taker;
use jser_prim::Source;
use jser_reader::{OpenGate, Reader, Stop, Totals};
use std::alloc::Global;

/// All the bytes of a source, if they are a stream within the greatest limits. The source is read to its end, or until one byte
/// more than a stream may have has come, also where the bytes are refused; then nothing is kept of them.
///
/// # Errors
///
/// `NamesFault`, with the reason. A failed read is told whatever came before it, unless memory ran out.
#[tactic(auto, using(crate::proofs::SourceLemmas::of_kept))]
pub fn bytes_of<R: Source>(alloc: Global, source: &mut R) -> Result<Vec<u8>, NamesFault>
    ensures accepted { IfOk result (λ whole. IfSome (R.to_come source.old) (λ bytes. IsStream bytes whole.items)) }
    ensures refused { IfErr result (λ why. IfSome (R.to_come source.old) (λ bytes. IfRefused (IsRefused bytes) why)) }
    ensures unbroken { OnOk result (R.has_failed source.new ≡ R.has_failed source.old) }
    ensures fault { IfErr result (λ why. FailsWith why (R.has_failed source.old) (R.has_failed source.new)) }
    ensures read { IfErr result (λ why. IsReadOn (R.to_come source.old) (R.to_come source.new) why) }
{
    match read_all(
        alloc,
        source,
        Keeping::of(alloc, Reader::new(alloc, OpenGate)),
    ) {
        Ok((bytes, _)) => Ok(bytes),
        Err(why) => Err(why),
    }
}

impl Taker for Reader<OpenGate> {
    type Found = Totals;

    ghost took = { λ taken reader. StandsFor open_gate taken reader.machine reader.tally };

    ghost finds = { PassesWith open_gate };

    #[tactic(auto, using(crate::proofs::WholeLemmas::skipped))]
    fn take(&mut self, piece: &[u8]) -> Result<(), Stop> {
        self.skip(piece)
    }

    #[tactic(auto, using(crate::proofs::WholeLemmas::ended))]
    fn end(self) -> Result<Totals, Stop> {
        let mut reader = self;
        reader.finish()
    }

    ghost use Rattle.jser_names.specs.TakenSizes.{taken_within};

    ghost within = { λ bytes reader st. taken_within bytes reader.machine reader.tally st };
}

/// What takes a stream, and the bytes that it took.
#[derive(Drop)]
pub(crate) struct Keeping<T: Taker> {
    taker: T,
    bytes: Vec<u8>,
}

impl<T: Taker + Drop> Keeping<T> {
    /// This one, which has taken nothing.
    pub(crate) fn of(alloc: Global, taker: T) -> Keeping<T>
        ensures taker { result.taker ≡ taker }
        ensures none { result.bytes.items ≡ [] }
    {
        Keeping {
            taker,
            bytes: Vec::new(alloc),
        }
    }
}

impl<T: Taker + Drop> Taker for Keeping<T> {
    type Found = (Vec<u8>, T::Found);

    ghost took = { λ taken keeping. (keeping.bytes.items ≡ taken) × T.took taken keeping.taker };

    ghost finds = { λ taken found. (found.0.items ≡ taken) × T.finds taken found.1 };

    fn take(&mut self, piece: &[u8]) -> Result<(), Stop> {
        match self.taker.take(piece) {
            Ok(()) => match self.bytes.extend_from_slice(piece) {
                Ok(()) => Ok(()),
                Err(_) => Err(Stop::OutOfMemory),
            },
            Err(stop) => Err(stop),
        }
    }

    fn end(self) -> Result<(Vec<u8>, T::Found), Stop> {
        let Keeping { taker, bytes } = self;
        match taker.end() {
            Ok(found) => Ok((bytes, found)),
            Err(stop) => Err(stop),
        }
    }

    ghost within = { λ bytes keeping st. T.within bytes keeping.taker st.1 };
}
