//! The header of the stream, as it is taken: as many bytes as there are, up to the first wrong one, which decides.
ghost use Rattle.std.specs.Prelude.{◌≡◌, ◌+◌, ◌<◌, ◌^◌, ◌++◌, get_or, length};
ghost use Rattle.jser_reader.specs.Walks.{header_bytes, open_phase, cut_of};
ghost use Rattle.jser_reader.specs.Takes.{AreRight, CutsOff, TakesFrom};

use crate::machine::Machine;
use crate::machine::take::taken::Taken;
use crate::phase::Phase;
use crate::refusal::Reason;

/// `STREAM_MAGIC` and `STREAM_VERSION`.
const HEADER: [u8; 4] = [0xAC, 0xED, 0x00, 0x05];

/// How many bytes at the front of the piece are right, where so many of the header came before it.
#[tactic(auto, using(crate::proofs::HeaderLemmas::none_right))]
fn right_bytes(place: usize, piece: &[u8]) -> usize
    requires { place < 4 }
    ensures right { AreRight place piece.now result }
    ensures wrong { result < length piece.now → place + result < 4 → get_or piece.now result 0 ≡ get_or header_bytes (place + result) 0 → ⊥ }
{
    let mut count = 0;
    'bytes: while count < piece.len() && place + count < 4 {
        if piece[count] != HEADER[place + count] {
            return count;
        }
        count += 1;
    }
    count
}

impl Machine {
    /// How many bytes of the header were taken.
    fn header_place(&self) -> usize
        requires { open_phase self.now ≡ Phase.Header }
        ensures is { result ≡ length (cut_of self.now) }
        ensures within { result < 4 }
    {
        match self.phase {
            Phase::Cut => 4 - self.cut.missing(),
            _ => 0,
        }
    }

    /// Keeps bytes of the header that are right, and after which others are to come.
    fn keep_header(&mut self, piece: &[u8])
        requires open { open_phase self.old ≡ Phase.Header }
        requires some { 0 < length piece.now }
        requires more { length (cut_of self.old ++ piece.now) < 4 }
        requires room { self.old.meter.at + length piece.now < 2 ^ 64 }
        ensures { CutsOff piece.now self.old self.new }
    {
        match self.phase {
            Phase::Cut => self.keep_more(piece),
            _ => self.keep(piece),
        }
    }

    /// Takes bytes of the header, as many as there are.
    #[tactic(auto, using(crate::proofs::HeaderLemmas::header_open))]
    #[inline(never)]
    pub(crate) fn take_header(&mut self, piece: &[u8]) -> Taken
        requires open { open_phase self.old ≡ Phase.Header }
        requires some { 0 < length piece.now }
        requires room { self.old.meter.at + length piece.now < 2 ^ 64 }
        ensures { TakesFrom result piece.now self.old self.new }
    {
        let place = self.header_place();
        let count = right_bytes(place, piece);
        if place + count == 4 {
            self.at += count as u64;
            let flow = self.done(Phase::Top);
            return Taken::after(count, flow);
        }
        if count == piece.len() {
            self.keep_header(piece);
            return Taken::Open;
        }
        self.at += count as u64 + 1;
        let flow = self.refuse(Reason::BadHeader);
        Taken::after(count + 1, flow)
    }
}
