//! The length in front of a text's bytes, as it is taken, whole in a piece or the last bytes of one that was cut.
ghost use Rattle.std.specs.Prelude.{◌≡◌, ◌+◌, ◌<◌, ◌^◌, true, false};
ghost use Rattle.jser_reader.specs.Walks.{open_phase};
ghost use Rattle.jser_reader.specs.TextTakes.{TellsLength, TakesLength};

use crate::gate::Gate;
use crate::machine::Machine;
use crate::machine::take::taken::Taken;
use crate::phase::Phase;
use crate::refusal::Reason;
use jser_prim::TextScan;

impl Machine {
    /// The length of a text, whose last `count` bytes have been counted: so many bytes come, or the text has none and ends.
    #[tactic(auto, using(crate::proofs::TextTakeLemmas::opens_bytes, crate::proofs::TextTakeLemmas::ends_empty))]
    fn text_length<G: Gate>(&mut self, gate: &G, n: u64, count: usize) -> Taken
        ensures { TellsLength (G.told gate.now) n count result self.old self.new }
    {
        self.scan = TextScan::new(n);
        self.name.clear();
        if n > 0 {
            self.phase = Phase::Text;
            return Taken::Part(count);
        }
        let flow = self.text_done(gate);
        Taken::after(count, flow)
    }

    /// Takes the last `count` bytes of the length of a text, of two bytes.
    #[tactic(auto, using(crate::proofs::TextTakeLemmas::takes_short_length))]
    pub(crate) fn take_length2<G: Gate>(&mut self, gate: &G, n: u16, count: usize) -> Taken
        requires phase { open_phase self.old ≡ Phase.Length2 }
        requires some { 0 < count }
        requires room { self.old.meter.at + count < 2 ^ 64 }
        ensures { TakesLength (G.told gate.now) 2 n count result self.old self.new }
    {
        self.at += count as u64;
        self.text_length(gate, u64::from(n), count)
    }

    /// Takes the last `count` bytes of the length of a text, of eight bytes.
    #[tactic(auto, using(crate::proofs::TextTakeLemmas::takes_negative_length, crate::proofs::TextTakeLemmas::takes_long_length))]
    pub(crate) fn take_length8<G: Gate>(&mut self, gate: &G, n: u64, count: usize) -> Taken
        requires phase { open_phase self.old ≡ Phase.Length8 }
        requires some { 0 < count }
        requires room { self.old.meter.at + count < 2 ^ 64 }
        ensures { TakesLength (G.told gate.now) 8 n count result self.old self.new }
    {
        self.at += count as u64;
        if n >= 0x8000_0000_0000_0000 {
            self.refuse(Reason::NegativeLength);
            return Taken::Stopped(count);
        }
        self.text_length(gate, n, count)
    }
}
