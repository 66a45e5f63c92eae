//! A gate of one's own: says whether the names of all classes of the stream on standard input begin with the word of the
//! command line, and no more than 1,000 values and superclass places come.
#![tactic(auto)]

ghost use Rattle.std.specs.Prelude.{eqb, if◌then◌else◌};
ghost use Rattle.std.specs.List.{starts_with};
ghost use Rattle.jser_verdict.specs.Gates.{pass, rejected};
ghost use Rattle.jser_reader.specs.Gates.{open_gate};

use anyhow::{Result, bail};
use serialstream::{Answer, Gate, OpenGate, Reader};
use std::alloc::{AllocError, Global};
use std::env;
use std::io::Read;

/// Lets the names pass that begin with these units.
#[derive(Drop)]
struct Beginning {
    units: Vec<u16>,
}

impl Beginning {
    /// The gate of this word.
    fn of(alloc: Global, word: &str) -> Result<Beginning, AllocError> {
        let mut units = Vec::new(alloc);
        for unit in word.encode_utf16() {
            units.push(unit)?;
        }
        Ok(Beginning { units })
    }
}

impl Gate for Beginning {
    ghost told = { λ gate. record {
      bytes = open_gate.bytes;
      depth = open_gate.depth;
      refs = 1000;
      array = open_gate.array;
      handles = open_gate.handles;
      answer = λ name. if starts_with eqb name gate.units.items then pass else rejected;
    } };

    fn name(&self, name: &[u16]) -> Answer {
        if name.starts_with(&self.units) {
            Answer::Pass
        } else {
            Answer::Rejected
        }
    }

    fn max_bytes(&self) -> u64 {
        OpenGate.max_bytes()
    }

    fn max_depth(&self) -> u32 {
        OpenGate.max_depth()
    }

    fn max_refs(&self) -> u64 {
        1000
    }

    fn max_array(&self) -> u32 {
        OpenGate.max_array()
    }

    fn max_handles(&self) -> u32 {
        OpenGate.max_handles()
    }

    ghost use Rattle.std.proofs.Common.{rules};

    ghost within = { λ _. Prim.search rules };
}

fn main(rt: HostRuntime) -> Result<()> {
    let Some(word) = env::args(&rt)?.nth(1) else {
        bail!("with what do the names of the classes begin?");
    };
    let mut reader = Reader::new(rt.alloc(), Beginning::of(rt.alloc(), &word)?);
    take_all(&mut rt.stdin(), &mut reader)?;
    let totals = reader.finish()?;
    println!(rt; "{} bytes, {} places", totals.bytes, totals.refs)?;
    Ok(())
}

/// Takes all that comes.
fn take_all<R: Read>(input: &mut R, reader: &mut Reader<Beginning>) -> Result<()> {
    let mut buffer = [0; 4096];
    for _ in 0..u64::MAX {
        let count = input.read(&mut buffer)?;
        if count == 0 {
            break;
        }
        reader.skip(&buffer[..count])?;
    }
    Ok(())
}
