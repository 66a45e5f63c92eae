//! What an index hands out: its bytes and its counts.
ghost use Rattle.std.specs.Prelude.{◌≡◌, true, length, IfOk, IfErr, OnOk, OnErr};
ghost use Rattle.std.specs.Io.KnownBytes.{Appends};
ghost use Rattle.jser_index.specs.Graphs.{IsGraph};
ghost use Rattle.jser_index.specs.Outputs.{WroteFirst};

use crate::graph::Index;
use jser_prim::{Sink, give_all};
use jser_reader::Totals;
use std::alloc::Global;
use std::convert::AsSlice;
use thiserror::Error;

/// Why what was asked for did not go out whole.
#[derive(Clone, Copy, PartialEq, Eq, Debug, Error)]
pub enum GraphFault {
    /// The sink failed.
    #[error("writing failed after {written} bytes")]
    Write {
        /// How many bytes went out, from the beginning.
        written: u64,
    },
    /// Memory ran out.
    #[error("out of memory after {written} bytes")]
    OutOfMemory {
        /// How many bytes went out, from the beginning.
        written: u64,
    },
}

impl<B: AsSlice<u8>> Index<B> {
    /// The bytes of the stream, as they were read.
    pub fn bytes(&self) -> &[u8]
        ensures { result.now ≡ self.now.bytes }
    {
        self.bytes.as_slice()
    }

    /// The counts of the stream.
    pub fn totals(&self) -> Totals
        ensures { result ≡ self.now.totals }
    {
        self.totals
    }

    /// Writes the bytes of the stream, and returns their number. Takes no memory.
    ///
    /// # Errors
    ///
    /// `Write` where the sink failed, with how many of the first bytes went out before.
    pub fn write_to<W: Sink>(&self, _alloc: Global, sink: &mut W) -> Result<u64, GraphFault>
        ensures length { IfOk result (λ count. count ≡ length self.now.bytes) }
        ensures out { OnOk result (Appends (W.gone_out sink.old) (W.gone_out sink.new) self.now.bytes) }
        ensures written { IfErr result (WroteFirst (W.gone_out sink.old) (W.gone_out sink.new) self.now.bytes) }
        ensures kept { OnOk result (W.has_failed sink.new ≡ W.has_failed sink.old) }
        ensures failed { OnErr result (W.has_failed sink.new ≡ true) }
        ensures stands { IsGraph self.now }
    {
        let bytes = self.bytes.as_slice();
        match give_all(sink, bytes) {
            Ok(()) => Ok(bytes.len() as u64),
            Err(fault) => Err(GraphFault::Write {
                written: fault.given as u64,
            }),
        }
    }
}
