//! Texts, numbers and devices of jser_prim.

use jser_prim::{
    Failed, FromRead, Sink, Source, TextFault, TextScan, ToWrite, read_u16, read_u32, read_u64,
    text_bytes, units_of,
};
use std::alloc::{AllocError, Global};
use std::io::{Read, Write};

/// The units of a text, byte by byte.
pub fn units_in(alloc: Global, bytes: &[u8]) -> Result<Result<Vec<u16>, TextFault>, AllocError> {
    let mut scan: TextScan = TextScan::new(bytes.len() as u64);
    let mut units: Vec<u16> = Vec::new(alloc);
    for byte in bytes {
        if scan.is_done() || scan.left() == 0 {
            break;
        }
        match scan.push(*byte) {
            Ok(Some(unit)) => units.push(unit)?,
            Ok(None) => {}
            Err(fault) => return Ok(Err(fault)),
        }
    }
    Ok(Ok(units))
}

/// The spelling of a text.
pub fn spelled(alloc: Global, text: &str) -> Result<Vec<u8>, AllocError> {
    let units: Vec<u16> = units_of(alloc, text)?;
    let bytes: Vec<u8> = text_bytes(alloc, &units)?;
    Ok(bytes)
}

/// Three numbers.
pub fn numbers(bytes: &[u8; 8]) -> (u16, u32, u64) {
    (
        read_u16(&bytes[..2]),
        read_u32(&bytes[..4]),
        read_u64(&bytes[..]),
    )
}

/// A source of its own, which gives a byte a call.
#[derive(Drop)]
pub struct Drops<'b> {
    rest: &'b [u8],
}

impl<'b> Drops<'b> {
    /// The bytes of this slice, one by one.
    pub fn of(rest: &'b [u8]) -> Drops<'b> {
        Drops { rest }
    }
}

impl Source for Drops<'_> {
    ghost use Rattle.std.specs.Prelude.{false};

    ghost has_failed = { λ _. false };

    fn take(&mut self, buf: &mut [u8]) -> Result<usize, Failed> {
        let count = self.rest.len().min(buf.len()).min(1);
        let (front, rest) = self.rest.split_at(count);
        let (room, _) = buf.split_at_mut(count);
        room.copy_from_slice(front);
        self.rest = rest;
        Ok(count)
    }

    fn failed(&self) -> bool {
        false
    }
}

/// One read and one write of devices of the system.
pub fn moved<R: Read + Drop, W: Write + Drop>(reader: R, writer: W, buf: &mut [u8]) -> bool {
    let mut source: FromRead<R> = FromRead::new(reader);
    let mut sink: ToWrite<W> = ToWrite::new(writer);
    let taken: Result<usize, Failed> = source.take(buf);
    let given: Result<usize, Failed> = sink.give(buf);
    taken.is_err() || given.is_err() || source.failed() || sink.failed()
}
