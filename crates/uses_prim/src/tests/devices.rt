//! Devices that fail, that are interrupted and that take or return little.
ghost use Rattle.std.specs.Prelude.{None};

use jser_prim::{Failed, FromRead, Sink, Source, ToWrite};
use std::io::{self, Error, ErrorKind, Read, Write};
use std::process::Abort;
use std::test::Fail;

/// Returns one byte a call from `bytes`, but an interrupted read at each third call.
#[derive(Drop)]
struct ThirdInterrupted<'a> {
    bytes: &'a [u8],
    calls: u8,
}

impl Read for ThirdInterrupted<'_> {
    fn read(&mut self, buf: &mut [u8]) -> io::Result<usize> {
        self.calls = self.calls.wrapping_add(1);
        if self.calls % 3 == 0 {
            return Err(Error::from(ErrorKind::Interrupted));
        }
        let room = buf.len().min(1);
        self.bytes.read(&mut buf[..room])
    }
}

/// Takes `left` bytes, one a call, and then nothing or an error.
#[derive(Drop)]
struct SmallDisk {
    left: usize,
    answers_errors: bool,
}

impl Write for SmallDisk {
    fn write(&mut self, buf: &[u8]) -> io::Result<usize> {
        if buf.is_empty() {
            return Ok(0);
        }
        if self.left > 0 {
            self.left -= 1;
            return Ok(1);
        }
        if self.answers_errors {
            return Err(Error::from(ErrorKind::StorageFull));
        }
        Ok(0)
    }

    fn flush(&mut self) -> io::Result<()> {
        Ok(())
    }
}

/// What a device answers, and whether it has failed then.
type Answer = (Result<usize, Failed>, bool);

/// Takes bytes from a source, in a function with no contract: what a test compares is then proved without what the source
/// promises.
fn take<S: Source>(source: &mut S, buf: &mut [u8]) -> Answer {
    let count = source.take(buf);
    (count, source.failed())
}

/// Gives bytes to a sink, in a function with no contract.
fn give<S: Sink>(sink: &mut S, bytes: &[u8]) -> Answer {
    let count = sink.give(bytes);
    (count, sink.failed())
}

#[test]
fn gives_what_the_reader_has(rt: HostRuntime) {
    let mut source = FromRead::new(&b"abc"[..]);
    let mut buf = [0u8; 2];
    same!(rt; take(&mut source, &mut []), (Ok(0), false));
    for (count, bytes) in [(2, b"ab"), (1, b"cb"), (0, b"cb")] {
        same!(rt; take(&mut source, &mut buf), (Ok(count), false), count);
        same!(rt; buf, *bytes, count);
    }
}

#[test]
fn each_error_of_the_reader_is_a_failure(rt: HostRuntime) {
    let mut source = FromRead::new(ThirdInterrupted {
        bytes: b"abc",
        calls: 0,
    });
    let mut buf = [0u8; 4];
    for (answer, first, what) in &TAKEN {
        same!(rt; take(&mut source, &mut buf), *answer, what);
        same!(rt; buf[0], *first, what);
    }
}

/// What a source over that reader answers call after call, and the first byte of the buffer then.
const TAKEN: [(Answer, u8, &str); 4] = [
    ((Ok(1), false), b'a', "the first byte"),
    ((Ok(1), false), b'b', "the second byte"),
    ((Err(Failed), true), b'b', "an interrupted read"),
    (
        (Ok(1), true),
        b'c',
        "no byte was lost, and a failure is remembered",
    ),
];

/// Gives a sink over a vector three bytes, in three calls.
fn give_three(rt: &impl Abort, written: &mut Vec<u8>) {
    let mut sink = ToWrite::new(written);
    for (bytes, count) in [(&b"ab"[..], 2), (b"", 0), (b"c", 1)] {
        same!(rt; give(&mut sink, bytes), (Ok(count), false), count);
    }
}

#[test]
fn the_writer_gets_the_bytes(rt: HostRuntime) -> Result<(), Fail> {
    let mut written = Vec::with_capacity(rt.alloc(), 3)?;
    give_three(&rt, &mut written);
    same!(rt; written.as_slice(), b"abc".as_slice());
    Ok(())
}

#[test]
fn a_write_that_takes_nothing_is_a_failure(rt: HostRuntime) {
    for answers_errors in [false, true] {
        give_small_disk(&rt, answers_errors);
    }
}

/// Bytes, and what a sink over a disk with room for one byte answers to them, one after the other.
const GIVEN: [(&[u8], Answer, &str); 3] = [
    (b"ab", (Ok(1), false), "one byte is taken"),
    (b"b", (Err(Failed), true), "none is taken"),
    (
        b"",
        (Ok(0), true),
        "nothing to take, and a failure is remembered",
    ),
];

/// Gives bytes to a disk that has room for one.
fn give_small_disk(rt: &impl Abort, answers_errors: bool) {
    let mut sink = ToWrite::new(SmallDisk {
        left: 1,
        answers_errors,
    });
    for (bytes, answer, what) in &GIVEN {
        same!(rt; give(&mut sink, bytes), *answer, what);
    }
}
