//! The names of the stream of a source, which is read in pieces; and what else is found along it.
ghost use Rattle.std.specs.Prelude.{◌≡◌, ◌⊎◌, ◌<◌, ◌≤◌, [], length, vec_len, take, true, IfOk, IfErr, IfSome, OnOk, OnErr};
ghost use Rattle.std.specs.Io.KnownBytes.{Consumes, IsAtEnd};
ghost use Rattle.jser_names.specs.Found.{HasFound};
ghost use Rattle.jser_names.specs.Sources.{Ends, FailsWith, HasNames, IfRefused, IsHalted, IsReadOn, IsRefused, Passed, TakesSome};

use crate::counts::NameCounts;
use crate::found::{Found, Naming};
use crate::keyed::Keyed;
use crate::taker::Taker;
use jser_grammar::caps::MOST_BYTES;
use jser_prim::{Failed, Source};
use jser_reader::{Refusal, Stop};
use std::alloc::{AllocError, Global};

/// How many bytes a read asks for at most: 14 pages of 4 KiB, so that each read of a file begins at a page.
const BUFFER_LEN: usize = 57_344;

/// Why there are no names.
#[derive(Clone, Copy, PartialEq, Eq, Debug)]
pub enum NamesFault {
    /// The bytes are no stream within the greatest limits.
    Refused(Refusal),
    /// A read failed.
    ReadFault,
    /// Memory ran out.
    OutOfMemory,
}

/// Why the reads came to no end, and how many bytes more may be read.
#[derive(Clone, Copy)]
pub(crate) struct Halt {
    pub(crate) fault: NamesFault,
    pub(crate) left: u64,
}

/// The different checked names of the stream of a source, in the order of the stream, each with how often it stands there. They
/// are counted under this key, which changes no answer. The source is read to its end, or until one byte more than a stream may
/// have has come, also where the bytes are refused; nothing is kept of what comes then.
///
/// What it allocates is the different names, what a reader does, and room for the bytes of a read and of one name.
///
/// # Errors
///
/// `NamesFault`, with the reason. A failed read is told whatever came before it, unless memory ran out.
#[tactic(auto, using(crate::proofs::SourceLemmas::of_found))]
pub fn names_of<R: Source>(
    alloc: Global,
    keyed: Keyed,
    source: &mut R,
) -> Result<NameCounts, NamesFault>
    ensures accepted { IfOk result (λ names. IfSome (R.to_come source.old) (λ bytes. HasNames bytes names)) }
    ensures refused { IfErr result (λ why. IfSome (R.to_come source.old) (λ bytes. IfRefused (IsRefused bytes) why)) }
    ensures unbroken { OnOk result (R.has_failed source.new ≡ R.has_failed source.old) }
    ensures fault { IfErr result (λ why. FailsWith why (R.has_failed source.old) (R.has_failed source.new)) }
    ensures read { IfErr result (λ why. IsReadOn (R.to_come source.old) (R.to_come source.new) why) }
{
    match found_of(alloc, keyed, source) {
        Ok(Found { names, .. }) => Ok(names),
        Err(why) => Err(why),
    }
}

/// What is found along the stream of a source: its checked names, its counts and the length of its longest array. The source is
/// read as `names_of` reads it.
///
/// # Errors
///
/// As `names_of`.
pub fn found_of<R: Source>(alloc: Global, keyed: Keyed, source: &mut R) -> Result<Found, NamesFault>
    ensures accepted { IfOk result (λ found. IfSome (R.to_come source.old) (λ bytes. HasFound bytes found)) }
    ensures refused { IfErr result (λ why. IfSome (R.to_come source.old) (λ bytes. IfRefused (IsRefused bytes) why)) }
    ensures unbroken { OnOk result (R.has_failed source.new ≡ R.has_failed source.old) }
    ensures fault { IfErr result (λ why. FailsWith why (R.has_failed source.old) (R.has_failed source.new)) }
    ensures read { IfErr result (λ why. IsReadOn (R.to_come source.old) (R.to_come source.new) why) }
{
    read_all(alloc, source, Naming::new(alloc, keyed))
}

/// What one that takes a stream has at the end of a source. The source is read as `names_of` reads it.
///
/// # Errors
///
/// As `names_of`.
#[tactic(auto, using(crate::proofs::SourceLemmas::none_refused, crate::proofs::SourceLemmas::told_refused, crate::proofs::SourceLemmas::told_fails, crate::proofs::ReadOnLemmas::none_read, crate::proofs::ReadOnLemmas::reads_on))]
pub(crate) fn read_all<R: Source, T: Taker + Drop>(
    alloc: Global,
    source: &mut R,
    taker: T,
) -> Result<T::Found, NamesFault>
    requires { T.took [] taker }
    ensures accepted { IfOk result (λ found. IfSome (R.to_come source.old) (λ bytes. T.finds bytes found)) }
    ensures refused { IfErr result (λ why. IfSome (R.to_come source.old) (λ bytes. IfRefused (IsRefused bytes) why)) }
    ensures unbroken { OnOk result (R.has_failed source.new ≡ R.has_failed source.old) }
    ensures fault { IfErr result (λ why. FailsWith why (R.has_failed source.old) (R.has_failed source.new)) }
    ensures read { IfErr result (λ why. IsReadOn (R.to_come source.old) (R.to_come source.new) why) }
{
    let Ok(mut buffer) = new_buffer(alloc) else {
        return Err(NamesFault::OutOfMemory);
    };
    match take_all(source, &mut buffer, taker) {
        Ok(found) => Ok(found),
        Err(halt) => Err(told(source, &mut buffer, halt)),
    }
}

/// Room for the bytes of a read.
fn new_buffer(alloc: Global) -> Result<Vec<u8>, AllocError>
    ensures { IfOk result (λ buffer. 0 < vec_len buffer) }
{
    vec![in alloc; 0u8; BUFFER_LEN]
}

/// What is told of a halt: a read that fails later goes before a refusal.
fn told<R: Source>(source: &mut R, buffer: &mut [u8], halt: Halt) -> NamesFault
    requires room { 0 < length buffer.old }
    ensures is { (result ≡ halt.fault) × (R.has_failed source.new ≡ R.has_failed source.old) ⊎ ((result ≡ NamesFault.ReadFault) × (R.has_failed source.new ≡ true)) }
    ensures read { IfRefused (λ refusal. Passed halt.left 0 (R.to_come source.old) (R.to_come source.new)) result }
{
    match halt.fault {
        NamesFault::Refused(refusal) => match pass_rest(source, buffer, halt.left) {
            Ok(()) => NamesFault::Refused(refusal),
            Err(_) => NamesFault::ReadFault,
        },
        NamesFault::ReadFault => NamesFault::ReadFault,
        NamesFault::OutOfMemory => NamesFault::OutOfMemory,
    }
}

/// Reads on, to the end or so many bytes, and keeps nothing.
#[tactic(auto, using(crate::proofs::ReadOnLemmas::passed_none, crate::proofs::ReadOnLemmas::passed_more, crate::proofs::ReadOnLemmas::passed_end, crate::proofs::ReadOnLemmas::passed_all))]
fn pass_rest<R: Source>(source: &mut R, buffer: &mut [u8], most: u64) -> Result<(), Failed>
    requires { 0 < length buffer.old }
    ensures read { OnOk result (Passed most 0 (R.to_come source.old) (R.to_come source.new)) }
    ensures ok { OnOk result (R.has_failed source.new ≡ R.has_failed source.old) }
    ensures err { OnErr result (R.has_failed source.new ≡ true) }
{
    let mut left = most;
    'reads: while left > 0 {
        match read_some(source, buffer, left) {
            Ok(0) => return Ok(()),
            Ok(count) => left -= count as u64,
            Err(fault) => return Err(fault),
        }
    }
    Ok(())
}

/// One read of at most so many bytes, to the front of the buffer; returns how many came. None are the end.
fn read_some<R: Source>(source: &mut R, buffer: &mut [u8], most: u64) -> Result<usize, Failed>
    requires room { 0 < length buffer.old }
    requires some { 0 < most }
    ensures took { IfOk result (TakesSome most buffer.new (R.to_come source.old) (R.to_come source.new)) }
    ensures size { length buffer.new ≡ length buffer.old }
    ensures ok { OnOk result (R.has_failed source.new ≡ R.has_failed source.old) }
    ensures err { OnErr result (R.has_failed source.new ≡ true) }
{
    let room = most.min(buffer.len() as u64) as usize;
    let (front, _) = buffer.split_at_mut(room);
    source.take(front)
}

/// Reads the source to its end, into what takes it.
#[tactic(auto, using(crate::proofs::SourceLemmas::reads_none, crate::proofs::SourceLemmas::stop_fails, crate::proofs::SourceLemmas::failed_refused, crate::proofs::ReadOnLemmas::halted_failed))]
fn take_all<R: Source, T: Taker + Drop>(
    source: &mut R,
    buffer: &mut [u8],
    taker: T,
) -> Result<T::Found, Halt>
    requires room { 0 < length buffer.old }
    requires none { T.took [] taker }
    ensures accepted { IfOk result (λ found. IfSome (R.to_come source.old) (λ bytes. T.finds bytes found)) }
    ensures refused { IfErr result (λ halt. IfSome (R.to_come source.old) (λ bytes. IfRefused (IsRefused bytes) halt.fault)) }
    ensures unbroken { OnOk result (R.has_failed source.new ≡ R.has_failed source.old) }
    ensures fault { IfErr result (λ halt. FailsWith halt.fault (R.has_failed source.old) (R.has_failed source.new)) }
    ensures read { IfErr result (λ halt. IsHalted (R.to_come source.old) (R.to_come source.new) halt) }
    ensures size { length buffer.new ≡ length buffer.old }
{
    let mut taker = taker;
    let mut left: u64 = MOST_BYTES + 1;
    'reads: loop {
        match read_some(source, buffer, left) {
            Err(_) => {
                return Err(Halt {
                    fault: NamesFault::ReadFault,
                    left: 0,
                });
            }
            Ok(0) => {
                return match taker.end() {
                    Ok(found) => Ok(found),
                    Err(stop) => Err(halted(stop, 0)),
                };
            }
            Ok(count) => {
                let (piece, _) = buffer.split_at(count);
                match taker.take(piece) {
                    Ok(()) => left -= count as u64,
                    Err(stop) => return Err(halted(stop, left - count as u64)),
                }
            }
        }
    }
}

/// Where a reader stopped.
fn halted(stop: Stop, left: u64) -> Halt
    ensures ends { Ends stop result.fault }
    ensures left { result.left ≡ left }
{
    let fault = match stop {
        Stop::Refused(refusal) => NamesFault::Refused(refusal),
        Stop::OutOfMemory => NamesFault::OutOfMemory,
        Stop::Spent => NamesFault::OutOfMemory,
    };
    Halt { fault, left }
}
