//! A writer, who measures a stream before he writes it, and tells what went out where writing failed.
ghost use Rattle.std.specs.Prelude.{◌≡◌, List, ℕ, Option, None, true, false, length, MatchBool, IfOk, OnOk, IfErr};
ghost use Rattle.std.specs.Io.KnownBytes.{Appends};
ghost use Rattle.jser_grammar.specs.Spelling.{spelling};
ghost use Rattle.jser_value.specs.View.{view_contents};
ghost use Rattle.uses_value.specs.Writing.{WroteSome};

use jser_prim::Sink;
use jser_value::{Content, Contents, EncodeFault, ValueFault, encode};
use std::alloc::Global;
use test_support::Compared;

/// How many bytes the stream of these contents has.
pub fn measured(contents: &Contents) -> u64
    ensures { result ≡ length (spelling (view_contents contents.now)) }
{
    match encode(contents, &mut Compared::new(&[])) {
        Ok(count) => count,
        Err(_) => unreachable!(),
    }
}

/// Writes the stream of these contents to a sink that has not failed. The answer is whether the sink takes more.
pub fn goes_on<W: Sink>(contents: &Contents, sink: &mut W) -> bool
    requires { W.has_failed sink.old ≡ false }
    ensures { MatchBool result (W.has_failed sink.new ≡ false) (W.has_failed sink.new ≡ true) }
{
    encode(contents, sink).is_ok()
}

/// Why a list was not written.
#[derive(Debug, Drop)]
pub enum WriteFault {
    /// It is no stream, or memory ran out. Nothing was written.
    Refused(ValueFault),
    /// The sink failed.
    Sink(EncodeFault),
}

/// Writes the stream of these contents, and gives its length.
///
/// # Errors
///
/// `WriteFault::Refused` where they are refused, and `WriteFault::Sink` where the sink failed.
pub fn write<W: Sink>(alloc: Global, list: Vec<Content>, sink: &mut W) -> Result<u64, WriteFault>
    ensures length { IfOk result (λ count. count ≡ length (spelling (view_contents list.items))) }
    ensures out { OnOk result (Appends (W.gone_out sink.old) (W.gone_out sink.new) (spelling (view_contents list.items))) }
    ensures fault { IfErr result (WroteSome (W.gone_out sink.old) (W.gone_out sink.new) (spelling (view_contents list.items))) }
{
    let contents = match Contents::new(alloc, list) {
        Ok(contents) => contents,
        Err(fault) => return Err(WriteFault::Refused(fault)),
    };
    match encode(&contents, sink) {
        Ok(count) => Ok(count),
        Err(fault) => Err(WriteFault::Sink(fault)),
    }
}
