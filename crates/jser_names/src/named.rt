//! The bytes of a source with their names, if they are a stream. It is read once; nothing is kept of one that is refused.
ghost use Rattle.std.specs.Prelude.{◌≡◌, IfOk, IfErr, IfSome, OnOk};
ghost use Rattle.jser_names.specs.Named.{IsNamed};
ghost use Rattle.jser_names.specs.Sources.{FailsWith, IfRefused, IsReadOn, IsRefused};

use crate::counts::NameCounts;
use crate::found::{Found, Naming};
use crate::keyed::Keyed;
use crate::source::{NamesFault, read_all};
use crate::whole::Keeping;
use jser_prim::Source;
use std::alloc::Global;

/// The bytes of a stream, and its checked names.
#[derive(Drop)]
pub struct NamedStream {
    /// The bytes.
    pub bytes: Vec<u8>,
    /// The names.
    pub names: NameCounts,
}

/// All the bytes of a source with their checked names, if they are a stream within the greatest limits. The names are counted
/// under this key, which changes no answer. The source is read to its end, or until one byte more than a stream may have has
/// come, also where the bytes are refused; then nothing is kept of them.
///
/// # Errors
///
/// `NamesFault`, with the reason. A failed read is told whatever came before it, unless memory ran out.
#[tactic(auto, using(crate::proofs::SourceLemmas::of_named))]
pub fn bytes_and_names_of<R: Source>(
    alloc: Global,
    keyed: Keyed,
    source: &mut R,
) -> Result<NamedStream, NamesFault>
    ensures accepted { IfOk result (λ named. IfSome (R.to_come source.old) (λ bytes. IsNamed bytes named)) }
    ensures refused { IfErr result (λ why. IfSome (R.to_come source.old) (λ bytes. IfRefused (IsRefused bytes) why)) }
    ensures unbroken { OnOk result (R.has_failed source.new ≡ R.has_failed source.old) }
    ensures fault { IfErr result (λ why. FailsWith why (R.has_failed source.old) (R.has_failed source.new)) }
    ensures read { IfErr result (λ why. IsReadOn (R.to_come source.old) (R.to_come source.new) why) }
{
    match read_all(alloc, source, Keeping::of(alloc, Naming::new(alloc, keyed))) {
        Ok((bytes, found)) => {
            let Found { names, .. } = found;
            Ok(NamedStream { bytes, names })
        }
        Err(why) => Err(why),
    }
}
