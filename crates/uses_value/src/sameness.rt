//! A cache, which looks streams up by their bytes.
ghost use Rattle.std.specs.Prelude.{◌≡◌, ◌++◌, ℕ, List, [], length};
ghost use Rattle.jser_grammar.specs.Trees.{ValueTree};
ghost use Rattle.jser_grammar.specs.Spelling.{spelling, value_spelling};
ghost use Rattle.jser_grammar.specs.WellFormed.{WellFormed, WellFormedValue};
ghost use Rattle.jser_grammar.specs.TableAfter.{Entries};
ghost use Rattle.jser_value.specs.View.{view_contents};

use jser_value::laws::{no_prefix, one_reading};
use jser_value::{Content, Contents};

/// How many contents there are.
pub fn count(contents: &Contents) -> usize
    ensures { result ≡ length contents.now }
{
    contents.list().len()
}

/// The contents to look at, which are those of one stream.
pub fn entries(stored: &Contents) -> &[Content]
    ensures { WellFormed (view_contents result.now) }
{
    stored.list()
}

/// Two entries with the same bytes are the same stream, so a cache may look them up by their bytes.
pub fn same_by_bytes(one: &Contents, other: &Contents)
    ensures { spelling (view_contents one.now) ≡ spelling (view_contents other.now) → view_contents one.now ≡ view_contents other.now }
{
    one_reading();
    let _ = one.list();
    let _ = other.list();
}

/// Where a value ends follows from its bytes: of two that obey the format after the same ones, neither goes on
/// with bytes of its own behind those of the other.
#[tactic(auto, using(crate::proofs::Ends::one_end))]
pub fn one_end()
    ensures { (table : Entries) (value other : ValueTree) (rest : List ℕ) → WellFormedValue table value → WellFormedValue table other
        → value_spelling value ++ rest ≡ value_spelling other → rest ≡ [] }
{
    no_prefix();
}
