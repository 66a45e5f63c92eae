//! Whether a list of contents obeys the format: each part is tested with the table of handles at its own moment, as
//! `specs/Tests.antt` says, and adds its handles.
ghost use Rattle.std.specs.Prelude.{[], ◌≤◌, length};
ghost use Rattle.jser_grammar.specs.Spelling.{contents_spelling};
ghost use Rattle.jser_value.specs.Tests.{obeys_contents, Judges};
ghost use Rattle.jser_value.specs.View.{view_contents};

mod classes;
mod descriptors;
mod fault;
mod layers;
mod texts;
mod values;

use crate::check::fault::require;
use crate::check::values::check_value;
use crate::handles::Handles;
use crate::parts::is_block;
use crate::tree::Content;
pub(crate) use fault::Fault;
use std::alloc::Global;

/// Whether a list of contents obeys the format.
#[tactic(auto, using(crate::proofs::RightLemmas::right_contents))]
pub(crate) fn check_contents(alloc: Global, list: &[Content]) -> Result<(), Fault>
    requires room { length (contents_spelling (view_contents list.now)) ≤ 2147483647 }
    ensures judged { Judges result (obeys_contents [] (view_contents list.now)) [] [] }
{
    let mut table = Handles::new(alloc);
    'list: for content in list {
        match content {
            Content::Block { long, bytes } => require(is_block(*long, bytes))?,
            Content::Reset => table.reset(),
            Content::Value(value) => check_value(alloc, &mut table, value)?,
        }
    }
    Ok(())
}
