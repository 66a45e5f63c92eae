//! A list of contents that obeys the format, and is no deeper and no longer than trees may be.
ghost use Rattle.std.specs.Prelude.{◌≡◌, ◌↔◌, IfOk, IfErr, OnOk, MatchOption};
ghost use Rattle.jser_value.specs.View.{view_contents};
ghost use Rattle.jser_value.specs.Limits.{IsContents};
ghost use Rattle.jser_value.specs.Causes.{IsWithin, IsTooDeep, IsTooLarge, IsNotRight, Explains, FailsBy};

use crate::check::{Fault, check_contents};
use crate::depth::contents_within;
use crate::size::after_contents;
use crate::tree::Content;
use jser_grammar::caps::{MOST_TREE_BYTES, MOST_TREE_DEPTH};
use std::alloc::Global;
use std::marker::Model;
use thiserror::Error;

/// How many bytes the spelling of a list has at most, after the four of the header.
const MOST_AFTER_HEADER: u64 = MOST_TREE_BYTES - 4;

/// Why a list of contents is refused: the first of these that holds.
#[derive(Clone, Copy, PartialEq, Eq, Debug, Error)]
pub enum ValueCause {
    /// Its depth is over 1,000.
    #[error("the contents are nested too deep")]
    TooDeep,
    /// Its spelling has more than 2^31 - 1 bytes.
    #[error("the contents are too large")]
    TooLarge,
    /// It does not obey the format.
    #[error("the contents do not obey the format")]
    NotRight,
    /// There was no memory for its handles.
    #[error("out of memory")]
    OutOfMemory,
}

/// A list of contents that is refused, and why.
///
/// The list may be deeper than trees may be, and then it is not safe to let it go: dropping a list, comparing it and printing
/// it for debugging call themselves once for each of its levels, and a list of a million levels may overflow the stack. Pass such a
/// fault on, or take its list apart from the outside: move what stands in the outermost values out of them, level by
/// level, and drop each value when nothing stands in it.
#[derive(PartialEq, Eq, Debug, Drop, Error)]
#[error("{cause}")]
pub struct ValueFault {
    /// The list, as it was given.
    pub list: Vec<Content>,
    /// Why it is refused.
    pub cause: ValueCause,
}

/// A list of contents that obeys the format: it is the contents of one stream. Its depth is at most 1,000
/// and its spelling at most 2^31 - 1 bytes.
#[derive(Debug, Drop)]
pub struct Contents {
    list: Vec<Content>,
}

impl Model for Contents {
    ghost use Rattle.std.specs.Prelude.{List};
    ghost use Rattle.jser_value.specs.declared.tree.Content.{Content};
    ghost use Rattle.jser_value.specs.View.{view_contents};
    ghost use Rattle.jser_value.specs.Limits.{IsContents};
    ghost use Rattle.std.specs.Coded.{codes};
    ghost use Rattle.jser_value.specs.contracts.tree.Content as content_type;

    ghost Value = { List Content };

    ghost coded = { Prim.hlevel (codes, content_type.the_row.coded) };

    ghost view = { λ a. a.list.items };

    ghost invariant = { λ a. IsContents (view_contents a.list.items) };
}

impl Contents {
    /// Takes a list that obeys the format. Memory is taken for the table of handles alone, and given back.
    ///
    /// # Errors
    ///
    /// `ValueFault` with the first cause against the list, which it hands back.
    pub fn new(alloc: Global, list: Vec<Content>) -> Result<Contents, ValueFault>
        ensures accepted { IfOk result (λ contents. contents ≡ list.items) }
        ensures obeys { OnOk result (IsContents (view_contents list.items)) }

        ensures too_deep { FailsBy result ValueCause.TooDeep ↔ IsTooDeep (view_contents list.items) }
        ensures too_large { FailsBy result ValueCause.TooLarge ↔ IsTooLarge (view_contents list.items) }
        // Where memory runs out, a wrong list may be answered so.
        ensures not_right { FailsBy result ValueCause.NotRight → IsNotRight (view_contents list.items) }
        ensures memory { FailsBy result ValueCause.OutOfMemory → IsWithin (view_contents list.items) }
        ensures handed_back { IfErr result (λ fault. fault.list ≡ list) }
    {
        match cause_against(alloc, &list) {
            None => Ok(Contents { list }),
            Some(cause) => Err(ValueFault { list, cause }),
        }
    }

    /// Contents of a list that is known to obey the format, as one is that was read from the bytes of a stream.
    /// Takes no memory.
    #[doc(hidden)]
    pub fn from_obeying(list: Vec<Content>) -> Contents
        requires { IsContents (view_contents list.items) }
        ensures { result ≡ list.items }
    {
        Contents { list }
    }

    /// The contents, in order.
    pub fn list(&self) -> &[Content]
        ensures list { result.now ≡ self.now }
        ensures obeys { IsContents (view_contents self.now) }
    {
        &self.list
    }
}

/// The first cause against a list of contents, if there is one.
#[tactic(auto, using(crate::proofs::RightLemmas::right_contents, crate::proofs::RightLemmas::wrong_contents))]
fn cause_against(alloc: Global, list: &[Content]) -> Option<ValueCause>
    ensures { MatchOption result (IsContents (view_contents list.now)) (λ cause. Explains cause (view_contents list.now)) }
{
    if !contents_within(list, MOST_TREE_DEPTH) {
        return Some(ValueCause::TooDeep);
    }
    if after_contents(MOST_AFTER_HEADER, list).is_none() {
        return Some(ValueCause::TooLarge);
    }
    match check_contents(alloc, list) {
        Ok(()) => None,
        Err(Fault::NotRight) => Some(ValueCause::NotRight),
        Err(Fault::OutOfMemory) => Some(ValueCause::OutOfMemory),
    }
}
