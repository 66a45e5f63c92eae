//! A store of messages, which takes only lists that are streams, and gives advice on the others.
ghost use Rattle.std.specs.Prelude.{◌≡◌, ◌↔◌, IsTrue, IfOk, IfErr};
ghost use Rattle.jser_grammar.specs.WellFormed.{WellFormed};
ghost use Rattle.jser_value.specs.View.{view_contents};
ghost use Rattle.jser_value.specs.Causes.{IsWithin, IsTooDeep, IsTooLarge, IsNotRight};

use jser_value::{Content, Contents, ValueCause, ValueFault};
use std::alloc::Global;

/// Whether a list is the contents of a stream. `false` may also mean that memory ran out. The list is dropped, so it must
/// not be so deep that dropping it overflows the stack (see `ValueFault`).
pub fn is_stream(alloc: Global, list: Vec<Content>) -> bool
    ensures { IsTrue result → WellFormed (view_contents list.items) }
{
    Contents::new(alloc, list).is_ok()
}

/// What a store tells the sender of a list.
#[derive(Clone, Copy, PartialEq, Eq, Hash, Debug)]
pub enum Advice {
    /// The list is kept.
    Kept,
    /// The list is nested too deep: send it in parts.
    Flatten,
    /// The list is too long: send it in parts.
    Split,
    /// The list is no stream: mend the sender.
    Mend,
    /// Memory ran out: send it again.
    SendAgain,
}

/// What a store tells the sender of this list, which is dropped: it must not be so deep that this overflows the stack (see
/// `ValueFault`).
pub fn advice_on(alloc: Global, list: Vec<Content>) -> Advice
    ensures flatten { (result ≡ Advice.Flatten) ↔ IsTooDeep (view_contents list.items) }
    ensures split { (result ≡ Advice.Split) ↔ IsTooLarge (view_contents list.items) }
    ensures mend { result ≡ Advice.Mend → IsNotRight (view_contents list.items) }
    ensures send_again { result ≡ Advice.SendAgain → IsWithin (view_contents list.items) }
{
    match Contents::new(alloc, list) {
        Ok(_) => Advice::Kept,
        Err(fault) => match fault.cause {
            ValueCause::TooDeep => Advice::Flatten,
            ValueCause::TooLarge => Advice::Split,
            ValueCause::NotRight => Advice::Mend,
            ValueCause::OutOfMemory => Advice::SendAgain,
        },
    }
}

/// Takes a list, and tries once more where memory ran out.
///
/// # Errors
///
/// The fault of the last try, with the list as it was given.
pub fn take_again(alloc: Global, list: Vec<Content>) -> Result<Contents, ValueFault>
    ensures accepted { IfOk result (λ contents. contents ≡ list.items) }
    ensures handed_back { IfErr result (λ fault. fault.list ≡ list) }
{
    match Contents::new(alloc, list) {
        Ok(contents) => Ok(contents),
        Err(fault) => match fault.cause {
            ValueCause::OutOfMemory => Contents::new(alloc, fault.list),
            _ => Err(fault),
        },
    }
}
