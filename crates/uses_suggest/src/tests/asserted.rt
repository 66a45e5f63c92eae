//! Assertions that are calls. The macros of `std` stop a test where they stand, so each of them is one more place where
//! the test drops what it owns, and each such place is proved; a call that stops the test is none.
ghost use Rattle.std.specs.Prelude.{IsTrue};

use std::fmt::{Debug, Display};
use std::process::Abort;

/// Stops the test with this text unless the fact holds.
pub fn holds(rt: &impl Abort, fact: bool, text: impl Display + Drop)
    ensures { IsTrue fact }
{
    if !fact {
        rt.panic(format_args!("this does not hold: {text}"))
    }
}

/// Stops the test with this text and both values unless the one that was found is the one that is wanted.
pub fn same<T: PartialEq + Debug>(
    rt: &impl Abort,
    found: &T,
    wanted: &T,
    text: impl Display + Drop,
) {
    if *found != *wanted {
        rt.panic(format_args!("{text}\n found: {found:?}\nwanted: {wanted:?}"))
    }
}
