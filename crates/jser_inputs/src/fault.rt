//! Why an input was not read to its end.
ghost use Rattle.std.specs.Prelude.{◌≡◌};

use jser_prim::Source;
use std::error::Error;
use std::fmt;

/// Why an input gave no more bytes.
#[derive(Clone, Copy, PartialEq, Eq, Debug)]
pub enum InputFault {
    /// A read failed.
    Failed,
    /// The text is not hexadecimal.
    NotHexadecimal {
        /// How many characters come before the first that may not come there: where that is the length of the text, it
        /// ends too early.
        at: u64,
    },
    /// The text is not base64 of its alphabet.
    NotBase64 {
        /// How many characters come before the first that may not come there: where that is the length of the text, it
        /// ends too early.
        at: u64,
    },
}

impl fmt::Display for InputFault {
    ghost use Rattle.std.specs.Prelude.{Some};
    ghost use Rattle.jser_inputs.specs.FaultTexts.{input_fault_text};

    ghost output = { λ fault. Some (input_fault_text fault) };

    fn fmt<W: fmt::Write>(&self, f: &mut fmt::Formatter<W>) -> fmt::Result {
        match self {
            InputFault::Failed => write!(f, "read failed"),
            InputFault::NotHexadecimal { at } => write!(f, "not hexadecimal at {at}"),
            InputFault::NotBase64 { at } => write!(f, "not base64 at {at}"),
        }
    }
}

impl Error for InputFault {}

/// A source that says why it failed.
pub trait Input: Source {
    ghost use Rattle.jser_inputs.specs.declared.fault.InputFault.{InputFault};

    /// Why a `take` failed, where one has.
    ghost why_failed: { Self → InputFault };

    /// Why a `take` failed, where one has.
    fn fault(&self) -> InputFault
        ensures { result ≡ why_failed self.now };
}
