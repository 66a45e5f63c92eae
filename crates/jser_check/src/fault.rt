//! Why a check that asks about names at any place stopped.
ghost use Rattle.std.specs.Prelude.{◌≡◌};
ghost use Rattle.jser_check.specs.Joins.{first_of, repeated, sooner_of};

use jser_anywhere::Hidden;
use jser_reader::{Refusal, Stop};
use std::error::Error;
use std::fmt;

/// Why it stopped without counts. Its text is that of `Stop`, `read failed`, or `at A to E: HiddenName`.
#[derive(Clone, Copy, PartialEq, Eq, Debug)]
pub enum AnywhereFault {
    /// The check stopped, as it does without names at any place.
    Stop(Stop),
    /// A read failed, and the bytes before it decide nothing.
    ReadFault,
    /// A class name that the filter does not let pass can be read at a place that is no class name of the stream, or
    /// before the check reads it as one.
    Hidden {
        /// The place of the 72 or 7D that begins it.
        from_byte: u64,
        /// The end of its text.
        to_byte: u64,
    },
}

impl fmt::Display for AnywhereFault {
    ghost use Rattle.std.specs.Prelude.{Some};
    ghost use Rattle.jser_check.specs.AnywhereTexts.{anywhere_fault_text};

    ghost output = { λ fault. Some (anywhere_fault_text fault) };

    fn fmt<W: fmt::Write>(&self, f: &mut fmt::Formatter<W>) -> fmt::Result {
        match self {
            AnywhereFault::Stop(stop) => write!(f, "{stop}"),
            AnywhereFault::ReadFault => f.write_str("read failed"),
            AnywhereFault::Hidden { from_byte, to_byte } => {
                let (from, to) = (*from_byte, *to_byte);
                write!(f, "at {from} to {to}: HiddenName")
            }
        }
    }
}

impl Error for AnywhereFault {}

impl From<Stop> for AnywhereFault {
    ghost use Rattle.std.specs.Prelude.{◌≡◌};
    ghost use Rattle.jser_check.specs.declared.fault.AnywhereFault.TheVariants as variant;

    ghost from_gives = { λ stop fault. fault ≡ variant.Stop stop };

    fn from(stop: Stop) -> AnywhereFault {
        AnywhereFault::Stop(stop)
    }
}

/// The first of two faults: of the check of some bytes, and of the scan of the same bytes.
pub(crate) fn first_of(checked: Result<(), Stop>, hidden: Option<Hidden>) -> Option<AnywhereFault>
    ensures { result ≡ first_of checked hidden }
{
    match (checked, hidden) {
        (Ok(()), None) => None,
        (Ok(()), Some(name)) => Some(AnywhereFault::Hidden {
            from_byte: name.from,
            to_byte: name.to,
        }),
        (Err(Stop::Refused(refusal)), _) => Some(sooner_of(refusal, hidden)),
        (Err(Stop::OutOfMemory), _) => Some(AnywhereFault::Stop(Stop::OutOfMemory)),
        (Err(Stop::Spent), _) => Some(AnywhereFault::Stop(Stop::Spent)),
    }
}

/// A refusal and a hidden name: that with the lesser end, and of equal ends the refusal.
fn sooner_of(refusal: Refusal, hidden: Option<Hidden>) -> AnywhereFault
    ensures { result ≡ sooner_of refusal hidden }
{
    match hidden {
        Some(name) if name.to < refusal.to_byte => AnywhereFault::Hidden {
            from_byte: name.from,
            to_byte: name.to,
        },
        _ => AnywhereFault::Stop(Stop::Refused(refusal)),
    }
}

impl AnywhereFault {
    /// What is answered after it: the same, but Spent where memory ran out.
    pub(crate) fn repeated(self) -> AnywhereFault
        ensures { result ≡ repeated self }
    {
        match self {
            AnywhereFault::Stop(Stop::OutOfMemory) => AnywhereFault::Stop(Stop::Spent),
            same => same,
        }
    }
}
