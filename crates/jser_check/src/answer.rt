//! Why the check of a source stopped.
ghost use Rattle.std.specs.Prelude.{◌≡◌, false, IfErr};
ghost use Rattle.jser_check.specs.Pieces.{Keeps};
ghost use Rattle.jser_check.specs.Reads.{NamesOnly};
ghost use Rattle.jser_check.specs.Faces.{as_plain, as_stop};

use crate::fault::AnywhereFault;
use jser_reader::{Stop, Totals};
use std::error::Error;
use std::fmt;

/// Why the check of a source stopped without a report. Its text is that of `Stop`, or `read failed`.
#[derive(Clone, Copy, PartialEq, Eq, Debug)]
pub enum CheckFault {
    /// The check stopped.
    Stop(Stop),
    /// A read failed, and the bytes before it decide nothing.
    ReadFault,
}

impl fmt::Display for CheckFault {
    ghost use Rattle.std.specs.Prelude.{Some};
    ghost use Rattle.jser_check.specs.FaultTexts.{check_fault_text};

    ghost output = { λ fault. Some (check_fault_text fault) };

    fn fmt<W: fmt::Write>(&self, f: &mut fmt::Formatter<W>) -> fmt::Result {
        match self {
            CheckFault::Stop(stop) => write!(f, "{stop}"),
            CheckFault::ReadFault => f.write_str("read failed"),
        }
    }
}

impl Error for CheckFault {}

impl From<Stop> for CheckFault {
    ghost use Rattle.std.specs.Prelude.{◌≡◌};
    ghost use Rattle.jser_check.specs.declared.answer.CheckFault.TheVariants as variant;

    ghost from_gives = { λ stop fault. fault ≡ variant.Stop stop };

    fn from(stop: Stop) -> CheckFault {
        CheckFault::Stop(stop)
    }
}

/// An answer that tells of no name, and of no read.
pub(crate) fn stop_of<T>(answer: Result<T, AnywhereFault>) -> Result<T, Stop>
    requires { IfErr answer (Keeps false) }
    ensures { as_stop result ≡ answer }
{
    match answer {
        Ok(value) => Ok(value),
        Err(AnywhereFault::Stop(stop)) => Err(stop),
        Err(AnywhereFault::ReadFault) => unreachable!(),
        Err(AnywhereFault::Hidden { .. }) => unreachable!(),
    }
}

/// An answer that tells of no name.
pub(crate) fn plain_of(answer: Result<Totals, AnywhereFault>) -> Result<Totals, CheckFault>
    requires { IfErr answer (NamesOnly false) }
    ensures { as_plain result ≡ answer }
{
    match answer {
        Ok(totals) => Ok(totals),
        Err(AnywhereFault::Stop(stop)) => Err(CheckFault::Stop(stop)),
        Err(AnywhereFault::ReadFault) => Err(CheckFault::ReadFault),
        Err(AnywhereFault::Hidden { .. }) => unreachable!(),
    }
}
