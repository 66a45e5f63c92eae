//! The numbers that options say.
ghost use Rattle.std.specs.Prelude.{◌≡◌, IfErr};

use jser_prim::Sink;
use jser_settings::tell_misuse;

/// The number that a text says, if there is one. Where it says none, this line is told.
pub(crate) fn number_in<E: Sink>(
    text: &Option<String>,
    faults: &mut E,
    line: &str,
) -> Result<Option<u64>, u8>
    ensures { IfErr result (λ status. status ≡ 2) }
{
    let Some(text) = text else {
        return Ok(None);
    };
    match text.as_str().parse::<u64>() {
        Ok(number) => Ok(Some(number)),
        Err(_) => Err(tell_misuse(faults, line)),
    }
}

/// The number from 1 that a text says, if there is one. Where it says none, this line is told.
pub(crate) fn number_from_one<E: Sink>(
    text: &Option<String>,
    faults: &mut E,
    line: &str,
) -> Result<Option<u64>, u8>
    ensures { IfErr result (λ status. status ≡ 2) }
{
    match number_in(text, faults, line) {
        Ok(Some(0)) => Err(tell_misuse(faults, line)),
        number => number,
    }
}
