//! Laws of the definitions alone: no call of the product stands behind them. Each is the clause of an empty
//! function, so that the check insists on its proof; the statements are in the `specs/` of jser_reading, as
//! `ByteLaws`, and more laws are in its module `laws`.

ghost use Rattle.jser_reading.specs.ByteLaws.{OneReading, NoPrefix};

/// Of a byte list at most one content list makes a stream.
pub fn one_reading()
    ensures { OneReading }
{}

/// Of two values that obey the format from the same table, one whose bytes begin the other's is equal to it.
pub fn no_prefix()
    ensures { NoPrefix }
{}
