//! The callers, the example of the README of `jser_prim`, and what no clause of that library says.

/// Stops the test unless a fact holds: `holds!(rt; fact)`, or `holds!(rt; fact, text)` with the name of what is looked at.
macro_rules! holds {
    ($rt:expr; $fact:expr $(,)?) => {
        $crate::tests::asserted::holds(&$rt, $fact, stringify!($fact))
    };
    ($rt:expr; $fact:expr, $text:expr $(,)?) => {
        $crate::tests::asserted::holds(&$rt, $fact, $text)
    };
}

/// Stops the test unless two values are the same: `same!(rt; found, wanted)`, or `same!(rt; found, wanted, text)` with the
/// name of what is looked at.
macro_rules! same {
    ($rt:expr; $found:expr, $wanted:expr $(,)?) => {
        $crate::tests::asserted::same(&$rt, &$found, &$wanted, stringify!($found))
    };
    ($rt:expr; $found:expr, $wanted:expr, $text:expr $(,)?) => {
        $crate::tests::asserted::same(&$rt, &$found, &$wanted, $text)
    };
}

mod asserted;
mod callers;
mod devices;
mod example;
mod numbers;
mod runs;
mod scans;
mod spelling;
