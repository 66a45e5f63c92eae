//! How a filter is asked, as the flags of a call say it.
ghost use Rattle.std.specs.Prelude.{◌≡◌};
ghost use Rattle.jser_ffi.specs.Ways.{way_of};

use jser_check::Options;

/// How a filter is asked.
#[derive(Clone, Copy)]
pub struct Way {
    /// How it is applied to a name.
    pub options: Options,
    /// Whether it is asked about every class name that can be read at any place of the bytes.
    pub anywhere: bool,
    /// Whether it must have a pattern.
    pub needs_pattern: bool,
}

/// The way that flags ask for: 1 is strict, 2 is anywhere, 4 wants a pattern. `None` where another flag is set.
pub(crate) fn way_of(flags: u32) -> Option<Way>
    ensures { result ≡ way_of flags }
{
    match flags {
        0..=7 => Some(Way {
            options: Options {
                strict: flags & 1 == 1,
            },
            anywhere: flags & 2 == 2,
            needs_pattern: flags & 4 == 4,
        }),
        _ => None,
    }
}
