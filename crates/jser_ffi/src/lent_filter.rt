//! The handle of a filter where calls only read it, any number of them at once.
ghost use Rattle.std.specs.Prelude.{◌≡◌};

/// A handle that owns nothing: what lies behind its pointer is lent, and stays while a call reads it.
#[repr(C)]
pub struct LentFilter {
    pub(crate) at: *const u8,
    pub(crate) is_open: bool,
}

/// The pointer of a handle.
pub(crate) fn pointer_of(filter: &LentFilter) -> *const u8
    ensures { result ≡ filter.now.at }
{
    filter.at
}

/// Whether a handle holds a filter.
pub(crate) fn is_open(filter: &LentFilter) -> bool
    ensures { result ≡ filter.now.is_open }
{
    filter.is_open
}
