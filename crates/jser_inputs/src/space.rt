//! White space in a text.
ghost use Rattle.std.specs.Prelude.{◌≡◌};
ghost use Rattle.jser_inputs.specs.Spaces.{is_space};

/// Whether the character is passed over: a space, a tab, a line feed or a carriage return.
pub(crate) fn is_space(byte: u8) -> bool
    ensures { result ≡ is_space byte }
{
    byte == b' ' || byte == b'\t' || byte == b'\n' || byte == b'\r'
}
