//! Where a reader of lines may end one: programs differ in what they take for a line end.
ghost use Rattle.std.specs.Prelude.{◌≡◌};
ghost use Rattle.jser_records.specs.LineEnds.{begins_line_end, has_line_end, is_control};

/// Whether a reader of lines may end one in these bytes.
pub(crate) fn has_line_end(bytes: &[u8]) -> bool
    ensures { result ≡ has_line_end bytes.now }
{
    let mut rest = bytes;
    'bytes: while let [_, after @ ..] = rest {
        if begins_line_end(rest) {
            return true;
        }
        rest = after;
    }
    false
}

/// Whether it may end before these bytes: they begin with a control character but TAB, or with U+0085, U+2028 or U+2029 in UTF-8.
fn begins_line_end(bytes: &[u8]) -> bool
    ensures { result ≡ begins_line_end bytes.now }
{
    match bytes {
        [byte, ..] if is_control(*byte) => true,
        [0xC2, 0x85, ..] | [0xE2, 0x80, 0xA8 | 0xA9, ..] => true,
        _ => false,
    }
}

/// Whether it is a control character of ASCII, and no TAB.
fn is_control(byte: u8) -> bool
    ensures { result ≡ is_control byte }
{
    (byte < 0x20 && byte != b'\t') || byte == 0x7F
}
