//! The forms of an input.

/// How the bytes of a stream come.
#[derive(Clone, Copy, PartialEq, Eq, Debug)]
pub enum Form {
    /// As they are.
    Binary,
    /// As hexadecimal digits in pairs, of either case (RFC 4648, section 8).
    Hex,
    /// As base64 of the standard alphabet, with padding at its end or none (RFC 4648, section 4).
    Base64,
    /// As base64 of the URL-safe alphabet, with padding at its end or none (RFC 4648, section 5).
    Base64Url,
}
